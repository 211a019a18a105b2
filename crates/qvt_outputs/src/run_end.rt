use qvt_run_data::record::Record;
use qvt_store::store::Store;
use qvt_trace_text::entry::WrittenEntry;

/// A run that has ended well: the store with its late entries carried out, the records of its trace, its late entries
/// with what they found, and its cost.
#[derive(Clone, Copy)]
pub struct RunEnd<'r> {
    pub store: &'r Store,
    pub records: &'r [Record],
    pub entries: &'r [WrittenEntry],
    pub cost: u64,
}
