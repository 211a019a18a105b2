//! Late entries with what they found.

ghost use Rattle.std.specs.Prelude.{◌≡◌, IfOk, map};
ghost use Rattle.qvt_cli.specs.Entries.{entry_with};

use qvt_base::list_fault::ListFault;
use qvt_base::seq::Seq;
use qvt_exec::entries::Entry;
use qvt_exec_resolves::candidates::candidates;
use qvt_exec_resolves::trace::Trace;
use qvt_store::store::Store;
use qvt_trace_text::entry::WrittenEntry;
use std::alloc::Global;

/// An entry with its candidates, over the records and a store.
fn written_entry(
    alloc: Global,
    trace: &Trace,
    store: &Store,
    entry: Entry,
) -> Result<WrittenEntry, ListFault>
    ensures { IfOk result (λ written. written ≡ entry_with trace.now store.now entry) }
{
    let candidates = candidates(alloc, trace, store, &entry.write.request)?;
    let (write, values) = entry.into_parts();
    Ok(WrittenEntry {
        write,
        candidates,
        values,
    })
}

/// Each entry with its candidates.
pub fn written_entries(
    alloc: Global,
    trace: &Trace,
    store: &Store,
    entries: Seq<Entry>,
) -> Result<Seq<WrittenEntry>, ListFault>
    ensures { IfOk result (λ written. written ≡ map (entry_with trace.now store.now) entries) }
{
    let mut written = Seq::new(alloc);
    for entry in entries.into_vec() {
        written.push(written_entry(alloc, trace, store, entry)?)?;
    }
    Ok(written)
}
