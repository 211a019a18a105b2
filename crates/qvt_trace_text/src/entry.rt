use qvt_base::lists::OidList;
use qvt_run_data::late::LateWrite;

/// A late assignment that was carried out, with the candidates that it found and the values that it wrote
/// (QVT 1.3, 8.1.10).
pub struct WrittenEntry {
    pub write: LateWrite,
    pub candidates: OidList,
    pub values: OidList,
}

impl Drop for WrittenEntry {
    fn drop(self) {
        let WrittenEntry {
            write,
            candidates,
            values,
        } = self;
    }
}
