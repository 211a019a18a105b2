use qvt_base::numbers::{MappingNo, Oid};
use qvt_value::value::Values;

/// What a mapping is called with (QVT 1.3, 8.1.12): the context is None for a mapping without one.
pub struct Key {
    pub mapping: MappingNo,
    pub context: Option<Oid>,
    pub args: Values,
}

impl Drop for Key {
    fn drop(self) {
        let Key {
            mapping,
            context,
            args,
        } = self;
    }
}

/// One call of a mapping in the trace (QVT 1.3, 8.1.12). The context is None for a mapping without
/// one, the result where the mapping has none.
pub struct Record {
    pub mapping: MappingNo,
    pub context: Option<Oid>,
    pub args: Values,
    pub result: Option<Oid>,
}

impl Drop for Record {
    fn drop(self) {
        let Record {
            mapping,
            context,
            args,
            result,
        } = self;
    }
}
