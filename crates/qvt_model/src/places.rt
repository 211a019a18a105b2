use qvt_base::lists::ClassNoList;
use qvt_dictionary::texts::TextSet;

/// The objects that a reference may name: the id of each, and its class.
pub struct Places {
    pub ids: TextSet,
    pub classes: ClassNoList,
}

impl Drop for Places {
    fn drop(self) {
        let Places { ids, classes } = self;
    }
}
