use crate::object_list::Objects;
use qvt_base::numbers::{FeatureNo, Oid};

/// A change of a slot: the objects that its new list adds, and those that it removes.
pub struct Draft {
    pub object: Oid,
    pub feature: FeatureNo,
    pub added: Objects,
    pub removed: Objects,
}

impl Drop for Draft {
    fn drop(self) {
        let Draft {
            object,
            feature,
            added,
            removed,
        } = self;
    }
}
