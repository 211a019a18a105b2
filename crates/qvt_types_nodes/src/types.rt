use qvt_base::lists::NameList;
use qvt_base::numbers::Place;
use qvt_base::seq::Seq;
use qvt_base::text::Text;
use qvt_tree_types::words::{CollKind, PrefixOp};
use qvt_types_data::note::Note;

/// Names with `::` between them, at least one.
pub struct TypedPathTree {
    pub names: NameList,
    /// The place of the first name.
    pub place: Place,
    pub note: Note,
}

impl Drop for TypedPathTree {
    fn drop(self) {
        let TypedPathTree { names, place, note } = self;
    }
}

pub type TypedPathList = Seq<TypedPathTree>;

/// A type as it is written. A collection's place is that of the word of its kind.
pub enum TypedTypeTree {
    Coll {
        kind: CollKind,
        item: Box<TypedTypeTree>,
        place: Place,
        note: Note,
    },
    Path(TypedPathTree),
}

impl Drop for TypedTypeTree {
    fn drop(self) {
        match self {
            TypedTypeTree::Coll {
                kind,
                item,
                place,
                note,
            } => {}
            TypedTypeTree::Path(path) => {}
        }
    }
}

/// The variable of an object expression: a name, or `result`.
pub enum TypedObjectVar {
    Named {
        name: Text,
        place: Place,
        note: Note,
    },
    ResultVar {
        place: Place,
        note: Note,
    },
}

impl Drop for TypedObjectVar {
    fn drop(self) {
        match self {
            TypedObjectVar::Named { name, place, note } => {}
            TypedObjectVar::ResultVar { place, note } => {}
        }
    }
}

/// An operator before its operand, with its place.
pub struct TypedSign {
    pub op: PrefixOp,
    pub place: Place,
    pub note: Note,
}

impl Drop for TypedSign {
    fn drop(self) {
        let TypedSign { op, place, note } = self;
    }
}
