ghost use Rattle.std.specs.Prelude.{◌≡◌, IfOk};
ghost use Rattle.qvt_tree_types.specs.View.{type_view};

use crate::words::CollKind;
use qvt_base::copied::Copied;
use qvt_base::list_fault::ListFault;
use qvt_base::lists::NameList;
use qvt_base::numbers::Place;
use qvt_base::seq::Seq;
use qvt_base::text::Text;
use std::alloc::Global;

/// Names with `::` between them, at least one.
#[derive(Drop)]
pub struct PathTree {
    pub names: NameList,
    /// The place of the first name.
    pub place: Place,
}

pub type PathList = Seq<PathTree>;

impl Copied for PathTree {
    fn copy(&self, alloc: Global) -> Result<PathTree, ListFault> {
        Ok(PathTree {
            names: self.names.copy(alloc)?,
            place: self.place,
        })
    }
}

/// A type as it is written. A collection's place is that of the word of its kind.
pub enum TypeTree {
    Coll {
        kind: CollKind,
        item: Box<TypeTree>,
        place: Place,
    },
    Path(PathTree),
}

impl Drop for TypeTree {
    fn drop(self) {
        match self {
            TypeTree::Coll { kind, item, place } => {}
            TypeTree::Path(path) => {}
        }
    }
}

impl TypeTree {
    /// The same type in memory of its own. It is refused only for want of memory.
    pub fn copy(&self, alloc: Global) -> Result<TypeTree, ListFault>
        ensures { IfOk result (λ copy. type_view copy ≡ type_view self.now) }
    {
        match self {
            TypeTree::Coll { kind, item, place } => {
                let item = item.copy(alloc)?;
                match Box::new(alloc, item) {
                    Ok(item) => Ok(TypeTree::Coll {
                        kind: *kind,
                        item,
                        place: *place,
                    }),
                    Err(_) => Err(ListFault::NoMemory),
                }
            }
            TypeTree::Path(path) => Ok(TypeTree::Path(path.copy(alloc)?)),
        }
    }
}

/// The variable of an object expression: a name, or `result`.
#[derive(Drop)]
pub enum ObjectVar {
    Named { name: Text, place: Place },
    ResultVar { place: Place },
}
