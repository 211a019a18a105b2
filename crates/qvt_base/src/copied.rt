ghost use Rattle.std.specs.Prelude.{◌≡◌, IfOk};

use crate::list_fault::ListFault;
use crate::numbers::{ClassNo, ExprNo, FeatureNo, MappingNo, Oid, Place};
use crate::seq::Seq;
use crate::text::Text;
use std::alloc::Global;

/// What can be copied into memory of its own.
pub trait Copied: Drop {
    /// A value that equals this one. It is refused only for want of memory.
    fn copy(&self, alloc: Global) -> Result<Self, ListFault>
        ensures { IfOk result (λ copy. copy ≡ self.now) };
}

impl Copied for Text {
    fn copy(&self, alloc: Global) -> Result<Text, ListFault> {
        Text::from_str(alloc, self.as_str())
    }
}

impl<T: Copied> Copied for Seq<T> {
    fn copy(&self, alloc: Global) -> Result<Seq<T>, ListFault> {
        let mut copies = Seq::with_room(alloc, self.len())?;
        for item in self.as_slice() {
            copies.push(item.copy(alloc)?)?;
        }
        Ok(copies)
    }
}

impl Copied for u8 {
    fn copy(&self, _alloc: Global) -> Result<u8, ListFault> {
        Ok(*self)
    }
}

impl Copied for u32 {
    fn copy(&self, _alloc: Global) -> Result<u32, ListFault> {
        Ok(*self)
    }
}

impl Copied for u64 {
    fn copy(&self, _alloc: Global) -> Result<u64, ListFault> {
        Ok(*self)
    }
}

impl Copied for Oid {
    fn copy(&self, _alloc: Global) -> Result<Oid, ListFault> {
        Ok(*self)
    }
}

impl Copied for ClassNo {
    fn copy(&self, _alloc: Global) -> Result<ClassNo, ListFault> {
        Ok(*self)
    }
}

impl Copied for FeatureNo {
    fn copy(&self, _alloc: Global) -> Result<FeatureNo, ListFault> {
        Ok(*self)
    }
}

impl Copied for MappingNo {
    fn copy(&self, _alloc: Global) -> Result<MappingNo, ListFault> {
        Ok(*self)
    }
}

impl Copied for ExprNo {
    fn copy(&self, _alloc: Global) -> Result<ExprNo, ListFault> {
        Ok(*self)
    }
}

impl Copied for Place {
    fn copy(&self, _alloc: Global) -> Result<Place, ListFault> {
        Ok(*self)
    }
}
