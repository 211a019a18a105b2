use qvt_base::copied::Copied;
use qvt_base::list_fault::ListFault;
use qvt_base::seq::Seq;
use qvt_base::text::Text;
use std::alloc::Global;

/// A set of objects of one metamodel: a model, named, or the intermediate instances, whose extent
/// has an empty name. Only objects of a writable extent can be changed.
pub struct Extent {
    pub name: Text,
    pub metamodel: u32,
    pub writable: bool,
}

impl Drop for Extent {
    fn drop(self) {
        let Extent {
            name,
            metamodel,
            writable,
        } = self;
    }
}

pub type ExtentList = Seq<Extent>;

impl Copied for Extent {
    fn copy(&self, alloc: Global) -> Result<Extent, ListFault> {
        Ok(Extent {
            name: self.name.copy(alloc)?,
            metamodel: self.metamodel,
            writable: self.writable,
        })
    }
}
