ghost use Rattle.std.specs.Prelude.{◌≡◌, IfOk};

use qvt_base::copied::Copied;
use qvt_base::list_fault::ListFault;
use qvt_base::text::Text;
use qvt_types_data::ty::Ty;
use qvt_value::value::Value;
use std::alloc::Global;

/// A variable in scope (QVT 1.3, 8.2.2.10), with the type that an assignment to it asks, if it has one
/// that is asked.
pub struct Local {
    pub name: Text,
    pub asked: Option<Ty>,
    pub value: Value,
}

impl Drop for Local {
    fn drop(self) {
        let Local { name, asked, value } = self;
    }
}

fn copy_of_asked(alloc: Global, asked: &Option<Ty>) -> Result<Option<Ty>, ListFault>
    ensures { IfOk result (λ copy. copy ≡ asked.now) }
{
    match asked {
        None => Ok(None),
        Some(asked) => Ok(Some(asked.copy(alloc)?)),
    }
}

impl Copied for Local {
    fn copy(&self, alloc: Global) -> Result<Local, ListFault> {
        let name = self.name.copy(alloc)?;
        let asked = copy_of_asked(alloc, &self.asked)?;
        let value = self.value.copy(alloc)?;
        Ok(Local { name, asked, value })
    }
}
