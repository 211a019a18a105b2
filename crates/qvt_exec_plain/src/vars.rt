//! Variables that are handed in.

ghost use Rattle.std.specs.Prelude.{◌≡◌, map, IfOk};
ghost use Rattle.qvt_run_rules.specs.Locals.{local_of};

use qvt_base::copied::Copied;
use qvt_base::list_fault::ListFault;
use qvt_base::seq::Seq;
use qvt_run_data::local::Local;
use qvt_value::value::Var;
use std::alloc::Global;

fn local_of(alloc: Global, var: &Var) -> Result<Local, ListFault>
    ensures { IfOk result (λ local. local ≡ local_of var.now) }
{
    Ok(Local {
        name: var.name.copy(alloc)?,
        asked: None,
        value: var.value.copy(alloc)?,
    })
}

/// The variables in scope, to which nothing is assigned.
pub fn locals_of(alloc: Global, vars: &[Var]) -> Result<Seq<Local>, ListFault>
    ensures { IfOk result (λ locals. locals ≡ map local_of vars.now) }
{
    let mut locals = Seq::new(alloc);
    for var in vars {
        locals.push(local_of(alloc, var)?)?;
    }
    Ok(locals)
}
