//! The names of variables that have none in a text.

ghost use Rattle.std.specs.Prelude.{◌≡◌, IfOk};
ghost use Rattle.std.specs.Option.{option_copied};
ghost use Rattle.qvt_run_rules.specs.Locals.{begins_with_sign, is_unnamed, name_in, unnamed};

use qvt_base::copied::Copied;
use qvt_base::list_fault::ListFault;
use qvt_base::text::Text;
use qvt_run_rules::local::Local;
use std::alloc::Global;

/// The name of the variable that `self` reads.
pub const SELF_NAME: &str = "#self";

/// The name of the variable that `result` reads.
pub const RESULT_NAME: &str = "#result";

#[tactic(auto, using(crate::proofs::Signs::first_is_sign))]
fn begins_with_sign(name: &str) -> bool
    ensures { result ≡ begins_with_sign name.now }
{
    match name.as_bytes() {
        [] => false,
        [first, ..] => *first == b'#',
    }
}

fn is_unnamed(local: &Local) -> bool
    ensures { result ≡ is_unnamed local.now }
{
    let name = local.name.as_str();
    begins_with_sign(name) && SELF_NAME != name && RESULT_NAME != name
}

/// The name of an iterator or a filter without one, by how many of them are in scope.
#[tactic(auto, unfolding(qvt_run_rules::specs::Locals::unnamed))]
fn unnamed(alloc: Global, locals: &[Local]) -> Result<Text, ListFault>
    ensures { IfOk result (λ name. name ≡ unnamed locals.now) }
{
    let count = locals.iter().filter(|local| is_unnamed(local)).count();
    match format!(in alloc; "#{count}") {
        Ok(text) => Ok(Text::from_string(text)),
        Err(_) => Err(ListFault::NoMemory),
    }
}

/// The name by which an iterator or a filter is known, which may have one of its own.
pub fn name_in(alloc: Global, locals: &[Local], name: Option<&Text>) -> Result<Text, ListFault>
    ensures { IfOk result (λ own. own ≡ name_in locals.now (option_copied name.entry)) }
{
    match name {
        None => unnamed(alloc, locals),
        Some(name) => name.copy(alloc),
    }
}
