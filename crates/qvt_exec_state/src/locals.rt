//! Look-ups of variables.

ghost use Rattle.std.specs.Prelude.{◌≡◌};
ghost use Rattle.std.specs.Option.{option_copied};
ghost use Rattle.qvt_run_rules.specs.Locals.{local_named};

use qvt_run_rules::local::Local;

/// The first variable of that name.
pub fn local_named<'a>(locals: &'a [Local], name: &str) -> Option<&'a Local>
    ensures { option_copied result ≡ local_named name.now locals.now }
{
    for local in locals {
        if name == local.name.as_str() {
            return Some(local);
        }
    }
    None
}
