//! The body of `main`.

ghost use Rattle.std.specs.Prelude.{◌≡◌, [], map};
ghost use Rattle.qvt_types_nodes.specs.Module.{typed_unit_view};
ghost use Rattle.qvt_types_nodes.specs.View.{typed_block_view};
ghost use Rattle.qvt_exec_phrases.specs.Program.{program_view};
ghost use Rattle.qvt_meaning.specs.Run.{main_in};

use qvt_exec_phrases::program::Program;
use qvt_types_nodes::module::TypedUnit;
use qvt_types_nodes::tree::TypedStmts;

/// The statements of the first `main` among units, none where there is no `main`.
fn main_among<'a>(units: &'a [TypedUnit], none: &'a TypedStmts) -> &'a TypedStmts
    requires { none.now ≡ [] }
    ensures { typed_block_view result.now ≡ main_in (map typed_unit_view units.now) }
{
    for unit in units {
        if let TypedUnit::Main(body, _, _) = unit {
            return body;
        }
    }
    none
}

/// The statements of `main`.
pub fn main_body<'a>(program: &'a Program, none: &'a TypedStmts) -> &'a TypedStmts
    requires { none.now ≡ [] }
    ensures { typed_block_view result.now ≡ main_in (program_view program.now).module_.units }
{
    main_among(program.module.units.as_slice(), none)
}
