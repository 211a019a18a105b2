//! How much of the stack calls of units take.

ghost use Rattle.std.specs.Prelude.{IfSome, ◌<◌};

use qvt_exec_answers::exprs::left_behind;
use qvt_exec_called::statements::bytes_of_block;
use qvt_exec_phrases::numbers::unit_of;
use qvt_run_data::callee::Callee;
use qvt_types_nodes::module::TypedUnit;
use qvt_types_program::program::Program;

/// How many bytes of the stack stand between a call of a helper, a query or a constructor and its statements, by what was
/// measured of the program.
const ROUTINE: u32 = 1600;

/// How many bytes stand between a call of a mapping and the phrases inside its statements.
const MAPPING: u32 = 10_300;

/// What is left of so many bytes inside a helper, a query or a constructor, if there are enough.
fn left_in_routine(unit: Option<&TypedUnit>, left: u32) -> Option<u32>
    ensures { IfSome result (λ less. less < left) }
{
    let less = left_behind(left, ROUTINE)?;
    match unit {
        Some(TypedUnit::Helper(node)) => left_behind(less, bytes_of_block(node.body.as_slice())),
        Some(TypedUnit::Constructor(node)) => {
            left_behind(less, bytes_of_block(node.body.as_slice()))
        }
        _ => Some(less),
    }
}

/// What is left of so many bytes inside a call, if there are enough.
pub fn left_in_call(program: &Program, callee: &Callee, left: u32) -> Option<u32>
    ensures { IfSome result (λ less. less < left) }
{
    match callee {
        Callee::HelperCall(number, _) => left_in_routine(unit_of(program, *number), left),
        Callee::ConstructorCall(number, _, _) => left_in_routine(unit_of(program, *number), left),
        Callee::MappingCall(_, _, _) => left_behind(left, MAPPING),
    }
}
