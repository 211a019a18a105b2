//! What a call calls.

ghost use Rattle.std.specs.Prelude.{◌≡◌, IfOk};
ghost use Rattle.qvt_meaning.specs.Program as of_program;
ghost use Rattle.qvt_types_program.specs.Program.{program_view};
ghost use Rattle.qvt_program_units.specs.Chosen.{free_at};

use crate::numbers::sort_of;
use crate::readings::{chosen_in, only_in};
use qvt_base::list_fault::ListFault;
use qvt_base::numbers::Oid;
use qvt_run_data::callee::{Callee, Way};
use qvt_store::store::Store;
use qvt_types_data::note::Reading;
use qvt_types_program::program::Program;
use qvt_types_units::choice::context_at;
use qvt_types_units::numbers::has_context;
use qvt_types_units::signature::UnitSort;
use std::alloc::Global;

/// The call of a unit of this sort on its context; of a mapping by a `map`, or by an `xmap` where `strict` is true.
fn callee_by(sort: UnitSort, strict: bool, number: u32, context: Option<Oid>) -> Callee
    ensures { result ≡ of_program.callee_by sort strict number context }
{
    match sort {
        UnitSort::Mapping(mapping) => Callee::MappingCall(mapping.0, Way::Called(strict), context),
        _ => Callee::HelperCall(number, context),
    }
}

/// The call of a unit on an object.
fn callee_at(
    program: &Program,
    strict: bool,
    context: Option<Oid>,
    number: Option<u32>,
) -> Option<Callee>
    ensures { result ≡ of_program.callee_at (program_view program.now) strict context number }
{
    match number {
        None => None,
        Some(number) => Some(callee_by(sort_of(program, number), strict, number, context)),
    }
}

/// What a call with this reading calls for an object, by its class: None where the object is not there, or no single unit of the reading
/// is chosen for it. Where the reading is one that typing wrote, it takes the time to read its list, and no memory.
#[tactic(auto, unfolding(qvt_meaning::specs::Program::chosen_for))]
pub fn chosen_for(
    alloc: Global,
    program: &Program,
    reading: &Reading,
    strict: bool,
    object: Oid,
    store: &Store,
) -> Result<Option<Callee>, ListFault>
    ensures { IfOk result (λ callee. callee ≡ of_program.chosen_for (program_view program.now) reading.now strict object store.now) }
{
    if object.0 >= store.len() {
        return Ok(None);
    }
    let number = chosen_in(alloc, program, reading, store.class_of(object))?;
    Ok(callee_at(program, strict, Some(object), number))
}

/// The call of a unit, if there is one and it has no context.
fn free_at(program: &Program, strict: bool, number: Option<u32>) -> Option<Callee>
    ensures { result ≡ free_at (program_view program.now) strict number }
{
    match number {
        None => None,
        Some(number) => {
            if has_context(context_at(program.signatures(), number)) {
                None
            } else {
                Some(callee_by(sort_of(program, number), strict, number, None))
            }
        }
    }
}

/// What a call with this reading calls without a context: None where the reading has not one unit alone, or that has a context.
#[tactic(auto, using(crate::proofs::Mappings::free_is), unfolding(qvt_meaning::specs::Program::free_callee))]
pub fn free_callee(program: &Program, reading: &Reading, strict: bool) -> Option<Callee>
    ensures { result ≡ of_program.free_callee (program_view program.now) reading.now strict }
{
    free_at(program, strict, only_in(program, reading))
}
