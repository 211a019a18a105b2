//! The steps of which judging a node is made.

ghost use Rattle.qvt_types_states.specs.Judge as judge;
ghost use Rattle.qvt_types_states.specs.Does.{GivesAndLeaves};

use crate::scope::Known;
use crate::state::TypingState;
use qvt_base::list_fault::ListFault;
use qvt_base::numbers::{ExprNo, Place};
use qvt_types_data::note::Note;
use qvt_types_data::refusal::{RefusalKind, TypingRefusal};
use qvt_types_data::ruling::{Read, Ruling};
use qvt_types_data::ty::{Ty, copied};
use qvt_types_data::variable::Variable;
use std::alloc::Global;

/// The number of the next expression. More than 32 bits can count find no memory.
pub fn fresh(state: &mut TypingState) -> Result<ExprNo, ListFault>
    ensures { GivesAndLeaves (judge.fresh state.old) result state.new }
{
    let number = state.next;
    let Some(next) = number.checked_add(1) else {
        return Err(ListFault::NoMemory);
    };
    state.next = next;
    Ok(ExprNo(number))
}

/// Tells a refusal.
pub fn tell(kind: RefusalKind, place: Place, state: &mut TypingState) -> Result<(), ListFault>
    ensures { GivesAndLeaves (judge.tell kind place state.old) result state.new }
{
    state.log.push(TypingRefusal { kind, place })
}

/// Tells a refusal that leaves types standing, if there is one.
pub fn checked(
    kind: Option<RefusalKind>,
    place: Place,
    state: &mut TypingState,
) -> Result<(), ListFault>
    ensures { GivesAndLeaves (judge.checked kind place state.old) result state.new }
{
    match kind {
        None => Ok(()),
        Some(kind) => tell(kind, place, state),
    }
}

/// Declares a variable. One whose name is in scope already is refused, and not declared.
pub fn declare(
    alloc: Global,
    name: &str,
    known: Known,
    place: Place,
    state: &mut TypingState,
) -> Result<(), ListFault>
    ensures { GivesAndLeaves (judge.declare name.now known place state.old) result state.new }
{
    if state.scope.find(name).is_some() {
        return tell(RefusalKind::SameName, place, state);
    }
    state.scope.add(alloc, name, known)
}

/// Adds an implicit source.
pub fn add_source(source: Variable, state: &mut TypingState) -> Result<(), ListFault>
    ensures { GivesAndLeaves (judge.add_source source state.old) result state.new }
{
    state.scope.add_source(source)
}

/// How a node is read after its ruling.
pub fn settled(ruling: Ruling, place: Place, state: &mut TypingState) -> Result<Read, ListFault>
    ensures { GivesAndLeaves (judge.settled ruling place state.old) result state.new }
{
    let (refusal, read) = ruling.told();
    checked(refusal, place, state)?;
    Ok(read)
}

/// Writes the note of an expression, and gives its type.
pub fn answers(
    alloc: Global,
    number: ExprNo,
    read: Read,
    state: &mut TypingState,
) -> Result<Option<Ty>, ListFault>
    ensures { GivesAndLeaves (judge.answers number read state.old) result state.new }
{
    let answer = copied(alloc, &read.answer)?;
    state.notes.push(read.noted(number))?;
    Ok(answer)
}

/// Writes the note of a node that is no expression, and gives the type that it stands for.
pub fn marks(read: Read, state: &mut TypingState) -> Result<Option<Ty>, ListFault>
    ensures { GivesAndLeaves (judge.marks read state.old) result state.new }
{
    let (note, answer) = read.marked();
    state.notes.push(note)?;
    Ok(answer)
}

/// Writes a note on which nothing is written.
pub fn writes_nothing(state: &mut TypingState) -> Result<(), ListFault>
    ensures { GivesAndLeaves (judge.writes_nothing state.old) result state.new }
{
    state.notes.push(Note::bare())
}
