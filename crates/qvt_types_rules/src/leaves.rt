//! Nodes without expressions in them: paths, `self`, `result`, types as they are written.

ghost use Rattle.std.specs.Prelude.{◌≡◌, IfOk};
ghost use Rattle.qvt_tree_types.specs.View.{optional_type, type_view};
ghost use Rattle.qvt_types_context.specs.Seen.{seen};
ghost use Rattle.qvt_types_states.specs.Does.{GivesAndLeaves};
ghost use Rattle.qvt_types_context.specs.Phrases as phrase;
ghost use Rattle.qvt_types_context.specs.Rules as rule;

use crate::settling::ruled;
use qvt_base::copied::Copied;
use qvt_base::list_fault::ListFault;
use qvt_base::numbers::Place;
use qvt_tree_types::types::{PathTree, TypeTree};
use qvt_tree_types::words::CollKind;
use qvt_types_context::context::Context;
use qvt_types_context::names::{
    class_found, class_ruled, path_ruled, result_ruled, self_ruled, type_ruled,
};
use qvt_types_context::parts::{Effect, Given};
use qvt_types_data::boxed::Boxed;
use qvt_types_data::note::Reading;
use qvt_types_data::refusal::RefusalKind;
use qvt_types_data::ruling::Read;
use qvt_types_data::ty::Ty;
use qvt_types_paths::paths::{path_class, path_type};
use qvt_types_states::state::TypingState;
use qvt_types_states::steps::{answers, fresh, marks, settled, tell};
use qvt_types_steps::classes::ClassPart;

#[tactic(auto, unfolding(qvt_typing::specs::Rules::self_ref))]
pub fn self_ref(
    x: &Context<'_>,
    place: Place,
    state: &mut TypingState,
) -> Result<Option<Ty>, ListFault>
    ensures { GivesAndLeaves (rule.self_ref (seen x.now) place state.old) result state.new }
{
    let number = fresh(state)?;
    let ruling = self_ruled(x.alloc, x.itself)?;
    ruled(x, number, ruling, Effect::PlainOne, place, state)
}

#[tactic(auto, unfolding(qvt_typing::specs::Rules::result_ref))]
pub fn result_ref(
    x: &Context<'_>,
    place: Place,
    state: &mut TypingState,
) -> Result<Option<Ty>, ListFault>
    ensures { GivesAndLeaves (rule.result_ref (seen x.now) place state.old) result state.new }
{
    let number = fresh(state)?;
    let ruling = result_ruled(x.alloc, x.result)?;
    ruled(x, number, ruling, Effect::PlainOne, place, state)
}

/// A path; that of a model may stand before a model's operation alone.
#[tactic(auto, unfolding(qvt_typing::specs::Rules::path))]
pub fn path(
    x: &Context<'_>,
    is_source: bool,
    path: &PathTree,
    state: &mut TypingState,
) -> Result<Option<Ty>, ListFault>
    ensures { GivesAndLeaves (rule.path (seen x.now) is_source path.now state.old) result state.new }
{
    let number = fresh(state)?;
    let names = path.names.as_slice();
    let ruling = path_ruled(x.alloc, &x.heads, is_source, &state.scope, names)?;
    ruled(x, number, ruling, Effect::PlainOne, path.place, state)
}

#[tactic(auto, unfolding(qvt_typing::specs::Rules::named_type))]
fn named_type(
    x: &Context<'_>,
    path: &PathTree,
    state: &mut TypingState,
) -> Result<Option<Ty>, ListFault>
    ensures { GivesAndLeaves (rule.named_type (seen x.now) path.now state.old) result state.new }
{
    let ty = path_type(x.heads.given, x.heads.types, path.names.as_slice());
    let ruling = type_ruled(x.alloc, ty)?;
    let read = settled(ruling, path.place, state)?;
    marks(read, state)
}

/// How a type of collections is read, by that of their items.
fn collection_read(x: &Context<'_>, kind: CollKind, item: Option<Ty>) -> Result<Read, ListFault>
    ensures { IfOk result (λ r. r ≡ rule.coll_of kind item) }
{
    let Some(item) = item else {
        return Ok(Read::plain(Reading::Nothing, None));
    };
    let answer = Ty::Coll(kind, Boxed::new(x.alloc, item)?);
    let reading = Reading::Typed(answer.copy(x.alloc)?);
    Ok(Read::plain(reading, Some(answer)))
}

#[tactic(auto, unfolding(qvt_typing::specs::Phrases::type_term, qvt_typing::specs::Rules::collection_type))]
pub fn written_type(
    x: &Context<'_>,
    written: &TypeTree,
    state: &mut TypingState,
) -> Result<Option<Ty>, ListFault>
    ensures { GivesAndLeaves (phrase.type_term (seen x.now) (type_view written.now) state.old) result state.new }
{
    match written {
        TypeTree::Path(path) => named_type(x, path, state),
        TypeTree::Coll { kind, item, .. } => {
            let item = written_type(x, item, state)?;
            let read = collection_read(x, *kind, item)?;
            marks(read, state)
        }
    }
}

pub fn type_if(
    x: &Context<'_>,
    written: &Option<TypeTree>,
    state: &mut TypingState,
) -> Result<Given, ListFault>
    ensures { GivesAndLeaves (phrase.optional_type (seen x.now) (optional_type written.now) state.old) result state.new }
{
    match written {
        None => Ok(Given {
            is_given: false,
            ty: None,
        }),
        Some(written) => {
            let ty = written_type(x, written, state)?;
            Ok(Given { is_given: true, ty })
        }
    }
}

#[tactic(auto, unfolding(qvt_typing::specs::Rules::named_class))]
pub fn named_class(
    x: &Context<'_>,
    path: &PathTree,
    state: &mut TypingState,
) -> Result<ClassPart, ListFault>
    ensures { GivesAndLeaves (rule.named_class (seen x.now) path.now state.old) result state.new }
{
    let class = path_class(x.heads.given, x.heads.types, path.names.as_slice());
    let read = settled(class_ruled(class), path.place, state)?;
    marks(read, state)?;
    Ok(class_found(class))
}

/// An argument that is a class.
#[tactic(auto, unfolding(qvt_typing::specs::Rules::class_given))]
pub fn class_given(
    x: &Context<'_>,
    path: &PathTree,
    state: &mut TypingState,
) -> Result<ClassPart, ListFault>
    ensures { GivesAndLeaves (rule.class_given (seen x.now) path.now state.old) result state.new }
{
    let number = fresh(state)?;
    let class = path_class(x.heads.given, x.heads.types, path.names.as_slice());
    let read = settled(class_ruled(class), path.place, state)?;
    answers(x.alloc, number, read, state)?;
    Ok(class_found(class))
}

/// A class that is written as a type.
#[tactic(auto, unfolding(qvt_typing::specs::Rules::no_class, qvt_typing::specs::Rules::collection_type))]
pub fn written_class(
    x: &Context<'_>,
    written: &TypeTree,
    state: &mut TypingState,
) -> Result<ClassPart, ListFault>
    ensures { GivesAndLeaves (phrase.class_term (seen x.now) (type_view written.now) state.old) result state.new }
{
    match written {
        TypeTree::Path(path) => named_class(x, path, state),
        TypeTree::Coll { kind, item, place } => {
            let item = written_type(x, item, state)?;
            let read = collection_read(x, *kind, item)?;
            let ty = marks(read, state)?;
            if ty.is_some() {
                tell(RefusalKind::UnknownType, *place, state)?;
            }
            Ok(ClassPart::Untyped)
        }
    }
}
