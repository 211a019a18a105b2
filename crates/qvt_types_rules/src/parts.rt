//! Small words on the parts of a node.

ghost use Rattle.std.specs.Prelude.{◌≡◌, ◌+◌, ◌<◌, length, map, drop, IfOk};
ghost use Rattle.std.specs.Option.{option_copied};
ghost use Rattle.qvt_tree_types.specs.View.{expr_view, step_view, steps_of};
ghost use Rattle.qvt_types_context.specs.Seen.{seen};
ghost use Rattle.qvt_types_states.specs.Does.{GivesAndLeaves};
ghost use Rattle.qvt_types_context.specs.Phrases as phrase;
ghost use Rattle.qvt_types_context.specs.Rules as rule;

use qvt_base::copied::Copied;
use qvt_base::list_fault::ListFault;
use qvt_base::seq::Seq;
use qvt_base::text::Text;
use qvt_tree_types::tree::{Expr, Step};
use qvt_tree_types::types::PathTree;
use qvt_tree_types::words::Sign;
use qvt_types_context::context::Context;
use qvt_types_context::names::names_model;
use qvt_types_context::parts::Effect;
use qvt_types_data::ruling::Ruling;
use qvt_types_data::ty::Ty;
use qvt_types_states::scope::Scope;
use qvt_types_states::state::TypingState;
use qvt_types_states::steps::{settled, writes_nothing};
use qvt_types_steps::calls::has_operation;
use qvt_types_steps::classes::{ClassPart, model_call_named, selection};
use qvt_types_steps::heads::Heading;
use qvt_types_steps::iterators::IteratorKind;
use qvt_types_words::rulings::prefixed;
use std::alloc::Global;

/// The types of all, if each has one.
pub fn all_types(alloc: Global, types: &[Option<Ty>]) -> Result<Option<Seq<Ty>>, ListFault>
    ensures { IfOk result (λ o. o ≡ rule.all_types types.now) }
{
    let mut all = Seq::new(alloc);
    for ty in types {
        let Some(ty) = ty else {
            return Ok(None);
        };
        all.push(ty.copy(alloc)?)?;
    }
    Ok(Some(all))
}

/// Whether the step at this place is the last.
pub fn is_last(list: &[Step], at: usize) -> bool
    requires { at < length list.now }
    ensures { result ≡ phrase.are_none (steps_of (map step_view (drop (at + 1) list.now))) }
{
    match &list[at + 1..] {
        [] => true,
        _ => false,
    }
}

/// The path before steps, if it is that of a model and the first step an operation of models.
pub fn model_path<'a>(
    x: &Context<'_>,
    scope: &Scope,
    first: &'a Expr,
    list: &[Step],
) -> Option<&'a PathTree>
    ensures { option_copied result ≡ phrase.model_path (seen x.now) scope.now (expr_view first.now) (steps_of (map step_view list.now)) }
{
    let Expr::Path(path) = first else {
        return None;
    };
    let [
        Step::Dot {
            name,
            args: Some(_),
            ..
        },
        ..
    ] = list
    else {
        return None;
    };
    let is_model = names_model(&x.heads, scope, path.names.as_slice());
    if is_model && model_call_named(name.as_str()).is_some() {
        Some(path)
    } else {
        None
    }
}

/// What an argument that is to be a class is where it is no path.
pub fn no_path(ty: &Option<Ty>) -> ClassPart
    ensures { result ≡ rule.no_path ty.now }
{
    match ty {
        None => ClassPart::Untyped,
        Some(_) => ClassPart::Missing,
    }
}

/// Whether a step with arguments behind a dot is read as an operation.
pub fn reads_operation(name: &str, source: &Option<Ty>) -> bool
    ensures { result ≡ rule.reads_operation name.now source.now }
{
    match source {
        None => true,
        Some(ty) => has_operation(name, ty),
    }
}

fn has_head(heading: &Heading) -> bool
    ensures { result ≡ rule.has_head heading.now }
{
    match heading {
        Heading::Missing => false,
        _ => true,
    }
}

/// What is ruled of a selection by class, behind a Head that should not be there.
pub fn selected_by(
    alloc: Global,
    name: &Text,
    heading: &Heading,
    source: &Option<Ty>,
    parts: &[ClassPart],
) -> Result<Ruling, ListFault>
    ensures { IfOk result (λ r. r ≡ rule.selected_by name.now heading.now source.now parts.now) }
{
    match heading {
        Heading::Untyped => Ok(Ruling::Silent),
        _ => selection(alloc, name, has_head(heading), source, parts),
    }
}

/// What an arrow step does to a run: a closure may not stand where nothing but values is looked at.
pub fn iterator_effect(iterator: Option<IteratorKind>) -> Effect
    ensures { result ≡ rule.iterator_effect iterator }
{
    match iterator {
        Some(IteratorKind::Closure) => Effect::PureOne,
        _ => Effect::PlainOne,
    }
}

/// Writes the notes of signs before an operand.
#[tactic(auto, using(crate::proofs::Signs::next_note))]
pub fn sign_notes(signs: &[Sign], state: &mut TypingState) -> Result<(), ListFault>
    ensures { GivesAndLeaves (rule.sign_notes signs.now state.old) result state.new }
{
    for sign in signs {
        writes_nothing(state)?;
    }
    Ok(())
}

fn sign(
    x: &Context<'_>,
    sign: &Sign,
    operand: &Option<Ty>,
    state: &mut TypingState,
) -> Result<Option<Ty>, ListFault>
    ensures { GivesAndLeaves (rule.sign (seen x.now) sign.now operand.now state.old) result state.new }
{
    let ruling = prefixed(x.alloc, x.heads.units.metas(), sign.op, operand)?;
    let read = settled(ruling, sign.place, state)?;
    Ok(read.into_answer())
}

/// Settles the signs before an operand, from the innermost.
pub fn signed(
    x: &Context<'_>,
    signs: &[Sign],
    operand: Option<Ty>,
    state: &mut TypingState,
) -> Result<Option<Ty>, ListFault>
    ensures { GivesAndLeaves (rule.signed (seen x.now) signs.now operand state.old) result state.new }
{
    let mut ty = operand;
    let mut i = signs.len();
    while i > 0 {
        i -= 1;
        ty = sign(x, &signs[i], &ty, state)?;
    }
    Ok(ty)
}
