//! The Heads of iterators, once their parts are judged.

ghost use Rattle.std.specs.Prelude.{◌≡◌, IfOk};
ghost use Rattle.qvt_tree_types.specs.View.{optional_type};
ghost use Rattle.qvt_types_context.specs.Seen.{seen};
ghost use Rattle.qvt_types_states.specs.Does.{GivesAndLeaves};
ghost use Rattle.qvt_types_context.specs.Phrases as phrase;
ghost use Rattle.qvt_types_context.specs.Rules as rule;

use crate::leaves::type_if;
use qvt_base::copied::Copied;
use qvt_base::list_fault::ListFault;
use qvt_base::numbers::Place;
use qvt_base::text::Text;
use qvt_tree_types::types::TypeTree;
use qvt_types_context::context::Context;
use qvt_types_context::names::{source, unnamed};
use qvt_types_context::parts::Given;
use qvt_types_data::refusal::RefusalKind;
use qvt_types_data::ty::{Ty, copied};
use qvt_types_data::variable::VariableSort;
use qvt_types_states::scope::Known;
use qvt_types_states::state::TypingState;
use qvt_types_states::steps::{add_source, checked, declare, writes_nothing};
use qvt_types_steps::heads::{
    Heading, accumulator_wrong, folding_head, iterator_type, iterator_wrong, plain_head,
};
use qvt_types_steps::iterators::iterator_named;

/// An arrow without a Head: an iterator without a name is an implicit source.
#[tactic(auto, unfolding(qvt_typing::specs::Rules::no_head))]
pub fn no_head(
    x: &Context<'_>,
    name: &Text,
    items: Option<Ty>,
    state: &mut TypingState,
) -> Result<Heading, ListFault>
    ensures { GivesAndLeaves (rule.no_head name.now items state.old) result state.new }
{
    if iterator_named(name.as_str()).is_some() {
        let name = unnamed(x.alloc, &state.scope)?;
        add_source(source(name, items), state)?;
    }
    Ok(Heading::Missing)
}

/// What an iterator is in scope, by the type that may be written and that of the items.
fn iterator_known(x: &Context<'_>, kind: &Given, items: &Option<Ty>) -> Result<Known, ListFault>
    ensures { IfOk result (λ k. k ≡ rule.iterator_known kind.now items.now) }
{
    Ok(Known {
        sort: VariableSort::Iterator,
        ty: iterator_type(x.alloc, kind.is_given, &kind.ty, items)?,
    })
}

/// Declares a variable of a Head, and tells whether its name is new.
fn declare_head(
    x: &Context<'_>,
    name: &Text,
    known: Known,
    place: Place,
    state: &mut TypingState,
) -> Result<bool, ListFault>
    ensures { GivesAndLeaves (rule.declare_head name.now known place state.old) result state.new }
{
    let is_new = state.scope.find(name.as_str()).is_none();
    declare(x.alloc, name.as_str(), known, place, state)?;
    Ok(is_new)
}

fn if_new(is_new: bool, heading: Heading) -> Heading
    ensures { result ≡ rule.if_new is_new heading }
{
    if is_new { heading } else { Heading::Untyped }
}

/// A Head without an accumulator.
#[tactic(auto, unfolding(qvt_typing::specs::Rules::plain_heading))]
pub fn plain_heading(
    x: &Context<'_>,
    name: &Text,
    kind: &Option<TypeTree>,
    place: Place,
    items: &Option<Ty>,
    state: &mut TypingState,
) -> Result<Heading, ListFault>
    ensures { GivesAndLeaves (rule.plain_heading (seen x.now) name.now (phrase.optional_type (seen x.now) (optional_type kind.now)) place items.now state.old) result state.new }
{
    let kind = type_if(x, kind, state)?;
    let wrong = iterator_wrong(x.heads.units.metas(), kind.is_given, &kind.ty, items);
    checked(wrong, place, state)?;
    let known = iterator_known(x, &kind, items)?;
    let is_new = declare_head(x, name, known, place, state)?;
    writes_nothing(state)?;
    Ok(if_new(
        is_new,
        plain_head(x.heads.units.metas(), kind.is_given, &kind.ty, items),
    ))
}

fn unless_folding_fails(heading: &Heading, told: Option<RefusalKind>) -> Option<RefusalKind>
    ensures { result ≡ rule.unless_folding_fails heading.now told }
{
    match heading {
        Heading::Untyped => None,
        _ => told,
    }
}

/// What is told of the type of an iterator beside an accumulator.
fn fold_wrong(
    x: &Context<'_>,
    kind: &Given,
    items: &Option<Ty>,
    ty: &Option<Ty>,
    first: &Option<Ty>,
) -> Result<Option<RefusalKind>, ListFault>
    ensures { IfOk result (λ o. o ≡ rule.fold_wrong (seen x.now) kind.now items.now ty.now first.now) }
{
    let metas = x.heads.units.metas();
    let folding = folding_head(x.alloc, metas, &Heading::Plain, ty, first)?;
    let wrong = iterator_wrong(metas, kind.is_given, &kind.ty, items);
    Ok(unless_folding_fails(&folding, wrong))
}

/// The names of a Head with an accumulator, and their places.
#[derive(Clone, Copy)]
pub struct FoldNames<'a> {
    pub iterator: &'a Text,
    pub place: Place,
    pub accumulator: &'a Text,
    pub accumulator_place: Place,
}

/// Declares the iterator and the accumulator of a Head whose types and first value are judged.
#[tactic(auto, unfolding(qvt_typing::specs::Rules::folded))]
pub fn folded(
    x: &Context<'_>,
    names: &FoldNames<'_>,
    kind: &Given,
    ty: &Option<Ty>,
    first: &Option<Ty>,
    items: &Option<Ty>,
    state: &mut TypingState,
) -> Result<Heading, ListFault>
    ensures { GivesAndLeaves (rule.folded (seen x.now) names.now.iterator.now kind.now names.now.accumulator.now ty.now first.now names.now.accumulator_place names.now.place items.now state.old) result state.new }
{
    let metas = x.heads.units.metas();
    checked(fold_wrong(x, kind, items, ty, first)?, names.place, state)?;
    checked(
        accumulator_wrong(metas, ty, first),
        names.accumulator_place,
        state,
    )?;
    writes_nothing(state)?;
    let known = iterator_known(x, kind, items)?;
    let is_new = declare_head(x, names.iterator, known, names.place, state)?;
    let known = Known {
        sort: VariableSort::Iterator,
        ty: copied(x.alloc, ty)?,
    };
    let is_other_new = declare_head(x, names.accumulator, known, names.accumulator_place, state)?;
    writes_nothing(state)?;
    let plain = plain_head(metas, kind.is_given, &kind.ty, items);
    let heading = folding_head(x.alloc, metas, &plain, ty, first)?;
    Ok(if_new(is_new && is_other_new, heading))
}
