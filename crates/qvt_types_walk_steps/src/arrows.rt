//! Iterators, and the other steps behind an arrow.

ghost use Rattle.std.specs.Prelude.{map, option_map, false};
ghost use Rattle.qvt_tree_types.specs.View as view;
ghost use Rattle.qvt_types_rules.specs.Seen.{seen};
ghost use Rattle.qvt_types_states.specs.Does.{GivesAndLeaves};
ghost use Rattle.qvt_types_steps.specs.IteratorTable.{iterator_named};
ghost use Rattle.qvt_typing.specs.Phrases as phrase;
ghost use Rattle.qvt_typing.specs.Rules as rule;

use crate::lists::{classes, exprs};
use crate::nested::NestedWalk;
use qvt_base::list_fault::ListFault;
use qvt_base::numbers::Place;
use qvt_base::text::Text;
use qvt_tree_types::tree::{Expr, Head};
use qvt_tree_types::types::TypeTree;
use qvt_types_data::ruling::Ruling;
use qvt_types_data::ty::Ty;
use qvt_types_rules::context::{Context, body_context};
use qvt_types_rules::heads::{FoldNames, folded, no_head, plain_heading};
use qvt_types_rules::leaves::{type_if, written_type};
use qvt_types_rules::parts::{all_types, iterator_effect, selected_by};
use qvt_types_rules::settling::stepped;
use qvt_types_states::state::TypingState;
use qvt_types_steps::arrows::arrow;
use qvt_types_steps::classes::is_selection;
use qvt_types_steps::heads::{Heading, item_type};
use qvt_types_steps::iterators::iterator_named;

/// A Head with an accumulator.
#[tactic(auto, unfolding(qvt_typing::specs::Rules::folding_heading))]
fn folding<C: NestedWalk>(
    x: &Context<'_>,
    inside: &C,
    first: &Expr,
    names: &FoldNames<'_>,
    kind: &Option<TypeTree>,
    accumulator_kind: &TypeTree,
    items: &Option<Ty>,
    state: &mut TypingState,
) -> Result<Heading, ListFault>
    requires { C.ready inside.now }
    ensures { GivesAndLeaves (rule.folding_heading (seen x.now) names.now.iterator.now (phrase.optional_type (seen x.now) (view.optional_type kind.now)) names.now.accumulator.now (phrase.type_term (seen x.now) (view.type_view accumulator_kind.now)) (phrase.expr (seen x.now) false (view.expr_view first.now)) names.now.accumulator_place names.now.place items.now state.old) result state.new }
{
    let kind = type_if(x, kind, state)?;
    let ty = written_type(x, accumulator_kind, state)?;
    let first = inside.expr(x, false, first, state)?;
    folded(x, names, &kind, &ty, &first, items, state)
}

#[tactic(auto, unfolding(qvt_typing::specs::Phrases::heading))]
fn heading<C: NestedWalk>(
    x: &Context<'_>,
    inside: &C,
    name: &Text,
    head: &Option<Head>,
    items: Option<Ty>,
    state: &mut TypingState,
) -> Result<Heading, ListFault>
    requires { C.ready inside.now }
    ensures { GivesAndLeaves (phrase.heading (seen x.now) name.now (view.optional_head (option_map view.head_view head.now)) items state.old) result state.new }
{
    let Some(head) = head else {
        return no_head(x, name, items, state);
    };
    match &head.accumulator {
        None => plain_heading(x, &head.name, &head.kind, head.place, &items, state),
        Some(accumulator) => {
            let names = FoldNames {
                iterator: &head.name,
                place: head.place,
                accumulator: &accumulator.name,
                accumulator_place: accumulator.place,
            };
            folding(
                x,
                inside,
                &accumulator.first,
                &names,
                &head.kind,
                &accumulator.kind,
                &items,
                state,
            )
        }
    }
}

/// What is ruled of a step behind an arrow, by its Head and its arguments.
#[tactic(auto, unfolding(qvt_typing::specs::Rules::arrow_parts))]
fn arrow_ruled<C: NestedWalk>(
    x: &Context<'_>,
    inside: &C,
    name: &Text,
    heading: &Heading,
    args: &[Expr],
    source: &Option<Ty>,
    state: &mut TypingState,
) -> Result<Ruling, ListFault>
    requires { C.ready inside.now }
    ensures { GivesAndLeaves (rule.arrow_parts (seen x.now) name.now (phrase.exprs (phrase.body_context (iterator_named name.now) (seen x.now)) (view.exprs_of (map view.expr_view args.now))) (phrase.classes (seen x.now) (view.exprs_of (map view.expr_view args.now))) source.now heading.now state.old) result state.new }
{
    if is_selection(name.as_str()) {
        let parts = classes(x, inside, args, state)?;
        return selected_by(x.alloc, name, heading, source, parts.as_slice());
    }
    let inner = body_context(x, iterator_named(name.as_str()));
    let types = all_types(x.alloc, exprs(&inner, inside, args, state)?.as_slice())?;
    arrow(
        x.alloc,
        x.heads.units.metas(),
        name,
        heading,
        source,
        &types,
    )
}

/// A step behind an arrow: what its Head declares is in scope in its arguments.
#[tactic(auto, unfolding(qvt_typing::specs::Rules::arrowed))]
pub fn arrowed<C: NestedWalk>(
    x: &Context<'_>,
    inside: &C,
    name: &Text,
    head: &Option<Head>,
    args: &[Expr],
    place: Place,
    source: &Option<Ty>,
    state: &mut TypingState,
) -> Result<Option<Ty>, ListFault>
    requires { C.ready inside.now }
    ensures { GivesAndLeaves (rule.arrowed (seen x.now) name.now (phrase.heading (seen x.now) name.now (view.optional_head (option_map view.head_view head.now))) (phrase.exprs (phrase.body_context (iterator_named name.now) (seen x.now)) (view.exprs_of (map view.expr_view args.now))) (phrase.classes (seen x.now) (view.exprs_of (map view.expr_view args.now))) place source.now state.old) result state.new }
{
    let (named, sources) = state.scope.mark();
    let items = item_type(x.alloc, source)?;
    let heading = heading(x, inside, name, head, items, state)?;
    let ruling = arrow_ruled(x, inside, name, &heading, args, source, state)?;
    state.scope.cut(named, sources);
    let effect = iterator_effect(iterator_named(name.as_str()));
    stepped(x, ruling, effect, place, state)
}
