//! Collection literals.

ghost use Rattle.std.specs.Prelude.{map};
ghost use Rattle.qvt_tree_types.specs.View as view;
ghost use Rattle.qvt_types_rules.specs.Seen.{seen};
ghost use Rattle.qvt_types_states.specs.Does.{GivesAndLeaves};
ghost use Rattle.qvt_typing.specs.Phrases as phrase;
ghost use Rattle.qvt_typing.specs.Rules as rule;

use qvt_base::list_fault::ListFault;
use qvt_base::numbers::Place;
use qvt_base::seq::Seq;
use qvt_tree_types::tree::Item;
use qvt_tree_types::words::CollKind;
use qvt_types_data::ty::Ty;
use qvt_types_rules::context::Context;
use qvt_types_rules::parts::all_types;
use qvt_types_rules::settling::{ruled, settled_bare};
use qvt_types_states::state::TypingState;
use qvt_types_states::steps::{fresh, writes_nothing};
use qvt_types_walk_steps::nested::NestedWalk;
use qvt_types_words::rulings::{literal as literal_ruling, range as range_ruling};
use qvt_typing::parts::Effect;

/// An item of a collection literal.
#[tactic(auto, unfolding(qvt_typing::specs::Phrases::item, qvt_typing::specs::Rules::range))]
fn item<C: NestedWalk>(
    x: &Context<'_>,
    inside: &C,
    item: &Item,
    state: &mut TypingState,
) -> Result<Option<Ty>, ListFault>
    requires { C.ready inside.now }
    ensures { GivesAndLeaves (phrase.item (seen x.now) (view.item_view item.now) state.old) result state.new }
{
    let first = inside.expr(x, false, &item.first, state)?;
    match &item.last {
        None => {
            writes_nothing(state)?;
            Ok(first)
        }
        Some(end) => {
            let last = inside.expr(x, false, &end.last, state)?;
            let ruling = range_ruling(x.heads.units.metas(), &first, &last);
            let ty = settled_bare(ruling, end.place, state)?;
            writes_nothing(state)?;
            Ok(ty)
        }
    }
}

#[tactic(auto, unfolding(qvt_typing::specs::Phrases::all_items))]
fn all_items<C: NestedWalk>(
    x: &Context<'_>,
    inside: &C,
    items: &[Item],
    state: &mut TypingState,
) -> Result<Seq<Option<Ty>>, ListFault>
    requires { C.ready inside.now }
    ensures { GivesAndLeaves (rule.in_order (phrase.all_items (seen x.now) (view.items_of (map view.item_view items.now))) state.old) result state.new }
{
    let mut types = Seq::new(x.alloc);
    for next in items {
        let ty = item(x, inside, next, state)?;
        types.push(ty)?;
    }
    Ok(types)
}

#[tactic(auto, unfolding(qvt_typing::specs::Rules::literal))]
pub fn literal<C: NestedWalk>(
    x: &Context<'_>,
    inside: &C,
    kind: CollKind,
    items: &[Item],
    place: Place,
    state: &mut TypingState,
) -> Result<Option<Ty>, ListFault>
    requires { C.ready inside.now }
    ensures { GivesAndLeaves (rule.literal (seen x.now) kind (phrase.all_items (seen x.now) (view.items_of (map view.item_view items.now))) place state.old) result state.new }
{
    let number = fresh(state)?;
    let types = all_types(x.alloc, all_items(x, inside, items, state)?.as_slice())?;
    let ruling = literal_ruling(x.alloc, x.heads.units.metas(), kind, &types)?;
    ruled(x, number, ruling, Effect::PlainOne, place, state)
}
