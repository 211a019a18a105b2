//! Steps behind a dot, and calls of mappings behind an expression.

ghost use Rattle.std.specs.Prelude.{map};
ghost use Rattle.qvt_tree_types.specs.View as view;
ghost use Rattle.qvt_types_rules.specs.Seen.{seen};
ghost use Rattle.qvt_types_states.specs.Does.{GivesAndLeaves};
ghost use Rattle.qvt_types_steps.specs.Classes.{class_test_named, model_call_named};
ghost use Rattle.qvt_typing.specs.Phrases as phrase;
ghost use Rattle.qvt_typing.specs.Rules as rule;
ghost use Rattle.qvt_types_walk_steps.specs.Parts as part;

use crate::lists::{classes, exprs};
use crate::nested::NestedWalk;
use qvt_base::list_fault::ListFault;
use qvt_base::numbers::Place;
use qvt_base::seq::Seq;
use qvt_base::text::Text;
use qvt_tree_types::tree::{Expr, MapCall};
use qvt_types_data::ty::Ty;
use qvt_types_rules::calls::{called_behind, effect_of, map_ruled, unit_ruled};
use qvt_types_rules::context::{Context, unless_untyped};
use qvt_types_rules::parts::{all_types, reads_operation};
use qvt_types_rules::settling::stepped;
use qvt_types_states::state::TypingState;
use qvt_types_steps::calls::dot_call;
use qvt_types_steps::classes::{
    ClassTest, ModelCall, class_test, class_test_named, model_call_named, model_objects,
    model_objects_of,
};
use qvt_types_steps::properties::property;
use qvt_typing::parts::Effect;

#[tactic(auto, unfolding(qvt_typing::specs::Rules::property_step))]
pub fn property_step(
    x: &Context<'_>,
    name: &Text,
    place: Place,
    source: &Option<Ty>,
    state: &mut TypingState,
) -> Result<Option<Ty>, ListFault>
    ensures { GivesAndLeaves (rule.property_step (seen x.now) name.now place source.now state.old) result state.new }
{
    let ruling = property(x.alloc, x.heads.units.metas(), name.as_str(), source)?;
    let ruling = unless_untyped(&x.heads, ruling);
    stepped(x, ruling, Effect::PlainOne, place, state)
}

/// An operation of a model.
#[tactic(auto, unfolding(qvt_typing::specs::Rules::model_step, qvt_typing::specs::Rules::typed_model_step))]
pub fn model_step<C: NestedWalk>(
    x: &Context<'_>,
    inside: &C,
    name: &Text,
    args: &[Expr],
    place: Place,
    state: &mut TypingState,
) -> Result<Option<Ty>, ListFault>
    requires { C.ready inside.now }
    ensures { GivesAndLeaves (rule.model_called_with (seen x.now) (model_call_named name.now) name.now (phrase.exprs (seen x.now) (view.exprs_of (map view.expr_view args.now))) (phrase.classes (seen x.now) (view.exprs_of (map view.expr_view args.now))) place state.old) result state.new }
{
    if let Some(ModelCall::ObjectsOfType) = model_call_named(name.as_str()) {
        let parts = classes(x, inside, args, state)?;
        let ruling = model_objects_of(x.alloc, name, parts.as_slice())?;
        return stepped(x, ruling, Effect::PlainOne, place, state);
    }
    let types = all_types(x.alloc, exprs(x, inside, args, state)?.as_slice())?;
    let ruling = model_objects(x.alloc, name, x.heads.types.element(), &types)?;
    stepped(x, ruling, Effect::PlainOne, place, state)
}

#[tactic(auto, unfolding(qvt_typing::specs::Rules::test_step))]
fn test_step<C: NestedWalk>(
    x: &Context<'_>,
    inside: &C,
    name: &Text,
    test: ClassTest,
    args: &[Expr],
    place: Place,
    source: &Option<Ty>,
    state: &mut TypingState,
) -> Result<Option<Ty>, ListFault>
    requires { C.ready inside.now }
    ensures { GivesAndLeaves (rule.test_step (seen x.now) name.now test (phrase.classes (seen x.now) (view.exprs_of (map view.expr_view args.now))) place source.now state.old) result state.new }
{
    let parts = classes(x, inside, args, state)?;
    let ruling = class_test(x.alloc, name, test, source, parts.as_slice())?;
    stepped(x, ruling, Effect::PlainOne, place, state)
}

/// Settles a step with arguments behind a dot by their types.
fn call_settled(
    x: &Context<'_>,
    name: &Text,
    types: &Option<Seq<Ty>>,
    place: Place,
    source: &Option<Ty>,
    state: &mut TypingState,
) -> Result<Option<Ty>, ListFault>
    ensures { GivesAndLeaves (part.call_settled (seen x.now) name.now types.now place source.now state.old) result state.new }
{
    if reads_operation(name.as_str(), source) {
        let ruling = dot_call(x.alloc, x.heads.units.metas(), name, source, types)?;
        return stepped(x, ruling, Effect::PlainOne, place, state);
    }
    let called = called_behind(x.alloc, &x.heads, false, false, name.as_str(), source)?;
    let ruling = unit_ruled(x.alloc, &x.heads, source, &called, types)?;
    let effect = effect_of(x.alloc, &x.heads, &called);
    stepped(x, ruling, effect, place, state)
}

#[tactic(auto, unfolding(qvt_typing::specs::Rules::call_step))]
fn call_step<C: NestedWalk>(
    x: &Context<'_>,
    inside: &C,
    name: &Text,
    args: &[Expr],
    place: Place,
    source: &Option<Ty>,
    state: &mut TypingState,
) -> Result<Option<Ty>, ListFault>
    requires { C.ready inside.now }
    ensures { GivesAndLeaves (rule.call_step (seen x.now) name.now (phrase.exprs (seen x.now) (view.exprs_of (map view.expr_view args.now))) place source.now state.old) result state.new }
{
    let types = all_types(x.alloc, exprs(x, inside, args, state)?.as_slice())?;
    call_settled(x, name, &types, place, source, state)
}

/// A step with arguments behind a dot.
pub fn called<C: NestedWalk>(
    x: &Context<'_>,
    inside: &C,
    name: &Text,
    args: &[Expr],
    place: Place,
    source: &Option<Ty>,
    state: &mut TypingState,
) -> Result<Option<Ty>, ListFault>
    requires { C.ready inside.now }
    ensures { GivesAndLeaves (rule.called_with (seen x.now) (class_test_named name.now) name.now (phrase.exprs (seen x.now) (view.exprs_of (map view.expr_view args.now))) (phrase.classes (seen x.now) (view.exprs_of (map view.expr_view args.now))) place source.now state.old) result state.new }
{
    match class_test_named(name.as_str()) {
        Some(test) => test_step(x, inside, name, test, args, place, source, state),
        None => call_step(x, inside, name, args, place, source, state),
    }
}

#[tactic(auto, unfolding(qvt_typing::specs::Rules::map_step))]
fn mapped_behind<C: NestedWalk>(
    x: &Context<'_>,
    inside: &C,
    is_arrow: bool,
    name: &Text,
    args: &[Expr],
    place: Place,
    source: &Option<Ty>,
    state: &mut TypingState,
) -> Result<Option<Ty>, ListFault>
    requires { C.ready inside.now }
    ensures { GivesAndLeaves (rule.map_step (seen x.now) is_arrow name.now (phrase.exprs (seen x.now) (view.exprs_of (map view.expr_view args.now))) place source.now state.old) result state.new }
{
    let types = all_types(x.alloc, exprs(x, inside, args, state)?.as_slice())?;
    let called = called_behind(x.alloc, &x.heads, true, is_arrow, name.as_str(), source)?;
    let ruling = map_ruled(x.alloc, &x.heads, is_arrow, source, &called, &types)?;
    stepped(x, ruling, Effect::ImpureOne, place, state)
}

#[tactic(auto, unfolding(qvt_typing::specs::Phrases::mapped_behind))]
pub fn map_step<C: NestedWalk>(
    x: &Context<'_>,
    inside: &C,
    is_arrow: bool,
    call: &MapCall,
    source: &Option<Ty>,
    state: &mut TypingState,
) -> Result<Option<Ty>, ListFault>
    requires { C.ready inside.now }
    ensures { GivesAndLeaves (phrase.mapped_behind (seen x.now) is_arrow (view.map_view call.now) source.now state.old) result state.new }
{
    let args = call.args.as_slice();
    mapped_behind(
        x, inside, is_arrow, &call.name, args, call.place, source, state,
    )
}
