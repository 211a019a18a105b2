//! Units.

ghost use Rattle.std.specs.Prelude.{map};
ghost use Rattle.qvt_tree_types.specs.Module.{class_view, condition_view, helper_view, mapping_view, unit_view};
ghost use Rattle.qvt_tree_types.specs.View.{block_view};
ghost use Rattle.qvt_types_context.specs.Seen.{heads_seen, seen};
ghost use Rattle.qvt_types_states.specs.Does.{GivesAndLeaves};
ghost use Rattle.qvt_types_context.specs.Units as units;

use crate::contexts::{
    constructor_context, helper_context, init_context, outside, section_context, when_context,
};
use crate::parts::{add_self, all_reused, fields, params, result_head, supers};
use qvt_base::list_fault::ListFault;
use qvt_base::numbers::Place;
use qvt_tree_types::module::{ClassDecl, Helper, Mapping, Unit};
use qvt_tree_types::tree::{Expr, Stmt};
use qvt_types_context::calls::{no_unit, unit_at};
use qvt_types_context::context::{Context, Heads};
use qvt_types_rules::leaves::type_if;
use qvt_types_rules::resolves::head_part;
use qvt_types_rules::statements::tell_condition;
use qvt_types_states::state::TypingState;
use qvt_types_states::steps::writes_nothing;
use qvt_types_units::signature::Signature;
use qvt_types_walk::expressions::expr;
use qvt_types_walk::statements::{block, stmts};
use std::alloc::Global;

fn class_unit(x: &Context<'_>, class: &ClassDecl, state: &mut TypingState) -> Result<(), ListFault>
    ensures { GivesAndLeaves (units.class_unit (seen x.now) (class_view class.now) state.old) result state.new }
{
    supers(x, class.supers.as_slice(), state)?;
    fields(x, class.features.as_slice(), state)?;
    writes_nothing(state)
}

fn main_unit(x: &Context<'_>, body: &[Stmt], state: &mut TypingState) -> Result<(), ListFault>
    ensures { GivesAndLeaves (units.main_unit (seen x.now) (block_view body.now) state.old) result state.new }
{
    block(x, body, state)?;
    writes_nothing(state)
}

fn helper_unit(x: &Context<'_>, helper: &Helper, state: &mut TypingState) -> Result<(), ListFault>
    ensures { GivesAndLeaves (units.helper_unit (seen x.now) (helper_view helper.now) state.old) result state.new }
{
    let (named, sources) = state.scope.mark();
    add_self(x, x.itself, state)?;
    params(x, helper.params.as_slice(), state)?;
    type_if(x, &helper.answer, state)?;
    block(x, helper.body.as_slice(), state)?;
    state.scope.cut(named, sources);
    writes_nothing(state)
}

#[tactic(auto, unfolding(qvt_typing::specs::Statements::condition))]
fn when(
    x: &Context<'_>,
    condition: &Option<Expr>,
    place: Place,
    state: &mut TypingState,
) -> Result<(), ListFault>
    ensures { GivesAndLeaves (units.when (seen x.now) (condition_view condition.now) place state.old) result state.new }
{
    match condition {
        None => Ok(()),
        Some(condition) => {
            let ty = expr(x, false, condition, state)?;
            tell_condition(x, &ty, place, state)
        }
    }
}

/// The sections of a mapping.
fn sections(
    alloc: Global,
    heads: &Heads<'_>,
    mapping: &Mapping,
    signature: &Signature,
    state: &mut TypingState,
) -> Result<(), ListFault>
    ensures { GivesAndLeaves (units.sections (heads_seen heads.now) (mapping_view mapping.now) signature.now state.old) result state.new }
{
    let init = init_context(alloc, heads, signature);
    stmts(&init, mapping.init.as_slice(), state)?;
    let section = section_context(alloc, heads, signature);
    stmts(&section, mapping.population.as_slice(), state)?;
    stmts(&section, mapping.finish.as_slice(), state)
}

/// The head of a mapping, up to its lists.
fn mapping_head(
    x: &Context<'_>,
    mapping: &Mapping,
    signature: &Signature,
    state: &mut TypingState,
) -> Result<(), ListFault>
    ensures { GivesAndLeaves (units.mapping_head (seen x.now) (mapping_view mapping.now) signature.now state.old) result state.new }
{
    add_self(x, head_part(signature.context), state)?;
    params(x, mapping.params.as_slice(), state)?;
    result_head(x, &mapping.result, state)?;
    all_reused(x, mapping.inherits.as_slice(), state)?;
    all_reused(x, mapping.merges.as_slice(), state)?;
    all_reused(x, mapping.disjuncts.as_slice(), state)
}

fn mapping_unit(
    alloc: Global,
    heads: &Heads<'_>,
    mapping: &Mapping,
    signature: &Signature,
    state: &mut TypingState,
) -> Result<(), ListFault>
    ensures { GivesAndLeaves (units.mapping_unit (heads_seen heads.now) (mapping_view mapping.now) signature.now state.old) result state.new }
{
    let (named, sources) = state.scope.mark();
    mapping_head(&outside(alloc, heads), mapping, signature, state)?;
    let condition = when_context(alloc, heads, signature);
    when(&condition, &mapping.condition, mapping.place, state)?;
    sections(alloc, heads, mapping, signature, state)?;
    state.scope.cut(named, sources);
    writes_nothing(state)
}

/// The unit of this number.
#[tactic(auto, unfolding(qvt_typing::specs::Units::unit))]
fn unit(
    alloc: Global,
    heads: &Heads<'_>,
    number: u32,
    unit: &Unit,
    state: &mut TypingState,
) -> Result<(), ListFault>
    ensures { GivesAndLeaves (units.unit (heads_seen heads.now) number (unit_view unit.now) state.old) result state.new }
{
    let none = no_unit(alloc);
    let signature = unit_at(heads.units, number, &none);
    match unit {
        Unit::Class(class) => class_unit(&outside(alloc, heads), class, state),
        Unit::Main(body, _) => main_unit(&outside(alloc, heads), body.as_slice(), state),
        Unit::Helper(helper) => {
            let x = helper_context(alloc, heads, helper, signature);
            helper_unit(&x, helper, state)
        }
        Unit::Constructor(helper) => {
            let x = constructor_context(alloc, heads, signature);
            helper_unit(&x, helper, state)
        }
        Unit::Mapping(mapping) => mapping_unit(alloc, heads, mapping, signature, state),
    }
}

/// All units, in the order of the text. More units than 32 bits can count find no memory.
pub fn all_units(
    alloc: Global,
    heads: &Heads<'_>,
    list: &[Unit],
    state: &mut TypingState,
) -> Result<(), ListFault>
    ensures { GivesAndLeaves (units.units (heads_seen heads.now) 0 (map unit_view list.now) state.old) result state.new }
{
    let mut number: u32 = 0;
    for next in list {
        unit(alloc, heads, number, next, state)?;
        let Some(more) = number.checked_add(1) else {
            return Err(ListFault::NoMemory);
        };
        number = more;
    }
    Ok(())
}
