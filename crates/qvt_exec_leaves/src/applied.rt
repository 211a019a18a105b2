//! Operations on values, and operators.

ghost use Rattle.std.specs.Prelude.{◌≡◌};
ghost use Rattle.qvt_run_data.specs.declared.late.LateWrite.{LateWrite};
ghost use Rattle.qvt_run_rules.specs.Cost.{count};
ghost use Rattle.qvt_run_rules.specs.Expressions as rule;
ghost use Rattle.qvt_run_rules.specs.Logic as words;
ghost use Rattle.qvt_run_rules.specs.Sources.{dotted};
ghost use Rattle.qvt_run_rules.specs.State.{found};
ghost use Rattle.qvt_types_words.specs.Rulings as rulings;
ghost use Rattle.qvt_exec_state.specs.Runs.{Runs, seen};
ghost use Rattle.qvt_exec_leaves.specs.Signs.{signed_by};

use crate::dotted::{Leaf, dotted};
use qvt_base::numbers::Place;
use qvt_exec_state::state::RunState;
use qvt_exec_state::steps::{found, misfit};
use qvt_exec_words::logic::{logic, not_of};
use qvt_ocl::apply::apply_owned;
use qvt_ocl::fault::OclFault;
use qvt_ocl_words::op::Op;
use qvt_run_data::exit::Halt;
use qvt_tree_types::words::{BinaryOp, PrefixOp};
use qvt_types_nodes::types::TypedSign;
use qvt_value::value::Value;
use std::alloc::Global;

/// What an operation gives of a source that is handed over.
pub fn applied_to(
    alloc: Global,
    op: Op,
    args: &[Value],
    place: Place,
    source: Value,
    state: &RunState<'_>,
) -> Result<Value, Halt>
    ensures { Runs (rule.applied count op args.now place source (seen state.now)) result state.now }
{
    match apply_owned(alloc, op, place, source, args) {
        Ok(value) => Ok(value),
        Err(OclFault::TypeFault) => misfit(place),
        Err(OclFault::NoMemory) => Err(Halt::NoMemory),
    }
}

/// What an operation does once its arguments are evaluated and its unit is charged, with or without the
/// implicit collect.
pub fn called_on(
    alloc: Global,
    op: Op,
    collect: bool,
    args: &[Value],
    place: Place,
    value: Value,
    state: &RunState<'_>,
) -> Result<Value, Halt>
    ensures { Runs (dotted collect place args.now (rule.applied count op args.now place) value (seen state.now)) result state.now }
{
    if collect {
        let leaf = Leaf::Operation(op, args);
        dotted(alloc, true, &leaf, place, &value, state)
    } else {
        applied_to(alloc, op, args, place, value, state)
    }
}

/// What a word of logic gives of both its sides.
pub fn worded(
    op: BinaryOp,
    left: Value,
    right: Value,
    place: Place,
    state: &RunState<'_>,
) -> Result<Value, Halt>
    ensures { Runs (found (words.logic op left right) place (seen state.now)) result state.now }
{
    found(logic(op, left, right), place, state)
}

/// What an operator before its operand gives.
pub fn signed(
    alloc: Global,
    op: PrefixOp,
    place: Place,
    value: Value,
    state: &RunState<'_>,
) -> Result<Value, Halt>
    ensures { Runs (found (rule.signed {E = LateWrite} count op place value) place (seen state.now)) result state.now }
{
    match op {
        PrefixOp::Not => found(not_of(value), place, state),
        PrefixOp::Minus => applied_to(alloc, Op::Negate, &[], place, value, state),
    }
}

/// The signs of an operand on its value, the inner one first.
pub fn signs_on(
    alloc: Global,
    signs: &[TypedSign],
    operand: Value,
    state: &RunState<'_>,
) -> Result<Value, Halt>
    ensures { Runs (signed_by signs.now operand (seen state.now)) result state.now }
{
    let mut value = operand;
    let mut left = signs.len();
    while left > 0 {
        left -= 1;
        let sign = &signs[left];
        value = signed(alloc, sign.op, sign.place, value, state)?;
    }
    Ok(value)
}

/// The operation that an operator between operands is; None for the words of logic.
pub fn operation_of(op: BinaryOp) -> Option<Op>
    ensures { result ≡ rulings.operation_of op }
{
    match op {
        BinaryOp::Implies => None,
        BinaryOp::Xor => None,
        BinaryOp::Or => None,
        BinaryOp::And => None,
        BinaryOp::Equal => Some(Op::Equal),
        BinaryOp::NotEqual => Some(Op::NotEqual),
        BinaryOp::Less => Some(Op::Less),
        BinaryOp::LessEqual => Some(Op::LessEqual),
        BinaryOp::Greater => Some(Op::Greater),
        BinaryOp::GreaterEqual => Some(Op::GreaterEqual),
        BinaryOp::Plus => Some(Op::Plus),
        BinaryOp::Minus => Some(Op::Minus),
        BinaryOp::Times => Some(Op::Times),
    }
}
