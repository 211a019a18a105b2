//! The words of logic on values, null and invalid among them (OCL 2.4, 11.5.4).

ghost use Rattle.std.specs.Prelude.{◌≡◌, ◌∷◌, []};
ghost use Rattle.qvt_run_rules.specs.Logic.{is_true, is_false, is_logical, unless_weak, negation, conjunction, disjunction, exclusion, logic, by_left, not_of};

use qvt_ocl::operands::is_invalid;
use qvt_ocl_lists::items::{is_null, same};
use qvt_tree_types::words::BinaryOp;
use qvt_value::value::Value;

/// Whether the value is true.
pub fn is_true(value: &Value) -> bool
    ensures { result ≡ is_true value.now }
{
    match value {
        Value::Bool(truth) => *truth,
        _ => false,
    }
}

/// Whether the value is false.
pub fn is_false(value: &Value) -> bool
    ensures { result ≡ is_false value.now }
{
    match value {
        Value::Bool(truth) => !*truth,
        _ => false,
    }
}

/// Whether the value is a Boolean, null, or invalid.
pub fn is_logical(value: &Value) -> bool
    ensures { result ≡ is_logical value.now }
{
    matches!(value, Value::Bool(_) | Value::Null | Value::Invalid(_, _))
}

/// The first of the two that is invalid; else null, if one is; else the given value.
fn unless_weak(left: Value, right: Value, value: Value) -> Value
    ensures { result ≡ unless_weak (left ∷ right ∷ []) value }
{
    if is_invalid(&left) {
        return left;
    }
    if is_invalid(&right) {
        return right;
    }
    if is_null(&left) || is_null(&right) {
        return Value::Null;
    }
    value
}

fn negation(value: Value) -> Value
    ensures { result ≡ negation value }
{
    match &value {
        Value::Bool(truth) => Value::Bool(!*truth),
        _ => value,
    }
}

/// False if one of the two is.
pub fn conjunction(left: Value, right: Value) -> Value
    ensures { result ≡ conjunction left right }
{
    if is_false(&left) || is_false(&right) {
        return Value::Bool(false);
    }
    unless_weak(left, right, Value::Bool(true))
}

/// True if one of the two is.
pub fn disjunction(left: Value, right: Value) -> Value
    ensures { result ≡ disjunction left right }
{
    if is_true(&left) || is_true(&right) {
        return Value::Bool(true);
    }
    unless_weak(left, right, Value::Bool(false))
}

/// True if the two differ.
fn exclusion(left: Value, right: Value) -> Value
    ensures { result ≡ exclusion left right }
{
    let differ = !same(&left, &right);
    unless_weak(left, right, Value::Bool(differ))
}

/// What the word of logic that the operator is gives of two Booleans, null or invalid ones among them.
#[tactic(auto, using(crate::proofs::Words::not_both), unfolding(qvt_run_rules::specs::Logic::logic))]
pub fn logic(op: BinaryOp, left: Value, right: Value) -> Option<Value>
    ensures { result ≡ logic op left right }
{
    if !(is_logical(&left) && is_logical(&right)) {
        return None;
    }
    match op {
        BinaryOp::And => Some(conjunction(left, right)),
        BinaryOp::Or => Some(disjunction(left, right)),
        BinaryOp::Xor => Some(exclusion(left, right)),
        BinaryOp::Implies => Some(disjunction(negation(left), right)),
        _ => None,
    }
}

/// What the word gives by its left side alone.
#[tactic(auto, unfolding(qvt_run_rules::specs::Logic::by_left))]
pub fn by_left(op: BinaryOp, left: &Value) -> Option<Value>
    ensures { result ≡ by_left op left.now }
{
    match op {
        BinaryOp::And => is_false(left).then_some(Value::Bool(false)),
        BinaryOp::Implies => is_false(left).then_some(Value::Bool(true)),
        BinaryOp::Or => is_true(left).then_some(Value::Bool(true)),
        _ => None,
    }
}

/// The negation of a Boolean; of null and of an invalid value that value.
#[tactic(auto, unfolding(qvt_run_rules::specs::Logic::not_of))]
pub fn not_of(value: Value) -> Option<Value>
    ensures { result ≡ not_of value }
{
    if !is_logical(&value) {
        return None;
    }
    Some(negation(value))
}
