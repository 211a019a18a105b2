//! Operators between Integers, whose phrases are evaluated where they stand.

ghost use Rattle.std.specs.Prelude.{◌≡◌, ◌+◌, ◌∷◌, [], IsTrue, IfSome, MatchOption, Ok, Some, false};
ghost use Rattle.qvt_types_nodes.specs.View.{typed_expr_view};
ghost use Rattle.qvt_types_steps.specs.Rulings as rulings;
ghost use Rattle.qvt_run_rules.specs.Cost.{spend_of};
ghost use Rattle.qvt_run_rules.specs.Locals.{local_named, value_in};
ghost use Rattle.qvt_exec_state.specs.Runs.{seen};
ghost use Rattle.qvt_exec_exprs.specs.Numbers.{counted, integer_in, number_in, of_numbers, ChainGives, IsGiven, IsCountedNumber};
ghost use Rattle.qvt_value.specs.declared.value.Value.TheVariants.{Int};

use qvt_base::numbers::Place;
use qvt_exec_leaves::applied::operation_of;
use qvt_exec_state::locals::local_named;
use qvt_exec_state::state::RunState;
use qvt_exec_steps::engine::Engine;
use qvt_ocl_texts::integers::of_integers;
use qvt_tree_types::words::BinaryOp;
use qvt_types_data::note::Reading;
use qvt_types_nodes::tree::{TypedExpr, TypedLink};
use qvt_value::value::Value;

/// How many operators may stand inside one another.
const NESTED: u32 = 3;

/// A number, with the units of its phrase.
#[derive(Clone, Copy)]
struct Counted {
    number: i64,
    units: u64,
}

/// A number of one unit.
fn of_one(number: i64) -> Counted
    ensures { result ≡ record { number = number; units = 1 } }
{
    Counted { number, units: 1 }
}

/// The Integer that a variable holds.
fn held(name: &str, state: &RunState<'_>) -> Option<Counted>
    ensures { result ≡ counted (integer_in (value_in (local_named name.now state.now.locals))) }
{
    match local_named(state.locals.as_slice(), name) {
        Some(local) => match &local.value {
            Value::Int(number) => Some(of_one(*number)),
            _ => None,
        },
        None => None,
    }
}

/// The number that an Integer is, or a variable that holds one.
#[inline(always)]
fn alone(node: &TypedExpr, state: &RunState<'_>) -> Option<Counted>
    ensures { result ≡ counted (number_in (typed_expr_view node.now) state.now.locals) }
{
    match node {
        TypedExpr::Int { value, .. } => Some(of_one(*value)),
        TypedExpr::Path(path) => match &path.note.reading {
            Reading::Variable(name) => held(name.as_str(), state),
            _ => None,
        },
        _ => None,
    }
}

/// The value as a number with these units, if it is an Integer.
fn as_number(value: &Value, units: u64) -> Option<Counted>
    ensures { IfSome result (λ number. (value.now ≡ Int number.number) × (number.units ≡ units)) }
{
    match value {
        Value::Int(number) => Some(Counted {
            number: *number,
            units,
        }),
        _ => None,
    }
}

/// What an operator gives of two numbers, and its unit with theirs.
#[inline(always)]
fn between(op: BinaryOp, place: Place, left: Counted, right: Counted) -> Option<(Value, u64)>
    ensures value { IfSome result (λ given. of_numbers (rulings.operation_of op) place left.number right.number ≡ Some given.0) }
    ensures units { IfSome result (λ given. given.1 ≡ left.units + right.units + 1) }
{
    let op = operation_of(op)?;
    let value = of_integers(op, place, left.number, right.number)?;
    let units = left.units.checked_add(right.units)?;
    let units = units.checked_add(1)?;
    Some((value, units))
}

/// What a chain of this operator gives, and its units, if its operands are numbers.
#[inline(always)]
#[cycle(numbers)]
fn linked(
    depth: u32,
    first: &TypedExpr,
    node: &TypedLink,
    state: &RunState<'_>,
) -> Option<(Value, u64)>
    ensures { IfSome result (IsGiven first.now (node.now ∷ []) state.now.locals) }
{
    let left = number(depth, first, state)?;
    let right = number(depth, &node.operand, state)?;
    let given = between(node.op, node.place, left, right)?;
    Some(given)
}

/// What a chain gives, and its units, if it has one operator and its operands are numbers. So many operators may stand inside one
/// another within it.
#[cycle(numbers)]
fn operated(
    depth: u32,
    first: &TypedExpr,
    rest: &[TypedLink],
    state: &RunState<'_>,
) -> Option<(Value, u64)>
    ensures { IfSome result (IsGiven first.now rest.now state.now.locals) }
{
    match rest {
        [node] => linked(depth, first, node, state),
        _ => None,
    }
}

/// The number that a phrase is, if it is a number or an operator between numbers.
#[inline(always)]
#[cycle(numbers)]
fn number(depth: u32, node: &TypedExpr, state: &RunState<'_>) -> Option<Counted>
    ensures { IfSome result (IsCountedNumber node.now state.now.locals) }
{
    if let Some(number) = alone(node, state) {
        return Some(number);
    }
    match node {
        TypedExpr::Chain { first, rest, .. } => {
            let less = depth.checked_sub(1)?;
            let given = operated(less, first, rest.as_slice(), state)?;
            let number = as_number(&given.0, given.1)?;
            Some(number)
        }
        _ => None,
    }
}

/// So many units more, if there is room for them. Else nothing is changed.
#[tactic(auto, unfolding(qvt_run_rules::specs::Cost::spend_of, qvt_run_rules::specs::Cost::charge, qvt_run_rules::specs::Cost::count))]
fn charged(limit: Option<u64>, units: u64, state: &mut RunState<'_>) -> bool
    ensures yes { IsTrue result → spend_of limit units (seen state.old) ≡ (Ok tt, seen state.new) }
    ensures no { result ≡ false → seen state.new ≡ seen state.old }
{
    if let Some(fuel) = limit {
        if state.cost.passes(units, fuel) {
            return false;
        }
    }
    match state.cost.add(units) {
        Ok(()) => true,
        Err(_) => false,
    }
}

/// What a chain of one operator between numbers gives, if all units are there. Else nothing is changed.
#[inline(never)]
pub fn in_numbers(
    x: &Engine<'_>,
    first: &TypedExpr,
    rest: &[TypedLink],
    state: &mut RunState<'_>,
) -> Option<Value>
    ensures { MatchOption result (seen state.new ≡ seen state.old) (λ value. ChainGives x.now first.now rest.now value (seen state.old) (seen state.new)) }
{
    let (value, units) = operated(NESTED, first, rest, state)?;
    if charged(x.limit, units, state) {
        Some(value)
    } else {
        None
    }
}
