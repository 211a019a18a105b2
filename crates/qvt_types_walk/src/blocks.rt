//! Statements and blocks, over what stands inside them.

ghost use Rattle.std.specs.Prelude.{◌∷◌, [], map, option_map, false};
ghost use Rattle.qvt_tree_types.specs.View as view;
ghost use Rattle.qvt_types_rules.specs.Seen.{seen};
ghost use Rattle.qvt_types_states.specs.Does.{GivesAndLeaves};
ghost use Rattle.qvt_typing.specs.Phrases as phrase;
ghost use Rattle.qvt_typing.specs.Rules as rule;
ghost use Rattle.qvt_typing.specs.Statements as rule_of;
ghost use Rattle.qvt_types_walk.specs.Parts as part;

use qvt_base::list_fault::ListFault;
use qvt_base::numbers::Place;
use qvt_base::seq::Seq;
use qvt_base::text::Text;
use qvt_tree_types::tree::{Arm, Expr, Stmt, Stmts, Target};
use qvt_tree_types::types::TypeTree;
use qvt_types_data::ty::Ty;
use qvt_types_rules::aims::takes_late;
use qvt_types_rules::assignments::{assigned, bare_target, member_aimed, result_target};
use qvt_types_rules::context::Context;
use qvt_types_rules::leaves::type_if;
use qvt_types_rules::parts::all_types;
use qvt_types_rules::statements::{
    declare_iterator, declared, for_each_settled, returned, tell_condition, tell_conditions,
};
use qvt_types_states::state::TypingState;
use qvt_types_states::steps::writes_nothing;
use qvt_types_walk_steps::lists::given_expr;
use qvt_types_walk_steps::nested::NestedWalk;
use qvt_typing::parts::{Aim, Given};

/// What an assignment writes.
#[tactic(auto, unfolding(qvt_typing::specs::Phrases::target, qvt_typing::specs::Statements::member_target))]
fn aimed_at<C: NestedWalk>(
    x: &Context<'_>,
    inside: &C,
    target: &Target,
    state: &mut TypingState,
) -> Result<Aim, ListFault>
    requires { C.ready inside.now }
    ensures { GivesAndLeaves (phrase.target (seen x.now) (view.target_view target.now) state.old) result state.new }
{
    match target {
        Target::Bare { name, place } => bare_target(x, name, *place, state),
        Target::ResultVar { place } => result_target(x, *place, state),
        Target::Member {
            object,
            name,
            place,
        } => {
            let object = inside.expr(x, false, object, state)?;
            member_aimed(x, &object, name, *place, state)
        }
    }
}

#[tactic(auto, unfolding(qvt_typing::specs::Statements::variable))]
fn variable<C: NestedWalk>(
    x: &Context<'_>,
    inside: &C,
    name: &Text,
    kind: &Option<TypeTree>,
    value: &Option<Expr>,
    place: Place,
    state: &mut TypingState,
) -> Result<(), ListFault>
    requires { C.ready inside.now }
    ensures { GivesAndLeaves (rule_of.variable (seen x.now) name.now (phrase.optional_type (seen x.now) (view.optional_type kind.now)) (phrase.given_expr (seen x.now) (view.optional_expr (option_map view.expr_view value.now))) place state.old) result state.new }
{
    let kind = type_if(x, kind, state)?;
    let value = given_expr(x, inside, value, state)?;
    declared(x, name, &kind, &value, place, state)
}

#[tactic(auto, unfolding(qvt_typing::specs::Statements::assign))]
fn assign<C: NestedWalk>(
    x: &Context<'_>,
    inside: &C,
    target: &Target,
    adds: bool,
    value: &Expr,
    place: Place,
    state: &mut TypingState,
) -> Result<(), ListFault>
    requires { C.ready inside.now }
    ensures { GivesAndLeaves (rule_of.assign (seen x.now) (phrase.target (seen x.now) (view.target_view target.now)) adds (λ late. phrase.expr (seen x.now) late (view.expr_view value.now)) place state.old) result state.new }
{
    let aim = aimed_at(x, inside, target, state)?;
    let value = inside.expr(x, takes_late(&aim), value, state)?;
    assigned(x, &aim, adds, &value, place, state)
}

#[tactic(auto, unfolding(qvt_typing::specs::Statements::return_))]
fn return_value<C: NestedWalk>(
    x: &Context<'_>,
    inside: &C,
    value: &Option<Expr>,
    place: Place,
    state: &mut TypingState,
) -> Result<(), ListFault>
    requires { C.ready inside.now }
    ensures { GivesAndLeaves (rule_of.return_ (seen x.now) (phrase.given_expr (seen x.now) (view.optional_expr (option_map view.expr_view value.now))) place state.old) result state.new }
{
    let value = given_expr(x, inside, value, state)?;
    returned(x, &value, place, state)
}

#[tactic(auto, unfolding(qvt_typing::specs::Statements::value))]
fn value_statement<C: NestedWalk>(
    x: &Context<'_>,
    inside: &C,
    value: &Expr,
    state: &mut TypingState,
) -> Result<(), ListFault>
    requires { C.ready inside.now }
    ensures { GivesAndLeaves (rule_of.value (seen x.now) (phrase.expr (seen x.now) false (view.expr_view value.now)) state.old) result state.new }
{
    inside.expr(x, false, value, state)?;
    writes_nothing(state)
}

#[tactic(auto, unfolding(qvt_typing::specs::Phrases::one_arm, qvt_typing::specs::Statements::arm))]
fn arm<C: NestedWalk>(
    x: &Context<'_>,
    inside: &C,
    arm: &Arm,
    state: &mut TypingState,
) -> Result<Option<Ty>, ListFault>
    requires { C.ready inside.now }
    ensures { GivesAndLeaves (phrase.one_arm (seen x.now) (view.arm_view arm.now) state.old) result state.new }
{
    let ty = inside.expr(x, false, &arm.condition, state)?;
    inside.block(x, &arm.body, state)?;
    Ok(ty)
}

/// The conditions of all arms, after that of the `if`.
#[tactic(auto, unfolding(qvt_typing::specs::Phrases::all_arms))]
fn all_arms<C: NestedWalk>(
    x: &Context<'_>,
    inside: &C,
    first: Option<Ty>,
    list: &[Arm],
    state: &mut TypingState,
) -> Result<Seq<Option<Ty>>, ListFault>
    requires { C.ready inside.now }
    ensures { GivesAndLeaves (rule.all (first ∷ []) (phrase.all_arms (seen x.now) (view.arms_of (map view.arm_view list.now))) state.old) result state.new }
{
    let mut types = Seq::new(x.alloc);
    types.push(first)?;
    for next in list {
        let ty = arm(x, inside, next, state)?;
        types.push(ty)?;
    }
    Ok(types)
}

/// The `else` of an `if`, if there is one.
#[tactic(auto, unfolding(qvt_typing::specs::Phrases::otherwise), using(crate::proofs::Binds::no_block))]
fn otherwise<C: NestedWalk>(
    x: &Context<'_>,
    inside: &C,
    body: &Option<Stmts>,
    state: &mut TypingState,
) -> Result<(), ListFault>
    requires { C.ready inside.now }
    ensures { GivesAndLeaves (rule_of.block (seen x.now) (phrase.otherwise (seen x.now) (view.optional_else (option_map (map view.stmt_view) body.now))) state.old) result state.new }
{
    match body {
        None => Ok(()),
        Some(body) => inside.block(x, body, state),
    }
}

/// Settles an `if` by the types of its conditions.
fn if_settled(
    x: &Context<'_>,
    types: &[Option<Ty>],
    place: Place,
    state: &mut TypingState,
) -> Result<(), ListFault>
    ensures { GivesAndLeaves (part.if_settled (seen x.now) types.now place state.old) result state.new }
{
    let types = all_types(x.alloc, types)?;
    tell_conditions(x, &types, place, state)?;
    writes_nothing(state)
}

#[tactic(auto, unfolding(qvt_typing::specs::Statements::if_, qvt_typing::specs::Statements::arm))]
fn branch<C: NestedWalk>(
    x: &Context<'_>,
    inside: &C,
    condition: &Expr,
    body: &Stmts,
    arms: &[Arm],
    other: &Option<Stmts>,
    place: Place,
    state: &mut TypingState,
) -> Result<(), ListFault>
    requires { C.ready inside.now }
    ensures { GivesAndLeaves (rule_of.if_ (seen x.now) (phrase.expr (seen x.now) false (view.expr_view condition.now)) (phrase.stmts (seen x.now) (view.stmts_of (map view.stmt_view body.now))) (phrase.all_arms (seen x.now) (view.arms_of (map view.arm_view arms.now))) (phrase.otherwise (seen x.now) (view.optional_else (option_map (map view.stmt_view) other.now))) place state.old) result state.new }
{
    let ty = inside.expr(x, false, condition, state)?;
    inside.block(x, body, state)?;
    let types = all_arms(x, inside, ty, arms, state)?;
    otherwise(x, inside, other, state)?;
    if_settled(x, types.as_slice(), place, state)
}

#[tactic(auto, unfolding(qvt_typing::specs::Statements::while_, qvt_typing::specs::Statements::condition))]
fn repeat<C: NestedWalk>(
    x: &Context<'_>,
    inside: &C,
    condition: &Expr,
    body: &Stmts,
    place: Place,
    state: &mut TypingState,
) -> Result<(), ListFault>
    requires { C.ready inside.now }
    ensures { GivesAndLeaves (rule_of.while_ (seen x.now) (phrase.expr (seen x.now) false (view.expr_view condition.now)) (phrase.stmts (seen x.now) (view.stmts_of (map view.stmt_view body.now))) place state.old) result state.new }
{
    let ty = inside.expr(x, false, condition, state)?;
    tell_condition(x, &ty, place, state)?;
    inside.block(x, body, state)?;
    writes_nothing(state)
}

/// The condition and the body of a loop, in which its variable is in scope.
fn turn<C: NestedWalk>(
    x: &Context<'_>,
    inside: &C,
    condition: &Option<Expr>,
    body: &Stmts,
    state: &mut TypingState,
) -> Result<Given, ListFault>
    requires { C.ready inside.now }
    ensures { GivesAndLeaves (part.turn (seen x.now) (phrase.given_expr (seen x.now) (view.optional_expr (option_map view.expr_view condition.now))) (phrase.stmts (seen x.now) (view.stmts_of (map view.stmt_view body.now))) state.old) result state.new }
{
    let condition = given_expr(x, inside, condition, state)?;
    inside.block(x, body, state)?;
    Ok(condition)
}

#[tactic(auto, unfolding(qvt_typing::specs::Statements::for_each))]
fn for_each<C: NestedWalk>(
    x: &Context<'_>,
    inside: &C,
    source: &Expr,
    name: &Text,
    kind: &Option<TypeTree>,
    condition: &Option<Expr>,
    body: &Stmts,
    place: Place,
    state: &mut TypingState,
) -> Result<(), ListFault>
    requires { C.ready inside.now }
    ensures { GivesAndLeaves (rule_of.for_each (seen x.now) (phrase.expr (seen x.now) false (view.expr_view source.now)) name.now (phrase.optional_type (seen x.now) (view.optional_type kind.now)) (phrase.given_expr (seen x.now) (view.optional_expr (option_map view.expr_view condition.now))) (phrase.stmts (seen x.now) (view.stmts_of (map view.stmt_view body.now))) place state.old) result state.new }
{
    let source = inside.expr(x, false, source, state)?;
    let kind = type_if(x, kind, state)?;
    let (named, sources) = state.scope.mark();
    declare_iterator(x, &source, name, &kind, place, state)?;
    let condition = turn(x, inside, condition, body, state)?;
    state.scope.cut(named, sources);
    for_each_settled(x, &source, &kind, &condition, place, state)
}

#[tactic(auto, unfolding(qvt_typing::specs::Phrases::stmt))]
fn statement<C: NestedWalk>(
    x: &Context<'_>,
    inside: &C,
    stmt: &Stmt,
    state: &mut TypingState,
) -> Result<(), ListFault>
    requires { C.ready inside.now }
    ensures { GivesAndLeaves (phrase.stmt (seen x.now) (view.stmt_view stmt.now) state.old) result state.new }
{
    match stmt {
        Stmt::Var {
            name,
            kind,
            value,
            place,
        } => variable(x, inside, name, kind, value, *place, state),
        Stmt::Assign {
            target,
            adds,
            value,
            place,
        } => assign(x, inside, target, *adds, value, *place, state),
        Stmt::Return { value, place } => return_value(x, inside, value, *place, state),
        Stmt::Value { value, .. } => value_statement(x, inside, value, state),
        Stmt::If {
            condition,
            body,
            arms,
            otherwise,
            place,
        } => {
            let arms = arms.as_slice();
            branch(x, inside, condition, body, arms, otherwise, *place, state)
        }
        Stmt::While {
            condition,
            body,
            place,
        } => repeat(x, inside, condition, body, *place, state),
        Stmt::ForEach {
            source,
            name,
            kind,
            condition,
            body,
            place,
        } => for_each(
            x, inside, source, name, kind, condition, body, *place, state,
        ),
    }
}

/// Statements in their order.
#[tactic(auto, unfolding(qvt_typing::specs::Phrases::stmts))]
pub fn in_order<C: NestedWalk>(
    x: &Context<'_>,
    inside: &C,
    body: &[Stmt],
    state: &mut TypingState,
) -> Result<(), ListFault>
    requires { C.ready inside.now }
    ensures { GivesAndLeaves (rule_of.each (phrase.stmts (seen x.now) (view.stmts_of (map view.stmt_view body.now))) state.old) result state.new }
{
    for next in body {
        statement(x, inside, next, state)?;
    }
    Ok(())
}

/// A block, whose variables are in scope up to its end.
#[tactic(auto, unfolding(qvt_typing::specs::Statements::block))]
pub fn in_scope<C: NestedWalk>(
    x: &Context<'_>,
    inside: &C,
    body: &[Stmt],
    state: &mut TypingState,
) -> Result<(), ListFault>
    requires { C.ready inside.now }
    ensures { GivesAndLeaves (rule_of.block (seen x.now) (phrase.stmts (seen x.now) (view.stmts_of (map view.stmt_view body.now))) state.old) result state.new }
{
    let (named, sources) = state.scope.mark();
    in_order(x, inside, body, state)?;
    state.scope.cut(named, sources);
    Ok(())
}
