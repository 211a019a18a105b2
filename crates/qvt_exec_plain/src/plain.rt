//! Plain expressions (OCL 2.4, 7).

ghost use Rattle.std.specs.Prelude.{IfOk};
ghost use Rattle.qvt_types_nodes.specs.View.{typed_expr_view};
ghost use Rattle.qvt_program_exprs.specs.Program.{program_view};
ghost use Rattle.qvt_exec_exprs.specs.Plain.{no_expression, plain, plain_at};
ghost use Rattle.qvt_program_exprs.specs.Table.{IsTable};
ghost use Rattle.qvt_exec_plain.specs.Told.{TellsEvaluated};

use crate::knot::value_alone;
use crate::told::{Told, outcome_of};
use crate::vars::locals_of;
use qvt_base::list_fault::ListFault;
use qvt_base::numbers::{ExprNo, Place};
use qvt_base::seq::Seq;
use qvt_exec_exprs::engine::Engine;
use qvt_exec_state::state::RunState;
use qvt_program_exprs::program::Program;
use qvt_program_exprs::table::Expressions;
use qvt_run_data::exit::End;
use qvt_run_data::fault::RunFault;
use qvt_run_data::local::Local;
use qvt_store::store::Store;
use qvt_types_nodes::tree::TypedExpr;
use qvt_value::value::Var;
use std::alloc::Global;

/// What an expression of the program gives over a store, with these variables in scope, and its cost.
#[tactic(auto, using(crate::proofs::Telling::told_of), unfolding(qvt_meaning::specs::Plain::plain, qvt_run_rules::specs::Cost::spend_of, qvt_exec_phrases::specs::Means::expr_of))]
pub fn evaluate(
    alloc: Global,
    program: &Program,
    node: &TypedExpr,
    store: &Store,
    locals: Seq<Local>,
) -> Result<Told, ListFault>
    ensures { IfOk result (TellsEvaluated (plain (program_view program.now) store.now locals (typed_expr_view node.now))) }
{
    let x = Engine {
        alloc,
        limit: None,
        is_plain: true,
        answer: &None,
    };
    let mut state = RunState::new(alloc, store, locals);
    let given = value_alone(program, &x, node, &mut state);
    let outcome = outcome_of(alloc, given)?;
    Ok(Told {
        outcome,
        cost: state.cost.told(),
    })
}

/// What is told where there is no such expression.
fn no_expression() -> Told
    ensures { TellsEvaluated no_expression result }
{
    let nowhere = Place {
        line: 1,
        column: 1,
        offset: 0,
    };
    Told {
        outcome: Err(End::Fault(RunFault::TypeFault, nowhere)),
        cost: 0,
    }
}

/// The value of the plain expression of this number over a store, with these variables in scope, and its
/// cost. A type fault at the begin of the text is told of a number that no expression has.
#[tactic(auto, unfolding(qvt_meaning::specs::Plain::plain_at))]
pub fn eval_plain(
    alloc: Global,
    expressions: &Expressions<'_>,
    store: &Store,
    vars: &[Var],
    number: ExprNo,
) -> Result<Told, ListFault>
    requires { IsTable expressions.now }
    ensures { IfOk result (TellsEvaluated (plain_at (program_view expressions.now.program.now) store.now vars.now number)) }
{
    match expressions.expr(number) {
        None => Ok(no_expression()),
        Some(node) => {
            let locals = locals_of(alloc, vars)?;
            evaluate(alloc, expressions.program(), node, store, locals)
        }
    }
}
