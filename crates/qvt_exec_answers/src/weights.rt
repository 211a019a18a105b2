//! What a condition says of a candidate, and its cost.

ghost use Rattle.std.specs.Prelude.{◌≡◌, IfOk};
ghost use Rattle.std.specs.Option.{option_copied};
ghost use Rattle.qvt_meaning.specs.Nodes as nodes;
ghost use Rattle.qvt_meaning.specs.Plain as rule;
ghost use Rattle.qvt_exec_plain.specs.Table.{IsTable, condition_view};
ghost use Rattle.qvt_exec_answers.specs.Answering.{program_of};
ghost use Rattle.qvt_exec_answers.specs.Weights.{Weighs};

use crate::answering::Answering;
use crate::questions::Question;
use qvt_base::copied::Copied;
use qvt_base::list_fault::ListFault;
use qvt_base::numbers::Oid;
use qvt_base::seq::Seq;
use qvt_base::text::Text;
use qvt_exec_leaves::nodes::place_of;
use qvt_exec_plain::plain::evaluate;
use qvt_exec_plain::table::Condition;
use qvt_exec_resolves::verdicts::{Verdict, verdict_of};
use qvt_exec_state::names::name_in;
use qvt_run_data::exit::End;
use qvt_run_data::fault::RunFault;
use qvt_run_data::local::Local;
use qvt_store::store::Store;
use qvt_value::value::Value;
use std::alloc::Global;

/// What a condition says of a candidate, and its cost, a cost above the greatest number of 64 bits being
/// told as that number.
#[derive(Clone, Copy)]
pub struct Weight {
    pub verdict: Verdict,
    pub cost: u64,
}

/// Copies of the variables, and after them the candidate as the variable of the filter.
fn candidate(
    alloc: Global,
    locals: &Seq<Local>,
    name: Option<&Text>,
    object: Oid,
) -> Result<Seq<Local>, ListFault>
    ensures { IfOk result (λ all. all ≡ rule.candidate locals.now (option_copied name.entry) object) }
{
    let name = name_in(alloc, locals.as_slice(), name)?;
    let mut all = locals.copy(alloc)?;
    all.push(Local {
        name,
        asked: None,
        value: Value::Obj(object),
    })?;
    Ok(all)
}

/// What the condition of a filter says.
fn weigh_by(
    a: &Answering<'_, '_>,
    condition: Condition<'_>,
    object: Oid,
    store: &Store,
    locals: &Seq<Local>,
) -> Result<Weight, ListFault>
    ensures { IfOk result (Weighs (rule.weighed_as (nodes.place_of (condition_view condition.entry).expr) (rule.plain (program_of a.now) store.now (rule.candidate locals.now (condition_view condition.entry).variable object) (condition_view condition.entry).expr))) }
{
    let alloc = a.alloc;
    let locals = candidate(alloc, locals, condition.variable, object)?;
    let told = evaluate(
        alloc,
        a.expressions.program(),
        condition.expr,
        store,
        locals,
    )?;
    Ok(Weight {
        verdict: verdict_of(place_of(condition.expr), &told.outcome),
        cost: told.cost,
    })
}

/// What the condition of a question says. Without a condition each candidate passes.
pub fn weigh(
    a: &Answering<'_, '_>,
    question: &Question<'_>,
    object: Oid,
    store: &Store,
) -> Result<Weight, ListFault>
    requires { IsTable a.now.expressions.now }
    ensures { IfOk result (Weighs (rule.weighed (program_of a.now) store.now question.now.locals.now question.now.place question.now.condition object)) }
{
    let Some(number) = question.condition else {
        return Ok(Weight {
            verdict: Verdict::Passes,
            cost: 0,
        });
    };
    match a.expressions.condition(number) {
        None => Ok(Weight {
            verdict: Verdict::Stops(End::Fault(RunFault::TypeFault, question.place)),
            cost: 0,
        }),
        Some(condition) => weigh_by(a, condition, object, store, question.locals),
    }
}
