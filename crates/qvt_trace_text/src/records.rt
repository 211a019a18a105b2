//! The records of a trace.

ghost use Rattle.std.specs.Prelude.{◌≡◌, IfOk, map};
ghost use Rattle.serde_json.specs.View.{view};
ghost use Rattle.qvt_meaning_report.specs.TraceText.{record_data};
ghost use Rattle.qvt_types_program.specs.Program.{program_view};

use crate::members::{put, put_list, put_text};
use crate::paths::mapping_path;
use crate::values::{end_value, item_values};
use qvt_base::list_fault::ListFault;
use qvt_base::seq::Seq;
use qvt_run_data::record::Record;
use qvt_run_ids::run_ids::RunIds;
use qvt_types_program::program::Program;
use serde_json::{Map, Value};
use std::alloc::Global;

/// A record.
#[tactic(auto, unfolding(qvt_meaning_report::specs::TraceText::record_data))]
fn record_value(
    alloc: Global,
    program: &Program,
    ids: &RunIds<'_>,
    call: &Record,
) -> Result<Value, ListFault>
    ensures { IfOk result (λ v. view v ≡ record_data ids.now.store.now ids.now.ids.now (program_view program.now) call.now) }
{
    let mut members = Map::new(alloc);
    let args = item_values(alloc, ids, call.args.as_slice())?;
    put_list(alloc, &mut members, "args", args)?;
    let context = end_value(alloc, ids, call.context)?;
    put(alloc, &mut members, "context", context)?;
    put_text(
        alloc,
        &mut members,
        "mapping",
        mapping_path(program, call.mapping),
    )?;
    let made = end_value(alloc, ids, call.result)?;
    put(alloc, &mut members, "result", made)?;
    Ok(Value::Object(members))
}

/// Each of the records.
pub fn record_values(
    alloc: Global,
    program: &Program,
    ids: &RunIds<'_>,
    records: &[Record],
) -> Result<Seq<Value>, ListFault>
    ensures { IfOk result (λ vs. map view vs ≡ map (record_data ids.now.store.now ids.now.ids.now (program_view program.now)) records.now) }
{
    let mut values = Seq::new(alloc);
    for call in records {
        values.push(record_value(alloc, program, ids, call)?)?;
    }
    Ok(values)
}
