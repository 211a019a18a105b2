//! The text of a trace's file.

ghost use Rattle.std.specs.Prelude.{◌≡◌, IfOk};
ghost use Rattle.serde_json.specs.View.{view};
ghost use Rattle.qvt_meaning.specs.Run.{FinishedRun};
ghost use Rattle.qvt_meaning_report.specs.TraceText.{trace_text};
ghost use Rattle.qvt_types_program.specs.Program.{program_view};
ghost use Rattle.qvt_trace_text.specs.Parts.{trace_parts};
ghost use Rattle.qvt_trace_text.specs.Written.{IsWrittenRun};

use crate::entries::entry_values;
use crate::entry::WrittenEntry;
use crate::members::{file_bytes, put_list};
use crate::records::record_values;
use qvt_base::list_fault::ListFault;
use qvt_base::lists::Bytes;
use qvt_model::id_table::IdTable;
use qvt_run_data::record::Record;
use qvt_run_ids::run_ids::RunIds;
use qvt_store::store::Store;
use qvt_types_program::program::Program;
use serde_json::{Map, Value};
use std::alloc::Global;

/// The records, and the late entries.
fn trace_value(
    alloc: Global,
    program: &Program,
    ids: &RunIds<'_>,
    records: &[Record],
    entries: &[WrittenEntry],
) -> Result<Value, ListFault>
    ensures { IfOk result (λ v. view v ≡ trace_parts ids.now.store.now ids.now.ids.now (program_view program.now) records.now entries.now) }
{
    let mut members = Map::new(alloc);
    let late = entry_values(alloc, program, ids, entries)?;
    put_list(alloc, &mut members, "late", late)?;
    let calls = record_values(alloc, program, ids, records)?;
    put_list(alloc, &mut members, "records", calls)?;
    Ok(Value::Object(members))
}

/// The bytes of the trace's file of a run that has ended well, by the store with its late entries carried out, the ids
/// of the files, its records, and its entries with what they found.
pub fn write_trace(
    alloc: Global,
    program: &Program,
    ids: &IdTable,
    store: &Store,
    records: &[Record],
    entries: &[WrittenEntry],
) -> Result<Bytes, ListFault>
    ensures { IfOk result (λ bytes. (f : FinishedRun) → IsWrittenRun f store.now records.now entries.now → bytes ≡ trace_text (program_view program.now) ids.now f) }
{
    let all = RunIds::new(alloc, store, ids)?;
    let value = trace_value(alloc, program, &all, records, entries)?;
    let bytes = file_bytes(alloc, &value)?;
    Ok(bytes)
}
