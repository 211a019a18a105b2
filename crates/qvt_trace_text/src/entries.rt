//! The late entries of a trace.

ghost use Rattle.std.specs.Prelude.{◌≡◌, IfOk, OnOk, map};
ghost use Rattle.serde_json.specs.Data.{string};
ghost use Rattle.serde_json.specs.View.{members_view, view};
ghost use Rattle.qvt_meaning_report.specs.TraceText as report;
ghost use Rattle.qvt_types_program.specs.Program.{program_view};
ghost use Rattle.qvt_trace_text.specs.Parts.{entry_data, put_form, put_found, put_request, put_slot};
ghost use Rattle.qvt_trace_text.specs.Words.{sources_data, within_data};

use crate::entry::WrittenEntry;
use crate::members::{Members, put, put_flag, put_list, put_text, text_value};
use crate::paths::{class_path, mapping_path};
use crate::values::{object_value, object_values};
use crate::words::{form_name, op_name};
use qvt_base::list_fault::ListFault;
use qvt_base::lists::{MappingList, OidList};
use qvt_base::numbers::MappingNo;
use qvt_base::seq::Seq;
use qvt_run_data::late::LateWrite;
use qvt_run_data::request::Request;
use qvt_run_ids::run_ids::RunIds;
use qvt_types_program::program::Program;
use serde_json::{Map, Value};
use std::alloc::Global;

/// The names of the mappings.
fn mapping_values(
    alloc: Global,
    program: &Program,
    mappings: &[MappingNo],
) -> Result<Seq<Value>, ListFault>
    ensures { IfOk result (λ vs. map view vs ≡ map (λ m. string (report.mapping_path (program_view program.now) m.0)) mappings.now) }
{
    let mut values = Seq::new(alloc);
    for mapping in mappings {
        values.push(text_value(alloc, mapping_path(program, *mapping))?)?;
    }
    Ok(values)
}

/// The mappings whose records alone are looked at, or null.
fn within_value(
    alloc: Global,
    program: &Program,
    within: &Option<MappingList>,
) -> Result<Value, ListFault>
    ensures { IfOk result (λ v. view v ≡ within_data (program_view program.now) within.now) }
{
    match within {
        None => Ok(Value::Null),
        Some(mappings) => {
            let values = mapping_values(alloc, program, mappings.as_slice())?;
            Ok(Value::Array(values.into_vec()))
        }
    }
}

/// The sources, or null where the source is missing.
fn sources_value(
    alloc: Global,
    ids: &RunIds<'_>,
    sources: &Option<OidList>,
) -> Result<Value, ListFault>
    ensures { IfOk result (λ v. view v ≡ sources_data ids.now.store.now ids.now.ids.now sources.now) }
{
    match sources {
        None => Ok(Value::Null),
        Some(objects) => {
            let values = object_values(alloc, ids, objects.as_slice())?;
            Ok(Value::Array(values.into_vec()))
        }
    }
}

/// Puts what the entry found and wrote.
fn put_found(
    alloc: Global,
    ids: &RunIds<'_>,
    entry: &WrittenEntry,
    members: &mut Members,
) -> Result<(), ListFault>
    ensures { OnOk result (members_view members.new.entries ≡ put_found ids.now.store.now ids.now.ids.now entry.now (members_view members.old.entries)) }
{
    let candidates = object_values(alloc, ids, entry.candidates.as_slice())?;
    put_list(alloc, members, "candidates", candidates)?;
    let values = object_values(alloc, ids, entry.values.as_slice())?;
    put_list(alloc, members, "values", values)
}

/// Puts the slot that is written, and how.
fn put_slot(
    alloc: Global,
    ids: &RunIds<'_>,
    write: &LateWrite,
    members: &mut Members,
) -> Result<(), ListFault>
    ensures { OnOk result (members_view members.new.entries ≡ put_slot ids.now.store.now ids.now.ids.now write.now (members_view members.old.entries)) }
{
    let feature = ids.store.metas().feature_name(write.feature);
    put_text(alloc, members, "feature", feature)?;
    let object = object_value(alloc, ids, write.object)?;
    put(alloc, members, "object", object)?;
    put_text(alloc, members, "op", op_name(write.op))
}

/// Puts the request.
fn put_request(
    alloc: Global,
    program: &Program,
    ids: &RunIds<'_>,
    request: &Request,
    members: &mut Members,
) -> Result<(), ListFault>
    ensures { OnOk result (members_view members.new.entries ≡ put_request ids.now.store.now ids.now.ids.now (program_view program.now) request.now (members_view members.old.entries)) }
{
    let within = within_value(alloc, program, &request.within)?;
    put(alloc, members, "in", within)?;
    let sources = sources_value(alloc, ids, &request.sources)?;
    put(alloc, members, "sources", sources)?;
    let class = class_path(alloc, ids.store.metas(), request.class)?;
    put_text(alloc, members, "type", class.as_str())
}

/// Puts the resolve word, and whether there is a condition.
fn put_form(alloc: Global, write: &LateWrite, members: &mut Members) -> Result<(), ListFault>
    ensures { OnOk result (members_view members.new.entries ≡ put_form write.now (members_view members.old.entries)) }
{
    put_flag(alloc, members, "condition", write.condition.is_some())?;
    put_text(alloc, members, "form", form_name(&write.request, write.one))
}

/// An entry.
#[tactic(auto, unfolding(crate::specs::Parts::entry_data))]
fn entry_value(
    alloc: Global,
    program: &Program,
    ids: &RunIds<'_>,
    entry: &WrittenEntry,
) -> Result<Value, ListFault>
    ensures { IfOk result (λ v. view v ≡ entry_data ids.now.store.now ids.now.ids.now (program_view program.now) entry.now) }
{
    let mut members = Map::new(alloc);
    put_found(alloc, ids, entry, &mut members)?;
    put_slot(alloc, ids, &entry.write, &mut members)?;
    put_request(alloc, program, ids, &entry.write.request, &mut members)?;
    put_form(alloc, &entry.write, &mut members)?;
    Ok(Value::Object(members))
}

/// Each of the entries.
pub fn entry_values(
    alloc: Global,
    program: &Program,
    ids: &RunIds<'_>,
    entries: &[WrittenEntry],
) -> Result<Seq<Value>, ListFault>
    ensures { IfOk result (λ vs. map view vs ≡ map (entry_data ids.now.store.now ids.now.ids.now (program_view program.now)) entries.now) }
{
    let mut values = Seq::new(alloc);
    for entry in entries {
        values.push(entry_value(alloc, program, ids, entry)?)?;
    }
    Ok(values)
}
