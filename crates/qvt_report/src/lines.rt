//! The line of what a program means.

ghost use Rattle.std.specs.Prelude.{◌≡◌, ℕ, List, Err, IfOk, Ok, Option, string_bytes};
ghost use Rattle.qvt_meaning.specs.Run.{FinishedRun};
ghost use Rattle.qvt_meaning_report.specs.Lines as lines;
ghost use Rattle.qvt_lines.specs.Lines.{out_of_fuel_line};
ghost use Rattle.qvt_meaning_report.specs.Meaning.{outcome_of};
ghost use Rattle.qvt_report.specs.Lines.{IsDone, done_text, line_for};

use crate::extents::{low_in, written_count};
use crate::names::fault_name;
use qvt_base::list_fault::ListFault;
use qvt_base::lists::Bytes;
use qvt_base::numbers::Place;
use qvt_base::seq::Seq;
use qvt_conform::fault::LowFault;
use qvt_model::id_table::IdTable;
use qvt_run_data::exit::End;
use qvt_run_data::fault::RunFault;
use qvt_run_ids::run_ids::RunIds;
use qvt_store::store::Store;
use std::alloc::Global;

fn bytes_of(line: String) -> Bytes
    ensures { result ≡ string_bytes line }
{
    Seq::from_vec(line.into_bytes())
}

/// The line of a fault.
fn fault_line(alloc: Global, file: &str, fault: RunFault, place: Place) -> Result<Bytes, ListFault>
    ensures { IfOk result (λ line. line ≡ lines.fault_line file.now fault place) }
{
    let name = fault_name(fault);
    let row = place.line;
    let column = place.column;
    let Ok(line) = format!(in alloc; "fault: {file}: {name} at {row}:{column}\n") else {
        return Err(ListFault::NoMemory);
    };
    Ok(bytes_of(line))
}

/// The line that a charge would have passed the fuel.
fn out_of_fuel_line(alloc: Global, fuel: u64) -> Result<Bytes, ListFault>
    ensures { IfOk result (λ line. line ≡ out_of_fuel_line fuel) }
{
    let Ok(line) = format!(in alloc; "out of fuel: {fuel}\n") else {
        return Err(ListFault::NoMemory);
    };
    Ok(bytes_of(line))
}

/// The line of a run that has ended before its last statement, by the name of the program's file and the fuel.
pub fn end_line(alloc: Global, file: &str, fuel: u64, end: End) -> Result<Bytes, ListFault>
    ensures { (ids : List (Option (List ℕ))) → IfOk result (λ line. line ≡ lines.line_of file.now fuel ids (outcome_of (Err end))) }
{
    match end {
        End::Fault(fault, place) => fault_line(alloc, file, fault, place),
        End::OutOfFuel => out_of_fuel_line(alloc, fuel),
    }
}

/// The line that an object has too few items for a feature.
fn low_line(alloc: Global, store: &Store, ids: &IdTable, low: LowFault) -> Result<Bytes, ListFault>
    ensures { IfOk result (λ line. line ≡ lines.low_fault_line store.now ids.now low) }
{
    let all = RunIds::new(alloc, store, ids)?;
    let id = all.id(alloc, low.object)?;
    let id = id.as_str();
    let model = all.model_name(low.object);
    let feature = store.metas().feature_name(low.feature);
    let Ok(line) = format!(in alloc; "low: {model}:{id} {feature}\n") else {
        return Err(ListFault::NoMemory);
    };
    Ok(bytes_of(line))
}

/// The line of a run without such a slot, by its store, how many records and entries there are, and the cost.
pub fn done_line(
    alloc: Global,
    store: &Store,
    records: usize,
    entries: usize,
    cost: u64,
) -> Result<Bytes, ListFault>
    ensures { IfOk result (λ line. line ≡ done_text (lines.written_count store.now) records entries cost) }
{
    let objects = written_count(alloc, store)?;
    let Ok(line) = format!(in alloc;
        "done: {objects} objects, {records} records, {entries} late, cost {cost}\n"
    ) else {
        return Err(ListFault::NoMemory);
    };
    Ok(bytes_of(line))
}

/// The line of such a slot, or of a run without one.
fn line_for(
    alloc: Global,
    store: &Store,
    ids: &IdTable,
    low: Option<LowFault>,
    records: usize,
    entries: usize,
    cost: u64,
) -> Result<Bytes, ListFault>
    ensures { IfOk result (λ line. line ≡ line_for store.now ids.now records entries cost low) }
{
    match low {
        Some(low) => low_line(alloc, store, ids, low),
        None => done_line(alloc, store, records, entries, cost),
    }
}

/// The line of a run that has ended well, by the store with its late entries carried out, the ids of the files, how many
/// records and entries there are, and the cost.
pub fn finished_line(
    alloc: Global,
    store: &Store,
    ids: &IdTable,
    records: usize,
    entries: usize,
    cost: u64,
) -> Result<Bytes, ListFault>
    ensures { IfOk result (λ line. (f : FinishedRun) → IsDone f store.now records entries cost → (file : List ℕ) (fuel : ℕ) → line ≡ lines.line_of file fuel ids.now (outcome_of (Ok f))) }
{
    let low = low_in(alloc, store)?;
    let line = line_for(alloc, store, ids, low, records, entries, cost)?;
    Ok(line)
}
