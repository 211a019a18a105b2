//! Objects and values in a trace.

ghost use Rattle.std.specs.Prelude.{◌≡◌, IfOk, map};
ghost use Rattle.serde_json.specs.View.{items_view, view};
ghost use Rattle.qvt_meaning_report.specs.TraceText as report;
ghost use Rattle.qvt_trace_text.specs.Parts.{coll_data, literal_data};

use crate::members::{put_list, put_text, single, text_value};
use crate::paths::literal_path;
use crate::words::kind_name;
use qvt_base::list_fault::ListFault;
use qvt_base::numbers::Oid;
use qvt_base::seq::Seq;
use qvt_metas::metas::Metas;
use qvt_run_ids::run_ids::RunIds;
use qvt_value::value::{Kind, LiteralRef, Value as Item};
use serde_json::{Map, Value};
use std::alloc::Global;

/// An object, by its model and its id.
pub fn object_value(alloc: Global, ids: &RunIds<'_>, object: Oid) -> Result<Value, ListFault>
    ensures { IfOk result (λ v. view v ≡ report.object_data ids.now.store.now ids.now.ids.now object) }
{
    let path = ids.path(alloc, object)?;
    single(alloc, "object", path.as_str())
}

/// An object, or null.
pub fn end_value(alloc: Global, ids: &RunIds<'_>, end: Option<Oid>) -> Result<Value, ListFault>
    ensures { IfOk result (λ v. view v ≡ report.end_data ids.now.store.now ids.now.ids.now end) }
{
    match end {
        None => Ok(Value::Null),
        Some(object) => object_value(alloc, ids, object),
    }
}

/// Each of the objects.
pub fn object_values(
    alloc: Global,
    ids: &RunIds<'_>,
    objects: &[Oid],
) -> Result<Seq<Value>, ListFault>
    ensures { IfOk result (λ vs. map view vs ≡ map (report.object_data ids.now.store.now ids.now.ids.now) objects.now) }
{
    let mut values = Seq::new(alloc);
    for object in objects {
        values.push(object_value(alloc, ids, *object)?)?;
    }
    Ok(values)
}

/// A literal, by its name.
fn literal_value(alloc: Global, metas: &Metas, literal: LiteralRef) -> Result<Value, ListFault>
    ensures { IfOk result (λ v. view v ≡ literal_data metas.now literal) }
{
    let path = literal_path(alloc, metas, literal)?;
    single(alloc, "enum", path.as_str())
}

/// A collection of these items.
fn coll_value(alloc: Global, kind: Kind, items: Seq<Value>) -> Result<Value, ListFault>
    ensures { IfOk result (λ v. view v ≡ coll_data kind (items_view items)) }
{
    let mut members = Map::new(alloc);
    put_list(alloc, &mut members, "items", items)?;
    put_text(alloc, &mut members, "kind", kind_name(kind))?;
    Ok(Value::Object(members))
}

/// A value of OCL.
#[cycle(values)]
fn item_value(alloc: Global, ids: &RunIds<'_>, item: &Item) -> Result<Value, ListFault>
    ensures { IfOk result (λ v. view v ≡ report.value_data ids.now.store.now ids.now.ids.now item.now) }
{
    match item {
        Item::Null => Ok(Value::Null),
        Item::Bool(truth) => Ok(Value::Bool(*truth)),
        Item::Int(number) => Ok(Value::from(*number)),
        Item::Str(text) => text_value(alloc, text.as_str()),
        Item::Enum(literal) => literal_value(alloc, ids.store.metas(), *literal),
        Item::Obj(object) => object_value(alloc, ids, *object),
        Item::Coll(kind, items) => {
            let values = item_values(alloc, ids, items.as_slice())?;
            coll_value(alloc, *kind, values)
        }
        Item::Invalid(_, _) => Ok(Value::Null),
    }
}

/// Each of the values.
#[cycle(values)]
pub fn item_values(alloc: Global, ids: &RunIds<'_>, items: &[Item]) -> Result<Seq<Value>, ListFault>
    ensures { IfOk result (λ vs. map view vs ≡ map (report.value_data ids.now.store.now ids.now.ids.now) items.now) }
{
    let mut values = Seq::new(alloc);
    for item in items {
        values.push(item_value(alloc, ids, item)?)?;
    }
    Ok(values)
}
