//! JSON values as they are made and written.

ghost use Rattle.std.specs.Prelude.{◌≡◌, IfOk, OnOk, false};
ghost use Rattle.serde_json.specs.Data.{array, boolean, put, string};
ghost use Rattle.serde_json.specs.View.{items_view, members_view, view};
ghost use Rattle.serde_json.specs.Written.{has_float};
ghost use Rattle.qvt_json.specs.Plain.{file_text};
ghost use Rattle.qvt_meaning_report.specs.TraceText.{one};

use qvt_base::list_fault::ListFault;
use qvt_base::lists::Bytes;
use qvt_base::seq::Seq;
use serde_json::{Map, Value};
use std::alloc::Global;

/// An object as it is made, by its keys.
pub type Members = Map<String, Value>;

/// A text as a JSON value.
pub fn text_value(alloc: Global, text: &str) -> Result<Value, ListFault>
    ensures { IfOk result (λ v. view v ≡ string text.now) }
{
    match String::from_str(alloc, text) {
        Ok(text) => Ok(Value::String(text)),
        Err(_) => Err(ListFault::NoMemory),
    }
}

/// Puts a value at a key.
pub fn put(alloc: Global, members: &mut Members, key: &str, value: Value) -> Result<(), ListFault>
    ensures { OnOk result (members_view members.new.entries ≡ put key.now (view value) (members_view members.old.entries)) }
{
    let Ok(key) = String::from_str(alloc, key) else {
        return Err(ListFault::NoMemory);
    };
    let Ok(_) = members.insert(key, value) else {
        return Err(ListFault::NoMemory);
    };
    Ok(())
}

/// Puts a text at a key.
pub fn put_text(
    alloc: Global,
    members: &mut Members,
    key: &str,
    text: &str,
) -> Result<(), ListFault>
    ensures { OnOk result (members_view members.new.entries ≡ put key.now (string text.now) (members_view members.old.entries)) }
{
    let value = text_value(alloc, text)?;
    put(alloc, members, key, value)
}

/// Puts a list at a key.
pub fn put_list(
    alloc: Global,
    members: &mut Members,
    key: &str,
    items: Seq<Value>,
) -> Result<(), ListFault>
    ensures { OnOk result (members_view members.new.entries ≡ put key.now (array (items_view items)) (members_view members.old.entries)) }
{
    put(alloc, members, key, Value::Array(items.into_vec()))
}

/// Puts true or false at a key.
pub fn put_flag(
    alloc: Global,
    members: &mut Members,
    key: &str,
    flag: bool,
) -> Result<(), ListFault>
    ensures { OnOk result (members_view members.new.entries ≡ put key.now (boolean flag) (members_view members.old.entries)) }
{
    put(alloc, members, key, Value::Bool(flag))
}

/// An object of one member, which is a text.
pub fn single(alloc: Global, key: &str, text: &str) -> Result<Value, ListFault>
    ensures { IfOk result (λ v. view v ≡ one key.now (string text.now)) }
{
    let mut members = Map::new(alloc);
    put_text(alloc, &mut members, key, text)?;
    Ok(Value::Object(members))
}

/// The text of a file with this value. The value has whole numbers alone.
pub fn file_bytes(alloc: Global, value: &Value) -> Result<Bytes, ListFault>
    requires { has_float (view value.now) ≡ false }
    ensures { IfOk result (λ bytes. bytes ≡ file_text (view value.now)) }
{
    let Ok(mut text) = value.to_vec(alloc) else {
        return Err(ListFault::NoMemory);
    };
    match text.push(b'\n') {
        Ok(()) => Ok(Bytes::from_vec(text)),
        Err(_) => Err(ListFault::NoMemory),
    }
}
