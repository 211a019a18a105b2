ghost use Rattle.std.specs.Prelude.{◌≡◌, [], List, map, IfOk, option_map, unwrap_or};
ghost use Rattle.std.specs.List.{list_any};
ghost use Rattle.std.specs.Str.{bytes_eq};
ghost use Rattle.serde_json.specs.View.{view, items_view, members_view};
ghost use Rattle.qvt_json.specs.Json.{json, text_at, count_under, flag_at, items_at, members_at, text_or, text_of, texts_at, map_items, has_only};

use qvt_base::list_fault::ListFault;
use qvt_base::lists::NameList;
use qvt_base::text::Text;
use serde_json::{Map, Value};
use std::alloc::Global;
use std::str;

/// The value of a file, None where it has none.
pub fn read_value(alloc: Global, bytes: &[u8]) -> Result<Option<Value>, ListFault>
    ensures { IfOk result (λ o. option_map view o ≡ json bytes.now) }
{
    let Ok(text) = str::from_utf8(bytes) else {
        return Ok(None);
    };
    match Value::from_str(alloc, text) {
        Ok(value) => Ok(Some(value)),
        Err(e) if e.is_memory() => Err(ListFault::NoMemory),
        Err(_) => Ok(None),
    }
}

/// The text at a key.
pub fn text_at<'a>(value: &'a Value, key: &str) -> Option<&'a str>
    ensures { option_map (λ s. s.now) result ≡ text_at key.now (view value.now) }
{
    value.get(key)?.as_str()
}

/// The text at a key, empty where there is none.
pub fn text_or<'a>(value: &'a Value, key: &str) -> &'a str
    ensures { result.now ≡ text_or key.now (view value.now) }
{
    let Some(text) = text_at(value, key) else {
        return "";
    };
    text
}

/// The whole number without a sign at a key.
pub fn number_at(value: &Value, key: &str) -> Option<u64>
    ensures { result ≡ count_under key.now (view value.now) }
{
    value.get(key)?.as_u64()
}

/// The true or false at a key.
pub fn flag_at(value: &Value, key: &str) -> Option<bool>
    ensures { result ≡ flag_at key.now (view value.now) }
{
    value.get(key)?.as_bool()
}

/// The list at a key.
pub fn items_at<'a>(value: &'a Value, key: &str) -> Option<&'a Vec<Value>>
    ensures { option_map (λ v. items_view v.now.items) result ≡ items_at key.now (view value.now) }
{
    value.get(key)?.as_array()
}

/// The members of the object at a key.
pub fn members_at<'a>(value: &'a Value, key: &str) -> Option<&'a Map<String, Value>>
    ensures { option_map (λ m. members_view m.now.entries) result ≡ members_at key.now (view value.now) }
{
    value.get(key)?.as_object()
}

/// The texts that the items are.
pub fn text_list(alloc: Global, items: &Vec<Value>) -> Result<NameList, ListFault>
    ensures { IfOk result (λ texts. texts ≡ map_items text_of (items_view items.now.items)) }
{
    let mut texts = NameList::new(alloc);
    for item in items {
        let text = item.as_str().unwrap_or("");
        texts.push(Text::from_str(alloc, text)?)?;
    }
    Ok(texts)
}

/// The texts of the list at a key, none where there is no list.
pub fn texts_at(alloc: Global, value: &Value, key: &str) -> Result<NameList, ListFault>
    ensures { IfOk result (λ texts. texts ≡ texts_at key.now (view value.now)) }
{
    match items_at(value, key) {
        Some(items) => text_list(alloc, items),
        None => Ok(NameList::new(alloc)),
    }
}

/// Whether the key is one of these.
fn is_key(keys: &[&str], key: &str) -> bool
    ensures { result ≡ list_any (λ x. bytes_eq x key.now) (map (λ x. x.now) keys.now) }
{
    for other in keys {
        if *other == key {
            return true;
        }
    }
    false
}

/// Whether the value is an object with no keys but these.
pub fn has_only(value: &Value, keys: &[&str]) -> bool
    ensures { result ≡ has_only (map (λ x. x.now) keys.now) (view value.now) }
{
    let Some(members) = value.as_object() else {
        return false;
    };
    for (key, _) in members.iter() {
        if !is_key(keys, key.as_str()) {
            return false;
        }
    }
    true
}
