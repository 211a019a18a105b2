ghost use Rattle.std.specs.Prelude.{◌≡◌, List, ℕ, Option, IfOk, decimal, true, false, Some, option_map};
ghost use Rattle.serde_json.specs.Data.{Data};
ghost use Rattle.serde_json.specs.Find.{get};
ghost use Rattle.serde_json.specs.View.{view, items_view};
ghost use Rattle.qvt_json.specs.Shape.{under, items_fault, key_fault, form_of_list, shown};

use qvt_base::list_fault::ListFault;
use qvt_base::text::Text;
use serde_json::Value;
use std::alloc::Global;

/// The form that a value is to have.
pub trait Form {
    ghost form: { Self → Data → Option (List ℕ) };

    /// The path of the first fault in the value, from the value on. No path is made for a value without fault.
    fn fault(&self, alloc: Global, value: &Value) -> Result<Option<Text>, ListFault>
        ensures { IfOk result (λ o. o ≡ form self.now (view value.now)) };
}

/// A path inside, seen from outside: the key that leads there stands before it.
pub fn under_key(alloc: Global, key: &str, path: &str) -> Result<Text, ListFault>
    ensures { IfOk result (λ t. Some t ≡ under key.now (Some path.now)) }
{
    match format!(in alloc; "/{key}{path}") {
        Ok(text) => Ok(Text::from_string(text)),
        Err(_) => Err(ListFault::NoMemory),
    }
}

/// A path inside, seen from outside: the index that leads there stands before it.
pub fn under_index(alloc: Global, index: usize, path: &str) -> Result<Text, ListFault>
    ensures { IfOk result (λ t. Some t ≡ under (decimal index) (Some path.now)) }
{
    match format!(in alloc; "/{index}{path}") {
        Ok(text) => Ok(Text::from_string(text)),
        Err(_) => Err(ListFault::NoMemory),
    }
}

/// The first fault among the items of a list.
pub fn items_fault<F: Form>(
    alloc: Global,
    form: &F,
    items: &Vec<Value>,
) -> Result<Option<Text>, ListFault>
    ensures { IfOk result (λ o. o ≡ items_fault (F.form form.now) 0 (items_view items.now.items)) }
{
    for (i, item) in items.iter().enumerate() {
        if let Some(path) = form.fault(alloc, item)? {
            return Ok(Some(under_index(alloc, i, path.as_str())?));
        }
    }
    Ok(None)
}

/// The fault at a key that has to be there.
pub fn required_fault<F: Form>(
    alloc: Global,
    value: &Value,
    key: &str,
    form: &F,
) -> Result<Option<Text>, ListFault>
    ensures { IfOk result (λ o. o ≡ key_fault key.now true (F.form form.now) (get key.now (view value.now))) }
{
    let Some(inner) = value.get(key) else {
        return Ok(Some(under_key(alloc, key, "")?));
    };
    let Some(path) = form.fault(alloc, inner)? else {
        return Ok(None);
    };
    Ok(Some(under_key(alloc, key, path.as_str())?))
}

/// The fault at a key that may be there.
pub fn optional_fault<F: Form>(
    alloc: Global,
    value: &Value,
    key: &str,
    form: &F,
) -> Result<Option<Text>, ListFault>
    ensures { IfOk result (λ o. o ≡ key_fault key.now false (F.form form.now) (get key.now (view value.now))) }
{
    let Some(inner) = value.get(key) else {
        return Ok(None);
    };
    let Some(path) = form.fault(alloc, inner)? else {
        return Ok(None);
    };
    Ok(Some(under_key(alloc, key, path.as_str())?))
}

/// A list, each item of this form.
pub struct ListOf<F> {
    pub item: F,
}

impl<F: Form> Form for ListOf<F> {
    ghost form = { λ l. form_of_list (F.form l.item) };

    fn fault(&self, alloc: Global, value: &Value) -> Result<Option<Text>, ListFault> {
        let Some(items) = value.as_array() else {
            return Ok(Some(Text::new(alloc)));
        };
        items_fault(alloc, &self.item, items)
    }
}

/// The path of a value's first fault, from the root: `/key/0/key`, and `/` where the value itself is at fault.
pub fn shape_fault<F: Form>(
    alloc: Global,
    form: &F,
    value: &Value,
) -> Result<Option<Text>, ListFault>
    ensures { IfOk result (λ o. o ≡ option_map shown (F.form form.now (view value.now))) }
{
    let Some(path) = form.fault(alloc, value)? else {
        return Ok(None);
    };
    if path.is_empty() {
        return Ok(Some(Text::from_str(alloc, "/")?));
    }
    Ok(Some(path))
}
