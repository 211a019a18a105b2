//! Tests of objects with a class, casts, and selections by class (OCL 2.4, 11.3.3 and 11.7.1).

ghost use Rattle.std.specs.Prelude.{◌≡◌, IfOk, filter};
ghost use Rattle.std.specs.List.{list_all};
ghost use Rattle.qvt_store.specs.Contents.{class_of};
ghost use Rattle.qvt_run_rules.specs.Expressions.{object_test, tested, is_object, is_selected, selected};

use crate::collections::built;
use qvt_base::copied::Copied;
use qvt_base::list_fault::ListFault;
use qvt_base::numbers::{ClassNo, Oid, Place};
use qvt_base::seq::Seq;
use qvt_checks::store::Store;
use qvt_run_rules::questions::ObjectTest;
use qvt_value::value::{Kind, Reason, Value, Values};
use std::alloc::Global;

/// The class of an object, 0 where the object is not there.
pub(crate) fn class_of(store: &Store, object: Oid) -> ClassNo
    ensures { result.0 ≡ class_of store.now object.0 }
{
    if object.0 < store.len() {
        store.class_of(object)
    } else {
        ClassNo(0)
    }
}

/// What the test or cast of an object gives, with a class.
fn answer_of(store: &Store, test: ObjectTest, class: ClassNo, place: Place, object: Oid) -> Value
    ensures { result ≡ object_test store.now test class.0 place object }
{
    let own = class_of(store, object);
    match test {
        ObjectTest::IsKindOf => Value::Bool(store.metas().descends(own, class)),
        ObjectTest::IsTypeOf => Value::Bool(own.0 == class.0),
        ObjectTest::AsType => {
            if store.metas().descends(own, class) {
                Value::Obj(object)
            } else {
                Value::Invalid(Reason::CastFailed, place)
            }
        }
    }
}

/// What the test or cast of a value gives, None where the value is no object of the store, null or
/// invalid.
pub fn tested(
    store: &Store,
    test: ObjectTest,
    class: ClassNo,
    place: Place,
    value: &Value,
) -> Option<Value>
    ensures { result ≡ tested store.now test class.0 place value.now }
{
    match value {
        Value::Invalid(reason, cause) => Some(Value::Invalid(*reason, *cause)),
        Value::Null => Some(Value::Invalid(Reason::NullSource, place)),
        Value::Obj(object) => {
            if object.0 < store.len() {
                Some(answer_of(store, test, class, place, *object))
            } else {
                None
            }
        }
        _ => None,
    }
}

fn is_object(store: &Store, value: &Value) -> bool
    ensures { result ≡ is_object store.now value.now }
{
    match value {
        Value::Null => true,
        Value::Obj(object) => object.0 < store.len(),
        _ => false,
    }
}

fn are_objects(store: &Store, values: &[Value]) -> bool
    ensures { result ≡ list_all (is_object store.now) values.now }
{
    values.iter().all(|value| is_object(store, value))
}

/// Whether the value is an object of the class: of it alone, or of one below it too.
fn is_selected(store: &Store, exact: bool, class: ClassNo, value: &Value) -> bool
    ensures { result ≡ is_selected store.now exact class.0 value.now }
{
    match value {
        Value::Obj(object) => {
            let own = class_of(store, *object);
            if exact {
                own.0 == class.0
            } else {
                store.metas().descends(own, class)
            }
        }
        _ => false,
    }
}

/// The objects of the class, in order.
fn chosen(
    alloc: Global,
    store: &Store,
    exact: bool,
    class: ClassNo,
    items: &[Value],
) -> Result<Values, ListFault>
    ensures { IfOk result (λ kept. kept ≡ filter (is_selected store.now exact class.0) items.now) }
{
    let mut kept = Seq::new(alloc);
    for item in items {
        if is_selected(store, exact, class, item) {
            kept.push(item.copy(alloc)?)?;
        }
    }
    Ok(kept)
}

/// The collection of the objects of the class: of it alone, or of those below it too. None where an
/// item is neither an object of the store nor null.
pub fn selected(
    alloc: Global,
    store: &Store,
    exact: bool,
    class: ClassNo,
    place: Place,
    kind: Kind,
    items: Values,
) -> Result<Option<Value>, ListFault>
    ensures { IfOk result (λ value. value ≡ selected store.now exact class.0 place kind items) }
{
    if !are_objects(store, items.as_slice()) {
        return Ok(None);
    }
    let kept = chosen(alloc, store, exact, class, items.as_slice())?;
    let value = built(alloc, place, kind, kept)?;
    Ok(Some(value))
}
