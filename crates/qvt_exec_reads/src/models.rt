//! The operations of a model (QVT 1.3, 8.3.4.1 to 8.3.4.3).

ghost use Rattle.std.specs.Prelude.{◌≡◌, IfOk, map, filter};
ghost use Rattle.qvt_value.specs.declared.value.Value.{Obj};
ghost use Rattle.qvt_value.specs.Limits.{limited};
ghost use Rattle.qvt_store.specs.Contents.{members_of};
ghost use Rattle.qvt_run_rules.specs.Expressions.{model_objects};
ghost use Rattle.qvt_run_rules.specs.Store.{is_root, ordered_set};
ghost use Rattle.qvt_exec_reads.specs.Asked.{is_asked};

use crate::objects::class_of;
use qvt_base::list_fault::ListFault;
use qvt_base::lists::OidList;
use qvt_base::numbers::{ClassNo, Oid, Place};
use qvt_base::seq::Seq;
use qvt_checks::store::Store;
use qvt_run_rules::questions::ModelQuery;
use qvt_value::limits::limited;
use qvt_value::value::{Kind, Value, Values};
use std::alloc::Global;

/// Whether the object stands in no containment slot.
fn is_root(store: &Store, object: Oid) -> bool
    ensures { result ≡ is_root store.now object }
{
    store.is_whole();
    let at = object.0;
    if at >= store.len() {
        return true;
    }
    match store.container(object) {
        None => true,
        Some(_) => false,
    }
}

/// Whether the operation gives this object of its model.
fn is_asked(store: &Store, query: ModelQuery, object: Oid) -> bool
    ensures { result ≡ is_asked store.now query object }
{
    match query {
        ModelQuery::Objects => true,
        ModelQuery::RootObjects => is_root(store, object),
        ModelQuery::ObjectsOfType(class) => {
            store
                .metas()
                .descends(class_of(store, object), ClassNo(class))
        }
    }
}

/// The objects that the operation gives of these.
fn asked_of(
    alloc: Global,
    store: &Store,
    query: ModelQuery,
    members: &[Oid],
) -> Result<Values, ListFault>
    ensures { IfOk result (λ objects. objects ≡ map Obj (filter (is_asked store.now query) members.now)) }
{
    let mut objects = Seq::new(alloc);
    for object in members {
        if is_asked(store, query, *object) {
            objects.push(Value::Obj(*object))?;
        }
    }
    Ok(objects)
}

/// The objects of an extent, looked for among all. Where the extent is not there it has none, which
/// a store does not tell of itself.
#[tactic(auto, using(crate::proofs::Asked::next_member))]
fn looked_for(alloc: Global, store: &Store, extent: u32) -> Result<OidList, ListFault>
    ensures { IfOk result (λ members. members ≡ members_of store.now extent) }
{
    let mut members = Seq::new(alloc);
    for number in 0..store.len() {
        if store.extent_of(Oid(number)) == extent {
            members.push(Oid(number))?;
        }
    }
    Ok(members)
}

/// The objects that the operation of a model gives, in order.
#[tactic(auto, using(crate::proofs::Asked::asked_objects))]
fn model_objects(
    alloc: Global,
    store: &Store,
    query: ModelQuery,
    extent: u32,
) -> Result<Values, ListFault>
    ensures { IfOk result (λ objects. objects ≡ map Obj (model_objects store.now query extent)) }
{
    if (extent as usize) < store.extents().len() {
        return asked_of(alloc, store, query, store.extent(extent));
    }
    let members = looked_for(alloc, store, extent)?;
    asked_of(alloc, store, query, members.as_slice())
}

/// The OrderedSet that the operation of a model gives, or TooLarge.
pub fn model_value(
    alloc: Global,
    store: &Store,
    query: ModelQuery,
    extent: u32,
    place: Place,
) -> Result<Value, ListFault>
    ensures { IfOk result (λ value. value ≡ limited place (ordered_set (model_objects store.now query extent))) }
{
    let objects = model_objects(alloc, store, query, extent)?;
    Ok(limited(place, Value::Coll(Kind::OrderedSet, objects)))
}
