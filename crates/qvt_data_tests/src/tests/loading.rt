//! A library with its books, loaded.

use super::script::metas_of;
use qvt_base::numbers::Oid;
use qvt_base::seq::Seq;
use qvt_base::text::Text;
use qvt_checks::conditions::{are_named, can_assign};
use qvt_loading::loading::{empty_store, load_text};
use qvt_model::id_table::IdTable;
use qvt_store::extent::{Extent, ExtentList};
use qvt_store::store::Store;
use qvt_value::value::Value;
use std::alloc::Global;
use std::process::Abort;
use std::test::Fail;

const LIBRARY: &str =
    "{\"classes\":[{\"features\":[{\"containment\":true,\"name\":\"books\",\"opposite\":\"library\",\"type\":\"Book\",\"upper\":\"*\"},{\"name\":\"title\",\"type\":\"String\"}],\"name\":\"Library\"},{\"features\":[{\"name\":\"library\",\"opposite\":\"books\",\"type\":\"Library\"},{\"name\":\"pages\",\"type\":\"Integer\"}],\"name\":\"Book\"}],\"name\":\"L\"}";

const TWO_BOOKS: &str =
    "{\"objects\":[{\"class\":\"Book\",\"id\":\"b1\",\"slots\":{\"library\":\"l\",\"pages\":7}},{\"class\":\"Library\",\"id\":\"l\",\"slots\":{\"books\":[\"b2\",\"b1\"],\"title\":\"all\"}},{\"class\":\"Book\",\"id\":\"b2\",\"slots\":{\"library\":\"l\"}}]}";

fn two_models(alloc: Global) -> Result<ExtentList, Fail> {
    let mut extents = Seq::new(alloc);
    for name in ["m", "n"] {
        extents.push(Extent {
            name: Text::from_str(alloc, name)?,
            metamodel: 0,
            writable: false,
        })?;
    }
    Ok(extents)
}

/// A store of two models of the library, without objects.
fn store_of_two(rt: &impl Abort, alloc: Global) -> Result<Store, Fail> {
    let metas = metas_of(rt, alloc, LIBRARY)?;
    let extents = two_models(alloc)?;
    assert!(rt; are_named(&metas, &extents));
    let store = empty_store(alloc, &metas, &extents).ok_or("no store")?;
    Ok(store)
}

fn slot_is(store: &Store, object: u32, name: &str, values: &[Value]) -> bool {
    let object = Oid(object);
    if object.0 >= store.len() {
        return false;
    }
    match store.metas().feature(store.class_of(object), name) {
        None => false,
        Some(feature) => {
            can_assign(store, object, feature, &[]) && store.slot(object, feature) == values
        }
    }
}

/// Whether the objects from this one on are two books and their library.
fn are_books(store: &Store, first: u32) -> bool {
    let (Some(library), Some(second)) = (first.checked_add(1), first.checked_add(2)) else {
        return false;
    };
    slot_is(store, first, "library", &[Value::Obj(Oid(library))])
        && slot_is(store, first, "pages", &[Value::Int(7)])
        && slot_is(
            store,
            library,
            "books",
            &[Value::Obj(Oid(second)), Value::Obj(Oid(first))],
        )
        && slot_is(store, second, "library", &[Value::Obj(Oid(library))])
        && slot_is(store, second, "pages", &[])
}

fn are_told(ids: &IdTable, first: u32) -> bool {
    let (Some(library), Some(second)) = (first.checked_add(1), first.checked_add(2)) else {
        return false;
    };
    ids.id(Oid(first)) == Some("b1")
        && ids.id(Oid(library)) == Some("l")
        && ids.id(Oid(second)) == Some("b2")
}

/// Two models of one file are numbered one after the other, and their objects hold their own.
#[test]
fn two_models_are_loaded(rt: HostRuntime) -> Result<(), Fail> {
    let alloc = rt.alloc();
    let mut store = store_of_two(&rt, alloc)?;
    let mut ids = IdTable::new(alloc);
    assert!(rt; load_text(alloc, &mut store, &mut ids, TWO_BOOKS.as_bytes(), 1, 0));
    assert!(rt; load_text(alloc, &mut store, &mut ids, TWO_BOOKS.as_bytes(), 0, 0));
    assert!(rt; !load_text(alloc, &mut store, &mut ids, TWO_BOOKS.as_bytes(), 0, 0));
    assert_eq!(rt; store.len(), 6);
    assert!(rt; are_books(&store, 0) && are_told(&ids, 0));
    assert!(rt; are_books(&store, 3) && are_told(&ids, 3));
    assert_eq!(rt; ids.id(Oid(6)), None);
    Ok(())
}
