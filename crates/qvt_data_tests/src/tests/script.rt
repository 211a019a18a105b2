//! Stores made from a metamodel's text and a list of classes, and changed as lines say.

use qvt_base::numbers::{FeatureNo, Oid};
use qvt_base::seq::Seq;
use qvt_base::text::Text;
use qvt_checks::conditions::{are_named, can_assign, can_place, is_class_for};
use qvt_meta::meta::read_meta;
use qvt_metas::metas::Metas;
use qvt_store::extent::{Extent, ExtentList};
use qvt_store::fault::StoreFault;
use qvt_store::op::SetOp;
use qvt_store::store::Store;
use qvt_value::value::{Value, Values};
use std::alloc::Global;
use std::process::Abort;
use std::test::Fail;

/// The one metamodel of this text.
pub fn metas_of(rt: &impl Abort, alloc: Global, meta: &str) -> Result<Metas, Fail> {
    let Ok(meta) = read_meta(alloc, meta.as_bytes()) else {
        return Err(Fail::new("a metamodel that is refused"));
    };
    let mut metas = Metas::new(alloc);
    assert!(rt; metas.has_room(&meta));
    match metas.add(meta) {
        Ok(()) => Ok(metas),
        Err(_) => Err(Fail::new("no memory for the metamodel")),
    }
}

fn extent(alloc: Global, name: &str, writable: bool) -> Result<Extent, Fail> {
    Ok(Extent {
        name: Text::from_str(alloc, name)?,
        metamodel: 0,
        writable,
    })
}

/// Two models that can be changed, and a third that can not.
pub fn three_models(alloc: Global) -> Result<ExtentList, Fail> {
    let mut extents = Seq::new(alloc);
    extents.push(extent(alloc, "m", true)?)?;
    extents.push(extent(alloc, "n", true)?)?;
    extents.push(extent(alloc, "r", false)?)?;
    Ok(extents)
}

/// A store with these objects, each as `Class` or `Class@extent`.
pub fn store_of(rt: &impl Abort, alloc: Global, meta: &str, objects: &str) -> Result<Store, Fail> {
    let metas = metas_of(rt, alloc, meta)?;
    let extents = three_models(alloc)?;
    assert!(rt; are_named(&metas, &extents));
    let mut store = Store::new(alloc, &metas, &extents)?;
    for word in objects.split_whitespace() {
        let (name, extent) = word.split_once('@').unwrap_or((word, "0"));
        let class = store.metas().class(0, name).ok_or("no such class")?;
        let extent = extent.parse::<u32>()?;
        assert!(rt; is_class_for(&store, class, extent));
        store.add_object(class, extent)?;
    }
    Ok(store)
}

/// A number of an object, or an Integer behind `#`, or a String behind `'`.
fn value_of(alloc: Global, word: &str) -> Result<Value, Fail> {
    if let Some(digits) = word.strip_prefix('#') {
        return Ok(Value::Int(digits.parse::<i64>()?));
    }
    if let Some(text) = word.strip_prefix('\'') {
        return Ok(Value::Str(Text::from_str(alloc, text)?));
    }
    Ok(Value::Obj(Oid(word.parse::<u32>()?)))
}

fn values_of(alloc: Global, words: &str) -> Result<Values, Fail> {
    let mut values = Seq::new(alloc);
    for word in words.split_whitespace() {
        values.push(value_of(alloc, word)?)?;
    }
    Ok(values)
}

/// The object and the feature that a slot is named by, as `0.parts`.
fn slot_of(rt: &impl Abort, store: &Store, slot: &str) -> Result<(Oid, FeatureNo), Fail> {
    let (number, name) = slot.split_once('.').ok_or("a slot")?;
    let object = Oid(number.parse::<u32>()?);
    assert!(rt; object.0 < store.len());
    let feature = store
        .metas()
        .feature(store.class_of(object), name)
        .ok_or("no such feature")?;
    Ok((object, feature))
}

fn assigned(
    rt: &impl Abort,
    alloc: Global,
    store: &mut Store,
    slot: &str,
    words: &str,
) -> Result<Result<(), StoreFault>, Fail> {
    let (object, feature) = slot_of(rt, store, slot)?;
    let values = values_of(alloc, words)?;
    assert!(rt; can_assign(store, object, feature, values.as_slice()));
    Ok(store.assign(object, feature, values.as_slice()))
}

fn appended(
    rt: &impl Abort,
    alloc: Global,
    store: &mut Store,
    slot: &str,
    word: &str,
) -> Result<Result<(), StoreFault>, Fail> {
    let (object, feature) = slot_of(rt, store, slot)?;
    let values = [value_of(alloc, word)?];
    assert!(rt; can_assign(store, object, feature, &values));
    Ok(store.append(object, feature, &values[0]))
}

fn extended(
    rt: &impl Abort,
    alloc: Global,
    store: &mut Store,
    slot: &str,
    words: &str,
) -> Result<Result<(), StoreFault>, Fail> {
    let (object, feature) = slot_of(rt, store, slot)?;
    let values = values_of(alloc, words)?;
    assert!(rt; can_assign(store, object, feature, values.as_slice()));
    Ok(store.extend(object, feature, values.as_slice()))
}

fn written(
    rt: &impl Abort,
    alloc: Global,
    store: &mut Store,
    slot: &str,
    op: SetOp,
    words: &str,
) -> Result<Result<(), StoreFault>, Fail> {
    let (object, feature) = slot_of(rt, store, slot)?;
    let values = values_of(alloc, words)?;
    assert!(rt; can_assign(store, object, feature, values.as_slice()));
    Ok(store.write(object, feature, op, values.as_slice()))
}

fn placed(
    rt: &impl Abort,
    alloc: Global,
    store: &mut Store,
    slot: &str,
    words: &str,
) -> Result<Result<(), StoreFault>, Fail> {
    let (object, feature) = slot_of(rt, store, slot)?;
    let values = values_of(alloc, words)?;
    assert!(rt; can_place(store, object, feature, values.as_slice()));
    Ok(store.place(object, feature, values.as_slice()))
}

/// A change is told as `SLOT := VALUES`, as `SLOT += VALUE`, as `SLOT ++ VALUES` where all are put
/// last at once, as `SLOT put VALUES` and `SLOT add VALUES` where it is written with a word or,
/// where it is placed, as `SLOT <- VALUES`.
fn changed(
    rt: &impl Abort,
    alloc: Global,
    store: &mut Store,
    change: &str,
) -> Result<Result<(), StoreFault>, Fail> {
    if let Some((slot, words)) = change.split_once(" :=") {
        return assigned(rt, alloc, store, slot, words);
    }
    if let Some((slot, words)) = change.split_once(" <-") {
        return placed(rt, alloc, store, slot, words);
    }
    if let Some((slot, words)) = change.split_once(" ++") {
        return extended(rt, alloc, store, slot, words);
    }
    if let Some((slot, words)) = change.split_once(" put") {
        return written(rt, alloc, store, slot, SetOp::Put, words);
    }
    if let Some((slot, words)) = change.split_once(" add") {
        return written(rt, alloc, store, slot, SetOp::Add, words);
    }
    let (slot, word) = change.split_once(" += ").ok_or("a change")?;
    appended(rt, alloc, store, slot, word)
}

fn tell_values(alloc: Global, line: &mut Text, values: &[Value]) -> Result<(), Fail> {
    for value in values {
        let told = match value {
            Value::Obj(object) => {
                let number = object.0;
                format!(in alloc; " {number}")?
            }
            Value::Int(number) => format!(in alloc; " #{number}")?,
            Value::Str(text) => {
                let text = text.as_str();
                format!(in alloc; " '{text}")?
            }
            _ => format!(in alloc; " ?")?,
        };
        line.push_str(told.as_str())?;
    }
    Ok(())
}

fn tell_object(
    rt: &impl Abort,
    alloc: Global,
    line: &mut Text,
    store: &Store,
    object: Oid,
) -> Result<(), Fail> {
    assert!(rt; object.0 < store.len());
    let number = object.0;
    let class = store.class_of(object);
    for feature in store.metas().features(class) {
        let values = store.slot(object, *feature);
        if !values.is_empty() {
            let name = store.metas().feature_name(*feature);
            line.push_str(format!(in alloc; "; {number}.{name}")?.as_str())?;
            tell_values(alloc, line, values)?;
        }
    }
    if let Some(container) = store.container(object) {
        let outer = container.0;
        line.push_str(format!(in alloc; "; {number} in {outer}")?.as_str())?;
    }
    Ok(())
}

/// Every slot that holds something, and what contains each object.
pub fn tell_store(
    rt: &impl Abort,
    alloc: Global,
    line: &mut Text,
    store: &Store,
) -> Result<(), Fail> {
    for number in 0..store.len() {
        tell_object(rt, alloc, line, store, Oid(number))?;
    }
    Ok(())
}

fn answer_of(answer: Result<(), StoreFault>) -> &'static str {
    match answer {
        Ok(()) => "done",
        Err(StoreFault::TooMany) => "TooMany",
        Err(StoreFault::ContainmentCycle) => "ContainmentCycle",
        Err(StoreFault::ReadOnly) => "ReadOnly",
        Err(StoreFault::CrossModel) => "CrossModel",
        Err(_) => "another fault",
    }
}

/// Makes the change of a row, which is followed by `=` and its answer with the whole store after it.
pub fn step(rt: &impl Abort, alloc: Global, store: &mut Store, row: &str) -> Result<(), Fail> {
    let (change, expected) = row.split_once(" = ").ok_or("a row")?;
    let answer = changed(rt, alloc, store, change)?;
    let mut line = Text::from_str(alloc, answer_of(answer))?;
    tell_store(rt, alloc, &mut line, store)?;
    assert_eq!(rt; line.as_str(), expected, "{row}");
    Ok(())
}

/// Each row is a change, `=`, and its answer with the whole store after it.
pub fn run(
    rt: &impl Abort,
    alloc: Global,
    meta: &str,
    objects: &str,
    rows: &[&str],
) -> Result<(), Fail> {
    let mut store = store_of(rt, alloc, meta, objects)?;
    for row in rows {
        step(rt, alloc, &mut store, row)?;
    }
    Ok(())
}
