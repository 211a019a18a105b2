//! Lists of objects that are looked up by hash.

ghost use Rattle.std.specs.Prelude.{◌≡◌, ◌++◌, ◌∷◌, [], length, take, IfOk, OnOk, OnErr};
ghost use Rattle.qvt_slots.specs.Change.{among_objects, objects_beyond};
ghost use Rattle.qvt_slots.specs.Numbers.{AreNumbersOf, objects_past};

use crate::values::is_among;
use indexmap::IndexSet;
use qvt_base::list_fault::ListFault;
use qvt_base::lists::OidList;
use qvt_base::numbers::Oid;
use qvt_base::seq::Seq;
use qvt_value::value::Value;
use std::alloc::Global;
use std::marker::Model;

/// How many objects are looked at one by one. More are looked up by hash.
const FEW: usize = 8;

/// A list of objects.
pub struct Objects {
    list: OidList,
    numbers: IndexSet<u32>,
}

impl Drop for Objects {
    fn drop(self) {
        let Objects { list, numbers } = self;
    }
}

impl Model for Objects {
    ghost use Rattle.std.specs.Prelude.{List, ◌<◌, length};
    ghost use Rattle.qvt_base.specs.declared.numbers.Oid.{Oid};
    ghost use Rattle.qvt_slots.specs.Numbers.{AreNumbersOf};

    ghost Value = { List Oid };

    ghost view = { λ o. o.list };

    ghost invariant = { λ o. 8 < length o.list → AreNumbersOf o.numbers.keys o.list };
}

impl Objects {
    /// No objects. It takes no memory.
    pub fn new(alloc: Global) -> Objects
        ensures { result ≡ [] }
    {
        Objects {
            list: Seq::new(alloc),
            numbers: IndexSet::new(alloc),
        }
    }

    /// These objects, in order.
    pub fn of(alloc: Global, list: OidList) -> Result<Objects, ListFault>
        ensures { IfOk result (λ objects. objects ≡ list) }
    {
        if list.len() <= FEW {
            return Ok(Objects {
                list,
                numbers: IndexSet::new(alloc),
            });
        }
        let numbers = numbers_of(alloc, list.as_slice())?;
        Ok(Objects { list, numbers })
    }

    pub fn as_slice(&self) -> &[Oid]
        ensures { result.now ≡ self.now }
    {
        self.list.as_slice()
    }

    /// Whether the object is one of these.
    pub fn holds(&self, object: Oid) -> bool
        ensures { result ≡ among_objects self.now object.0 }
    {
        if self.list.len() <= FEW {
            return is_among(self.list.as_slice(), object);
        }
        self.numbers.contains(&object.0)
    }
}

/// The numbers of these objects.
fn numbers_of(alloc: Global, objects: &[Oid]) -> Result<IndexSet<u32>, ListFault>
    ensures { IfOk result (λ numbers. AreNumbersOf numbers.keys objects.now) }
{
    let mut numbers = IndexSet::new(alloc);
    for object in objects {
        let Ok(_) = numbers.insert(object.0) else {
            return Err(ListFault::NoMemory);
        };
    }
    Ok(numbers)
}

/// Puts the value last, if it is an object that is none of these.
fn push_value_past(list: &mut OidList, held: &Objects, value: &Value) -> Result<(), ListFault>
    ensures ok { OnOk result (list.new ≡ list.old ++ objects_past held.now (value.now ∷ [])) }
    ensures err { OnErr result (list.new ≡ list.old) }
{
    match value {
        Value::Obj(object) => {
            if !held.holds(*object) {
                list.push(*object)?;
            }
            Ok(())
        }
        _ => Ok(()),
    }
}

/// Puts the objects of the list last that are none of these.
fn push_past(list: &mut OidList, held: &Objects, values: &[Value]) -> Result<(), ListFault>
    ensures ok { OnOk result (list.new ≡ list.old ++ objects_past held.now values.now) }
    ensures err { OnErr result (take (length list.old) list.new ≡ list.old) }
{
    for value in values {
        push_value_past(list, held, value)?;
    }
    Ok(())
}

/// The objects of the list.
fn objects_in(alloc: Global, values: &[Value]) -> Result<Objects, ListFault>
    ensures { IfOk result (λ objects. objects ≡ objects_past [] values.now) }
{
    let none = Objects::new(alloc);
    let mut list = Seq::new(alloc);
    push_past(&mut list, &none, values)?;
    let objects = Objects::of(alloc, list)?;
    Ok(objects)
}

/// Puts the objects of the list last that the other list does not hold. A refused call changes
/// nothing.
pub fn push_beyond(
    alloc: Global,
    list: &mut OidList,
    others: &[Value],
    values: &[Value],
) -> Result<(), ListFault>
    ensures ok { OnOk result (list.new ≡ list.old ++ objects_beyond others.now values.now) }
    ensures err { OnErr result (list.new ≡ list.old) }
{
    let count = list.len();
    let held = objects_in(alloc, others)?;
    let Ok(()) = push_past(list, &held, values) else {
        list.truncate(count);
        return Err(ListFault::NoMemory);
    };
    Ok(())
}

/// The objects of the list that the other list does not hold.
pub fn beyond(alloc: Global, others: &[Value], values: &[Value]) -> Result<Objects, ListFault>
    ensures { IfOk result (λ objects. objects ≡ objects_beyond others.now values.now) }
{
    let mut list = Seq::new(alloc);
    push_beyond(alloc, &mut list, others, values)?;
    let objects = Objects::of(alloc, list)?;
    Ok(objects)
}
