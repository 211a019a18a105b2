//! Values: their copies, their order, and the collections that are made of lists.

use qvt_base::copied::Copied;
use qvt_base::list_fault::ListFault;
use qvt_base::numbers::{Oid, Place};
use qvt_base::seq::Seq;
use qvt_base::text::Text;
use qvt_value::fault::ValueFault;
use qvt_value::make::make;
use qvt_value::order::compare;
use qvt_value::value::{Kind, LiteralRef, Reason, Value, Values, Var};
use std::alloc::Global;

fn numbers(alloc: Global, numbers: &[i64]) -> Result<Values, ListFault> {
    let mut items = Seq::new(alloc);
    for number in numbers {
        items.push(Value::Int(*number))?;
    }
    Ok(items)
}

/// A value as a table holds it.
enum Sample {
    Null,
    Bool(bool),
    Int(i64),
    Str(&'static str),
    Enum(u32, u32, u32),
    Obj(u32),
    Coll(Kind, &'static [i64]),
    /// The reason, and the line, the column and the offset of the cause.
    Invalid(Reason, u32, u32, u32),
}

fn value_of(alloc: Global, sample: &Sample) -> Result<Value, ListFault> {
    match sample {
        Sample::Null => Ok(Value::Null),
        Sample::Bool(truth) => Ok(Value::Bool(*truth)),
        Sample::Int(number) => Ok(Value::Int(*number)),
        Sample::Str(text) => Ok(Value::Str(Text::from_str(alloc, text)?)),
        Sample::Enum(metamodel, enumeration, literal) => Ok(Value::Enum(LiteralRef {
            metamodel: *metamodel,
            enumeration: *enumeration,
            literal: *literal,
        })),
        Sample::Obj(number) => Ok(Value::Obj(Oid(*number))),
        Sample::Coll(kind, items) => Ok(Value::Coll(*kind, numbers(alloc, items)?)),
        Sample::Invalid(reason, line, column, offset) => Ok(Value::Invalid(
            *reason,
            Place {
                line: *line,
                column: *column,
                offset: *offset,
            },
        )),
    }
}

fn values_of(alloc: Global, samples: &[Sample]) -> Result<Values, ListFault> {
    let mut values = Seq::new(alloc);
    for sample in samples {
        values.push(value_of(alloc, sample)?)?;
    }
    Ok(values)
}

fn var(alloc: Global) -> Result<Var, ListFault> {
    let items = values_of(alloc, &[Sample::Null, Sample::Str("x")])?;
    Ok(Var {
        name: Text::from_str(alloc, "#self")?,
        value: Value::Coll(Kind::Bag, items),
    })
}

#[test]
fn copies_equal_what_they_copy(rt: HostRuntime) -> Result<(), ListFault> {
    let alloc = rt.alloc();
    let var = var(alloc)?;
    let copy = var.copy(alloc)?;
    assert!(rt; copy.name == var.name);
    assert!(rt; copy.value == var.value);
    Ok(())
}

fn three_one_three_two(alloc: Global) -> Result<Values, ListFault> {
    let mut items = Seq::new(alloc);
    items.push(Value::Int(3))?;
    items.push(Value::Int(1))?;
    items.push(Value::Int(3))?;
    items.push(Value::Int(2))?;
    Ok(items)
}

/// Whether the collection of this kind made of 3, 1, 3 and 2 holds these.
fn is_kept(alloc: Global, kind: Kind, kept: &[i64]) -> Result<bool, ValueFault> {
    let made = make(alloc, kind, three_one_three_two(alloc)?)?;
    Ok(made == Value::Coll(kind, numbers(alloc, kept)?))
}

#[test]
fn each_kind_keeps_its_own(rt: HostRuntime) -> Result<(), ValueFault> {
    for (kind, kept) in [
        (Kind::Set, [1, 2, 3].as_slice()),
        (Kind::Bag, [1, 2, 3, 3].as_slice()),
        (Kind::Sequence, [3, 1, 3, 2].as_slice()),
        (Kind::OrderedSet, [3, 1, 2].as_slice()),
    ] {
        let holds = is_kept(rt.alloc(), kind, kept)?;
        assert!(rt; holds, "{kind:?}");
    }
    Ok(())
}

/// One value after the other, each above all before it.
const ASCENDING: [Sample; 29] = [
    Sample::Null,
    Sample::Bool(false),
    Sample::Bool(true),
    Sample::Int(i64::MIN),
    Sample::Int(-1),
    Sample::Int(0),
    Sample::Int(7),
    Sample::Str(""),
    Sample::Str("Z"),
    Sample::Str("a"),
    Sample::Str("ab"),
    Sample::Str("b"),
    Sample::Str("\u{e9}"),
    Sample::Enum(0, 0, 9),
    Sample::Enum(0, 1, 0),
    Sample::Enum(1, 0, 0),
    Sample::Obj(2),
    Sample::Obj(10),
    Sample::Coll(Kind::Set, &[3]),
    Sample::Coll(Kind::Bag, &[2]),
    Sample::Coll(Kind::Sequence, &[]),
    Sample::Coll(Kind::Sequence, &[1]),
    Sample::Coll(Kind::Sequence, &[1, 5]),
    Sample::Coll(Kind::Sequence, &[2, 0]),
    Sample::Coll(Kind::OrderedSet, &[1]),
    Sample::Invalid(Reason::Overflow, 9, 9, 99),
    Sample::Invalid(Reason::TooLarge, 1, 9, 8),
    Sample::Invalid(Reason::TooLarge, 2, 1, 9),
    Sample::Invalid(Reason::TooLarge, 2, 2, 10),
];

#[test]
fn values_ascend_in_the_stated_order(rt: HostRuntime) -> Result<(), ListFault> {
    let values = values_of(rt.alloc(), &ASCENDING)?;
    for (i, a) in values.as_slice().iter().enumerate() {
        for (k, b) in values.as_slice().iter().enumerate() {
            assert!(rt; compare(a, b) == i.cmp(&k), "values {i} and {k}");
        }
    }
    Ok(())
}
