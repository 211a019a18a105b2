use qvt_base::list_fault::ListFault;
use qvt_base::numbers::{MappingNo, Oid, Place};
use qvt_base::seq::Seq;
use qvt_base::text::Text;
use qvt_run_data::record::Record;
use qvt_trace::fault::TraceFault;
use qvt_trace::trace::Trace;
use qvt_value::value::{Kind, LiteralRef, Reason, Value, Values};
use std::alloc::Global;

/// A value as a table holds it.
#[derive(Clone, Copy)]
enum Sample {
    Null,
    Bool(bool),
    Int(i64),
    Str(&'static str),
    Enum(u32, u32, u32),
    Obj(u32),
    Coll(Kind, &'static [i64]),
    /// The reason, and the line of the cause.
    Invalid(Reason, u32),
}

fn numbers(alloc: Global, numbers: &[i64]) -> Result<Values, ListFault> {
    let mut items = Seq::new(alloc);
    for number in numbers {
        items.push(Value::Int(*number))?;
    }
    Ok(items)
}

fn value_of(alloc: Global, sample: &Sample) -> Result<Value, ListFault> {
    match sample {
        Sample::Null => Ok(Value::Null),
        Sample::Bool(truth) => Ok(Value::Bool(*truth)),
        Sample::Int(number) => Ok(Value::Int(*number)),
        Sample::Str(text) => Ok(Value::Str(Text::from_str(alloc, text)?)),
        Sample::Enum(metamodel, enumeration, literal) => Ok(Value::Enum(LiteralRef {
            metamodel: *metamodel,
            enumeration: *enumeration,
            literal: *literal,
        })),
        Sample::Obj(number) => Ok(Value::Obj(Oid(*number))),
        Sample::Coll(kind, items) => Ok(Value::Coll(*kind, numbers(alloc, items)?)),
        Sample::Invalid(reason, line) => Ok(Value::Invalid(
            *reason,
            Place {
                line: *line,
                column: 1,
                offset: 0,
            },
        )),
    }
}

/// Values no two of which are equal, of every sort.
const DIFFERENT: [Sample; 24] = [
    Sample::Null,
    Sample::Bool(false),
    Sample::Bool(true),
    Sample::Int(i64::MIN),
    Sample::Int(0),
    Sample::Int(1),
    Sample::Str(""),
    Sample::Str("1"),
    Sample::Str("10"),
    Sample::Enum(0, 0, 1),
    Sample::Enum(0, 1, 0),
    Sample::Enum(1, 0, 0),
    Sample::Obj(0),
    Sample::Obj(1),
    Sample::Coll(Kind::Sequence, &[]),
    Sample::Coll(Kind::Sequence, &[1]),
    Sample::Coll(Kind::Sequence, &[1, 2]),
    Sample::Coll(Kind::Sequence, &[2, 1]),
    Sample::Coll(Kind::Set, &[1, 2]),
    Sample::Coll(Kind::Bag, &[1, 2]),
    Sample::Coll(Kind::OrderedSet, &[1, 2]),
    Sample::Invalid(Reason::NullValue, 1),
    Sample::Invalid(Reason::NullValue, 2),
    Sample::Invalid(Reason::Overflow, 1),
];

/// A value between two others that are the same in all lists.
fn args_with(alloc: Global, sample: &Sample) -> Result<Values, ListFault> {
    let mut args = Seq::new(alloc);
    args.push(Value::Int(7))?;
    args.push(value_of(alloc, sample)?)?;
    args.push(Value::Null)?;
    Ok(args)
}

fn record(mapping: u32, context: Option<u32>, args: Values, made: Option<u32>) -> Record {
    Record {
        mapping: MappingNo(mapping),
        context: context.map(Oid),
        args,
        result: made.map(Oid),
    }
}

/// The records of many argument lists of one mapping on one context, which differ in one argument only.
fn of_different_arguments(alloc: Global) -> Result<Trace, TraceFault> {
    let mut trace = Trace::new(alloc);
    for sample in DIFFERENT.as_slice() {
        trace.add(record(0, Some(4), args_with(alloc, sample)?, None))?;
    }
    Ok(trace)
}

#[test]
fn arguments_of_every_sort(rt: HostRuntime) -> Result<(), TraceFault> {
    let alloc = rt.alloc();
    let trace = of_different_arguments(alloc)?;
    assert!(rt; trace.len() == DIFFERENT.len());
    for (number, sample) in DIFFERENT.as_slice().iter().enumerate() {
        let args = args_with(alloc, sample)?;
        let found = trace.find(MappingNo(0), Some(Oid(4)), args.as_slice());
        assert!(rt; found == Some(number), "{number}");
        assert!(rt;
            trace
                .find(MappingNo(1), Some(Oid(4)), args.as_slice())
                .is_none()
        );
        assert!(rt;
            trace
                .find(MappingNo(0), Some(Oid(5)), args.as_slice())
                .is_none()
        );
        assert!(rt; trace.find(MappingNo(0), None, args.as_slice()).is_none());
    }
    Ok(())
}

/// Records of three mappings on several contexts. The second and the last have one key.
fn of_several_keys(alloc: Global) -> Result<Trace, TraceFault> {
    let mut trace = Trace::new(alloc);
    for (mapping, context, args, made) in [
        (0, None, [].as_slice(), Some(8)),
        (0, Some(3), [].as_slice(), Some(9)),
        (1, Some(3), [].as_slice(), None),
        (0, Some(4), [].as_slice(), Some(9)),
        (0, Some(3), [1].as_slice(), Some(8)),
        (0, Some(3), [1, 2].as_slice(), None),
        (0, Some(3), [].as_slice(), Some(8)),
    ] {
        let count = trace.len();
        let number = trace.add(record(mapping, context, numbers(alloc, args)?, made))?;
        if number != count {
            return Err(TraceFault::NoMemory);
        }
    }
    Ok(trace)
}

#[test]
fn the_first_record_of_a_key(rt: HostRuntime) -> Result<(), TraceFault> {
    let alloc = rt.alloc();
    let trace = of_several_keys(alloc)?;
    assert!(rt; trace.len() == 7);
    for (mapping, context, args, wanted) in [
        (0, None, [].as_slice(), Some(0)),
        (0, Some(3), [].as_slice(), Some(1)),
        (1, Some(3), [].as_slice(), Some(2)),
        (0, Some(4), [].as_slice(), Some(3)),
        (0, Some(3), [1].as_slice(), Some(4)),
        (0, Some(3), [1, 2].as_slice(), Some(5)),
        (0, Some(3), [2].as_slice(), None),
        (0, Some(3), [1, 2, 3].as_slice(), None),
        (1, None, [].as_slice(), None),
        (2, Some(3), [].as_slice(), None),
    ] {
        let args = numbers(alloc, args)?;
        let found = trace.find(MappingNo(mapping), context.map(Oid), args.as_slice());
        assert!(rt; found == wanted, "{mapping} {wanted:?}");
    }
    Ok(())
}

#[test]
fn records_by_their_ends(rt: HostRuntime) -> Result<(), TraceFault> {
    let alloc = rt.alloc();
    let none = Trace::new(alloc);
    assert!(rt; none.with_context(Oid(3)).is_empty() && none.with_result(Oid(8)).is_empty());
    let trace = of_several_keys(alloc)?;
    assert!(rt; trace.with_context(Oid(3)) == [1, 2, 4, 5, 6].as_slice());
    assert!(rt; trace.with_context(Oid(4)) == [3].as_slice());
    assert!(rt; trace.with_context(Oid(8)).is_empty());
    assert!(rt; trace.with_result(Oid(8)) == [0, 4, 6].as_slice());
    assert!(rt; trace.with_result(Oid(9)) == [1, 3].as_slice());
    assert!(rt; trace.with_result(Oid(3)).is_empty());
    assert!(rt; trace.as_slice().len() == 7);
    Ok(())
}
