//! Types, operations, operators and assignments.

use super::ground::{arguments, before, known, metas, parts_of, type_of, types_of};
use super::shown::{ruling_shown, type_shown, wrong_shown};
use qvt_base::list_fault::ListFault;
use qvt_metas::info::{FeatureShape, TypeKind};
use qvt_metas::metas::Metas;
use qvt_ocl_words::op::Op;
use qvt_tree_types::words::{BinaryOp, CollKind, PrefixOp};
use qvt_types_data::ruling::Ruling;
use qvt_types_data::ty::Ty;
use qvt_types_words::answers::{answer, arity};
use qvt_types_words::operation_names::operation_named;
use qvt_types_words::rulings::{
    conditional, literal, operator, prefixed, property_wrong, range, var_type, var_wrong,
    variable_wrong,
};
use qvt_types_words::types::{conforms, feature_type, join};
use std::alloc::Global;
use std::test::Fail;

/// Two types: whether the first conforms to the second, and what they join to.
const PAIRS: &str = "\
    Integer | Integer | yes | Integer\n\
    Integer | String | no | -\n\
    Void | Integer | yes | Integer\n\
    Integer | Void | no | Integer\n\
    Void | Circle Set | yes | Circle Set\n\
    Color | Color | yes | Color\n\
    Circle | Shape | yes | Shape\n\
    Shape | Circle | no | Shape\n\
    Both | Shape | yes | Shape\n\
    Circle | Square | no | -\n\
    Circle | N::Circle | no | -\n\
    Circle Set | Shape Set | yes | Shape Set\n\
    Shape Bag | Circle Bag | no | Shape Bag\n\
    Circle Set | Shape Bag | no | -\n\
    Void Bag Set | Integer Bag Set | yes | Integer Bag Set";

#[test]
fn which_types_conform_and_join(rt: HostRuntime) -> Result<(), Fail> {
    let alloc = rt.alloc();
    let metas = metas(alloc)?;
    for line in PAIRS.lines() {
        let (one, rest) = before(line)?;
        let (other, rest) = before(rest)?;
        let (fits, expected) = before(rest)?;
        let t = known(alloc, &metas, one)?;
        let u = known(alloc, &metas, other)?;
        assert!(rt; conforms(&metas, &t, &u) == (fits == "yes"), "{line}");
        let all = join(alloc, &metas, &t, &u)?;
        let shown = type_shown(alloc, &metas, &all)?;
        assert!(rt; shown.as_str() == expected, "{line}");
    }
    Ok(())
}

/// An operation, its source, its arguments, and the type of its answer.
const ANSWERS: [(Op, &str, &str, &str); 24] = [
    (Op::Plus, "Integer", "Integer", "Integer"),
    (Op::Plus, "String", "String", "String"),
    (Op::Plus, "String", "Integer", "-"),
    (Op::Minus, "Circle Set", "Circle Bag", "Circle Set"),
    (Op::Less, "String", "String", "Boolean"),
    (Op::Equal, "Circle", "Shape", "Boolean"),
    (Op::Equal, "Circle", "Integer", "-"),
    (Op::IsUndefined, "Circle", "", "Boolean"),
    (Op::Size, "String", "", "Integer"),
    (Op::Size, "Circle Bag", "", "Integer"),
    (Op::Characters, "String", "", "String Sequence"),
    (Op::Including, "Circle Set", "Shape", "Shape Set"),
    (Op::Including, "Void Bag", "Integer", "Integer Bag"),
    (Op::Including, "Circle Set", "Integer", "-"),
    (Op::Excluding, "Circle Set", "Shape", "Circle Set"),
    (Op::Union, "Circle Set", "Shape Set", "Shape Set"),
    (Op::Union, "Circle Set", "Circle Bag", "-"),
    (Op::Intersection, "Circle Bag", "Circle Bag", "Circle Bag"),
    (Op::Intersection, "Circle Bag", "Circle Set", "Circle Set"),
    (Op::Flatten, "Integer Bag Set", "", "Integer Set"),
    (Op::AsOrderedSet, "Circle Bag", "", "Circle OrderedSet"),
    (Op::First, "Circle Sequence", "", "Circle"),
    (Op::First, "Circle Set", "", "-"),
    (Op::InsertAt, "Circle Bag", "Integer,Shape", "-"),
];

#[test]
fn what_operations_answer(rt: HostRuntime) -> Result<(), Fail> {
    let alloc = rt.alloc();
    let metas = metas(alloc)?;
    for (op, source, args, expected) in &ANSWERS {
        let source = known(alloc, &metas, source)?;
        let args = types_of(alloc, &metas, args)?;
        let found = answer(alloc, &metas, *op, &source, args.as_slice())?;
        let shown = type_shown(alloc, &metas, &found)?;
        assert!(rt; shown.as_str() == *expected, "{op:?} {expected}");
    }
    Ok(())
}

/// The name of an operation, what it is, a source, and how many arguments it takes there.
const NAMES: [(&str, Option<Op>, &str, Option<usize>); 6] = [
    ("toUpper", Some(Op::ToUpper), "String", Some(0)),
    ("toUpperCase", Some(Op::ToUpper), "String", Some(0)),
    ("substring", Some(Op::Substring), "String", Some(2)),
    ("at", Some(Op::At), "Circle Sequence", Some(1)),
    ("at", Some(Op::At), "Circle Set", None),
    ("upper", None, "String", None),
];

#[test]
fn which_operation_a_name_is(rt: HostRuntime) -> Result<(), Fail> {
    let alloc = rt.alloc();
    let metas = metas(alloc)?;
    for (name, op, source, count) in &NAMES {
        let source = known(alloc, &metas, source)?;
        let named = operation_named(name);
        assert!(rt; named == *op, "{name}");
        if let Some(op) = named {
            assert!(rt; arity(op, &source) == *count, "{name}");
        }
    }
    Ok(())
}

/// A node, the types of its parts, and what is ruled of it.
const RULED: &str = "\
    and | Boolean,Boolean | : Boolean\n\
    implies | Boolean,Integer | WrongType\n\
    + | Integer,Void | : Integer\n\
    * | Integer,Integer | : Integer\n\
    * | String,Integer | WrongType\n\
    = | Circle,Square | WrongType\n\
    <> | Void,Square | : Boolean\n\
    < | -,Integer | silent\n\
    not | Boolean | : Boolean\n\
    not | Integer | WrongType\n\
    - | Integer | : Integer\n\
    - | - | silent\n\
    if | Boolean,Circle,Shape | : Shape\n\
    if | Boolean,Circle,Square | WrongType\n\
    if | Integer,Circle,Shape | WrongType\n\
    if | Boolean,Void,Integer | : Integer\n\
    if | Boolean,-,Integer | silent\n\
    .. | Integer,Integer | : Integer\n\
    .. | Integer,String | WrongType\n\
    .. | -,Integer | silent";

fn operator_named(word: &str) -> Option<BinaryOp> {
    match word {
        "and" => Some(BinaryOp::And),
        "implies" => Some(BinaryOp::Implies),
        "+" => Some(BinaryOp::Plus),
        "*" => Some(BinaryOp::Times),
        "=" => Some(BinaryOp::Equal),
        "<>" => Some(BinaryOp::NotEqual),
        "<" => Some(BinaryOp::Less),
        _ => None,
    }
}

fn ruled(
    alloc: Global,
    metas: &Metas,
    word: &str,
    parts: &[Option<Ty>],
) -> Result<Ruling, ListFault> {
    let sign = if word == "not" {
        PrefixOp::Not
    } else {
        PrefixOp::Minus
    };
    match parts {
        [t] => prefixed(alloc, metas, sign, t),
        [a, b] => match operator_named(word) {
            Some(op) => operator(alloc, metas, op, a, b),
            None => Ok(range(metas, a, b)),
        },
        [c, yes, no] => conditional(alloc, metas, c, yes, no),
        _ => Err(ListFault::NoMemory),
    }
}

#[test]
fn what_is_ruled_of_nodes(rt: HostRuntime) -> Result<(), Fail> {
    let alloc = rt.alloc();
    let metas = metas(alloc)?;
    for line in RULED.lines() {
        let (word, rest) = before(line)?;
        let (parts, expected) = before(rest)?;
        let parts = parts_of(alloc, &metas, parts)?;
        let ruling = ruled(alloc, &metas, word, parts.as_slice())?;
        let shown = ruling_shown(alloc, &metas, &ruling)?;
        assert!(rt; shown.as_str() == expected, "{line}");
    }
    Ok(())
}

const LITERALS: [(CollKind, &str, &str); 5] = [
    (CollKind::Set, "", ": Void Set"),
    (CollKind::Bag, "Circle,Void,Shape", ": Shape Bag"),
    (CollKind::Sequence, "Circle,Square,Shape", "WrongType"),
    (
        CollKind::OrderedSet,
        "Integer,Integer",
        ": Integer OrderedSet",
    ),
    (CollKind::Set, "-", "silent"),
];

#[test]
fn what_is_ruled_of_literals(rt: HostRuntime) -> Result<(), Fail> {
    let alloc = rt.alloc();
    let metas = metas(alloc)?;
    for (kind, items, expected) in &LITERALS {
        let types = arguments(alloc, &metas, items)?;
        let ruling = literal(alloc, &metas, *kind, &types)?;
        let shown = ruling_shown(alloc, &metas, &ruling)?;
        assert!(rt; shown.as_str() == *expected, "{items}");
    }
    Ok(())
}

/// The type of a `var` and of its value, if it has them, what is told of it, and its own type.
const VARS: &str = "\
    Shape | Circle | fine | Shape\n\
    Circle | Shape | WrongType | Circle\n\
    Shape | - | fine | Shape\n\
    - | Circle | fine | Circle\n\
    - | Void | WrongType | -\n\
    - | - | WrongType | -";

#[test]
fn what_is_told_of_variables(rt: HostRuntime) -> Result<(), Fail> {
    let alloc = rt.alloc();
    let metas = metas(alloc)?;
    for line in VARS.lines() {
        let (kind, rest) = before(line)?;
        let (value, rest) = before(rest)?;
        let (told, expected) = before(rest)?;
        let kind = type_of(alloc, &metas, kind)?;
        let value = type_of(alloc, &metas, value)?;
        let (has_kind, has_value) = (kind.is_some(), value.is_some());
        let wrong = var_wrong(&metas, has_kind, &kind, has_value, &value);
        let shown = wrong_shown(alloc, wrong)?;
        assert!(rt; shown.as_str() == told, "{line}");
        let own = var_type(alloc, has_kind, &kind, &value)?;
        let shown = type_shown(alloc, &metas, &own)?;
        assert!(rt; shown.as_str() == expected, "{line}");
    }
    Ok(())
}

/// A sign, the type of the target and of the value; what is told where the target is a variable, a property that holds one value,
/// or one that holds more: of two faults the one that comes first in their order.
const ASSIGNED: &str = "\
    := | Shape | Circle | fine | fine | fine\n\
    := | Circle | Shape | WrongType | WrongType | WrongType\n\
    := | Shape | Circle Bag | WrongType | WrongType | fine\n\
    += | Shape Set | Circle Bag | fine | WrongType | WrongType\n\
    += | Shape Set | Circle | fine | WrongType | WrongType\n\
    += | Shape | Circle | BadTarget | BadTarget | fine";

#[test]
fn what_is_told_of_assignments(rt: HostRuntime) -> Result<(), Fail> {
    let alloc = rt.alloc();
    let metas = metas(alloc)?;
    for line in ASSIGNED.lines() {
        let (sign, rest) = before(line)?;
        let (target, rest) = before(rest)?;
        let (value, expected) = before(rest)?;
        let adds = sign == "+=";
        let target = known(alloc, &metas, target)?;
        let value = known(alloc, &metas, value)?;
        let (variable, rest) = before(expected)?;
        let (single, several) = before(rest)?;
        let wrong = variable_wrong(&metas, adds, &target, &value);
        let shown = wrong_shown(alloc, wrong)?;
        assert!(rt; shown.as_str() == variable, "{line}");
        for (is_single, expected) in [(true, single), (false, several)] {
            let wrong = property_wrong(&metas, adds, is_single, &target, &value);
            let shown = wrong_shown(alloc, wrong)?;
            assert!(rt; shown.as_str() == expected, "{line}");
        }
    }
    Ok(())
}

fn shape(upper: Option<u32>, ordered: bool, unique: bool) -> FeatureShape {
    FeatureShape {
        kind: TypeKind::Int,
        lower: 0,
        upper,
        ordered,
        unique,
        containment: false,
    }
}

const FLAGS: [(Option<u32>, bool, bool, &str); 5] = [
    (Some(1), true, true, "Integer"),
    (None, true, true, "Integer OrderedSet"),
    (None, false, true, "Integer Set"),
    (Some(7), true, false, "Integer Sequence"),
    (None, false, false, "Integer Bag"),
];

#[test]
fn which_types_features_have(rt: HostRuntime) -> Result<(), Fail> {
    let alloc = rt.alloc();
    let metas = metas(alloc)?;
    for (upper, ordered, unique, expected) in &FLAGS {
        let t = feature_type(alloc, shape(*upper, *ordered, *unique))?;
        let shown = type_shown(alloc, &metas, &Some(t))?;
        assert!(rt; shown.as_str() == *expected, "{expected}");
    }
    Ok(())
}
