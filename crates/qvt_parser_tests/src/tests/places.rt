//! Texts, and the places of all nodes of their trees.

use super::parts::{Part, Parts, placed};
use super::trees::{Fault, joined, tree_of};
use qvt_base::list_fault::ListFault;
use qvt_base::numbers::Place;
use qvt_base::text::Text;
use qvt_tree::module::Module;
use std::alloc::Global;

fn put_number(alloc: Global, told: &mut Text, number: u32) -> Result<(), ListFault> {
    match number.to_string(alloc) {
        Ok(digits) => told.push_str(digits.as_str()),
        Err(_) => Err(ListFault::NoMemory),
    }
}

/// On the first line, where each character before has one byte, the bytes that stand between the
/// start and the place. Any other place is told whole.
fn put_place(alloc: Global, told: &mut Text, start: u32, place: Place) -> Result<(), ListFault> {
    let is_first = place.line == 1;
    let is_plain = u64::from(place.column) == u64::from(place.offset) + 1;
    if is_first && is_plain && start <= place.offset {
        return put_number(alloc, told, place.offset - start);
    }
    put_number(alloc, told, place.line)?;
    told.push_str(":")?;
    put_number(alloc, told, place.column)?;
    told.push_str(":")?;
    put_number(alloc, told, place.offset)
}

fn put_part(alloc: Global, told: &mut Text, start: u32, part: Part) -> Result<(), ListFault> {
    let (name, place) = placed(part);
    if place.offset < start {
        return Ok(());
    }
    if !told.is_empty() {
        told.push_str(", ")?;
    }
    told.push_str(name)?;
    told.push_str(" ")?;
    put_place(alloc, told, start, place)
}

/// No tree of a table has more parts.
const MOST: usize = 100;

/// What stands from the start on: each node with its place, a node before its parts and level by
/// level.
fn told(alloc: Global, tree: &Module, start: u32) -> Result<Text, ListFault> {
    let mut told = Text::new(alloc);
    let mut parts = Parts::new(alloc);
    parts.module(tree)?;
    for i in 0..MOST {
        let Some(part) = parts.at(i) else {
            break;
        };
        put_part(alloc, &mut told, start, part)?;
        parts.open(part)?;
    }
    Ok(told)
}

/// What is told of the text that stands after this one and before that.
fn told_within(alloc: Global, before: &str, text: &str, after: &str) -> Result<Text, Fault> {
    let whole = joined(alloc, before, text, after)?;
    let tree = tree_of(alloc, whole.as_str())?;
    let Ok(start) = u32::try_from(before.len()) else {
        return Err(Fault::TooLong);
    };
    let told = told(alloc, &tree, start)?;
    Ok(told)
}

fn has_places(alloc: Global, text: &str, expected: &str) -> Result<bool, Fault> {
    let told = told_within(alloc, "", text, "")?;
    Ok(told.as_str() == expected)
}

const TEXTS: [(&str, &str); 3] = [
    ("transformation T(in a : M);", "ModelParam 17"),
    (
        "modeltype M uses 'm'; transformation T(in a : M, inout b : M); main() { }",
        "modeltype 0, ModelParam 39, ModelParam 49, main 63",
    ),
    (
        "-- \u{e9}\ntransformation T(in m : M);\nmain() {\n  '\u{e9}' + a;\n}\n",
        "ModelParam 2:18:23, main 3:1:34, value 4:3:45, Chain 4:3:45, Str 4:3:45, Link 4:7:50, Path 4:9:52",
    ),
];

#[test]
fn places_in_texts(rt: HostRuntime) {
    for (text, expected) in &TEXTS {
        assert!(rt;
            has_places(rt.alloc(), text, expected) == Ok(true),
            "{text}"
        );
    }
}

fn units_have_places(alloc: Global, units: &str, expected: &str) -> Result<bool, Fault> {
    let told = told_within(alloc, "transformation T(in m : M); ", units, "")?;
    Ok(told.as_str() == expected)
}

/// The places of mappings and helpers are those of the last names of their paths.
const UNITS: [(&str, &str); 7] = [
    ("main() { }", "main 0"),
    (
        "intermediate class C extends A, B::D { x : Set(E); }",
        "class 0, Path 29, Path 32, Field 39, CollType 43, Path 47",
    ),
    (
        "helper A::h(in a : B, c : D) : E { f }",
        "helper 10, Param 12, Path 19, Param 22, Path 26, Path 31, value 35, Path 35",
    ),
    ("query q() = 1;", "helper 6, return 10, Int 12"),
    (
        "constructor C::C(a : A) { }",
        "constructor 15, Param 17, Path 21",
    ),
    (
        "mapping A::m(x : B) : C::D@e inherits b merges c disjuncts d when { f } { init { g } population { h } end { i } }",
        "mapping 11, Param 13, Path 17, ResultDecl 22, Path 22, Path 38, Path 47, Path 59, Path 68, value 81, value 98, value 108, Path 81, Path 98, Path 108",
    ),
    ("mapping m();", "mapping 8"),
];

#[test]
fn places_in_units(rt: HostRuntime) {
    for (units, expected) in &UNITS {
        assert!(rt;
            units_have_places(rt.alloc(), units, expected) == Ok(true),
            "{units}"
        );
    }
}

fn statements_have_places(alloc: Global, body: &str, expected: &str) -> Result<bool, Fault> {
    let told = told_within(alloc, "transformation T(in m : M); main() { ", body, " }")?;
    Ok(told.as_str() == expected)
}

/// An assignment stands at its sign, any other statement at its first token.
const STATEMENTS: [(&str, &str); 15] = [
    ("var x", "var 0"),
    ("var x : A := 1", "var 0, Path 8, Int 13"),
    ("x := 1", "assign 2, Bare 0, Int 5"),
    ("result += 1", "assign 7, ResultVar 0, Int 10"),
    ("a.b := 1", "assign 4, Member 2, Path 0, Int 7"),
    (
        "a.b.c := 1",
        "assign 6, Member 4, Post 0, Int 9, Path 0, Dot 2",
    ),
    ("(a).b := 1", "assign 6, Member 4, Path 1, Int 9"),
    (
        "(a.b).c := 1",
        "assign 8, Member 6, Post 1, Int 11, Path 1, Dot 3",
    ),
    ("return", "return 0"),
    ("return a", "return 0, Path 7"),
    ("; a;; b", "value 2, value 6, Path 2, Path 6"),
    (
        "if (a) { b } elif (c) { d } else { e }",
        "if 0, Path 4, value 9, Path 19, value 24, value 35, Path 9, Path 24, Path 35",
    ),
    ("while (a) { b }", "while 0, Path 7, value 12, Path 12"),
    (
        "a.b->forEach(x : A | c) { d }",
        "forEach 0, Post 0, Path 17, Path 21, value 26, Path 0, Dot 2, Path 26",
    ),
    (
        "(a + b)->forEach(x) { }",
        "forEach 0, Chain 1, Path 1, Link 3, Path 5",
    ),
];

#[test]
fn places_in_statements(rt: HostRuntime) {
    for (body, expected) in &STATEMENTS {
        assert!(rt;
            statements_have_places(rt.alloc(), body, expected) == Ok(true),
            "{body}"
        );
    }
}

/// Operators stand at their signs, any other expression at its first token. A bracket begins a
/// chain or an expression with steps, but not what stands alone in it.
const EXPRESSIONS: [(&str, &str); 33] = [
    ("12", "value 0, Int 0"),
    ("'a'", "value 0, Str 0"),
    ("true", "value 0, Bool 0"),
    ("null", "value 0, Null 0"),
    ("self", "value 0, SelfRef 0"),
    ("result", "value 0, ResultRef 0"),
    ("a::b", "value 0, Path 0"),
    ("((a))", "value 0, Path 2"),
    ("f(1, b)", "value 0, Call 0, Int 2, Path 5"),
    (
        "Set{1, 2..3}",
        "value 0, Coll 0, Item 4, Int 4, Item 7, Int 7, RangeEnd 8, Int 10",
    ),
    (
        "(if a then b else c endif)",
        "value 0, If 1, Path 4, Path 11, Path 18",
    ),
    ("object A { }", "value 0, Object 0, Path 7"),
    (
        "object x : A::B@e { c }",
        "value 0, Object 0, Named 7, Path 11, value 20, Path 20",
    ),
    (
        "object result : A { }",
        "value 0, Object 0, ResultVar 7, Path 16",
    ),
    ("new A@e(1)", "value 0, New 0, Path 4, Int 8"),
    ("map m(1)", "value 0, Map 4, Int 6"),
    ("xmap m()", "value 0, Map 5"),
    ("resolve(A)", "value 0, Resolve 0, Filter 8, Path 8"),
    (
        "resolve(Set(A))",
        "value 0, Resolve 0, Filter 8, CollType 8, Path 12",
    ),
    (
        "late resolveone(x : A | b)",
        "value 0, Resolve 0, Filter 16, Path 20, Path 24",
    ),
    (
        "invresolveIn(A::m, B)",
        "value 0, Resolve 0, Path 13, Filter 19, Path 19",
    ),
    (
        "a + b - c",
        "value 0, Chain 0, Path 0, Link 2, Path 4, Link 6, Path 8",
    ),
    (
        "(a + b) * c",
        "value 0, Chain 0, Chain 1, Link 8, Path 10, Path 1, Link 3, Path 5",
    ),
    ("not - a", "value 0, Prefix 0, Sign 0, Sign 4, Path 6"),
    ("-(-a)", "value 0, Prefix 0, Sign 0, Sign 2, Path 3"),
    (
        "-(a + b)",
        "value 0, Prefix 0, Sign 0, Chain 2, Path 2, Link 4, Path 6",
    ),
    (
        "(a + b).c",
        "value 0, Post 0, Chain 1, Dot 8, Path 1, Link 3, Path 5",
    ),
    ("(a.b).c", "value 0, Post 0, Path 1, Dot 3, Dot 6"),
    ("(a).b", "value 0, Post 0, Path 1, Dot 4"),
    ("(a) + b", "value 0, Chain 0, Path 1, Link 4, Path 6"),
    (
        "((a) + b) * c",
        "value 0, Chain 0, Chain 1, Link 10, Path 12, Path 2, Link 5, Path 7",
    ),
    (
        "(- a).b",
        "value 0, Post 0, Prefix 1, Dot 6, Sign 1, Path 3",
    ),
    ("-(a).b", "value 0, Prefix 0, Sign 0, Post 1, Path 2, Dot 5"),
];

/// A step stands at its name, a mapping call at the called name, a resolve at `late` or its word.
const STEPS: [(&str, &str); 9] = [
    ("a.b", "value 0, Post 0, Path 0, Dot 2"),
    ("a.b(1)", "value 0, Post 0, Path 0, Dot 2, Int 4"),
    (
        "a->b(1, c)",
        "value 0, Post 0, Path 0, Arrow 3, Int 5, Path 8",
    ),
    (
        "a->b(x | y)",
        "value 0, Post 0, Path 0, Arrow 3, Head 5, Path 9",
    ),
    (
        "a->b(x : A; s : B = 1 | y)",
        "value 0, Post 0, Path 0, Arrow 3, Head 5, Path 9, Accumulator 12, Path 16, Int 20, Path 24",
    ),
    ("a.map m(1)", "value 0, Post 0, Path 0, DotMap 6, Int 8"),
    ("a->xmap m()", "value 0, Post 0, Path 0, ArrowMap 8"),
    (
        "a.resolve(A)",
        "value 0, Post 0, Path 0, DotResolve 2, Filter 10, Path 10",
    ),
    (
        "a->late invresolveoneIn(m)",
        "value 0, Post 0, Path 0, ArrowResolve 3, Path 24",
    ),
];

#[test]
fn places_in_expressions(rt: HostRuntime) {
    for (text, expected) in &EXPRESSIONS {
        assert!(rt;
            statements_have_places(rt.alloc(), text, expected) == Ok(true),
            "{text}"
        );
    }
}

#[test]
fn places_in_steps(rt: HostRuntime) {
    for (text, expected) in &STEPS {
        assert!(rt;
            statements_have_places(rt.alloc(), text, expected) == Ok(true),
            "{text}"
        );
    }
}
