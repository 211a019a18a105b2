//! Notes of the nodes of typed trees: those of the parts of a node come before its own.

use super::told::Told;
use super::trees::{Fault, in_text, typed_tree_of};
use std::alloc::Global;

/// Whether the text's tree is told so: each node before its parts, with the number of its note, of
/// so many that are there.
fn has_notes(alloc: Global, text: &str, notes: u32, expected: &str) -> Result<bool, Fault> {
    let tree = typed_tree_of(alloc, text, notes)?;
    let mut told = Told::new(alloc);
    told.module(&tree)?;
    Ok(told.text.as_str() == expected)
}

/// There are more notes than nodes.
const ENOUGH: u32 = 100;

const TEXTS: [(&str, &str); 2] = [
    ("transformation T(in a : M);", "ModelParam 0"),
    (
        "modeltype M uses 'm'; modeltype N uses 'n'; transformation T(in a : M, out b : N); main() { a }",
        "modeltype 0, modeltype 1, ModelParam 2, ModelParam 3, main 6, value 5, Path 4",
    ),
];

#[test]
fn notes_of_texts(rt: HostRuntime) {
    for (text, expected) in &TEXTS {
        assert!(rt;
            has_notes(rt.alloc(), text, ENOUGH, expected) == Ok(true),
            "{text}"
        );
    }
}

fn units_have_notes(alloc: Global, units: &str, expected: &str) -> Result<bool, Fault> {
    let text = in_text(alloc, "transformation T(in m : M); ", units, "")?;
    has_notes(alloc, text.as_str(), ENOUGH, expected)
}

const UNITS: [(&str, &str); 8] = [
    ("main() { }", "ModelParam 0, main 1"),
    (
        "intermediate class C extends A, B::D { x : Set(E); y : F; }",
        "ModelParam 0, class 8, Path 1, Path 2, Field 5, CollType 4, Path 3, Field 7, Path 6",
    ),
    (
        "helper A::h(in a : B, c : D) : E { f }",
        "ModelParam 0, helper 8, Param 2, Path 1, Param 4, Path 3, Path 5, value 7, Path 6",
    ),
    ("query q() = 1;", "ModelParam 0, helper 3, return 2, Int 1"),
    (
        "constructor C::C(a : A) { b; c }",
        "ModelParam 0, constructor 7, Param 2, Path 1, value 4, Path 3, value 6, Path 5",
    ),
    (
        "mapping A::m(x : B) : C::D@e inherits b, c merges d disjuncts f when { g } { init { h } population { i } end { j } }",
        "ModelParam 0, mapping 16, Param 2, Path 1, ResultDecl 4, Path 3, Path 5, Path 6, Path 7, Path 8, Path 9, value 11, Path 10, value 13, Path 12, value 15, Path 14",
    ),
    ("mapping m();", "ModelParam 0, mapping 1"),
    (
        "main() { } query q(a : B) : C = d;",
        "ModelParam 0, main 1, helper 7, Param 3, Path 2, Path 4, return 6, Path 5",
    ),
];

#[test]
fn notes_of_units(rt: HostRuntime) {
    for (units, expected) in &UNITS {
        assert!(rt;
            units_have_notes(rt.alloc(), units, expected) == Ok(true),
            "{units}"
        );
    }
}

fn statements_have_notes(alloc: Global, body: &str, expected: &str) -> Result<bool, Fault> {
    let text = in_text(alloc, "transformation T(in m : M); main() { ", body, " }")?;
    has_notes(alloc, text.as_str(), ENOUGH, expected)
}

const STATEMENTS: [(&str, &str); 13] = [
    ("var x", "ModelParam 0, main 2, var 1"),
    (
        "var x : A := 1",
        "ModelParam 0, main 4, var 3, Path 1, Int 2",
    ),
    ("x := 1", "ModelParam 0, main 4, assign 3, Bare 1, Int 2"),
    (
        "result += 1",
        "ModelParam 0, main 4, assign 3, ResultVar 1, Int 2",
    ),
    (
        "a.b := 1",
        "ModelParam 0, main 5, assign 4, Member 2, Path 1, Int 3",
    ),
    (
        "a.b.c := 1",
        "ModelParam 0, main 7, assign 6, Member 4, Post 3, Path 1, Dot 2, Int 5",
    ),
    ("return", "ModelParam 0, main 2, return 1"),
    ("return a", "ModelParam 0, main 3, return 2, Path 1"),
    (
        "; a;; b",
        "ModelParam 0, main 5, value 2, Path 1, value 4, Path 3",
    ),
    (
        "if (a) { b } elif (c) { d } elif (e) { f } else { g }",
        "ModelParam 0, main 13, if 12, Path 1, value 3, Path 2, Path 4, value 6, Path 5, Path 7, value 9, Path 8, value 11, Path 10",
    ),
    (
        "while (a) { b }",
        "ModelParam 0, main 5, while 4, Path 1, value 3, Path 2",
    ),
    (
        "a.b->forEach(x : A | c) { d }",
        "ModelParam 0, main 9, forEach 8, Post 3, Path 1, Dot 2, Path 4, Path 5, value 7, Path 6",
    ),
    (
        "(a + b)->forEach(x) { }",
        "ModelParam 0, main 6, forEach 5, Chain 4, Path 1, Link 3, Path 2",
    ),
];

#[test]
fn notes_of_statements(rt: HostRuntime) {
    for (body, expected) in &STATEMENTS {
        assert!(rt;
            statements_have_notes(rt.alloc(), body, expected) == Ok(true),
            "{body}"
        );
    }
}

const EXPRESSIONS: [(&str, &str); 24] = [
    ("12", "ModelParam 0, main 3, value 2, Int 1"),
    ("'a'", "ModelParam 0, main 3, value 2, Str 1"),
    ("true", "ModelParam 0, main 3, value 2, Bool 1"),
    ("null", "ModelParam 0, main 3, value 2, Null 1"),
    ("self", "ModelParam 0, main 3, value 2, SelfRef 1"),
    ("result", "ModelParam 0, main 3, value 2, ResultRef 1"),
    ("a::b", "ModelParam 0, main 3, value 2, Path 1"),
    (
        "f(1, b)",
        "ModelParam 0, main 5, value 4, Call 3, Int 1, Path 2",
    ),
    (
        "Set{1, 2..3}",
        "ModelParam 0, main 9, value 8, Coll 7, Item 2, Int 1, Item 6, Int 3, RangeEnd 5, Int 4",
    ),
    (
        "(if a then b else c endif)",
        "ModelParam 0, main 6, value 5, If 4, Path 1, Path 2, Path 3",
    ),
    (
        "object x : A::B@e { c }",
        "ModelParam 0, main 7, value 6, Object 5, Named 1, Path 2, value 4, Path 3",
    ),
    (
        "object result : A { x := object B { } }",
        "ModelParam 0, main 9, value 8, Object 7, ResultVar 1, Path 2, assign 6, Bare 3, Object 5, Path 4",
    ),
    (
        "new A@e(1, b)",
        "ModelParam 0, main 6, value 5, New 4, Path 1, Int 2, Path 3",
    ),
    ("map m(1)", "ModelParam 0, main 4, value 3, Map 2, Int 1"),
    ("xmap m()", "ModelParam 0, main 3, value 2, Map 1"),
    (
        "resolve(A)",
        "ModelParam 0, main 5, value 4, Resolve 3, Filter 2, Path 1",
    ),
    (
        "resolve(Set(A))",
        "ModelParam 0, main 6, value 5, Resolve 4, Filter 3, CollType 2, Path 1",
    ),
    (
        "late resolveone(x : A | b)",
        "ModelParam 0, main 6, value 5, Resolve 4, Filter 3, Path 1, Path 2",
    ),
    (
        "invresolveIn(A::m, B)",
        "ModelParam 0, main 6, value 5, Resolve 4, Path 1, Filter 3, Path 2",
    ),
    (
        "a + b - c",
        "ModelParam 0, main 8, value 7, Chain 6, Path 1, Link 3, Path 2, Link 5, Path 4",
    ),
    (
        "(a + b) * c",
        "ModelParam 0, main 9, value 8, Chain 7, Chain 4, Path 1, Link 3, Path 2, Link 6, Path 5",
    ),
    (
        "not - a",
        "ModelParam 0, main 6, value 5, Prefix 4, Sign 1, Sign 2, Path 3",
    ),
    (
        "-(a + b)",
        "ModelParam 0, main 8, value 7, Prefix 6, Sign 1, Chain 5, Path 2, Link 4, Path 3",
    ),
    (
        "(a + b).c",
        "ModelParam 0, main 8, value 7, Post 6, Chain 4, Path 1, Link 3, Path 2, Dot 5",
    ),
];

#[test]
fn notes_of_expressions(rt: HostRuntime) {
    for (text, expected) in &EXPRESSIONS {
        assert!(rt;
            statements_have_notes(rt.alloc(), text, expected) == Ok(true),
            "{text}"
        );
    }
}

const STEPS: [(&str, &str); 9] = [
    (
        "a.b",
        "ModelParam 0, main 5, value 4, Post 3, Path 1, Dot 2",
    ),
    (
        "a.b(1, c).d",
        "ModelParam 0, main 8, value 7, Post 6, Path 1, Dot 4, Int 2, Path 3, Dot 5",
    ),
    (
        "a->b(1, c)",
        "ModelParam 0, main 7, value 6, Post 5, Path 1, Arrow 4, Int 2, Path 3",
    ),
    (
        "a->b(x | y)",
        "ModelParam 0, main 7, value 6, Post 5, Path 1, Arrow 4, Head 2, Path 3",
    ),
    (
        "a->b(x : A; s : B = 1 | y)",
        "ModelParam 0, main 11, value 10, Post 9, Path 1, Arrow 8, Head 6, Path 2, Accumulator 5, Path 3, Int 4, Path 7",
    ),
    (
        "a.map m(1)",
        "ModelParam 0, main 6, value 5, Post 4, Path 1, DotMap 3, Int 2",
    ),
    (
        "a->xmap m()",
        "ModelParam 0, main 5, value 4, Post 3, Path 1, ArrowMap 2",
    ),
    (
        "a.resolve(A)",
        "ModelParam 0, main 7, value 6, Post 5, Path 1, DotResolve 4, Filter 3, Path 2",
    ),
    (
        "a->late invresolveoneIn(m)",
        "ModelParam 0, main 6, value 5, Post 4, Path 1, ArrowResolve 3, Path 2",
    ),
];

#[test]
fn notes_of_steps(rt: HostRuntime) {
    for (text, expected) in &STEPS {
        assert!(rt;
            statements_have_notes(rt.alloc(), text, expected) == Ok(true),
            "{text}"
        );
    }
}

const FEW: &str = "transformation T(in m : M); main() { a + b; x := 1 }";

/// So many notes, and which nodes have them: the first, while the others have bare ones.
const FEWER: [(u32, &str); 4] = [
    (
        0,
        "ModelParam -, main -, value -, Chain -, Path -, Link -, Path -, assign -, Bare -, Int -",
    ),
    (
        1,
        "ModelParam 0, main -, value -, Chain -, Path -, Link -, Path -, assign -, Bare -, Int -",
    ),
    (
        4,
        "ModelParam 0, main -, value -, Chain -, Path 1, Link 3, Path 2, assign -, Bare -, Int -",
    ),
    (
        9,
        "ModelParam 0, main -, value 5, Chain 4, Path 1, Link 3, Path 2, assign 8, Bare 6, Int 7",
    ),
];

#[test]
fn fewer_notes_than_nodes(rt: HostRuntime) {
    for (notes, expected) in &FEWER {
        assert!(rt;
            has_notes(rt.alloc(), FEW, *notes, expected) == Ok(true),
            "{notes}"
        );
    }
}
