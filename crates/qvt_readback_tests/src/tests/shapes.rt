//! Texts whose trees are equal but for places, and texts that differ in one node.

use super::trees::{Fault, have_same_shape, joined};
use std::alloc::Global;

/// Whether both pairs of trees are unequal, whichever stands first, and each tree equals itself.
fn are_unequal(alloc: Global, text: &str, other: &str) -> Result<bool, Fault> {
    let forth = have_same_shape(alloc, text, other)?;
    let back = have_same_shape(alloc, other, text)?;
    let first = have_same_shape(alloc, text, text)?;
    let second = have_same_shape(alloc, other, other)?;
    Ok(!forth && !back && first && second)
}

/// Blanks, comments, brackets and words that leave nothing in the tree.
const EQUAL: [(&str, &str); 7] = [
    (
        "transformation T(in m : M); main() { x := 1; }",
        "\u{feff}transformation\r\nT ( in\tm:M ) ;\n\n\n main\n(\n)\n{ x:=1 ; }\n",
    ),
    (
        "transformation T(in m : M); main() { x := 1; }",
        "-- a\ntransformation/* b */T(in m // c\n : M); main() { /* d\n */ x /**/ := 1; }--",
    ),
    (
        "modeltype N uses \"n\"; transformation T(in m : N); main() { f(1, 'a'); }",
        "modeltype N 'strict' uses n('n'); transformation T(in m : N);; main() {;; (f (001, \"\\x61\"));}",
    ),
    (
        "transformation T(in m : M); query A::q(a : B) : C { return a.b; }",
        "transformation T(in m : M);\n\nquery A :: q (in a : B) : C = a . b;",
    ),
    (
        "transformation T(in m : M); mapping m() inherits a merges b { x := 1; }",
        "transformation T(in m : M); mapping m() merges b inherits a { init { } population { x := 1 } end { } }",
    ),
    (
        "transformation T(in m : M); main() { if (a) { b } elif (c) { } else { } a->forEach(x) { } }",
        "transformation T(in m : M); main() { if ((a)) then { b; } elif (c) then { } else { } endif a -> forEach (x) { } }",
    ),
    (
        "transformation T(in m : M); main() { x := - - a.b.c <> d + (e - f); }",
        "transformation T(in m : M); main() { x := -(-(a.b).c) != (d) + ((e - f)); }",
    ),
];

#[test]
fn blanks_and_comments_are_no_part_of_a_shape(rt: HostRuntime) {
    for (text, other) in &EQUAL {
        assert!(rt;
            have_same_shape(rt.alloc(), text, other) == Ok(true),
            "{other}"
        );
        assert!(rt;
            have_same_shape(rt.alloc(), other, text) == Ok(true),
            "{text}"
        );
    }
}

/// In each pair the second differs from the first in one part of the head.
const HEADS: [(&str, &str); 12] = [
    ("transformation T(in m : M);", "transformation U(in m : M);"),
    (
        "transformation T(in m : M);",
        "transformation T(out m : M);",
    ),
    (
        "transformation T(out m : M);",
        "transformation T(inout m : M);",
    ),
    ("transformation T(in m : M);", "transformation T(in n : M);"),
    ("transformation T(in m : M);", "transformation T(in m : N);"),
    (
        "transformation T(in m : M);",
        "transformation T(in m : M, in m : M);",
    ),
    (
        "transformation T(in m : M, in n : M);",
        "transformation T(in n : M, in m : M);",
    ),
    (
        "transformation T(in m : M);",
        "modeltype M uses 'm'; transformation T(in m : M);",
    ),
    (
        "modeltype M uses 'm'; transformation T(in m : M);",
        "modeltype N uses 'm'; transformation T(in m : M);",
    ),
    (
        "modeltype M uses 'm'; transformation T(in m : M);",
        "modeltype M uses 'n'; transformation T(in m : M);",
    ),
    (
        "modeltype M uses 'm'; transformation T(in m : M);",
        "modeltype M uses 'm'; modeltype M uses 'm'; transformation T(in m : M);",
    ),
    (
        "transformation T(in m : M);",
        "transformation T(in m : M); main() { }",
    ),
];

#[test]
fn heads_of_other_shapes(rt: HostRuntime) {
    for (text, other) in &HEADS {
        assert!(rt; are_unequal(rt.alloc(), text, other) == Ok(true), "{other}");
    }
}

/// Whether transformations with these units have unequal trees.
fn are_other_units(alloc: Global, units: &str, other: &str) -> Result<bool, Fault> {
    let text = joined(alloc, "transformation T(in m : M); ", units, "")?;
    let other = joined(alloc, "transformation T(in m : M); ", other, "")?;
    are_unequal(alloc, text.as_str(), other.as_str())
}

/// In each pair the second differs from the first in one part of a unit, or is another unit.
const UNITS: [(&str, &str); 46] = [
    ("main() { }", "main() { } main() { }"),
    ("main() { }", "main() { a }"),
    ("main() { a }", "main() { b }"),
    ("main() { }", "helper h() { }"),
    ("intermediate class C { }", "intermediate class D { }"),
    (
        "intermediate class C { }",
        "intermediate class C extends A { }",
    ),
    (
        "intermediate class C extends A { }",
        "intermediate class C extends B { }",
    ),
    (
        "intermediate class C extends A { }",
        "intermediate class C extends A, A { }",
    ),
    (
        "intermediate class C { }",
        "intermediate class C { a : A; }",
    ),
    (
        "intermediate class C { a : A; }",
        "intermediate class C { b : A; }",
    ),
    (
        "intermediate class C { a : A; }",
        "intermediate class C { a : B; }",
    ),
    (
        "intermediate class C { a : A; b : A; }",
        "intermediate class C { b : A; a : A; }",
    ),
    ("helper h() { }", "query h() { }"),
    ("helper h() { }", "constructor h() { }"),
    ("helper h() { }", "mapping h() { }"),
    ("helper h() { }", "helper i() { }"),
    ("helper A::h() { }", "helper B::h() { }"),
    ("helper h() { }", "helper A::h() { }"),
    ("helper h() { }", "helper h(a : A) { }"),
    ("helper h(a : A) { }", "helper h(b : A) { }"),
    ("helper h(a : A) { }", "helper h(a : B) { }"),
    ("helper h(a : A) { }", "helper h(a : A, a : A) { }"),
    ("helper h() { }", "helper h() : A { }"),
    ("helper h() : A { }", "helper h() : B { }"),
    ("helper h() : A { }", "helper h() : Set(A) { }"),
    ("helper h() : Set(A) { }", "helper h() : Bag(A) { }"),
    (
        "helper h() : Sequence(A) { }",
        "helper h() : OrderedSet(A) { }",
    ),
    ("helper h() : Set(A) { }", "helper h() : Set(B) { }"),
    ("helper h() : Set(A) { }", "helper h() : Set(Set(A)) { }"),
    ("helper h() = 1;", "helper h() = 2;"),
    ("constructor C::C() { }", "constructor D::C() { }"),
    ("constructor C::C() { }", "constructor C::C(a : A) { }"),
    ("constructor C::C() { }", "constructor C::C() { a }"),
    ("mapping m();", "mapping n();"),
    ("mapping m();", "mapping m(a : A);"),
    ("mapping m();", "mapping m() : A;"),
    ("mapping m() : A;", "mapping m() : B;"),
    ("mapping m() : A;", "mapping m() : A@e;"),
    ("mapping m() : A@e;", "mapping m() : A@f;"),
    ("mapping m() inherits a;", "mapping m() merges a;"),
    ("mapping m() merges a;", "mapping m() disjuncts a;"),
    ("mapping m() disjuncts a;", "mapping m() disjuncts a, b;"),
    ("mapping m() when { a };", "mapping m();"),
    ("mapping m() when { a };", "mapping m() when { b };"),
    (
        "mapping m() { init { a } }",
        "mapping m() { population { a } }",
    ),
    ("mapping m() { a }", "mapping m() { end { a } }"),
];

#[test]
fn units_of_other_shapes(rt: HostRuntime) {
    for (units, other) in &UNITS {
        assert!(rt;
            are_other_units(rt.alloc(), units, other) == Ok(true),
            "{units} {other}"
        );
    }
}

/// Whether mains with these statements have unequal trees.
fn are_other_statements(alloc: Global, body: &str, other: &str) -> Result<bool, Fault> {
    let text = joined(alloc, "main() { ", body, " }")?;
    let other = joined(alloc, "main() { ", other, " }")?;
    are_other_units(alloc, text.as_str(), other.as_str())
}

/// In each pair the second differs from the first in one part of a statement, or is another
/// statement.
const STATEMENTS: [(&str, &str); 42] = [
    ("a; b", "b; a"),
    ("a; b", "a"),
    ("var a", "var b"),
    ("var a", "var a : A"),
    ("var a : A", "var a : B"),
    ("var a", "var a := 1"),
    ("var a := 1", "var a := 2"),
    ("var a := 1", "a := 1"),
    ("a := 1", "b := 1"),
    ("a := 1", "a += 1"),
    ("a := 1", "a := 2"),
    ("a := 1", "result := 1"),
    ("a := 1", "a = 1"),
    ("result := 1", "a.result1 := 1"),
    ("a.b := 1", "b := 1"),
    ("a.b := 1", "c.b := 1"),
    ("a.b := 1", "a.c := 1"),
    ("return", "return 1"),
    ("return 1", "return 2"),
    ("return 1", "1"),
    ("1", "2"),
    ("if (a) { }", "if (b) { }"),
    ("if (a) { }", "if (a) { b }"),
    ("if (a) { b }", "if (a) { c }"),
    ("if (a) { }", "if (a) { } elif (b) { }"),
    ("if (a) { } elif (b) { }", "if (a) { } elif (c) { }"),
    ("if (a) { } elif (b) { }", "if (a) { } elif (b) { c }"),
    (
        "if (a) { } elif (b) { }",
        "if (a) { } elif (b) { } elif (b) { }",
    ),
    ("if (a) { }", "if (a) { } else { }"),
    ("if (a) { } else { b }", "if (a) { } else { c }"),
    ("if (a) { } elif (b) { }", "if (a) { } else { if (b) { } }"),
    ("if (a) { }", "while (a) { }"),
    ("while (a) { }", "while (b) { }"),
    ("while (a) { }", "while (a) { b }"),
    ("a->forEach(x) { }", "b->forEach(x) { }"),
    ("a->forEach(x) { }", "a->forEach(y) { }"),
    ("a->forEach(x) { }", "a->forEach(x : A) { }"),
    ("a->forEach(x : A) { }", "a->forEach(x : B) { }"),
    ("a->forEach(x) { }", "a->forEach(x | b) { }"),
    ("a->forEach(x | b) { }", "a->forEach(x | c) { }"),
    ("a->forEach(x) { }", "a->forEach(x) { b }"),
    ("a->forEach(x) { }", "a->_'forEach'(x)"),
];

#[test]
fn statements_of_other_shapes(rt: HostRuntime) {
    for (body, other) in &STATEMENTS {
        assert!(rt;
            are_other_statements(rt.alloc(), body, other) == Ok(true),
            "{body} {other}"
        );
    }
}

/// In each pair the second differs from the first in one part of an expression, or is another
/// expression.
const EXPRESSIONS: [(&str, &str); 60] = [
    ("1", "2"),
    ("1", "'1'"),
    ("'a'", "'b'"),
    ("'a'", "a"),
    ("true", "false"),
    ("true", "1"),
    ("null", "self"),
    ("self", "result"),
    ("result", "null"),
    ("null", "_'null'"),
    ("a", "b"),
    ("a", "a::a"),
    ("a::b", "a::c"),
    ("a::b", "a.b"),
    ("a", "a()"),
    ("a()", "b()"),
    ("a()", "a(1)"),
    ("a(1)", "a(2)"),
    ("a(1)", "a(1, 1)"),
    ("a(1, 2)", "a(2, 1)"),
    ("Set{}", "Bag{}"),
    ("Sequence{}", "OrderedSet{}"),
    ("Set{}", "Set{1}"),
    ("Set{1}", "Set{2}"),
    ("Set{1}", "Set{1..1}"),
    ("Set{1..2}", "Set{1..3}"),
    ("Set{1..2}", "Set{1, 2}"),
    ("if a then b else c endif", "if d then b else c endif"),
    ("if a then b else c endif", "if a then d else c endif"),
    ("if a then b else c endif", "if a then b else d endif"),
    ("object A { }", "object B { }"),
    ("object A { }", "object x : A { }"),
    ("object x : A { }", "object y : A { }"),
    ("object x : A { }", "object result : A { }"),
    ("object A { }", "object A@e { }"),
    ("object A@e { }", "object A@f { }"),
    ("object A { }", "object A { b }"),
    ("object A { }", "new A()"),
    ("new A()", "new B()"),
    ("new A()", "new A@e()"),
    ("new A()", "new A(1)"),
    ("new A()", "A()"),
    ("map m()", "xmap m()"),
    ("map m()", "map n()"),
    ("map m()", "map m(1)"),
    ("map m()", "m()"),
    ("a + b", "a - b"),
    ("a + b", "a * b"),
    ("a + b", "c + b"),
    ("a + b", "a + c"),
    ("a - b - c", "a - (b - c)"),
    ("a or b", "a xor b"),
    ("a and b", "a implies b"),
    ("a = b", "a <> b"),
    ("a < b", "a <= b"),
    ("a > b", "a >= b"),
    ("- a", "not a"),
    ("- a", "- - a"),
    ("- a", "- b"),
    ("- a", "a"),
];

/// The same of resolves and of steps after an expression.
const STEPS: [(&str, &str); 49] = [
    ("resolve(A)", "late resolve(A)"),
    ("resolve(A)", "resolveone(A)"),
    ("resolve(A)", "invresolve(A)"),
    ("invresolve(A)", "invresolveone(A)"),
    ("resolve(A)", "resolve(B)"),
    ("resolve(A)", "resolve(Set(A))"),
    ("resolve(A)", "resolve(x : A)"),
    ("resolve(x : A)", "resolve(y : A)"),
    ("resolve(A)", "resolve(A | a)"),
    ("resolve(A | a)", "resolve(A | b)"),
    ("resolve(A)", "resolveIn(A)"),
    ("resolveIn(m)", "resolveIn(n)"),
    ("resolveIn(m)", "resolveIn(m, A)"),
    ("resolveIn(m, A)", "resolveIn(m, B)"),
    ("resolveIn(m)", "resolveoneIn(m)"),
    ("resolveIn(m)", "invresolveIn(m)"),
    ("invresolveIn(m)", "invresolveoneIn(m)"),
    ("a.b", "a"),
    ("a.b", "c.b"),
    ("a.b", "a.c"),
    ("a.b", "a.b()"),
    ("a.b()", "a.c()"),
    ("a.b()", "a.b(1)"),
    ("a.b(1)", "a.b(2)"),
    ("a.b.c", "a.c.b"),
    ("a.b.c", "a.b"),
    ("a.b()", "a->b()"),
    ("a->b()", "a->c()"),
    ("a->b()", "a->b(1)"),
    ("a->b(1)", "a->b(2)"),
    ("a->b(x)", "a->b(x | x)"),
    ("a->b(x | c)", "a->b(y | c)"),
    ("a->b(x | c)", "a->b(x | d)"),
    ("a->b(x | c)", "a->b(x : A | c)"),
    ("a->b(x : A | c)", "a->b(x : B | c)"),
    ("a->b(x | c)", "a->b(x; s : A = 1 | c)"),
    ("a->b(x; s : A = 1 | c)", "a->b(x; t : A = 1 | c)"),
    ("a->b(x; s : A = 1 | c)", "a->b(x; s : B = 1 | c)"),
    ("a->b(x; s : A = 1 | c)", "a->b(x; s : A = 2 | c)"),
    ("a.map m()", "a->map m()"),
    ("a.map m()", "a.m()"),
    ("a.map m()", "a.xmap m()"),
    ("a.map m()", "a.map n()"),
    ("a->map m()", "a->map m(1)"),
    ("a.resolve(A)", "a->resolve(A)"),
    ("a.resolve(A)", "resolve(A)"),
    ("a.resolve(A)", "a.late resolve(A)"),
    ("a.resolve(A)", "a.resolve(B)"),
    ("a->resolve(A)", "a->resolveone(A)"),
];

/// Whether statements with these expressions have unequal trees.
fn are_other_expressions(alloc: Global, text: &str, other: &str) -> Result<bool, Fault> {
    let text = joined(alloc, "x := ", text, "")?;
    let other = joined(alloc, "x := ", other, "")?;
    are_other_statements(alloc, text.as_str(), other.as_str())
}

#[test]
fn expressions_of_other_shapes(rt: HostRuntime) {
    for (text, other) in &EXPRESSIONS {
        assert!(rt;
            are_other_expressions(rt.alloc(), text, other) == Ok(true),
            "{text} {other}"
        );
    }
}

#[test]
fn steps_of_other_shapes(rt: HostRuntime) {
    for (text, other) in &STEPS {
        assert!(rt;
            are_other_expressions(rt.alloc(), text, other) == Ok(true),
            "{text} {other}"
        );
    }
}
