//! Texts, and what is printed of their trees.

use super::trees::{Fault, have_same_shape, joined, tree_of};
use qvt_base::text::Text;
use qvt_printer::print::print;
use std::alloc::Global;

fn printed(alloc: Global, text: &str) -> Result<Text, Fault> {
    let tree = tree_of(alloc, text)?;
    let text = print(alloc, &tree)?;
    Ok(text)
}

/// Whether the text is printed as this, which has a tree of the same shape and is printed as itself.
fn is_printed_as(alloc: Global, text: &str, expected: &str) -> Result<bool, Fault> {
    let once = printed(alloc, text)?;
    let twice = printed(alloc, expected)?;
    let same = have_same_shape(alloc, text, expected)?;
    Ok(same && once.as_str() == expected && twice.as_str() == expected)
}

const WHOLE: (&str, &str) = (
    "modeltype M uses \"M\"; transformation T(out t : M); main() { var x := (1 - 2) - 3 - (4 - 5) * -6; var y := not (true or false) and 1 < 2 == true implies \"q'\" <> 'r' xor false }",
    "modeltype M uses 'M';\ntransformation T(out t : M);\nmain() {\n  var x := (1 - 2) - 3 - (4 - 5) * - 6;\n  var y := not (true or false) and 1 < 2 = true implies 'q\\'' <> 'r' xor false;\n}\n",
);

#[test]
fn a_whole_text(rt: HostRuntime) {
    let (text, expected) = WHOLE;
    assert!(rt; is_printed_as(rt.alloc(), text, expected) == Ok(true));
}

/// Whether a transformation with these units is printed as one with these lines.
fn are_units(alloc: Global, units: &str, expected: &str) -> Result<bool, Fault> {
    let text = joined(
        alloc,
        "modeltype M 'strict' uses ecore('m'); modeltype N uses \"n\"; transformation T(in a : M, out b : M, inout c : N); ",
        units,
        "",
    )?;
    let expected = joined(
        alloc,
        "modeltype M uses 'm';\nmodeltype N uses 'n';\ntransformation T(in a : M, out b : M, inout c : N);\n",
        expected,
        "",
    )?;
    is_printed_as(alloc, text.as_str(), expected.as_str())
}

const UNITS: [(&str, &str); 14] = [
    ("", ""),
    (";;", ""),
    (
        "intermediate class C extends A, B::D { x : Set(Integer); y : P::Q; }",
        "intermediate class C extends A, B::D {\n  x : Set(Integer);\n  y : P::Q;\n}\n",
    ),
    ("intermediate class C { }", "intermediate class C {\n}\n"),
    ("main() { };", "main() {\n}\n"),
    (
        "helper C::h(in a : Integer, b : OrderedSet(Bag(String))) : Boolean { return true; }",
        "helper C::h(a : Integer, b : OrderedSet(Bag(String))) : Boolean {\n  return true;\n}\n",
    ),
    (
        "query q() : Integer = 1;",
        "query q() : Integer {\n  return 1;\n}\n",
    ),
    (
        "constructor C::C(a : Sequence(String)) { name := a }",
        "constructor C::C(a : Sequence(String)) {\n  name := a;\n}\n",
    ),
    (
        "mapping A::m(x : A) : B::C@e when { true; } disjuncts e::f merges d inherits b, c { init { a } population { } end { b } }",
        "mapping A::m(x : A) : B::C@e inherits b, c merges d disjuncts e::f when { true } {\n  init {\n    a;\n  }\n  end {\n    b;\n  }\n}\n",
    ),
    ("mapping m();", "mapping m() {\n}\n"),
    (
        "mapping m() { init { } x := 1 }",
        "mapping m() {\n  x := 1;\n}\n",
    ),
    (
        "mapping m() { population { x := 1 } }",
        "mapping m() {\n  x := 1;\n}\n",
    ),
    (
        "mapping m() { x := 1; end { y } }",
        "mapping m() {\n  population {\n    x := 1;\n  }\n  end {\n    y;\n  }\n}\n",
    ),
    (
        "mapping m() when { a } { init { y } x := 1 }",
        "mapping m() when { a } {\n  init {\n    y;\n  }\n  population {\n    x := 1;\n  }\n}\n",
    ),
];

#[test]
fn heads_and_units(rt: HostRuntime) {
    for (units, expected) in &UNITS {
        assert!(rt;
            are_units(rt.alloc(), units, expected) == Ok(true),
            "{units}"
        );
    }
}

/// Whether a main with these statements is printed as one with these lines.
fn are_statements(alloc: Global, body: &str, expected: &str) -> Result<bool, Fault> {
    let text = joined(alloc, "transformation T(in m : M); main() { ", body, " }")?;
    let expected = joined(
        alloc,
        "transformation T(in m : M);\nmain() {\n",
        expected,
        "}\n",
    )?;
    is_printed_as(alloc, text.as_str(), expected.as_str())
}

const STATEMENTS: [(&str, &str); 7] = [
    (
        "; var x; var y : Integer; var z : Set(A) := Set{}; return",
        "  var x;\n  var y : Integer;\n  var z : Set(A) := Set{};\n  return;\n",
    ),
    (
        "result := 1; result += 2; x := 3; x.y.z += 4; return 5;",
        "  result := 1;\n  result += 2;\n  x := 3;\n  x.y.z += 4;\n  return 5;\n",
    ),
    (
        "if (a) { } if (a) then { b } elif (c) { } elif (d) then { e; } else { } endif",
        "  if (a) {\n  }\n  if (a) {\n    b;\n  } elif (c) {\n  } elif (d) {\n    e;\n  } else {\n  }\n",
    ),
    (
        "while (a) { if (b) { c } }; a->b()->forEach(x) { } a->forEach(x : A | x.b) { c };",
        "  while (a) {\n    if (b) {\n      c;\n    }\n  }\n  a->b()->forEach(x) {\n  }\n  a->forEach(x : A | x.b) {\n    c;\n  }\n",
    ),
    (
        "(a + b)->forEach(x) { } (- a).b := 1; (a).b := 1",
        "  (a + b)->forEach(x) {\n  }\n  (- a).b := 1;\n  a.b := 1;\n",
    ),
    (
        "(if a then b else c endif)->forEach(x) { } (if (a) then b else c endif.d).e->forEach(x) { f }",
        "  if a then b else c endif->forEach(x) {\n  }\n  if a then b else c endif.d.e->forEach(x) {\n    f;\n  }\n",
    ),
    (
        "x := object A { y := object B { z := 1 }; w := 2 }.v; f(object A { }, 1)",
        "  x := object A {\n    y := object B {\n      z := 1;\n    };\n    w := 2;\n  }.v;\n  f(object A {\n  }, 1);\n",
    ),
];

#[test]
fn statements_and_blocks(rt: HostRuntime) {
    for (body, expected) in &STATEMENTS {
        assert!(rt;
            are_statements(rt.alloc(), body, expected) == Ok(true),
            "{body}"
        );
    }
}

/// Whether a statement with this expression is printed as one with this.
fn is_expression(alloc: Global, text: &str, expected: &str) -> Result<bool, Fault> {
    let text = joined(alloc, "x := ", text, "")?;
    let expected = joined(alloc, "  x := ", expected, ";\n")?;
    are_statements(alloc, text.as_str(), expected.as_str())
}

const EXPRESSIONS: [(&str, &str); 34] = [
    ("A::B", "A::B"),
    ("f()", "f()"),
    ("f(1,2)", "f(1, 2)"),
    ("Set{}", "Set{}"),
    ("Bag{1}", "Bag{1}"),
    ("Sequence { 1 .. 2, 3 }", "Sequence{1..2, 3}"),
    ("OrderedSet{'a',b}", "OrderedSet{'a', b}"),
    ("((a))", "a"),
    ("if a then b else c endif", "if a then b else c endif"),
    ("(if a then b else c endif).d", "if a then b else c endif.d"),
    ("object A::B@c { }", "object A::B@c {\n  }"),
    ("object x : A { }", "object x : A {\n  }"),
    (
        "object result : A { y }",
        "object result : A {\n    y;\n  }",
    ),
    ("new A::B@c()", "new A::B@c()"),
    ("new A(1, a)", "new A(1, a)"),
    ("map m()", "map m()"),
    ("xmap m(1)", "xmap m(1)"),
    ("a.map m(1,2)", "a.map m(1, 2)"),
    ("a->xmap m()", "a->xmap m()"),
    ("resolve(A)", "resolve(A)"),
    ("resolveone(x : A | x.b)", "resolveone(x : A | x.b)"),
    ("late invresolve(A)", "late invresolve(A)"),
    ("late invresolveone(A|a)", "late invresolveone(A | a)"),
    ("resolveIn(m,A)", "resolveIn(m, A)"),
    ("a.resolveoneIn(A::m)", "a.resolveoneIn(A::m)"),
    ("a->invresolveIn(m, x : A)", "a->invresolveIn(m, x : A)"),
    ("a->late invresolveoneIn(m)", "a->late invresolveoneIn(m)"),
    ("a.b()", "a.b()"),
    ("a.b(1,2)", "a.b(1, 2)"),
    ("a->b()", "a->b()"),
    ("a->b(1,2)", "a->b(1, 2)"),
    ("a->b(x|y)", "a->b(x | y)"),
    ("a->b(x : A | y)", "a->b(x : A | y)"),
    ("a->b(x; s : A = 1 | y)", "a->b(x; s : A = 1 | y)"),
];

#[test]
fn expressions(rt: HostRuntime) {
    for (text, expected) in &EXPRESSIONS {
        assert!(rt;
            is_expression(rt.alloc(), text, expected) == Ok(true),
            "{text}"
        );
    }
}

const SIGNS: [(&str, &str); 17] = [
    ("(a - b) * c", "(a - b) * c"),
    ("(a * b) - c", "a * b - c"),
    ("a - (b - c)", "a - (b - c)"),
    ("(a - b) - c", "(a - b) - c"),
    ("a implies (b implies c)", "a implies (b implies c)"),
    (
        "a implies b xor c or d and e = f < g + h * i",
        "a implies b xor c or d and e = f < g + h * i",
    ),
    (
        "(a implies b) xor (c or d) = e",
        "(a implies b) xor (c or d) = e",
    ),
    ("a==b!=c", "a = b <> c"),
    ("a<=b>=c>d", "a <= b >= c > d"),
    ("- (- a)", "- - a"),
    ("not-a.b", "not - a.b"),
    ("-(a + b)", "- (a + b)"),
    ("-(a.b)", "- a.b"),
    ("(-a).b", "(- a).b"),
    ("(a + b).c", "(a + b).c"),
    ("(a.b).c", "a.b.c"),
    ("(-a) * b", "- a * b"),
];

#[test]
fn brackets_and_signs(rt: HostRuntime) {
    for (text, expected) in &SIGNS {
        assert!(rt;
            is_expression(rt.alloc(), text, expected) == Ok(true),
            "{text}"
        );
    }
}

const NAMES: [(&str, &str); 9] = [
    ("_'if'._'x'", "_'if'.x"),
    ("_'end'(_'Set')", "_'end'(_'Set')"),
    ("007", "7"),
    ("9223372036854775807", "9223372036854775807"),
    ("'a' + \"b\"", "'a' + 'b'"),
    ("\"'\\\"\\\\\"", "'\\'\"\\\\'"),
    ("'\\b\\t\\n\\f\\r'", "'\\b\\t\\n\\f\\r'"),
    ("'\\x01\\u001f\\x7F'", "'\\x01\\x1f\\x7f'"),
    ("'\\u00e9\\u2028'", "'\u{e9}\u{2028}'"),
];

#[test]
fn names_numbers_and_strings(rt: HostRuntime) {
    for (text, expected) in &NAMES {
        assert!(rt;
            is_expression(rt.alloc(), text, expected) == Ok(true),
            "{text}"
        );
    }
}
