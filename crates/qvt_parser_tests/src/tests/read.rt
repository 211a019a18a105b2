//! Texts that are read, and the faults of others with their places.

use super::trees::{Fault, joined, tree_of};
use qvt_base::list_fault::ListFault;
use qvt_base::numbers::Place;
use qvt_lexer::token::{LexFault, LexKind};
use qvt_parser::fault::ParseFault;
use std::alloc::Global;

/// The name of a fault, and the line, the column and the offset of its place.
type Told = (&'static str, u32, u32, u32);

/// A text is read.
const READ: Told = ("", 0, 0, 0);

fn name_of(kind: LexKind) -> &'static str {
    match kind {
        LexKind::BadChar => "BadChar",
        LexKind::OpenText => "OpenText",
        LexKind::OpenComment => "OpenComment",
        LexKind::BadEscape => "BadEscape",
        LexKind::NumberTooLarge => "NumberTooLarge",
    }
}

fn placed(name: &'static str, place: Place) -> Told {
    (name, place.line, place.column, place.offset)
}

fn told(fault: Fault) -> Told {
    match fault {
        Fault::Parse(ParseFault::Lex(LexFault { kind, place })) => placed(name_of(kind), place),
        Fault::Parse(ParseFault::TooDeep(place)) => placed("TooDeep", place),
        Fault::Parse(ParseFault::Syntax(place)) => placed("Syntax", place),
        _ => ("another fault", 0, 0, 0),
    }
}

/// The text is a transformation, or has this fault.
fn answer(alloc: Global, text: &str) -> Told {
    match tree_of(alloc, text) {
        Ok(_) => READ,
        Err(fault) => told(fault),
    }
}

const OBJECT: &str =
    "modeltype MT uses 'M';\ntransformation T(out t : MT);\nmain() { object C { a := ";

/// What stands in place of the value of an attribute, and what is told of it. In the one that is
/// too deep one more pair of brackets is open than may be here.
const OBJECTS: [(&str, Told); 16] = [
    ("7", READ),
    ("7); }; }", ("Syntax", 3, 27, 79)),
    ("'x'", READ),
    ("[1]", ("BadChar", 3, 26, 78)),
    ("9223372036854775807", READ),
    ("9223372036854775808", ("NumberTooLarge", 3, 26, 78)),
    (
        "(((((((((((((((((((((((((((((((((((((((((((((((((((((((((((((((1)))))))))))))))))))))))))))))))))))))))))))))))))))))))))))))))",
        ("TooDeep", 3, 88, 140),
    ),
    ("7 } [", ("BadChar", 3, 30, 82)),
    ("_'if'.x", READ),
    ("if.x", ("Syntax", 3, 28, 80)),
    ("Sequence{1..1000000}->including(0)->size()", READ),
    ("late resolveone(C)", READ),
    ("1 = 2", READ),
    ("1 == 2", READ),
    ("1 := 2", ("Syntax", 3, 28, 80)),
    ("'\u{e9}' 1", ("Syntax", 3, 30, 83)),
];

#[test]
fn objects_are_read_or_have_these_faults(rt: HostRuntime) -> Result<(), ListFault> {
    for (value, expected) in &OBJECTS {
        let text = joined(rt.alloc(), OBJECT, value, "; }; }\n")?;
        assert!(rt; answer(rt.alloc(), text.as_str()) == *expected, "{value}");
    }
    Ok(())
}

const TEXTS: [(&str, Told); 19] = [
    ("", ("Syntax", 1, 1, 0)),
    ("/* a", ("OpenComment", 1, 1, 0)),
    (
        "modeltype MT uses 'M';\ntransformation T(out t : MT);\nmain() { object C { a := 7;",
        ("Syntax", 3, 28, 80),
    ),
    ("transformation T(in m : M)", ("Syntax", 1, 27, 26)),
    ("transformation ; [", ("BadChar", 1, 18, 17)),
    ("transformation if(in m : M);", ("Syntax", 1, 16, 15)),
    ("modeltype M 'other' uses 'm';", ("Syntax", 1, 13, 12)),
    (
        "transformation T(in m : M); query q() : Integer == 1;",
        ("Syntax", 1, 49, 48),
    ),
    (
        "transformation T(in m : M); main() { a b }",
        ("Syntax", 1, 40, 39),
    ),
    (
        "transformation T(in m : M); main() { (a) := 1; }",
        ("Syntax", 1, 42, 41),
    ),
    (
        "transformation T(in m : M); main() { a.b() := 1; }",
        ("Syntax", 1, 44, 43),
    ),
    (
        "transformation T(in m : M); main() { if a then b else c endif; }",
        ("Syntax", 1, 62, 61),
    ),
    (
        "transformation T(in m : M); main() { if a { } }",
        ("Syntax", 1, 43, 42),
    ),
    (
        "transformation T(in m : M); main() { if (a) + 1 = 2 then { } }",
        ("Syntax", 1, 58, 57),
    ),
    (
        "transformation T(in m : M); main() { if (a) then b else c endif.d }",
        ("Syntax", 1, 67, 66),
    ),
    (
        "transformation T(in m : M); main() { if a then b else c endif.d := 1; }",
        ("Syntax", 1, 65, 64),
    ),
    (
        "transformation T(in m : M); mapping m() inherits a inherits b;",
        ("Syntax", 1, 52, 51),
    ),
    (
        "transformation T(in m : M); mapping m() { x := 1 end { } }",
        ("Syntax", 1, 50, 49),
    ),
    (
        "transformation T(in m : M); main() { Set{1..} }",
        ("Syntax", 1, 45, 44),
    ),
];

#[test]
fn texts_have_these_faults(rt: HostRuntime) {
    for (text, expected) in &TEXTS {
        assert!(rt; answer(rt.alloc(), text) == *expected, "{text}");
    }
}

/// Texts that are read, and the place where they end.
const ENDS: [(&str, Told); 5] = [
    ("transformation T(in m : M);", ("", 1, 28, 27)),
    ("transformation T(in m : M);  ", ("", 1, 30, 29)),
    ("transformation T(in m : M);\n", ("", 2, 1, 28)),
    ("transformation T(in m : M); // é", ("", 1, 33, 33)),
    (
        "transformation T(in m : M); // é\n  /* € */",
        ("", 2, 10, 45),
    ),
];

/// Where the text ends by its tree, or its fault.
fn end_of(alloc: Global, text: &str) -> Told {
    match tree_of(alloc, text) {
        Ok(tree) => placed("", tree.end),
        Err(fault) => told(fault),
    }
}

#[test]
fn texts_end_here(rt: HostRuntime) {
    for (text, expected) in &ENDS {
        assert!(rt; end_of(rt.alloc(), text) == *expected, "{text}");
    }
}

const HEAD: &str =
    "modeltype M 'strict' uses ecore('m'); transformation T(in a : M, out b : M, inout c : M); ";

const MAIN: &str = "transformation T(in m : M); main() { ";

const UNITS: [&str; 11] = [
    ";;",
    "intermediate class C extends A, B::D { x : Set(Integer); y : P::Q; }",
    "intermediate class C { }",
    "main() { };",
    "helper C::h(in a : Integer, b : OrderedSet(Bag(String))) : Boolean { return true; }",
    "query q() : Integer = 1;",
    "constructor C::C(a : Sequence(String)) { name := a }",
    "mapping A::m(x : A) : B::C@e inherits b, c merges d disjuncts e::f when { true; } { init { } population { } end { } }",
    "mapping m();",
    "mapping m() { x := 1; end { } }",
    "mapping m() when { a } { init { } x := 1 }",
];

const STATEMENTS: [&str; 17] = [
    "; var x; var y : Integer; var z : Set(A) := Set{}; return",
    "result := 1; result += 2; x := 3; x.y.z += 4; return 5;",
    "if (a) { } if (a) then { b } elif (c) { } elif (d) then { e; } else { } endif",
    "while (a) { b }; a->b()->forEach(x) { } a->forEach(x : A | x.b) { c };",
    "if a then b else c endif->forEach(x) { }",
    "if (a) then b else c endif.d->forEach(x) { } if (a) { }",
    "if (a) + 1 = 2 then b else c endif.d()->e()->forEach(x : A | x.f) { g };",
    "if if a then b else c endif then (d) else e endif->forEach(x) { } f",
    "a implies b xor c or d and e = f == g <> h != i < j <= k > l >= m + n - o * p",
    "- not - x.y; true; false; null; self; result; 1; 'a' + \"b\"; A::B; f(); f(1, 2)",
    "Set{}; Bag{1}; Sequence{1..2, 3}; OrderedSet{'a', b}; (a)",
    "x := if a then b else c endif",
    "object A::B@c { }; object x : A { y := 1 }; object result : A { }; new A::B@c(); new A(1)",
    "map m(); xmap m(1); a.map m(1, 2); a->xmap m()",
    "resolve(A); resolveone(x : A | x.b); late invresolve(A); late invresolveone(A | a)",
    "resolveIn(m, A); a.resolveoneIn(A::m); a->invresolveIn(m, x : A); late invresolveoneIn(m)",
    "a.b; a.b(); a.b(1, 2); a->b(); a->b(1, 2); a->b(x | y); a->b(x : A | y); a->b(x; s : A = 1 | y)",
];

#[test]
fn each_unit_is_read(rt: HostRuntime) -> Result<(), ListFault> {
    for unit in &UNITS {
        let text = joined(rt.alloc(), HEAD, unit, "")?;
        assert!(rt; answer(rt.alloc(), text.as_str()) == READ, "{unit}");
    }
    Ok(())
}

#[test]
fn each_statement_and_expression_is_read(rt: HostRuntime) -> Result<(), ListFault> {
    for statements in &STATEMENTS {
        let text = joined(rt.alloc(), MAIN, statements, " }")?;
        assert!(rt; answer(rt.alloc(), text.as_str()) == READ, "{statements}");
    }
    Ok(())
}

/// Each word that is reserved.
const WORDS: &str = "and Bag class constructor disjuncts elif else end endif extends false forEach \
helper if implies import in inherits init inout intermediate invresolve invresolveIn invresolveone \
invresolveoneIn late library main map mapping merges modeltype new not null object or OrderedSet out \
population query resolve resolveIn resolveone resolveoneIn result return self Sequence Set then \
transformation true uses var when while xmap xor";

/// Whether a transformation that has this name in quotes is read, and has it.
fn is_name_in_quotes(alloc: Global, word: &str) -> Result<bool, Fault> {
    let text = joined(alloc, "transformation _'", word, "'(in m : M);")?;
    let tree = tree_of(alloc, text.as_str())?;
    Ok(tree.name.as_str() == word)
}

/// Whether a word as it stands is refused as the name of a transformation.
fn is_no_name(alloc: Global, word: &str) -> Result<bool, ListFault> {
    let text = joined(alloc, "transformation ", word, "(in m : M);")?;
    Ok(answer(alloc, text.as_str()) == ("Syntax", 1, 16, 15))
}

#[test]
fn each_reserved_word_is_a_name_in_quotes_alone(rt: HostRuntime) {
    for word in WORDS.split(' ') {
        assert!(rt; is_name_in_quotes(rt.alloc(), word) == Ok(true), "{word}");
        assert!(rt; is_no_name(rt.alloc(), word) == Ok(true), "{word}");
    }
}
