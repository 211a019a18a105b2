//! The refusals.

use super::read::{Answer, asked, metas_of, text_of};
use qvt_base::numbers::Place;
use qvt_types::fault::TypingFault;
use std::alloc::Global;
use std::test::Fail;

/// The name of a refusal, and the line and the column of its place.
type Told = (&'static str, u32, u32);

/// A text is accepted.
const ACCEPTED: Told = ("", 0, 0);

fn placed(name: &'static str, place: Place) -> Told {
    (name, place.line, place.column)
}

fn told(fault: TypingFault) -> Told {
    match fault {
        TypingFault::NoMemory => ("NoMemory", 0, 0),
        TypingFault::UnknownMetamodel(place) => placed("UnknownMetamodel", place),
        TypingFault::UnknownName(place) => placed("UnknownName", place),
        TypingFault::UnknownType(place) => placed("UnknownType", place),
        TypingFault::SameName(place) => placed("SameName", place),
        TypingFault::Ambiguous(place) => placed("Ambiguous", place),
        TypingFault::WrongType(place) => placed("WrongType", place),
        TypingFault::WrongCount(place) => placed("WrongCount", place),
        TypingFault::NotPure(place) => placed("NotPure", place),
        TypingFault::LatePlace(place) => placed("LatePlace", place),
        TypingFault::NotPlain(place) => placed("NotPlain", place),
        TypingFault::ReuseCycle(place) => placed("ReuseCycle", place),
        TypingFault::BadReuse(place) => placed("BadReuse", place),
        TypingFault::BadOverride(place) => placed("BadOverride", place),
        TypingFault::BadContext(place) => placed("BadContext", place),
        TypingFault::BadTarget(place) => placed("BadTarget", place),
        TypingFault::BadReturn(place) => placed("BadReturn", place),
        TypingFault::BadExtent(place) => placed("BadExtent", place),
        TypingFault::AbstractClass(place) => placed("AbstractClass", place),
        TypingFault::ResultPlace(place) => placed("ResultPlace", place),
        TypingFault::BadDisjunct(place) => placed("BadDisjunct", place),
        TypingFault::ModelUse(place) => placed("ModelUse", place),
        TypingFault::NoMain(place) => placed("NoMain", place),
    }
}

fn outcome(answer: &Answer) -> Told {
    match answer {
        Answer::Accepted(_) => ACCEPTED,
        Answer::Refused(fault) => told(*fault),
        Answer::NotRead => ("not read", 0, 0),
    }
}

/// What is told of a text whose third line this is.
fn told_of(alloc: Global, units: &str) -> Result<Told, Fail> {
    let metas = metas_of(alloc)?;
    let text = text_of(alloc, units)?;
    Ok(outcome(&asked(alloc, &metas, text.as_str())))
}

/// What is told of a whole text.
fn told_of_text(alloc: Global, text: &str) -> Result<Told, Fail> {
    let metas = metas_of(alloc)?;
    Ok(outcome(&asked(alloc, &metas, text)))
}

#[test]
fn model_type_without_metamodel_is_refused(rt: HostRuntime) -> Result<(), Fail> {
    let known = told_of_text(
        rt.alloc(),
        "modeltype MT uses 'M'; transformation T(in s : MT); main() { }",
    )?;
    assert!(rt; known == ACCEPTED);
    let unknown = told_of_text(
        rt.alloc(),
        "modeltype MT uses 'N'; transformation T(in s : MT); main() { }",
    )?;
    assert!(rt; unknown == ("UnknownMetamodel", 1, 1));
    Ok(())
}

/// For each other refusal a text that has it, what is told of it, and a text beside it that is accepted.
const PAIRS: [(&str, Told, &str); 21] = [
    (
        "main() { x; }",
        ("UnknownName", 3, 10),
        "main() { var x := 1; x; }",
    ),
    (
        "main() { object E { }; }",
        ("UnknownType", 3, 17),
        "main() { object C { }; }",
    ),
    ("main() { } main() { }", ("SameName", 3, 12), "main() { }"),
    (
        "intermediate class C { } main() { object C { }; }",
        ("Ambiguous", 3, 42),
        "intermediate class B { } main() { object C { }; }",
    ),
    (
        "main() { object C { a := 'x'; }; }",
        ("WrongType", 3, 23),
        "main() { object C { a := 7; }; }",
    ),
    (
        "main() { 1.abs(2); }",
        ("WrongCount", 3, 12),
        "main() { 1.abs(); }",
    ),
    (
        "query q() { object C { }; } main() { }",
        ("NotPure", 3, 13),
        "helper h() { object C { }; } main() { }",
    ),
    (
        "main() { late resolve(C); }",
        ("LatePlace", 3, 10),
        "main() { object C { many := late resolve(C); }; }",
    ),
    (
        "main() { resolve(C | resolve(C)->isEmpty()); }",
        ("NotPlain", 3, 22),
        "main() { resolve(C | a = 1); }",
    ),
    (
        "mapping m() inherits m { } main() { }",
        ("ReuseCycle", 3, 9),
        "mapping n() { } mapping m() inherits n { } main() { }",
    ),
    (
        "mapping n(x : Integer) { } mapping m() inherits n { } main() { }",
        ("BadReuse", 3, 49),
        "mapping n() { } mapping m() inherits n { } main() { }",
    ),
    (
        "helper C::h() : Integer = 1; query D::h() : Integer = 1; main() { }",
        ("BadOverride", 3, 39),
        "query C::h() : Integer = 1; query D::h() : Integer = 1; main() { }",
    ),
    (
        "constructor D() { } main() { }",
        ("BadContext", 3, 13),
        "constructor D::D() { } main() { }",
    ),
    (
        "helper h(x : Integer) { x := 1; } main() { }",
        ("BadTarget", 3, 27),
        "helper h(x : Integer) { var y := x; y := 1; } main() { }",
    ),
    (
        "main() { return 1; }",
        ("BadReturn", 3, 10),
        "main() { return; }",
    ),
    (
        "main() { object C@s { }; }",
        ("BadExtent", 3, 10),
        "main() { object C@t { }; }",
    ),
    (
        "main() { object A { }; }",
        ("AbstractClass", 3, 17),
        "main() { object D { }; }",
    ),
    (
        "main() { result; }",
        ("ResultPlace", 3, 10),
        "mapping m() : C { result; } main() { }",
    ),
    (
        "mapping n() { } mapping m() disjuncts n { 1; } main() { }",
        ("BadDisjunct", 3, 25),
        "mapping n() { } mapping m() disjuncts n; main() { }",
    ),
    (
        "main() { s; }",
        ("ModelUse", 3, 10),
        "main() { s.objects(); }",
    ),
    ("", ("NoMain", 3, 1), "main() { }"),
];

#[test]
fn each_refusal_is_told_at_its_place(rt: HostRuntime) -> Result<(), Fail> {
    for (refused, told, _) in &PAIRS {
        let answered = told_of(rt.alloc(), refused)?;
        assert!(rt; answered == *told, "{refused}: {answered:?}");
    }
    Ok(())
}

#[test]
fn each_text_beside_a_refused_one_is_accepted(rt: HostRuntime) -> Result<(), Fail> {
    for (_, _, accepted) in &PAIRS {
        let answered = told_of(rt.alloc(), accepted)?;
        assert!(rt; answered == ACCEPTED, "{accepted}: {answered:?}");
    }
    Ok(())
}

/// Of two refusals the one that stands first in the text is told, and at one place the one that comes first in their order.
#[test]
fn first_refusal_is_told(rt: HostRuntime) -> Result<(), Fail> {
    let left = told_of(rt.alloc(), "main() { x; object E { }; } main() { y; }")?;
    assert!(rt; left == ("UnknownName", 3, 10));
    let level = told_of_text(
        rt.alloc(),
        "modeltype MT uses 'M'; modeltype MT uses 'N'; transformation T(in s : MT); main() { }",
    )?;
    assert!(rt; level == ("UnknownMetamodel", 1, 24));
    Ok(())
}
