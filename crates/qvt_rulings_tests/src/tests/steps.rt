//! Steps of each kind.

use super::ground::{arguments, before, known, metas, parts_of, type_of, types_of};
use super::shown::{ruling_shown, type_shown, wrong_shown};
use qvt_base::numbers::ClassNo;
use qvt_base::seq::Seq;
use qvt_base::text::Text;
use qvt_metas::metas::Metas;
use qvt_tree_types::words::ResolveWord;
use qvt_types_data::note::Reading;
use qvt_types_data::ruling::Ruling;
use qvt_types_data::ty::Ty;
use qvt_types_steps::arrows::arrow;
use qvt_types_steps::calls::dot_call;
use qvt_types_steps::classes::{
    ClassPart, ModelCall, class_test, class_test_named, is_selection, model_call_named,
    model_objects, model_objects_of, selection,
};
use qvt_types_steps::heads::{
    Heading, folding_head, item_type, iterator_type, iterator_wrong, plain_head,
};
use qvt_types_steps::properties::property;
use qvt_types_steps::resolves::{Joint, filter, resolve};
use qvt_types_steps::units::{arguments_wrong, mapping_step, unit_step};
use std::alloc::Global;
use std::test::Fail;

/// A name behind a dot, its source, its arguments, and what is ruled.
const DOTS: &str = "\
    size | String |  | size: Integer\n\
    size | String Set |  | size: Integer Bag each\n\
    toUpper | String Sequence |  | toUpper: String Sequence each\n\
    characters | String OrderedSet |  | characters: String Sequence each\n\
    substring | String | Integer | WrongCount\n\
    substring | String | Integer,String | WrongType\n\
    nothing | String |  | UnknownName\n\
    size | - |  | silent\n\
    size | String | - | silent";

#[test]
fn operations_behind_a_dot(rt: HostRuntime) -> Result<(), Fail> {
    let alloc = rt.alloc();
    let metas = metas(alloc)?;
    for line in DOTS.lines() {
        let (name, rest) = before(line)?;
        let (source, rest) = before(rest)?;
        let (args, expected) = before(rest)?;
        let name = Text::from_str(alloc, name)?;
        let source = type_of(alloc, &metas, source)?;
        let args = arguments(alloc, &metas, args)?;
        let ruling = dot_call(alloc, &metas, &name, &source, &args)?;
        let shown = ruling_shown(alloc, &metas, &ruling)?;
        assert!(rt; shown.as_str() == expected, "{line}");
    }
    Ok(())
}

/// A Head: there is none, an iterator, one with an accumulator of this type, or one that has no type.
fn heading(alloc: Global, metas: &Metas, word: &str) -> Result<Heading, Fail> {
    match word {
        "" => Ok(Heading::Missing),
        "x" => Ok(Heading::Plain),
        "?" => Ok(Heading::Untyped),
        _ => Ok(Heading::Folding(known(alloc, metas, word)?)),
    }
}

/// A name behind an arrow, its Head, its source, its arguments, and what is ruled.
const ARROWS: &str = "\
    select | x | Circle Set | Boolean | select: Circle Set\n\
    select |  | Circle Set | Integer | WrongType\n\
    select | Integer | Circle Set | Boolean | WrongCount\n\
    select | ? | Circle Set | Boolean | silent\n\
    collect | x | Circle OrderedSet | Integer Bag Set | collect: Integer Sequence\n\
    collectNested | x | Circle Set | Integer Set | collectNested: Integer Set Bag\n\
    exists |  | Circle | Boolean | exists: Boolean wrapped\n\
    any | x | Circle Bag | Boolean | any: Circle\n\
    isUnique | x | Circle Set | Circle | isUnique: Boolean\n\
    sortedBy | x | Circle Bag | String | sortedBy: Circle Sequence\n\
    sortedBy | x | Circle Set | Boolean | WrongType\n\
    iterate | Integer | Circle Set | Integer | iterate: Integer\n\
    iterate | x | Circle Set | Integer | WrongCount\n\
    closure | x | Box Sequence | Box | closure: Box OrderedSet\n\
    closure | x | Integer Set | Integer | WrongType\n\
    size |  | Circle |  | size: Integer wrapped\n\
    size | x | Circle Set | Integer | WrongCount\n\
    union |  | Circle Set | Shape Set | union: Shape Set\n\
    nothing | x | Circle Set | Integer | UnknownName\n\
    size |  | - |  | silent";

#[test]
fn names_behind_an_arrow(rt: HostRuntime) -> Result<(), Fail> {
    let alloc = rt.alloc();
    let metas = metas(alloc)?;
    for line in ARROWS.lines() {
        let (name, rest) = before(line)?;
        let (head, rest) = before(rest)?;
        let (source, rest) = before(rest)?;
        let (args, expected) = before(rest)?;
        let name = Text::from_str(alloc, name)?;
        let head = heading(alloc, &metas, head)?;
        let source = type_of(alloc, &metas, source)?;
        let args = arguments(alloc, &metas, args)?;
        let ruling = arrow(alloc, &metas, &name, &head, &source, &args)?;
        let shown = ruling_shown(alloc, &metas, &ruling)?;
        assert!(rt; shown.as_str() == expected, "{line}");
    }
    Ok(())
}

/// The declared type of an iterator and the type of its source, its own type, and what is told.
const ITERATORS: &str = "\
    - | Circle Set | Circle | fine\n\
    - | Circle | Circle | fine\n\
    Shape | Circle Set | Shape | fine\n\
    Circle | Shape Set | Circle | WrongType";

#[test]
fn types_of_iterators(rt: HostRuntime) -> Result<(), Fail> {
    let alloc = rt.alloc();
    let metas = metas(alloc)?;
    for line in ITERATORS.lines() {
        let (declared, rest) = before(line)?;
        let (source, rest) = before(rest)?;
        let (expected, told) = before(rest)?;
        let kind = type_of(alloc, &metas, declared)?;
        let source = type_of(alloc, &metas, source)?;
        let items = item_type(alloc, &source)?;
        let own = iterator_type(alloc, kind.is_some(), &kind, &items)?;
        let shown = type_shown(alloc, &metas, &own)?;
        assert!(rt; shown.as_str() == expected, "{line}");
        let wrong = iterator_wrong(&metas, kind.is_some(), &kind, &items);
        let shown = wrong_shown(alloc, wrong)?;
        assert!(rt; shown.as_str() == told, "{line}");
    }
    Ok(())
}

/// The types of an accumulator and of its first value, and whether both are known and fit.
const ACCUMULATORS: [(&str, &str, bool); 3] = [
    ("Shape", "Circle", true),
    ("Circle", "Shape", false),
    ("-", "Circle", false),
];

#[test]
fn heads_with_accumulators(rt: HostRuntime) -> Result<(), Fail> {
    let alloc = rt.alloc();
    let metas = metas(alloc)?;
    for (kind, first, expected) in &ACCUMULATORS {
        let plain = plain_head(&metas, false, &None, &None);
        let kind = type_of(alloc, &metas, kind)?;
        let first = type_of(alloc, &metas, first)?;
        let head = folding_head(alloc, &metas, &plain, &kind, &first)?;
        assert!(rt;
            matches!(&head, Heading::Folding(_)) == *expected,
            "{expected}"
        );
    }
    Ok(())
}

/// Classes by their names, `?` for one that is not known.
fn classes_of(alloc: Global, metas: &Metas, words: &str) -> Result<Seq<ClassPart>, Fail> {
    let mut parts = Seq::new(alloc);
    for word in words.split_whitespace() {
        let part = match metas.class(0, word) {
            Some(class) => ClassPart::Class(class),
            None => ClassPart::Untyped,
        };
        parts.push(part)?;
    }
    Ok(parts)
}

/// A step that takes classes: its name, its source, the classes, and what is ruled.
const CLASSES: &str = "\
    oclIsKindOf | Shape | Circle | oclIsKindOf: Boolean\n\
    oclAsType | Shape | Circle | oclAsType: Circle\n\
    oclAsType | Shape Set | Circle | oclAsType: Circle Bag each\n\
    oclIsTypeOf | Integer | Circle | UnknownName\n\
    oclIsKindOf | Shape |  | WrongCount\n\
    oclIsKindOf | Shape | ? | silent\n\
    oclIsKindOf | - | Circle | silent\n\
    selectByKind | Shape Set | Circle | selectByKind: Circle Set\n\
    selectByType | Shape | Circle | selectByType: Circle Set wrapped\n\
    selectByKind | Integer Set | Circle | WrongType\n\
    selectByKind | Shape Set | ? | silent\n\
    objectsOfType | - | Box | objectsOfType: Box OrderedSet\n\
    objectsOfType | - |  | WrongCount\n\
    objectsOfType | - | ? | silent";

fn ruled(
    alloc: Global,
    name: &Text,
    source: &Option<Ty>,
    parts: &[ClassPart],
) -> Result<Ruling, Fail> {
    let ruling = match class_test_named(name.as_str()) {
        Some(test) => class_test(alloc, name, test, source, parts)?,
        None if is_selection(name.as_str()) => selection(alloc, name, false, source, parts)?,
        None => model_objects_of(alloc, name, parts)?,
    };
    Ok(ruling)
}

#[test]
fn steps_that_take_classes(rt: HostRuntime) -> Result<(), Fail> {
    let alloc = rt.alloc();
    let metas = metas(alloc)?;
    for line in CLASSES.lines() {
        let (name, rest) = before(line)?;
        let (source, rest) = before(rest)?;
        let (classes, expected) = before(rest)?;
        let name = Text::from_str(alloc, name)?;
        let source = type_of(alloc, &metas, source)?;
        let parts = classes_of(alloc, &metas, classes)?;
        let ruling = ruled(alloc, &name, &source, parts.as_slice())?;
        let shown = ruling_shown(alloc, &metas, &ruling)?;
        assert!(rt; shown.as_str() == expected, "{line}");
    }
    Ok(())
}

/// The arguments of `objects`, and what is ruled; here a shape is above all.
const OBJECTS: [(&str, &str); 3] = [
    ("", "objects: Shape OrderedSet"),
    ("Integer", "WrongCount"),
    ("-", "silent"),
];

#[test]
fn objects_of_models(rt: HostRuntime) -> Result<(), Fail> {
    let alloc = rt.alloc();
    let metas = metas(alloc)?;
    let name = Text::from_str(alloc, "objects")?;
    assert!(rt; matches!(model_call_named("objects"), Some(ModelCall::Objects)));
    for (args, expected) in &OBJECTS {
        let args = arguments(alloc, &metas, args)?;
        let ruling = model_objects(alloc, &name, ClassNo(0), &args)?;
        let shown = ruling_shown(alloc, &metas, &ruling)?;
        assert!(rt; shown.as_str() == *expected, "{expected}");
    }
    Ok(())
}

/// The name of a property, its source, and what is ruled.
const PROPERTIES: &str = "\
    name | Circle | .name: String\n\
    color | Box | .color: Color\n\
    shapes | Box | .shapes: Shape OrderedSet\n\
    tags | Box | .tags: String Bag\n\
    name | Circle Set | .name: String Bag each\n\
    shapes | Box Sequence | .shapes: Shape Sequence each\n\
    side | Circle | UnknownName\n\
    side | Integer | UnknownName\n\
    side | - | silent";

#[test]
fn properties_of_objects(rt: HostRuntime) -> Result<(), Fail> {
    let alloc = rt.alloc();
    let metas = metas(alloc)?;
    for line in PROPERTIES.lines() {
        let (name, rest) = before(line)?;
        let (source, expected) = before(rest)?;
        let source = type_of(alloc, &metas, source)?;
        let ruling = property(alloc, &metas, name, &source)?;
        let shown = ruling_shown(alloc, &metas, &ruling)?;
        assert!(rt; shown.as_str() == expected, "{line}");
    }
    Ok(())
}

fn part(metas: &Metas, word: &str) -> ClassPart {
    match word {
        "" => ClassPart::Missing,
        _ => match metas.class(0, word) {
            Some(class) => ClassPart::Class(class),
            None => ClassPart::Untyped,
        },
    }
}

/// The source and the class of a resolve, and what is ruled.
const RESOLVES: [(Joint, ResolveWord, &str, &str, &str); 8] = [
    (
        Joint::Dot,
        ResolveWord::ResolveOne,
        "Circle",
        "Box",
        ": Box",
    ),
    (
        Joint::Dot,
        ResolveWord::Resolve,
        "Circle Set",
        "Box",
        ": Box Sequence",
    ),
    (
        Joint::Arrow,
        ResolveWord::Resolve,
        "Box",
        "Box",
        ": Box Sequence wrapped",
    ),
    (
        Joint::Sourceless,
        ResolveWord::InvResolveOne,
        "-",
        "Box",
        ": Box",
    ),
    (
        Joint::Dot,
        ResolveWord::Resolve,
        "Integer",
        "Box",
        "WrongType",
    ),
    (
        Joint::Dot,
        ResolveWord::ResolveIn,
        "Circle",
        "",
        "WrongType",
    ),
    (Joint::Dot, ResolveWord::Resolve, "Circle", "?", "silent"),
    (Joint::Dot, ResolveWord::Resolve, "-", "Box", "silent"),
];

#[test]
fn resolves_by_their_words(rt: HostRuntime) -> Result<(), Fail> {
    let alloc = rt.alloc();
    let metas = metas(alloc)?;
    for (joint, word, source, class, expected) in &RESOLVES {
        let source = type_of(alloc, &metas, source)?;
        let ruling = resolve(alloc, *joint, *word, &source, part(&metas, class))?;
        let shown = ruling_shown(alloc, &metas, &ruling)?;
        assert!(rt; shown.as_str() == *expected, "{expected}");
    }
    Ok(())
}

const FILTERS: [(&str, bool, &str, &str); 4] = [
    ("Circle", false, "-", ": Circle"),
    ("Circle", true, "Boolean", ": Circle"),
    ("Circle", true, "Integer", "WrongType"),
    ("-", true, "Boolean", "silent"),
];

#[test]
fn filters_of_resolves(rt: HostRuntime) -> Result<(), Fail> {
    let alloc = rt.alloc();
    let metas = metas(alloc)?;
    for (kind, has_condition, condition, expected) in &FILTERS {
        let kind = type_of(alloc, &metas, kind)?;
        let condition = type_of(alloc, &metas, condition)?;
        let ruling = filter(alloc, &metas, &kind, *has_condition, &condition)?;
        let shown = ruling_shown(alloc, &metas, &ruling)?;
        assert!(rt; shown.as_str() == *expected, "{expected}");
    }
    Ok(())
}

/// The source of a call, the answer of the unit, and what is ruled: of a helper, of a mapping behind a dot, and of one behind an
/// arrow.
const CALLS: &str = "\
    Circle | Box | : Box | : Box | : Box Sequence wrapped\n\
    Circle Set | Box | : Box Bag each | : Box Sequence each | : Box Sequence\n\
    Circle | - | silent | silent | silent\n\
    - | Box | silent | silent | silent";

#[test]
fn calls_of_units(rt: HostRuntime) -> Result<(), Fail> {
    let alloc = rt.alloc();
    let metas = metas(alloc)?;
    for line in CALLS.lines() {
        let (source, rest) = before(line)?;
        let (answer, rest) = before(rest)?;
        let (helper, rest) = before(rest)?;
        let (dot, behind) = before(rest)?;
        let source = type_of(alloc, &metas, source)?;
        let answer = type_of(alloc, &metas, answer)?;
        let ruling = unit_step(alloc, &source, Reading::Nothing, &answer)?;
        let shown = ruling_shown(alloc, &metas, &ruling)?;
        assert!(rt; shown.as_str() == helper, "{line}");
        for (arrow, expected) in [(false, dot), (true, behind)] {
            let ruling = mapping_step(alloc, arrow, &source, Reading::Nothing, &answer)?;
            let shown = ruling_shown(alloc, &metas, &ruling)?;
            assert!(rt; shown.as_str() == expected, "{line}");
        }
    }
    Ok(())
}

/// The types of parameters, some of them not known, and of arguments, and what is told.
const ARGUMENTS: &str = "\
    Shape,Integer | Circle,Integer | fine\n\
    Shape,- | Circle,Integer | fine\n\
    Circle | Shape | WrongType\n\
    Circle |  | WrongCount\n\
    Shape | Circle,Circle | WrongCount";

#[test]
fn arguments_of_calls(rt: HostRuntime) -> Result<(), Fail> {
    let alloc = rt.alloc();
    let metas = metas(alloc)?;
    for line in ARGUMENTS.lines() {
        let (params, rest) = before(line)?;
        let (args, expected) = before(rest)?;
        let params = parts_of(alloc, &metas, params)?;
        let args = types_of(alloc, &metas, args)?;
        let wrong = arguments_wrong(&metas, params.as_slice(), args.as_slice());
        let shown = wrong_shown(alloc, wrong)?;
        assert!(rt; shown.as_str() == expected, "{line}");
    }
    Ok(())
}
