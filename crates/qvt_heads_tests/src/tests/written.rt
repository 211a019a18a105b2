//! The heads of transformations as texts: what is told of them, and what their paths name.

ghost use Rattle.std.specs.Prelude.{◌≡◌, None};

use super::ground::{before, metas};
use super::shown::{kind_shown, log_shown, type_shown};
use qvt_base::numbers::{ClassNo, FeatureNo};
use qvt_base::seq::Seq;
use qvt_base::text::Text;
use qvt_metas::metas::Metas;
use qvt_parser::parse::parse;
use qvt_tree_types::module::{Module, Unit};
use qvt_types_classes::classes::{Extended, is_typed, with_classes};
use qvt_types_groups::unit_names::UnitNames;
use qvt_types_lists::same::{tell_main, tell_same};
use qvt_types_lists::telling::{Listing, tell_lists};
use qvt_types_overrides::overrides::tell_overrides;
use qvt_types_paths::extents::extent;
use qvt_types_paths::model_types::{TypeNames, tell_model_types, type_names};
use qvt_types_paths::models::{Models, all_models, tell_models};
use qvt_types_paths::paths::{path_class, path_literal, path_type, written_type};
use qvt_types_paths::told::RefusalList;
use qvt_types_units::signatures::all_signatures;
use qvt_types_units::telling::{HeadScope, tell_head};
use std::alloc::Global;
use std::test::Fail;

const SMALL: usize = 100_000;

/// The tree of these texts one after the other; in the second each `/` begins a line.
pub fn tree_of(alloc: Global, front: &str, units: &str) -> Result<Module, Fail> {
    let mut text = Text::from_str(alloc, front)?;
    for part in units.split('/') {
        text.push_str(part)?;
        text.push_str("\n")?;
    }
    if text.len() > SMALL {
        return Err(Fail::new("a long text"));
    }
    match parse(alloc, text.as_str()) {
        Ok(tree) => Ok(tree),
        Err(_) => Err(Fail::new("a text that is not read")),
    }
}

/// Tells what is wrong with the units.
fn tell_units(
    alloc: Global,
    heads: &HeadScope<'_>,
    tree: &Module,
    log: &mut RefusalList,
) -> Result<(), Fail> {
    let units = tree.units.as_slice();
    for unit in units {
        tell_head(alloc, heads, unit, log)?;
    }
    let signatures = all_signatures(alloc, heads.given, heads.names, units)?;
    let names = UnitNames::new(alloc, signatures)?;
    let listing = Listing {
        given: heads.given,
        metas: heads.metas,
        names: heads.names,
        units: &names,
    };
    tell_same(&names, log)?;
    tell_overrides(alloc, heads.metas, names.signatures(), log)?;
    tell_lists(alloc, &listing, units, log)?;
    tell_main(&names, tree.end, log)?;
    Ok(())
}

/// The refusals of the heads of a text, in the order in which they are told.
#[tactic(auto, unfolding(qvt_types_paths::specs::ModelTypes::type_names))]
fn told(alloc: Global, given: &Metas, front: &str, units: &str) -> Result<Text, Fail>
    requires { given.now.element ≡ None }
{
    let tree = tree_of(alloc, front, units)?;
    let units = tree.units.as_slice();
    let mut log = Seq::new(alloc);
    let types = type_names(alloc, given, tree.model_types.as_slice(), units)?;
    tell_model_types(alloc, given, tree.model_types.as_slice(), &mut log)?;
    tell_models(alloc, &types, tree.params.as_slice(), &mut log)?;
    let models = all_models(
        alloc,
        &types,
        given.metamodel_count(),
        tree.params.as_slice(),
    )?;
    let extended = with_classes(alloc, given, &types, units, &mut log)?;
    let heads = HeadScope {
        given,
        metas: &extended.metas,
        names: &types,
        models: &models,
    };
    tell_units(alloc, &heads, &tree, &mut log)?;
    log_shown(alloc, log.as_slice())
}

/// Transformations, a line behind each `/`, and what is told.
const HEADERS: &str = "\
    modeltype A uses 'M';/transformation T(out a : A);/main() {} | fine\n\
    modeltype A uses A('N');/transformation T(out a : A);/main() {} | fine\n\
    modeltype A uses 'X';/transformation T(out a : A);/main() {} | UnknownMetamodel:1\n\
    modeltype A uses 'M';/modeltype A uses 'N';/transformation T(out a : A);/main() {} | SameName:2\n\
    modeltype A uses 'M';/transformation T(in a : B,/out a : A);/main() {} | UnknownName:2 SameName:3\n\
    modeltype A uses 'M';/transformation T(out a : A); | NoMain:3\n\
    modeltype A uses 'M';/transformation T(out a : A);/main() {}/main() {} | SameName:4";

#[test]
fn what_is_told_of_headers(rt: HostRuntime) -> Result<(), Fail> {
    let alloc = rt.alloc();
    let metas = metas(alloc)?;
    for line in HEADERS.lines() {
        let (text, expected) = before(line)?;
        let shown = told(alloc, &metas, "", text)?;
        assert!(rt; shown.as_str() == expected, "{line}");
    }
    Ok(())
}

pub const FRONT: &str = "modeltype MT uses 'M';\nmodeltype NT uses N('http://n');\n\
    transformation T(in a : MT, out b : MT, inout c : NT); main() {}\n";

/// Intermediate classes from the fourth line on, a line behind each `/`, and what is told.
const CLASSES: &str = "\
    intermediate class P { x : Integer; y : Sequence(MT::Circle); z : P; } | fine\n\
    intermediate class P { x : Nothing; } | UnknownType:4\n\
    intermediate class P { x : Circle; } | Ambiguous:4\n\
    intermediate class P { x : Set(Bag(Integer)); } | WrongType:4\n\
    intermediate class P {}/intermediate class P {} | SameName:5\n\
    intermediate class P extends Shape {} | UnknownType:4\n\
    intermediate class P extends Element {} | UnknownType:4\n\
    intermediate class P extends P {} | ReuseCycle:4\n\
    intermediate class P extends Q {}/intermediate class Q extends P {} | ReuseCycle:4 ReuseCycle:5\n\
    intermediate class P { x : Integer; }/intermediate class Q extends P { y : Integer; } | fine\n\
    intermediate class P { x : Integer;/x : String; } | SameName:5\n\
    intermediate class P { x : Integer; }/intermediate class Q extends P {/x : String; } | SameName:6\n\
    intermediate class P { x : P; }/intermediate class Q { x : Q; }/intermediate class R extends P, Q {} | SameName:6\n\
    intermediate class P { x : P; }/intermediate class Q extends P {}/intermediate class R extends P, Q {} | fine\n\
    intermediate class R extends P, Q {}/intermediate class S extends R {}/intermediate class P { x : P; }/intermediate class Q { x : Q; } | SameName:4 SameName:5";

#[test]
fn what_is_told_of_classes(rt: HostRuntime) -> Result<(), Fail> {
    let alloc = rt.alloc();
    let metas = metas(alloc)?;
    for line in CLASSES.lines() {
        let (units, expected) = before(line)?;
        let shown = told(alloc, &metas, FRONT, units)?;
        assert!(rt; shown.as_str() == expected, "{line}");
    }
    Ok(())
}

/// Units from the fourth line on, a line behind each `/`, and what is told.
const UNITS: &str = "\
    helper f(a : Nothing) {} | UnknownType:4\n\
    helper f() : Circle {} | Ambiguous:4\n\
    helper Nothing::f() {} | UnknownType:4\n\
    helper Color::f() {} | UnknownType:4\n\
    constructor f() {} | BadContext:4\n\
    constructor Box::Bix() {} | BadContext:4\n\
    constructor Box::Box() {} | fine\n\
    mapping Box::m() : Box {} | fine\n\
    mapping Box::m() : Box @ b {} | fine\n\
    mapping Box::m() : Box @ a {} | BadExtent:4\n\
    mapping Box::m() : Box @ c {} | BadExtent:4\n\
    mapping Box::m() : Node @ c {} | fine\n\
    mapping Box::m() : P {}/intermediate class P {} | fine\n\
    mapping Box::m() : P @ b {}/intermediate class P {} | BadExtent:4\n\
    helper f() {}/query f() = 1; | SameName:5\n\
    helper Box::f() {}/helper Shape::f() {}/mapping Box::f() {} | fine\n\
    mapping Box::f() {}/mapping Box::f() {} | SameName:5\n\
    constructor Box::Box(a : Integer) {}/constructor Box::Box(b : String) {} | SameName:5\n\
    constructor Box::Box(a : Integer) {}/constructor Box::Box() {} | fine\n\
    query Shape::f() : Shape = null;/query Square::f() : Square = null; | fine\n\
    query Shape::f() : Square = null;/query Square::f() : Shape = null; | BadOverride:5\n\
    query Shape::f(a : Integer) : Integer = 1;/query Square::f() : Integer = 1; | BadOverride:5\n\
    helper Shape::f() {}/query Square::f() { return; } | BadOverride:5\n\
    mapping Shape::m() : Shape {}/mapping Square::n() : Square inherits Shape::m {} | fine\n\
    mapping Shape::m() : Box {}/mapping Square::n() : Node merges Shape::m {} | BadReuse:5\n\
    mapping Square::m() {}/mapping Shape::n() inherits Square::m {} | BadReuse:5\n\
    mapping Square::m() {}/mapping Shape::n() disjuncts Square::m; | fine\n\
    mapping Square::m() {}/mapping Box::n() disjuncts Square::m; | BadReuse:5\n\
    mapping Shape::n() disjuncts Shape::m; | UnknownName:4\n\
    mapping Shape::n() inherits Shape::n {} | ReuseCycle:4\n\
    mapping Square::m() {}/mapping Shape::n() disjuncts Square::m { var x := 1; } | BadDisjunct:5";

#[test]
fn what_is_told_of_units(rt: HostRuntime) -> Result<(), Fail> {
    let alloc = rt.alloc();
    let metas = metas(alloc)?;
    for line in UNITS.lines() {
        let (units, expected) = before(line)?;
        let shown = told(alloc, &metas, FRONT, units)?;
        assert!(rt; shown.as_str() == expected, "{line}");
    }
    Ok(())
}

/// The names of a path.
pub fn path_of(alloc: Global, path: &str) -> Result<Seq<Text>, Fail> {
    let mut names = Seq::new(alloc);
    for name in path.split("::") {
        names.push(Text::from_str(alloc, name)?)?;
    }
    Ok(names)
}

/// A class with a property of each sort of type; the second has them too.
const PROPERTIES: &str =
    "intermediate class P { x : Integer; y : Sequence(MT::Circle); z : Nothing; }\n\
    intermediate class Q extends P { q : P; }";

/// A path, the type that it names, and the class, or what is told.
const PATHS: &str = "\
    Integer | Integer | UnknownType\n\
    Color | Color | UnknownType\n\
    Box | Box | Box\n\
    Circle | Ambiguous | Ambiguous\n\
    MT::Circle | Circle | Circle\n\
    NT::Circle | N::Circle | N::Circle\n\
    Q | Q | Q\n\
    Element | Element | Element\n\
    Absent | UnknownType | UnknownType\n\
    MT::Node | UnknownType | UnknownType\n\
    XT::Box | UnknownType | UnknownType\n\
    A::B::C | UnknownType | UnknownType";

/// The metamodels with the classes, and the names of the types.
#[derive(Drop)]
struct Read {
    tree: Module,
    types: TypeNames,
    models: Models,
    extended: Extended,
}

#[tactic(auto, unfolding(qvt_types_paths::specs::ModelTypes::type_names))]
fn heads_of(alloc: Global, given: &Metas, units: &str) -> Result<Read, Fail>
    requires { given.now.element ≡ None }
{
    let tree = tree_of(alloc, FRONT, units)?;
    let units = tree.units.as_slice();
    let mut log = Seq::new(alloc);
    let types = type_names(alloc, given, tree.model_types.as_slice(), units)?;
    let models = all_models(
        alloc,
        &types,
        given.metamodel_count(),
        tree.params.as_slice(),
    )?;
    let extended = with_classes(alloc, given, &types, units, &mut log)?;
    Ok(Read {
        tree,
        types,
        models,
        extended,
    })
}

/// The type that the path names, or what is told of it.
fn named(alloc: Global, given: &Metas, read: &Read, path: &[Text]) -> Result<Text, Fail> {
    match path_type(given, &read.types, path) {
        Ok(t) => Ok(type_shown(alloc, &read.extended.metas, &Some(t))?),
        Err(kind) => kind_shown(alloc, kind),
    }
}

fn class_named(alloc: Global, given: &Metas, read: &Read, path: &[Text]) -> Result<Text, Fail> {
    match path_class(given, &read.types, path) {
        Ok(class) => {
            let t = Some(qvt_types_data::ty::Ty::Class(class));
            Ok(type_shown(alloc, &read.extended.metas, &t)?)
        }
        Err(kind) => kind_shown(alloc, kind),
    }
}

#[test]
fn what_paths_name(rt: HostRuntime) -> Result<(), Fail> {
    let alloc = rt.alloc();
    let given = metas(alloc)?;
    let read = heads_of(alloc, &given, PROPERTIES)?;
    for line in PATHS.lines() {
        let (path, rest) = before(line)?;
        let (t, class) = before(rest)?;
        let names = path_of(alloc, path)?;
        let shown = named(alloc, &given, &read, names.as_slice())?;
        assert!(rt; shown.as_str() == t, "{line}");
        let shown = class_named(alloc, &given, &read, names.as_slice())?;
        assert!(rt; shown.as_str() == class, "{line}");
    }
    Ok(())
}

/// A path, and the number of the literal of the color that it names.
const LITERALS: [(&str, Option<u32>); 5] = [
    ("Color::red", Some(0)),
    ("MT::Color::green", Some(1)),
    ("Color::blue", None),
    ("Box::red", None),
    ("red", None),
];

#[test]
fn which_literals_paths_name(rt: HostRuntime) -> Result<(), Fail> {
    let alloc = rt.alloc();
    let given = metas(alloc)?;
    let read = heads_of(alloc, &given, "")?;
    for (path, expected) in &LITERALS {
        let names = path_of(alloc, path)?;
        let found = match path_literal(&given, &read.types, names.as_slice()) {
            Ok(literal) => Some(literal.literal),
            Err(_) => None,
        };
        assert!(rt; found == *expected, "{path}");
    }
    Ok(())
}

/// The name after `@`, a metamodel, and the extent; the metamodel of the intermediate classes has the number 2.
const EXTENTS: [(&str, u32, Option<u32>); 8] = [
    ("", 0, Some(1)),
    ("b", 0, Some(1)),
    ("a", 0, None),
    ("c", 0, None),
    ("", 1, Some(2)),
    ("c", 1, Some(2)),
    ("", 2, Some(3)),
    ("b", 2, None),
];

#[test]
fn where_objects_are_made(rt: HostRuntime) -> Result<(), Fail> {
    let alloc = rt.alloc();
    let given = metas(alloc)?;
    let read = heads_of(alloc, &given, "")?;
    for (name, metamodel, expected) in &EXTENTS {
        let name = match *name {
            "" => None,
            name => Some(Text::from_str(alloc, name)?),
        };
        let found = extent(&read.models, 2, &name, *metamodel);
        assert!(rt; found == *expected, "{metamodel}");
    }
    Ok(())
}

#[test]
fn what_type_names_tell(rt: HostRuntime) -> Result<(), Fail> {
    let alloc = rt.alloc();
    let given = metas(alloc)?;
    let read = heads_of(alloc, &given, PROPERTIES)?;
    assert!(rt; read.types.metamodel("NT") == Some(1));
    assert!(rt; read.types.metamodel("XT").is_none());
    assert!(rt; read.types.has_model_type("MT"));
    assert!(rt; read.types.used() == [0, 1].as_slice());
    assert!(rt; read.types.element() == ClassNo(7));
    assert!(rt; read.types.intermediate("Q") == Some(ClassNo(9)));
    assert!(rt; read.types.intermediate("Box").is_none());
    Ok(())
}

/// The features of the second class by their names, and whether their types are known.
const INHERITED: [(&str, bool); 4] = [("x", true), ("y", true), ("z", false), ("q", true)];

#[test]
fn classes_stand_above_the_metamodels(rt: HostRuntime) -> Result<(), Fail> {
    let alloc = rt.alloc();
    let given = metas(alloc)?;
    let first = given.feature_infos().len() as u32;
    let read = heads_of(alloc, &given, PROPERTIES)?;
    let metas = &read.extended.metas;
    assert!(rt; metas.descends(ClassNo(9), ClassNo(8)));
    assert!(rt; metas.descends(ClassNo(0), ClassNo(7)));
    for (place, (name, known)) in INHERITED.iter().enumerate() {
        let feature = metas.feature(ClassNo(9), name).ok_or("a feature")?;
        assert!(rt;
            metas.features(ClassNo(9)).get(place) == Some(&feature),
            "{name}"
        );
        let flags = read.extended.typed.as_slice();
        assert!(rt; is_typed(first, flags, feature) == *known, "{name}");
    }
    assert!(rt; is_typed(first, read.extended.typed.as_slice(), FeatureNo(0)));
    Ok(())
}

/// Classes whose properties have one name, and how many properties each has as it is read, with those that it inherits.
const REPEATED: [(&str, &[usize]); 4] = [
    ("intermediate class P { x : P; x : P; }", &[1]),
    (
        "intermediate class P { x : P; } intermediate class Q extends P { x : P; y : P; }",
        &[1, 2],
    ),
    (
        "intermediate class P { x : P; } intermediate class Q { x : P; y : P; } intermediate class R extends P, Q { z : P; }",
        &[1, 2, 3],
    ),
    (
        "intermediate class P extends Q { x : P; } intermediate class Q extends P { x : P; }",
        &[1, 1],
    ),
];

#[test]
fn classes_are_read_with_properties_of_one_name(rt: HostRuntime) -> Result<(), Fail> {
    let alloc = rt.alloc();
    let given = metas(alloc)?;
    for (units, counts) in &REPEATED {
        let read = heads_of(alloc, &given, units)?;
        for (class, count) in (8u32..).zip(*counts) {
            let features = read.extended.metas.features(ClassNo(class));
            assert!(rt; features.len() == *count, "{units} {class}");
        }
    }
    Ok(())
}

/// The types of the properties of the first class, as they are written.
const WRITTEN: [&str; 3] = ["Integer", "Circle Sequence", "UnknownType"];

#[test]
fn which_types_are_written(rt: HostRuntime) -> Result<(), Fail> {
    let alloc = rt.alloc();
    let given = metas(alloc)?;
    let read = heads_of(alloc, &given, PROPERTIES)?;
    let Some(Unit::Class(class)) = read.tree.units.get(1) else {
        return Err(Fail::new("a class"));
    };
    for (field, expected) in class.features.as_slice().iter().zip(&WRITTEN) {
        let shown = match written_type(alloc, &given, &read.types, &field.kind)? {
            Ok(t) => type_shown(alloc, &given, &Some(t))?,
            Err(refusal) => kind_shown(alloc, refusal.kind)?,
        };
        assert!(rt; shown.as_str() == *expected, "{expected}");
    }
    Ok(())
}
