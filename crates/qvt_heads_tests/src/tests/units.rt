//! Units by their names, and the choice among them.

use super::ground::metas;
use super::shown::{kind_shown, type_shown};
use super::written::{FRONT, path_of, tree_of};
use qvt_base::copied::Copied;
use qvt_base::numbers::ClassNo;
use qvt_metas::metas::Metas;
use qvt_tree_types::module::Module;
use qvt_types_groups::unit_names::UnitNames;
use qvt_types_groups::units::Units;
use qvt_types_lists::listed::listed;
use qvt_types_lists::reuses::reuse_lists;
use qvt_types_lists::traced::traced_name;
use qvt_types_paths::model_types::{TypeNames, type_names};
use qvt_types_units::choice::{FoundUnit, chosen};
use qvt_types_units::overrides::is_bad_override;
use qvt_types_units::reuse::{Reuse, is_bad_reuse};
use qvt_types_units::signature::{HeadClass, Signature};
use qvt_types_units::signatures::all_signatures;
use std::alloc::Global;
use std::test::Fail;

/// The `main` of the front has the number 0.
const UNITS: &str =
    "helper Shape::f() : Shape {}/helper MT::Circle::f() : Nothing {}/helper Square::f() : Integer {}\n\
    query Shape::g(a : Integer, b : Nothing) : Integer = 1;\nquery free() : Bag(Integer) = null;\n\
    mapping Box::m(a : Box) : Node {}/mapping Shape::m() inherits Box::m {}\n\
    constructor Box::Box(a : Integer) {}/intermediate class P {}/helper Nothing::u() {}";

/// The units of the text, with the names of its types.
#[derive(Drop)]
struct Read {
    tree: Module,
    types: TypeNames,
    units: UnitNames,
}

fn heads_of(alloc: Global, given: &Metas) -> Result<Read, Fail> {
    let tree = tree_of(alloc, FRONT, UNITS)?;
    let written = tree.units.as_slice();
    let types = type_names(alloc, given, tree.model_types.as_slice(), written)?;
    let signatures = all_signatures(alloc, given, &types, written)?;
    let units = UnitNames::new(alloc, signatures)?;
    Ok(Read { tree, types, units })
}

/// The types of the parameters and of the answer of each unit.
const SIGNATURES: [(&str, &[&str], &str); 11] = [
    ("", &[], "Void"),
    ("f", &[], "Shape"),
    ("f", &[], "-"),
    ("f", &[], "Integer"),
    ("g", &["Integer", "-"], "Integer"),
    ("free", &[], "Integer Bag"),
    ("m", &["Box"], "N::Node"),
    ("m", &[], "Void"),
    ("Box", &["Integer"], "Void"),
    ("P", &[], "Void"),
    ("u", &[], "Void"),
];

fn has_types(
    alloc: Global,
    metas: &Metas,
    unit: &Signature,
    params: &[&str],
) -> Result<bool, Fail> {
    for (param, expected) in unit.params.as_slice().iter().zip(params) {
        let shown = type_shown(alloc, metas, param)?;
        if shown.as_str() != *expected {
            return Ok(false);
        }
    }
    Ok(unit.params.len() == params.len())
}

#[test]
fn signatures_of_units(rt: HostRuntime) -> Result<(), Fail> {
    let alloc = rt.alloc();
    let given = metas(alloc)?;
    let read = heads_of(alloc, &given)?;
    assert!(rt; read.units.count() == 11);
    for (unit, (name, params, answer)) in read.units.signatures().iter().zip(&SIGNATURES) {
        assert!(rt; unit.name.as_str() == *name, "{name}");
        assert!(rt; has_types(alloc, &given, unit, params)?, "{name}");
        let shown = type_shown(alloc, &given, &unit.answer)?;
        assert!(rt; shown.as_str() == *answer, "{name} {answer}");
    }
    Ok(())
}

#[test]
fn units_by_their_names(rt: HostRuntime) -> Result<(), Fail> {
    let alloc = rt.alloc();
    let given = metas(alloc)?;
    let units = heads_of(alloc, &given)?.units;
    assert!(rt; units.group(false, "f") == [1, 2, 3].as_slice());
    assert!(rt; units.group(true, "f").is_empty());
    assert!(rt; units.group(true, "m") == [6, 7].as_slice());
    assert!(rt; units.free_unit(false, "free") == Some(5));
    assert!(rt; units.free_unit(false, "f").is_none());
    assert!(rt; units.named(false, ClassNo(2), "f") == Some(3));
    assert!(rt; units.mapping_named(ClassNo(0), "m") == Some(7));
    assert!(rt; units.mapping_named(ClassNo(1), "m").is_none());
    assert!(rt; units.constructor_of(ClassNo(4), 1) == Some(8));
    assert!(rt; units.constructor_of(ClassNo(4), 0).is_none());
    assert!(rt; units.main() == Some(0));
    Ok(())
}

/// A class of objects, and which of the three helpers is chosen for it: a shape, a circle, a square, what is both, and a box.
const CHOICES: [(u32, Option<u32>); 5] = [
    (0, Some(1)),
    (1, Some(2)),
    (2, Some(3)),
    (3, None),
    (4, None),
];

#[test]
fn which_unit_is_chosen_for_a_class(rt: HostRuntime) -> Result<(), Fail> {
    let alloc = rt.alloc();
    let given = metas(alloc)?;
    let units = heads_of(alloc, &given)?.units;
    let group = units.group(false, "f");
    for (class, expected) in &CHOICES {
        let class = ClassNo(*class);
        let one = chosen(alloc, &given, units.signatures(), group, class)?;
        assert!(rt; one == *expected, "{class:?}");
    }
    Ok(())
}

/// Whether it is a mapping, its name, the static class, and what a call finds: where a class below that has objects has no single
/// choice, the call has none.
const CALLS: [(bool, &str, u32, FoundUnit); 10] = [
    (false, "f", 0, FoundUnit::Unclear),
    (false, "f", 1, FoundUnit::Unclear),
    (false, "f", 3, FoundUnit::Unclear),
    (false, "f", 4, FoundUnit::NoUnit),
    (false, "g", 0, FoundUnit::Chosen(4)),
    (false, "g", 3, FoundUnit::Chosen(4)),
    (false, "u", 0, FoundUnit::Untyped),
    (true, "m", 4, FoundUnit::Chosen(6)),
    (true, "m", 2, FoundUnit::Chosen(7)),
    (true, "absent", 2, FoundUnit::NoUnit),
];

#[test]
fn what_calls_find(rt: HostRuntime) -> Result<(), Fail> {
    let alloc = rt.alloc();
    let given = metas(alloc)?;
    let names = heads_of(alloc, &given)?.units;
    let units = Units::new(alloc, given.copy(alloc)?, names)?;
    for (maps, name, class, expected) in &CALLS {
        let found = units.called_on(alloc, *maps, name, ClassNo(*class))?;
        assert!(rt; found == *expected, "{name} {class}");
    }
    assert!(rt; units.metas().class_count() == 7);
    assert!(rt; units.names().count() == 11);
    Ok(())
}

/// A path in a list, and the mapping that it names, or what is told.
const LISTED: [(&str, u32, &str); 5] = [
    ("Box::m", 6, ""),
    ("Shape::m", 7, ""),
    ("Box::f", 0, "UnknownName"),
    ("Circle::m", 0, "Ambiguous"),
    ("m", 0, "UnknownName"),
];

#[test]
fn which_mappings_lists_name(rt: HostRuntime) -> Result<(), Fail> {
    let alloc = rt.alloc();
    let given = metas(alloc)?;
    let read = heads_of(alloc, &given)?;
    for (path, number, told) in &LISTED {
        let names = path_of(alloc, path)?;
        match listed(&given, &read.types, &read.units, names.as_slice()) {
            Ok(found) => assert!(rt; found == *number && told.is_empty(), "{path}"),
            Err(kind) => {
                let shown = kind_shown(alloc, kind)?;
                assert!(rt; shown.as_str() == *told, "{path}");
            }
        }
    }
    Ok(())
}

#[test]
fn what_units_reuse(rt: HostRuntime) -> Result<(), Fail> {
    let alloc = rt.alloc();
    let given = metas(alloc)?;
    let read = heads_of(alloc, &given)?;
    let written = read.tree.units.as_slice();
    let lists = reuse_lists(alloc, &given, &read.types, &read.units, written)?;
    assert!(rt; lists.len() == 11);
    for (number, list) in lists.iter().enumerate() {
        let expected: &[u32] = if number == 7 { &[6] } else { &[] };
        assert!(rt; list.as_slice() == expected, "{number}");
    }
    Ok(())
}

/// Whether the second unit may stand beside the first, and whether it may list it.
#[test]
fn units_that_fit_others(rt: HostRuntime) -> Result<(), Fail> {
    let alloc = rt.alloc();
    let given = metas(alloc)?;
    let units = heads_of(alloc, &given)?.units;
    let all = units.signatures();
    if all.len() < 8 {
        return Err(Fail::new("units are missing"));
    }
    assert!(rt; !is_bad_override(&given, all, &all[2]));
    assert!(rt; is_bad_override(&given, all, &all[3]));
    assert!(rt; is_bad_reuse(&given, Reuse::Shared, &all[7], &all[6]));
    assert!(rt; is_bad_reuse(&given, Reuse::Disjunct, &all[7], &all[6]));
    assert!(rt; !is_bad_reuse(&given, Reuse::Shared, &all[6], &all[6]));
    Ok(())
}

/// A context and the name of a mapping in a trace: of metamodel, class and name what is there.
const TRACED: [(HeadClass, &str); 3] = [
    (HeadClass::Missing, "m"),
    (HeadClass::Known(ClassNo(4)), "M::Box::m"),
    (HeadClass::Known(ClassNo(6)), "N::Node::m"),
];

#[test]
fn names_in_traces(rt: HostRuntime) -> Result<(), Fail> {
    let alloc = rt.alloc();
    let given = metas(alloc)?;
    for (context, expected) in &TRACED {
        let name = traced_name(alloc, &given, *context, "m")?;
        assert!(rt; name.as_str() == *expected, "{expected}");
    }
    Ok(())
}
