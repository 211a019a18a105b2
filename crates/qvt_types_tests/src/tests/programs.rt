//! What programs tell of themselves.

use super::read::program_of;
use qvt_base::numbers::MappingNo;
use std::test::Fail;

const UNITS: &str =
    "intermediate class B { b : Integer; } mapping m() { } mapping C::n() : C { a := 1; } helper h() { } mapping B::o() { } mapping Element::p() { } main() { map m(); }";

#[test]
fn mappings_are_named_as_in_traces(rt: HostRuntime) -> Result<(), Fail> {
    let program = program_of(rt.alloc(), UNITS)?;
    assert!(rt; program.mapping_count() == 4);
    assert!(rt; program.mapping_name(MappingNo(0)) == "m");
    assert!(rt; program.mapping_name(MappingNo(1)) == "M::C::n");
    assert!(rt; program.mapping_name(MappingNo(2)) == "B::o");
    assert!(rt; program.mapping_name(MappingNo(3)) == "Element::p");
    assert!(rt; program.mapping_name(MappingNo(4)) == "");
    Ok(())
}

#[test]
fn mappings_are_units(rt: HostRuntime) -> Result<(), Fail> {
    let program = program_of(rt.alloc(), UNITS)?;
    assert!(rt; program.mapping_unit(MappingNo(0)) == Some(1));
    assert!(rt; program.mapping_unit(MappingNo(1)) == Some(2));
    assert!(rt; program.mapping_unit(MappingNo(2)) == Some(4));
    assert!(rt; program.mapping_unit(MappingNo(3)) == Some(5));
    assert!(rt; program.mapping_unit(MappingNo(4)).is_none());
    Ok(())
}

#[test]
fn models_have_their_metamodels(rt: HostRuntime) -> Result<(), Fail> {
    let program = program_of(rt.alloc(), UNITS)?;
    assert!(rt; program.models().len() == 2);
    assert!(rt; program.model_metamodel(0) == 0);
    assert!(rt; program.model_metamodel(1) == 0);
    Ok(())
}

#[test]
fn metamodels_have_element_and_the_intermediate_classes(rt: HostRuntime) -> Result<(), Fail> {
    let program = program_of(rt.alloc(), UNITS)?;
    let metas = program.metas();
    assert!(rt; metas.metamodel_count() == 2);
    assert!(rt; metas.metamodel_name(1).is_empty());
    let element = metas.class(1, "Element").ok_or("no Element")?;
    let class = metas.class(1, "B").ok_or("no class")?;
    assert!(rt; element.0 == 3);
    assert!(rt; class.0 == 4);
    assert!(rt; metas.descends(class, element));
    Ok(())
}

#[test]
fn units_have_signatures(rt: HostRuntime) -> Result<(), Fail> {
    let program = program_of(rt.alloc(), UNITS)?;
    assert!(rt; program.signatures().len() == 7);
    assert!(rt; program.unit(6).is_some());
    assert!(rt; program.unit(7).is_none());
    Ok(())
}
