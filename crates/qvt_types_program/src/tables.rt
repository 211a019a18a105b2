//! What a program is asked by number: its model parameters and its mappings.

ghost use Rattle.std.specs.Prelude.{◌≡◌, ◌++◌, [], ◌∷◌, ◌<◌, map, IfOk, OnOk, if◌then◌else◌};
ghost use Rattle.qvt_types_groups.specs.Numbers as numbers;
ghost use Rattle.qvt_types_program.specs.Mappings as mappings_of;
ghost use Rattle.qvt_types_program.specs.Tables.{tables_of};

use qvt_base::copied::Copied;
use qvt_base::list_fault::ListFault;
use qvt_base::lists::NameList;
use qvt_base::seq::Seq;
use qvt_base::text::Text;
use qvt_tree_types::module::{ModelParam, ModelParamList};
use qvt_types_groups::numbers::is_mapping;
use qvt_types_groups::signature::Signature;
use qvt_types_groups::units::Units;
use qvt_types_heads::declarations::Declarations;
use qvt_types_heads::traced::traced_name;
use qvt_types_paths::metas::Metas;
use std::alloc::Global;

/// What a program is asked by number.
pub struct ProgramTables {
    /// The model parameters, in the order of the header.
    pub params: ModelParamList,
    /// For each mapping the number of its unit.
    pub mappings: Seq<u32>,
    /// For each mapping its name in a trace.
    pub names: NameList,
}

impl Drop for ProgramTables {
    fn drop(self) {
        let ProgramTables {
            params,
            mappings,
            names,
        } = self;
    }
}

fn copied_param(alloc: Global, param: &ModelParam) -> Result<ModelParam, ListFault>
    ensures { IfOk result (λ p. p ≡ param.now) }
{
    Ok(ModelParam {
        direction: param.direction,
        name: param.name.copy(alloc)?,
        model_type: param.model_type.copy(alloc)?,
        place: param.place,
    })
}

fn copied_params(alloc: Global, params: &[ModelParam]) -> Result<ModelParamList, ListFault>
    ensures { IfOk result (λ ps. ps ≡ params.now) }
{
    let mut copies = Seq::new(alloc);
    for param in params {
        copies.push(copied_param(alloc, param)?)?;
    }
    Ok(copies)
}

/// Puts the number last where the unit is a mapping.
fn add_mapping(mappings: &mut Seq<u32>, number: u32, unit: &Signature) -> Result<(), ListFault>
    ensures { OnOk result (mappings.new ≡ mappings.old ++ (if numbers.is_mapping unit.now.sort then number ∷ [] else [])) }
{
    if is_mapping(unit.sort) {
        return mappings.push(number);
    }
    Ok(())
}

/// The units that are mappings.
fn mapping_units(alloc: Global, units: &Units) -> Result<Seq<u32>, ListFault>
    ensures { IfOk result (λ ns. ns ≡ mappings_of.mapping_units units.now.units) }
{
    let names = units.names();
    let signatures = names.signatures();
    let mut mappings = Seq::new(alloc);
    for number in 0..names.count() {
        add_mapping(&mut mappings, number, &signatures[number as usize])?;
    }
    Ok(mappings)
}

/// The name of the unit with this number in a trace.
fn name_at(
    alloc: Global,
    metas: &Metas,
    units: &[Signature],
    number: u32,
) -> Result<Text, ListFault>
    ensures { IfOk result (λ t. t ≡ mappings_of.traced metas.now (numbers.unit_at units.now number)) }
{
    let at = number as usize;
    if at < units.len() {
        let unit = &units[at];
        traced_name(alloc, metas, unit.context, unit.name.as_str())
    } else {
        Ok(Text::new(alloc))
    }
}

fn mapping_names(alloc: Global, units: &Units, mappings: &[u32]) -> Result<NameList, ListFault>
    ensures { IfOk result (λ ts. ts ≡ map (λ n. mappings_of.traced units.now.metas (numbers.unit_at units.now.units n)) mappings.now) }
{
    let mut names = Seq::new(alloc);
    for number in mappings {
        let signatures = units.names().signatures();
        names.push(name_at(alloc, units.metas(), signatures, *number)?)?;
    }
    Ok(names)
}

/// What is asked of a program with these model parameters and heads.
pub fn tables_of(
    alloc: Global,
    params: &[ModelParam],
    declarations: &Declarations,
) -> Result<ProgramTables, ListFault>
    ensures { IfOk result (λ t. t ≡ tables_of params.now declarations.now) }
{
    let units = &declarations.units;
    let mappings = mapping_units(alloc, units)?;
    let names = mapping_names(alloc, units, mappings.as_slice())?;
    Ok(ProgramTables {
        params: copied_params(alloc, params)?,
        mappings,
        names,
    })
}
