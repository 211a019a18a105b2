//! The parameters of a transformation that are models.

ghost use Rattle.std.specs.Prelude.{◌≡◌, ◌++◌, [], map, IfOk, OnOk};
ghost use Rattle.std.specs.List.{range_with_len};
ghost use Rattle.qvt_types_paths.specs.Models as models;

use crate::model_types::TypeNames;
use crate::name_index::NameIndex;
use crate::told::{RefusalList, tell_if};
use qvt_base::list_fault::ListFault;
use qvt_base::seq::Seq;
use qvt_tree_types::module::ModelParam;
use qvt_tree_types::words::Direction;
use qvt_types_data::refusal::RefusalKind;
use std::alloc::Global;

/// Whether a model is written, and its metamodel, if there is one.
#[derive(Clone, Copy, Debug, PartialEq, Eq)]
pub struct ModelRow {
    pub written: bool,
    pub metamodel: Option<u32>,
}

/// The model parameters. The number of one is its place, and that of its extent.
pub struct Models {
    pub names: NameIndex,
    pub rows: Seq<ModelRow>,
    /// For each metamodel the first extent in which objects of its classes can be made.
    pub firsts: Seq<Option<u32>>,
}

impl Drop for Models {
    fn drop(self) {
        let Models {
            names,
            rows,
            firsts,
        } = self;
    }
}

/// Tells what is wrong with a parameter after others of these names.
#[tactic(auto, unfolding(crate::specs::Models::model_told))]
fn tell_model(
    types: &TypeNames,
    earlier: &NameIndex,
    param: &ModelParam,
    log: &mut RefusalList,
) -> Result<(), ListFault>
    ensures { OnOk result (log.new ≡ log.old ++ models.model_told types.now earlier.now param.now) }
{
    let unknown = !types.has_model_type(param.model_type.as_str());
    let repeated = earlier.has(param.name.as_str());
    tell_if(log, unknown, RefusalKind::UnknownName, param.place)?;
    tell_if(log, repeated, RefusalKind::SameName, param.place)
}

/// Tells what is wrong with the parameters: UnknownName of a model type and SameName, each at the direction.
pub fn tell_models(
    alloc: Global,
    types: &TypeNames,
    params: &[ModelParam],
    log: &mut RefusalList,
) -> Result<(), ListFault>
    ensures { OnOk result (log.new ≡ log.old ++ models.models_told types.now [] params.now) }
{
    let mut earlier = NameIndex::new(alloc);
    for param in params {
        tell_model(types, &earlier, param, log)?;
        earlier = earlier.with(alloc, param.name.as_str())?;
    }
    Ok(())
}

fn is_written(direction: Direction) -> bool
    ensures { result ≡ models.is_written direction }
{
    match direction {
        Direction::Input => false,
        Direction::Output => true,
        Direction::Both => true,
    }
}

fn model_row(types: &TypeNames, param: &ModelParam) -> ModelRow
    ensures { result ≡ models.model_row types.now param.now }
{
    ModelRow {
        written: is_written(param.direction),
        metamodel: types.metamodel(param.model_type.as_str()),
    }
}

fn model_rows(
    alloc: Global,
    types: &TypeNames,
    params: &[ModelParam],
) -> Result<Seq<ModelRow>, ListFault>
    ensures { IfOk result (λ rows. rows ≡ map (models.model_row types.now) params.now) }
{
    let mut rows = Seq::new(alloc);
    for param in params {
        rows.push(model_row(types, param))?;
    }
    Ok(rows)
}

fn is_number(number: Option<u32>, metamodel: u32) -> bool
    ensures { result ≡ models.is_number number metamodel }
{
    match number {
        None => false,
        Some(number) => number == metamodel,
    }
}

/// Whether objects of classes of the metamodel can be made in the extent of the parameter.
pub fn takes(metamodel: u32, row: ModelRow) -> bool
    ensures { result ≡ models.takes metamodel row }
{
    row.written && is_number(row.metamodel, metamodel)
}

fn first_place(rows: &[ModelRow], metamodel: u32) -> Option<usize>
    ensures { result ≡ models.first_extent rows.now metamodel }
{
    rows.iter().position(|row| takes(metamodel, *row))
}

/// The first extent in which objects of the metamodel can be made. It is refused as out of memory where its number does not fit
/// 32 bits.
fn first_extent(rows: &[ModelRow], metamodel: u32) -> Result<Option<u32>, ListFault>
    ensures { IfOk result (λ o. o ≡ models.first_extent rows.now metamodel) }
{
    match first_place(rows, metamodel) {
        None => Ok(None),
        Some(place) => match u32::try_from(place) {
            Ok(place) => Ok(Some(place)),
            Err(_) => Err(ListFault::NoMemory),
        },
    }
}

fn first_extents(
    alloc: Global,
    rows: &[ModelRow],
    count: u32,
) -> Result<Seq<Option<u32>>, ListFault>
    ensures { IfOk result (λ s. s ≡ map (models.first_extent rows.now) (range_with_len 0 count)) }
{
    let mut firsts = Seq::new(alloc);
    for metamodel in 0..count {
        firsts.push(first_extent(rows, metamodel)?)?;
    }
    Ok(firsts)
}

fn model_names(alloc: Global, params: &[ModelParam]) -> Result<NameIndex, ListFault>
    ensures { IfOk result (λ names. names ≡ map (λ p. p.name) params.now) }
{
    let mut names = NameIndex::new(alloc);
    for param in params {
        names = names.with(alloc, param.name.as_str())?;
    }
    Ok(names)
}

/// The model parameters of a transformation over as many metamodels.
#[tactic(auto, unfolding(crate::specs::Models::models))]
pub fn all_models(
    alloc: Global,
    types: &TypeNames,
    count: u32,
    params: &[ModelParam],
) -> Result<Models, ListFault>
    ensures { IfOk result (λ s. s ≡ models.models types.now count params.now) }
{
    let rows = model_rows(alloc, types, params)?;
    let firsts = first_extents(alloc, rows.as_slice(), count)?;
    Ok(Models {
        names: model_names(alloc, params)?,
        rows,
        firsts,
    })
}
