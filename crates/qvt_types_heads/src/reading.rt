//! The heads of a transformation as they are read.

ghost use Rattle.std.specs.Prelude.{◌≡◌, ◌++◌, [], None, length, map, IfOk, OnOk};
ghost use Rattle.qvt_tree_types.specs.Module.{module_view, unit_view};
ghost use Rattle.qvt_types_paths.specs.ModelTypes.{model_types_told};
ghost use Rattle.qvt_types_paths.specs.Models.{models, models_told};
ghost use Rattle.qvt_types_lists.specs.Signatures.{signatures};
ghost use Rattle.qvt_types_context.specs.Accepts as accepts;
ghost use Rattle.qvt_types_heads.specs.Heads as heads_words;

use crate::declarations::{Declarations, lent};
use crate::telling::tell_units;
use qvt_base::list_fault::ListFault;
use qvt_base::seq::Seq;
use qvt_tree_types::module::{Module, Unit};
use qvt_types_lists::classes::{Extended, with_classes};
use qvt_types_lists::signatures::all_signatures;
use qvt_types_lists::unit_names::UnitNames;
use qvt_types_lists::units::Units;
use qvt_types_paths::metas::Metas;
use qvt_types_paths::model_types::{TypeNames, tell_model_types, type_names};
use qvt_types_paths::models::{Models, all_models, tell_models};
use qvt_types_paths::told::RefusalList;
use std::alloc::Global;
use std::mem::replace;

/// The units by their names, and the metamodels with the intermediate classes.
fn read_units(
    alloc: Global,
    given: &Metas,
    types: &TypeNames,
    metas: Metas,
    units: &[Unit],
) -> Result<Units, ListFault>
    ensures { IfOk result (λ u. u ≡ record { metas = metas; units = signatures given.now types.now (map unit_view units.now) }) }
{
    let signatures = all_signatures(alloc, given, types, units)?;
    let names = UnitNames::new(alloc, signatures)?;
    Units::new(alloc, metas, names)
}

/// The model parameters over the metamodels.
fn read_models(
    alloc: Global,
    given: &Metas,
    types: &TypeNames,
    module: &Module,
    log: &mut RefusalList,
) -> Result<Models, ListFault>
    ensures models { IfOk result (λ s. s ≡ models types.now (length given.now.metamodels) «module».now.params) }
    ensures told { OnOk result (log.new ≡ log.old ++ (model_types_told given.now [] «module».now.model_types ++ models_told types.now [] «module».now.params)) }
{
    tell_model_types(alloc, given, module.model_types.as_slice(), log)?;
    tell_models(alloc, types, module.params.as_slice(), log)?;
    let params = module.params.as_slice();
    all_models(alloc, types, given.metamodel_count(), params)
}

/// The metamodels, and which properties of the intermediate classes have a type.
fn parts(alloc: Global, extended: Extended) -> (Metas, Seq<bool>)
    ensures { result ≡ (extended.metas, extended.typed) }
{
    let mut extended = extended;
    let metas = replace(&mut extended.metas, Metas::new(alloc));
    let typed = replace(&mut extended.typed, Seq::new(alloc));
    (metas, typed)
}

/// What the heads declare. It tells what is wrong with model types, model parameters and intermediate classes.
#[tactic(auto, unfolding(qvt_types_paths::specs::ModelTypes::type_names))]
fn declared(
    alloc: Global,
    module: &Module,
    given: &Metas,
    log: &mut RefusalList,
) -> Result<Declarations, ListFault>
    requires { given.now.element ≡ None }
    ensures heads { IfOk result (λ d. heads_words.heads_over given.now d ≡ accepts.heads_of given.now (module_view «module».now)) }
    ensures told { OnOk result (log.new ≡ log.old ++ heads_words.types_told given.now (accepts.heads_of given.now (module_view «module».now)).types (module_view «module».now)) }
{
    given.are_well_formed();
    let first = given.feature_infos().len() as u32;
    let written = module.units.as_slice();
    let types = type_names(alloc, given, module.model_types.as_slice(), written)?;
    let models = read_models(alloc, given, &types, module, log)?;
    let extended = with_classes(alloc, given, &types, written, log)?;
    let (metas, typed) = parts(alloc, extended);
    let units = read_units(alloc, given, &types, metas, written)?;
    Ok(Declarations {
        types,
        models,
        units,
        first,
        typed,
    })
}

/// What the heads of a transformation declare over the metamodels of its job; tells all that is wrong with them. It is refused as out
/// of memory where numbers do not fit 32 bits.
pub fn read_heads(
    alloc: Global,
    module: &Module,
    given: &Metas,
    log: &mut RefusalList,
) -> Result<Declarations, ListFault>
    requires { given.now.element ≡ None }
    ensures heads { IfOk result (λ d. heads_words.heads_over given.now d ≡ accepts.heads_of given.now (module_view «module».now)) }
    ensures told { OnOk result (log.new ≡ log.old ++ accepts.heads_told (accepts.heads_of given.now (module_view «module».now)) (module_view «module».now)) }
{
    let declarations = declared(alloc, module, given, log)?;
    tell_units(alloc, &lent(&declarations, given), module, log)?;
    Ok(declarations)
}
