//! Names of properties of implicit sources, and of models.

ghost use Rattle.std.specs.Prelude.{◌≡◌, IfOk};
ghost use Rattle.qvt_types_data.specs.declared.refusal.RefusalKind.TheVariants.{UnknownName};
ghost use Rattle.qvt_types_data.specs.declared.ruling.Ruling.TheVariants.{Fails};
ghost use Rattle.qvt_types_data.specs.declared.ty.Ty.{out-Ty};
ghost use Rattle.qvt_types_names.specs.Names as names;
ghost use Rattle.qvt_types_names.specs.Sources as sources_of;

use qvt_base::copied::Copied;
use qvt_base::list_fault::ListFault;
use qvt_base::numbers::FeatureNo;
use qvt_base::text::Text;
use qvt_types_classes::classes::is_typed;
use qvt_types_data::note::Reading;
use qvt_types_data::refusal::RefusalKind;
use qvt_types_data::ruling::{Read, Ruling};
use qvt_types_data::ty::Ty;
use qvt_types_data::variable::{Variable, VariableSort};
use qvt_types_words::metas::Metas;
use qvt_types_words::types::feature_type;
use std::alloc::Global;

fn is_implicit(sort: VariableSort) -> bool
    ensures { result ≡ names.is_implicit sort }
{
    match sort {
        VariableSort::Implicit => true,
        _ => false,
    }
}

/// The feature of the name that values of a type have.
fn feature_in(metas: &Metas, name: &str, t: &Ty) -> Option<FeatureNo>
    ensures { result ≡ names.feature_in metas.now name.now (out-Ty t.now) }
{
    match t {
        Ty::Class(class) => metas.feature(*class, name),
        _ => None,
    }
}

/// The type of a feature, where it is known.
fn property_type(
    alloc: Global,
    metas: &Metas,
    first: u32,
    typed: &[bool],
    feature: FeatureNo,
) -> Result<Option<Ty>, ListFault>
    ensures { IfOk result (λ t. t ≡ names.property_type metas.now first typed.now feature) }
{
    if !is_typed(first, typed, feature) {
        return Ok(None);
    }
    Ok(Some(feature_type(alloc, metas.shape(feature))?))
}

fn property_of(
    alloc: Global,
    metas: &Metas,
    first: u32,
    typed: &[bool],
    source: &Text,
    feature: FeatureNo,
) -> Result<Ruling, ListFault>
    ensures { IfOk result (λ r. r ≡ names.property_of metas.now first typed.now source.now feature) }
{
    let source = source.copy(alloc)?;
    let answer = property_type(alloc, metas, first, typed, feature)?;
    Ok(Ruling::Holds(Read {
        reading: Reading::Feature(feature),
        source: Some(source),
        wrap: false,
        collect: false,
        answer,
    }))
}

fn typed_source(
    alloc: Global,
    metas: &Metas,
    first: u32,
    typed: &[bool],
    name: &str,
    source: &Variable,
) -> Result<Option<Ruling>, ListFault>
    ensures { IfOk result (λ r. r ≡ sources_of.typed_source metas.now first typed.now name.now source.now.name source.now.ty) }
{
    let Some(t) = &source.ty else {
        return Ok(Some(Ruling::Silent));
    };
    match feature_in(metas, name, t) {
        None => Ok(None),
        Some(feature) => {
            let ruling = property_of(alloc, metas, first, typed, &source.name, feature)?;
            Ok(Some(ruling))
        }
    }
}

/// What an implicit source makes of a name, if it decides it.
fn source_ruled(
    alloc: Global,
    metas: &Metas,
    first: u32,
    typed: &[bool],
    name: &str,
    source: &Variable,
) -> Result<Option<Ruling>, ListFault>
    ensures { IfOk result (λ r. r ≡ sources_of.source_ruled metas.now first typed.now name.now source.now) }
{
    if !is_implicit(source.sort) {
        return Ok(None);
    }
    typed_source(alloc, metas, first, typed, name, source)
}

/// What is ruled of a name that is a property of the nearest of the sources that has it; they stand with the nearest last. Features
/// of intermediate classes have the numbers from the first on, and `typed` tells whose type is known.
pub fn by_sources(
    alloc: Global,
    metas: &Metas,
    first: u32,
    typed: &[bool],
    name: &str,
    sources: &[Variable],
) -> Result<Ruling, ListFault>
    ensures { IfOk result (λ r. r ≡ names.by_sources metas.now first typed.now name.now (Fails UnknownName) sources.now) }
{
    let count = sources.len();
    for nearer in 0..count {
        let source = &sources[count - 1 - nearer];
        if let Some(ruling) = source_ruled(alloc, metas, first, typed, name, source)? {
            return Ok(ruling);
        }
    }
    Ok(Ruling::Fails(RefusalKind::UnknownName))
}

/// What is ruled of the name of a model.
fn model_ruled(is_source: bool, model: u32) -> Ruling
    ensures { result ≡ names.model_ruled is_source model }
{
    if is_source {
        Ruling::Holds(Read::plain(Reading::Model(model), None))
    } else {
        Ruling::Fails(RefusalKind::ModelUse)
    }
}

/// What is ruled of a name that is no variable: it is that of a model, or of a property of an implicit source. `is_source` tells that
/// it stands before an operation of models.
pub fn model_or(
    alloc: Global,
    metas: &Metas,
    first: u32,
    typed: &[bool],
    is_source: bool,
    sources: &[Variable],
    name: &str,
    model: Option<u32>,
) -> Result<Ruling, ListFault>
    ensures { IfOk result (λ r. r ≡ names.model_or metas.now first typed.now is_source sources.now name.now model) }
{
    match model {
        Some(model) => Ok(model_ruled(is_source, model)),
        None => by_sources(alloc, metas, first, typed, name, sources),
    }
}
