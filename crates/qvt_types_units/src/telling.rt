//! What is told of the heads of units one by one.

ghost use Rattle.std.specs.Prelude.{◌≡◌, ◌++◌, is_none, length, map, OnOk};
ghost use Rattle.qvt_tree_types.specs.Module.{helper_view, mapping_view, param_view, unit_view};
ghost use Rattle.qvt_tree_types.specs.View.{optional_type};
ghost use Rattle.qvt_types_classes.specs.Written.{told_of};
ghost use Rattle.qvt_types_units.specs.Units as units;

use crate::signature::HeadClass;
use crate::signatures::{context_of, front_of, head_class, last_of};
use qvt_base::list_fault::ListFault;
use qvt_base::numbers::{ClassNo, Place};
use qvt_base::text::Text;
use qvt_tree_types::module::{Helper, Mapping, Param, ResultDecl, Unit};
use qvt_tree_types::types::TypeTree;
use qvt_types_classes::extents::extent;
use qvt_types_classes::model_types::TypeNames;
use qvt_types_classes::models::Models;
use qvt_types_classes::paths::{path_class, written_type};
use qvt_types_classes::told::{RefusalList, tell_if};
use qvt_types_data::refusal::{RefusalKind, TypingRefusal};
use qvt_types_data::ty::Ty;
use qvt_types_words::metas::Metas;
use std::alloc::Global;

/// What the heads of units are judged by: the metamodels that are given, those with the intermediate classes, the names of types
/// and the model parameters.
#[derive(Clone, Copy)]
pub struct HeadScope<'a> {
    pub given: &'a Metas,
    pub metas: &'a Metas,
    pub names: &'a TypeNames,
    pub models: &'a Models,
}

/// Tells why there is no such class, if there is none.
fn tell_of(
    log: &mut RefusalList,
    place: Place,
    class: Result<ClassNo, RefusalKind>,
) -> Result<(), ListFault>
    ensures { OnOk result (log.new ≡ log.old ++ told_of place class) }
{
    match class {
        Ok(_) => Ok(()),
        Err(kind) => log.push(TypingRefusal { kind, place }),
    }
}

/// Tells of a context that names no class, at the unit.
#[tactic(auto, unfolding(crate::specs::Units::context_told))]
fn tell_context(
    heads: &HeadScope<'_>,
    place: Place,
    path: &[Text],
    log: &mut RefusalList,
) -> Result<(), ListFault>
    ensures { OnOk result (log.new ≡ log.old ++ units.context_told heads.now.given.now heads.now.names.now place path.now) }
{
    let front = front_of(path);
    if front.len() == 0 {
        return Ok(());
    }
    tell_of(log, place, path_class(heads.given, heads.names, front))
}

fn tell_type(log: &mut RefusalList, t: Result<Ty, TypingRefusal>) -> Result<(), ListFault>
    ensures { OnOk result (log.new ≡ log.old ++ units.type_told t) }
{
    match t {
        Ok(_) => Ok(()),
        Err(refusal) => log.push(refusal),
    }
}

fn tell_params(
    alloc: Global,
    heads: &HeadScope<'_>,
    params: &[Param],
    log: &mut RefusalList,
) -> Result<(), ListFault>
    ensures { OnOk result (log.new ≡ log.old ++ units.params_told heads.now.given.now heads.now.names.now (map param_view params.now)) }
{
    for param in params {
        let t = written_type(alloc, heads.given, heads.names, &param.kind)?;
        tell_type(log, t)?;
    }
    Ok(())
}

fn tell_answer(
    alloc: Global,
    heads: &HeadScope<'_>,
    answer: &Option<TypeTree>,
    log: &mut RefusalList,
) -> Result<(), ListFault>
    ensures { OnOk result (log.new ≡ log.old ++ units.answer_told heads.now.given.now heads.now.names.now (optional_type answer.now)) }
{
    match answer {
        None => Ok(()),
        Some(written) => {
            let t = written_type(alloc, heads.given, heads.names, written)?;
            tell_type(log, t)
        }
    }
}

/// Whether a constructor stands outside a class, or has another name than its class.
fn is_bad_context(metas: &Metas, context: HeadClass, name: &str) -> bool
    ensures { result ≡ units.is_bad_context metas.now context name.now }
{
    match context {
        HeadClass::Missing => true,
        HeadClass::Unknown => false,
        HeadClass::Known(class) => name != metas.class_name(class),
    }
}

/// Whether there is no extent for objects of a result class.
fn lacks_extent(heads: &HeadScope<'_>, name: &Option<Text>, class: HeadClass) -> bool
    ensures { result ≡ units.lacks_extent heads.now.metas.now heads.now.models.now (length heads.now.given.now.metamodels) name.now class }
{
    match class {
        HeadClass::Missing => false,
        HeadClass::Unknown => false,
        HeadClass::Known(class) => {
            let last = heads.given.metamodel_count();
            let metamodel = heads.metas.metamodel_of(class);
            extent(heads.models, last, name, metamodel).is_none()
        }
    }
}

fn tell_result(
    heads: &HeadScope<'_>,
    declared: &Option<ResultDecl>,
    log: &mut RefusalList,
) -> Result<(), ListFault>
    ensures { OnOk result (log.new ≡ log.old ++ units.result_told heads.now.given.now heads.now.metas.now heads.now.names.now heads.now.models.now declared.now) }
{
    match declared {
        None => Ok(()),
        Some(declared) => {
            let class = path_class(heads.given, heads.names, declared.path.names.as_slice());
            let lacking = lacks_extent(heads, &declared.extent, head_class(class));
            tell_of(log, declared.path.place, class)?;
            tell_if(log, lacking, RefusalKind::BadExtent, declared.place)
        }
    }
}

fn tell_helper(
    alloc: Global,
    heads: &HeadScope<'_>,
    helper: &Helper,
    log: &mut RefusalList,
) -> Result<(), ListFault>
    ensures { OnOk result (log.new ≡ log.old ++ units.helper_told heads.now.given.now heads.now.names.now (helper_view helper.now)) }
{
    tell_context(heads, helper.place, helper.path.as_slice(), log)?;
    tell_params(alloc, heads, helper.params.as_slice(), log)?;
    tell_answer(alloc, heads, &helper.answer, log)
}

fn tell_constructor(
    alloc: Global,
    heads: &HeadScope<'_>,
    helper: &Helper,
    log: &mut RefusalList,
) -> Result<(), ListFault>
    ensures { OnOk result (log.new ≡ log.old ++ units.constructor_told heads.now.given.now heads.now.metas.now heads.now.names.now (helper_view helper.now)) }
{
    let path = helper.path.as_slice();
    let context = context_of(heads.given, heads.names, path);
    let bad = is_bad_context(heads.metas, context, last_of(path));
    tell_helper(alloc, heads, helper, log)?;
    tell_if(log, bad, RefusalKind::BadContext, helper.place)
}

fn tell_mapping(
    alloc: Global,
    heads: &HeadScope<'_>,
    mapping: &Mapping,
    log: &mut RefusalList,
) -> Result<(), ListFault>
    ensures { OnOk result (log.new ≡ log.old ++ units.mapping_head_told heads.now.given.now heads.now.metas.now heads.now.names.now heads.now.models.now (mapping_view mapping.now)) }
{
    tell_context(heads, mapping.place, mapping.path.as_slice(), log)?;
    tell_params(alloc, heads, mapping.params.as_slice(), log)?;
    tell_result(heads, &mapping.result, log)
}

/// Tells what is wrong with the head of a unit by itself: its context, the types of its parameters, its answer or result, and the
/// extent of that.
#[tactic(auto, unfolding(crate::specs::Units::head_told))]
pub fn tell_head(
    alloc: Global,
    heads: &HeadScope<'_>,
    unit: &Unit,
    log: &mut RefusalList,
) -> Result<(), ListFault>
    ensures { OnOk result (log.new ≡ log.old ++ units.head_told heads.now.given.now heads.now.metas.now heads.now.names.now heads.now.models.now (unit_view unit.now)) }
{
    match unit {
        Unit::Class(_) => Ok(()),
        Unit::Main(_, _) => Ok(()),
        Unit::Helper(helper) => tell_helper(alloc, heads, helper, log),
        Unit::Constructor(helper) => tell_constructor(alloc, heads, helper, log),
        Unit::Mapping(mapping) => tell_mapping(alloc, heads, mapping, log),
    }
}
