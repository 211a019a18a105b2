//! The signatures of units.

ghost use Rattle.std.specs.Prelude.{◌≡◌, ◌<◌, map, IfOk};
ghost use Rattle.qvt_tree_types.specs.Module.{class_view, helper_view, mapping_view, param_view, unit_view};
ghost use Rattle.qvt_tree_types.specs.View.{optional_type};
ghost use Rattle.qvt_types_units.specs.Signatures as signatures;

use crate::signature::{HeadClass, ParamTypes, Signature, SignatureList, UnitSort};
use qvt_base::copied::Copied;
use qvt_base::list_fault::ListFault;
use qvt_base::numbers::{ClassNo, MappingNo};
use qvt_base::seq::Seq;
use qvt_base::text::Text;
use qvt_tree_types::module::{ClassDecl, Helper, Mapping, Param, ResultDecl, Unit};
use qvt_tree_types::types::TypeTree;
use qvt_types_classes::model_types::TypeNames;
use qvt_types_classes::paths::{path_class, written_type};
use qvt_types_data::refusal::{RefusalKind, TypingRefusal};
use qvt_types_data::ty::Ty;
use qvt_types_words::metas::Metas;
use std::alloc::Global;

/// A path without its last name.
pub fn front_of(path: &[Text]) -> &[Text]
    ensures { result.now ≡ signatures.front_of path.now }
{
    let count = path.len().saturating_sub(1);
    let (front, _) = path.split_at(count);
    front
}

/// The last name of a path.
pub fn last_of(path: &[Text]) -> &str
    ensures { result.now ≡ signatures.last_of path.now }
{
    let at = path.len().saturating_sub(1);
    if at < path.len() {
        path[at].as_str()
    } else {
        ""
    }
}

pub fn head_class(class: Result<ClassNo, RefusalKind>) -> HeadClass
    ensures { result ≡ signatures.head_class class }
{
    match class {
        Ok(class) => HeadClass::Known(class),
        Err(_) => HeadClass::Unknown,
    }
}

fn front_class(metas: &Metas, names: &TypeNames, front: &[Text]) -> HeadClass
    ensures { result ≡ signatures.front_class metas.now names.now front.now }
{
    if front.len() == 0 {
        HeadClass::Missing
    } else {
        head_class(path_class(metas, names, front))
    }
}

/// The context class of a unit with this path.
#[tactic(auto, unfolding(crate::specs::Signatures::context_of))]
pub fn context_of(metas: &Metas, names: &TypeNames, path: &[Text]) -> HeadClass
    ensures { result ≡ signatures.context_of metas.now names.now path.now }
{
    front_class(metas, names, front_of(path))
}

fn found(t: Result<Ty, TypingRefusal>) -> Option<Ty>
    ensures { result ≡ signatures.found t }
{
    match t {
        Ok(t) => Some(t),
        Err(_) => None,
    }
}

fn param_types(
    alloc: Global,
    metas: &Metas,
    names: &TypeNames,
    params: &[Param],
) -> Result<ParamTypes, ListFault>
    ensures { IfOk result (λ ts. ts ≡ signatures.param_types metas.now names.now (map param_view params.now)) }
{
    let mut types = Seq::with_room(alloc, params.len())?;
    for param in params {
        types.push(found(written_type(alloc, metas, names, &param.kind)?))?;
    }
    Ok(types)
}

fn answer_of(
    alloc: Global,
    metas: &Metas,
    names: &TypeNames,
    answer: &Option<TypeTree>,
) -> Result<Option<Ty>, ListFault>
    ensures { IfOk result (λ t. t ≡ signatures.answer_of metas.now names.now (optional_type answer.now)) }
{
    match answer {
        None => Ok(Some(Ty::Void)),
        Some(written) => Ok(found(written_type(alloc, metas, names, written)?)),
    }
}

/// The result class of a mapping.
fn result_of(metas: &Metas, names: &TypeNames, declared: &Option<ResultDecl>) -> HeadClass
    ensures { result ≡ signatures.result_of metas.now names.now declared.now }
{
    match declared {
        None => HeadClass::Missing,
        Some(class) => head_class(path_class(metas, names, class.path.names.as_slice())),
    }
}

fn result_type(class: HeadClass) -> Option<Ty>
    ensures { result ≡ signatures.result_type class }
{
    match class {
        HeadClass::Missing => Some(Ty::Void),
        HeadClass::Unknown => None,
        HeadClass::Known(class) => Some(Ty::Class(class)),
    }
}

fn of_class(alloc: Global, class: &ClassDecl) -> Result<Signature, ListFault>
    ensures { IfOk result (λ s. s ≡ signatures.of_class (class_view class.now)) }
{
    Ok(Signature {
        sort: UnitSort::Class,
        name: class.name.copy(alloc)?,
        context: HeadClass::Missing,
        params: Seq::new(alloc),
        answer: Some(Ty::Void),
        result: HeadClass::Missing,
        place: class.place,
    })
}

fn of_helper(
    alloc: Global,
    metas: &Metas,
    names: &TypeNames,
    sort: UnitSort,
    helper: &Helper,
) -> Result<Signature, ListFault>
    ensures { IfOk result (λ s. s ≡ signatures.of_helper metas.now names.now sort (helper_view helper.now)) }
{
    let params = param_types(alloc, metas, names, helper.params.as_slice())?;
    let answer = answer_of(alloc, metas, names, &helper.answer)?;
    Ok(Signature {
        sort,
        name: Text::from_str(alloc, last_of(helper.path.as_slice()))?,
        context: context_of(metas, names, helper.path.as_slice()),
        params,
        answer,
        result: HeadClass::Missing,
        place: helper.place,
    })
}

fn of_mapping(
    alloc: Global,
    metas: &Metas,
    names: &TypeNames,
    number: u32,
    mapping: &Mapping,
) -> Result<Signature, ListFault>
    ensures { IfOk result (λ s. s ≡ signatures.of_mapping metas.now names.now number (mapping_view mapping.now)) }
{
    let params = param_types(alloc, metas, names, mapping.params.as_slice())?;
    let class = result_of(metas, names, &mapping.result);
    Ok(Signature {
        sort: UnitSort::Mapping(MappingNo(number)),
        name: Text::from_str(alloc, last_of(mapping.path.as_slice()))?,
        context: context_of(metas, names, mapping.path.as_slice()),
        params,
        answer: result_type(class),
        result: class,
        place: mapping.place,
    })
}

/// The signature of a unit before which as many mappings stand.
#[tactic(auto, unfolding(crate::specs::Signatures::signature))]
fn signature(
    alloc: Global,
    metas: &Metas,
    names: &TypeNames,
    mappings: u32,
    unit: &Unit,
) -> Result<Signature, ListFault>
    ensures { IfOk result (λ s. s ≡ signatures.signature metas.now names.now mappings (unit_view unit.now)) }
{
    match unit {
        Unit::Class(class) => of_class(alloc, class),
        Unit::Main(_, place) => Ok(Signature {
            sort: UnitSort::Main,
            name: Text::new(alloc),
            context: HeadClass::Missing,
            params: Seq::new(alloc),
            answer: Some(Ty::Void),
            result: HeadClass::Missing,
            place: *place,
        }),
        Unit::Helper(helper) => of_helper(alloc, metas, names, helper_sort(helper), helper),
        Unit::Constructor(helper) => {
            of_helper(alloc, metas, names, UnitSort::Constructor, helper)
        }
        Unit::Mapping(mapping) => of_mapping(alloc, metas, names, mappings, mapping),
    }
}

fn helper_sort(helper: &Helper) -> UnitSort
    ensures { result ≡ signatures.helper_sort (helper_view helper.now) }
{
    if helper.pure {
        UnitSort::Query
    } else {
        UnitSort::Helper
    }
}

/// How many mappings stand before the next unit. It is refused as out of memory where that does not fit 32 bits.
fn mappings_with(mappings: u32, unit: &Unit) -> Result<u32, ListFault>
    ensures { IfOk result (λ n. n ≡ signatures.mappings_with mappings (unit_view unit.now)) }
{
    match unit {
        Unit::Mapping(_) => match mappings.checked_add(1) {
            Some(next) => Ok(next),
            None => Err(ListFault::NoMemory),
        },
        Unit::Class(_) => Ok(mappings),
        Unit::Main(_, _) => Ok(mappings),
        Unit::Helper(_) => Ok(mappings),
        Unit::Constructor(_) => Ok(mappings),
    }
}

/// The signatures of all units. The number of a unit is its place.
pub fn all_signatures(
    alloc: Global,
    metas: &Metas,
    names: &TypeNames,
    units: &[Unit],
) -> Result<SignatureList, ListFault>
    ensures { IfOk result (λ us. us ≡ signatures.signatures metas.now names.now (map unit_view units.now)) }
{
    let mut list = Seq::new(alloc);
    let mut mappings: u32 = 0;
    for unit in units {
        list.push(signature(alloc, metas, names, mappings, unit)?)?;
        mappings = mappings_with(mappings, unit)?;
    }
    Ok(list)
}
