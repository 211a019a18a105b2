//! Classes, parameters, model types and what else of a unit stands before its body.

ghost use Rattle.std.specs.Prelude.{map};
ghost use Rattle.qvt_tree_types.specs.Module.{field_view, param_view, class_view};
ghost use Rattle.qvt_types_laws.specs.JoinModule.{join_all, join_member, join_class, join_result, join_model_type, join_model_param};
ghost use Rattle.qvt_types_nodes.specs.Module.{typed_field_view, typed_param_view, typed_class_view};
ghost use Rattle.qvt_types_leaves.specs.Joins.{Joins, JoinsAsIs};

use crate::leaves::{optional_text, path, paths, type_tree};
use crate::notes::Notes;
use qvt_base::copied::Copied;
use qvt_base::list_fault::ListFault;
use qvt_base::seq::Seq;
use qvt_tree_types::module::{ClassDecl, Field, ModelParam, ModelType, Param, ResultDecl};
use qvt_types_nodes::module::{
    TypedClassDecl, TypedField, TypedFieldList, TypedModelParam, TypedModelParamList,
    TypedModelType, TypedModelTypeList, TypedParam, TypedParamList, TypedResultDecl,
};
use std::alloc::Global;

pub fn field(alloc: Global, of: &Field, notes: &mut Notes) -> Result<TypedField, ListFault>
    ensures { Joins typed_field_view (join_member (field_view of.now) notes.old) result notes.new }
{
    let name = of.name.copy(alloc)?;
    let kind = type_tree(alloc, &of.kind, notes)?;
    Ok(TypedField {
        name,
        kind,
        place: of.place,
        note: notes.take(),
    })
}

pub fn fields(alloc: Global, of: &[Field], notes: &mut Notes) -> Result<TypedFieldList, ListFault>
    ensures { Joins (map typed_field_view) (join_all join_member (map field_view of.now) notes.old) result notes.new }
{
    let mut done = Seq::with_room(alloc, of.len())?;
    for each in of {
        done.push(field(alloc, each, notes)?)?;
    }
    Ok(done)
}

pub fn param(alloc: Global, of: &Param, notes: &mut Notes) -> Result<TypedParam, ListFault>
    ensures { Joins typed_param_view (join_member (param_view of.now) notes.old) result notes.new }
{
    let name = of.name.copy(alloc)?;
    let kind = type_tree(alloc, &of.kind, notes)?;
    Ok(TypedParam {
        name,
        kind,
        place: of.place,
        note: notes.take(),
    })
}

pub fn params(alloc: Global, of: &[Param], notes: &mut Notes) -> Result<TypedParamList, ListFault>
    ensures { Joins (map typed_param_view) (join_all join_member (map param_view of.now) notes.old) result notes.new }
{
    let mut done = Seq::with_room(alloc, of.len())?;
    for each in of {
        done.push(param(alloc, each, notes)?)?;
    }
    Ok(done)
}

pub fn class(alloc: Global, of: &ClassDecl, notes: &mut Notes) -> Result<TypedClassDecl, ListFault>
    ensures { Joins typed_class_view (join_class (class_view of.now) notes.old) result notes.new }
{
    let name = of.name.copy(alloc)?;
    let supers = paths(alloc, of.supers.as_slice(), notes)?;
    let features = fields(alloc, of.features.as_slice(), notes)?;
    Ok(TypedClassDecl {
        name,
        supers,
        features,
        place: of.place,
        note: notes.take(),
    })
}

pub fn result_decl(
    alloc: Global,
    of: &Option<ResultDecl>,
    notes: &mut Notes,
) -> Result<Option<TypedResultDecl>, ListFault>
    ensures { JoinsAsIs (join_result of.now notes.old) result notes.new }
{
    match of {
        None => Ok(None),
        Some(of) => {
            let extent = optional_text(alloc, &of.extent)?;
            let path = path(alloc, &of.path, notes)?;
            Ok(Some(TypedResultDecl {
                path,
                extent,
                place: of.place,
                note: notes.take(),
            }))
        }
    }
}

pub fn model_type(
    alloc: Global,
    of: &ModelType,
    notes: &mut Notes,
) -> Result<TypedModelType, ListFault>
    ensures { JoinsAsIs (join_model_type of.now notes.old) result notes.new }
{
    let name = of.name.copy(alloc)?;
    let uri = of.uri.copy(alloc)?;
    Ok(TypedModelType {
        name,
        uri,
        place: of.place,
        note: notes.take(),
    })
}

pub fn model_types(
    alloc: Global,
    of: &[ModelType],
    notes: &mut Notes,
) -> Result<TypedModelTypeList, ListFault>
    ensures { JoinsAsIs (join_all join_model_type of.now notes.old) result notes.new }
{
    let mut done = Seq::with_room(alloc, of.len())?;
    for each in of {
        done.push(model_type(alloc, each, notes)?)?;
    }
    Ok(done)
}

pub fn model_param(
    alloc: Global,
    of: &ModelParam,
    notes: &mut Notes,
) -> Result<TypedModelParam, ListFault>
    ensures { JoinsAsIs (join_model_param of.now notes.old) result notes.new }
{
    let name = of.name.copy(alloc)?;
    let model_type = of.model_type.copy(alloc)?;
    Ok(TypedModelParam {
        direction: of.direction,
        name,
        model_type,
        place: of.place,
        note: notes.take(),
    })
}

pub fn model_params(
    alloc: Global,
    of: &[ModelParam],
    notes: &mut Notes,
) -> Result<TypedModelParamList, ListFault>
    ensures { JoinsAsIs (join_all join_model_param of.now notes.old) result notes.new }
{
    let mut done = Seq::with_room(alloc, of.len())?;
    for each in of {
        done.push(model_param(alloc, each, notes)?)?;
    }
    Ok(done)
}
