//! Units, and the transformation.

ghost use Rattle.std.specs.Prelude.{map};
ghost use Rattle.qvt_tree_types.specs.Module.{helper_view, condition_view, mapping_view, unit_view, module_view};
ghost use Rattle.qvt_types_laws.specs.Join.{join_optional_expr};
ghost use Rattle.qvt_types_laws.specs.JoinModule.{join_all, join_result, join_helper, join_mapping, join_unit, join_module};
ghost use Rattle.qvt_types_leaves.specs.Joins.{Joins};
ghost use Rattle.qvt_types_exprs.specs.Made.{held, unboxed};
ghost use Rattle.qvt_types_nodes.specs.Module.{typed_helper_view, typed_condition_view, typed_mapping_view, typed_unit_view, typed_module_view};

use qvt_base::copied::Copied;
use qvt_base::list_fault::ListFault;
use qvt_base::seq::Seq;
use qvt_tree_types::module::{Helper, Mapping, Module, ResultDecl, Unit};
use qvt_tree_types::tree::Expr;
use qvt_types_exprs::boxes::{optional_type, push};
use qvt_types_leaves::heads::{class, model_params, model_types, params, result_decl};
use qvt_types_leaves::leaves::{in_box, optional_in_box, out_of_box, paths};
use qvt_types_leaves::notes::Notes;
use qvt_types_nested::exprs::expr;
use qvt_types_nested::stmts::stmts;
use qvt_types_nodes::module::{
    TypedHelper, TypedMapping, TypedModule, TypedResultDecl, TypedUnit, TypedUnitList,
};
use qvt_types_nodes::tree::TypedExpr;
use std::alloc::Global;

pub fn helper(alloc: Global, of: &Helper, notes: &mut Notes) -> Result<Box<TypedHelper>, ListFault>
    ensures { Joins (held typed_helper_view) (join_helper (helper_view of.now) notes.old) result notes.new }
{
    let path = of.path.copy(alloc)?;
    let params = params(alloc, of.params.as_slice(), notes)?;
    let answer = optional_type(alloc, &of.answer, notes)?;
    let body = stmts(alloc, of.body.as_slice(), notes)?;
    let helper = TypedHelper {
        pure: of.pure,
        path,
        params,
        answer: out_of_box(answer),
        body,
        place: of.place,
        note: notes.take(),
    };
    in_box(alloc, helper)
}

pub fn result(
    alloc: Global,
    of: &Option<ResultDecl>,
    notes: &mut Notes,
) -> Result<Option<Box<TypedResultDecl>>, ListFault>
    ensures { Joins unboxed (join_result of.now notes.old) result notes.new }
{
    let decl = result_decl(alloc, of, notes)?;
    optional_in_box(alloc, decl)
}

pub fn condition(
    alloc: Global,
    of: &Option<Expr>,
    notes: &mut Notes,
) -> Result<Option<Box<TypedExpr>>, ListFault>
    ensures { Joins (λ o. typed_condition_view (unboxed o)) (join_optional_expr (condition_view of.now) notes.old) result notes.new }
{
    match of {
        None => Ok(None),
        Some(of) => Ok(Some(expr(alloc, of, notes)?)),
    }
}

pub fn mapping(
    alloc: Global,
    of: &Mapping,
    notes: &mut Notes,
) -> Result<Box<TypedMapping>, ListFault>
    ensures { Joins (held typed_mapping_view) (join_mapping (mapping_view of.now) notes.old) result notes.new }
{
    let path = of.path.copy(alloc)?;
    let params = params(alloc, of.params.as_slice(), notes)?;
    let result = result(alloc, &of.result, notes)?;
    let inherits = paths(alloc, of.inherits.as_slice(), notes)?;
    let merges = paths(alloc, of.merges.as_slice(), notes)?;
    let disjuncts = paths(alloc, of.disjuncts.as_slice(), notes)?;
    let condition = condition(alloc, &of.condition, notes)?;
    let init = stmts(alloc, of.init.as_slice(), notes)?;
    let population = stmts(alloc, of.population.as_slice(), notes)?;
    let finish = stmts(alloc, of.finish.as_slice(), notes)?;
    let mapping = TypedMapping {
        path,
        params,
        result: out_of_box(result),
        inherits,
        merges,
        disjuncts,
        condition: out_of_box(condition),
        init,
        population,
        finish,
        place: of.place,
        note: notes.take(),
    };
    in_box(alloc, mapping)
}

pub fn unit(alloc: Global, of: &Unit, notes: &mut Notes) -> Result<Box<TypedUnit>, ListFault>
    ensures { Joins (held typed_unit_view) (join_unit (unit_view of.now) notes.old) result notes.new }
{
    match of {
        Unit::Class(of) => {
            let class = class(alloc, of, notes)?;
            in_box(alloc, TypedUnit::Class(class))
        }
        Unit::Main(body, place) => {
            let body = stmts(alloc, body.as_slice(), notes)?;
            in_box(alloc, TypedUnit::Main(body, *place, notes.take()))
        }
        Unit::Helper(of) => {
            let helper = helper(alloc, of, notes)?;
            in_box(alloc, TypedUnit::Helper(Box::into_inner(helper)))
        }
        Unit::Constructor(of) => {
            let helper = helper(alloc, of, notes)?;
            in_box(alloc, TypedUnit::Constructor(Box::into_inner(helper)))
        }
        Unit::Mapping(of) => {
            let mapping = mapping(alloc, of, notes)?;
            in_box(alloc, TypedUnit::Mapping(mapping))
        }
    }
}

pub fn units(alloc: Global, of: &[Unit], notes: &mut Notes) -> Result<TypedUnitList, ListFault>
    ensures { Joins (map typed_unit_view) (join_all join_unit (map unit_view of.now) notes.old) result notes.new }
{
    let mut done = Seq::with_room(alloc, of.len())?;
    for each in of {
        let next = unit(alloc, each, notes)?;
        push(&mut done, next)?;
    }
    Ok(done)
}

pub fn module(alloc: Global, of: &Module, notes: &mut Notes) -> Result<TypedModule, ListFault>
    ensures { Joins typed_module_view (join_module (module_view of.now) notes.old) result notes.new }
{
    let model_types = model_types(alloc, of.model_types.as_slice(), notes)?;
    let params = model_params(alloc, of.params.as_slice(), notes)?;
    let units = units(alloc, of.units.as_slice(), notes)?;
    let name = of.name.copy(alloc)?;
    Ok(TypedModule {
        model_types,
        name,
        params,
        units,
        end: of.end,
    })
}
