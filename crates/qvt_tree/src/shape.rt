ghost use Rattle.std.specs.Prelude.{◌≡◌, ◌↔◌, IsTrue, map};
ghost use Rattle.qvt_tree_types.specs.Module as view;
ghost use Rattle.qvt_tree.specs.ModuleShape.{shape};
ghost use Rattle.qvt_tree.specs.SameModule as same;

use crate::equal::{same_optional_expr, same_stmts};
use crate::leaf::{same_optional_text, same_optional_type, same_path, same_type};
use qvt_tree_types::module::{
    ClassDecl, Field, Helper, Mapping, ModelParam, ModelType, Module, Param, ResultDecl, Unit,
};
use qvt_tree_types::types::PathTree;

fn same_paths(a: &[PathTree], b: &[PathTree]) -> bool
    ensures { result ≡ same.same_paths a.now b.now }
{
    if a.len() != b.len() {
        return false;
    }
    for i in 0..a.len() {
        if !same_path(&a[i], &b[i]) {
            return false;
        }
    }
    true
}

fn same_field(a: &Field, b: &Field) -> bool
    ensures { result ≡ same.same_typed (view.field_view a.now) (view.field_view b.now) }
{
    a.name == b.name && same_type(&a.kind, &b.kind)
}

fn same_fields(a: &[Field], b: &[Field]) -> bool
    ensures { result ≡ same.same_typed_names (map view.field_view a.now) (map view.field_view b.now) }
{
    if a.len() != b.len() {
        return false;
    }
    for i in 0..a.len() {
        if !same_field(&a[i], &b[i]) {
            return false;
        }
    }
    true
}

fn same_param(a: &Param, b: &Param) -> bool
    ensures { result ≡ same.same_typed (view.param_view a.now) (view.param_view b.now) }
{
    a.name == b.name && same_type(&a.kind, &b.kind)
}

fn same_params(a: &[Param], b: &[Param]) -> bool
    ensures { result ≡ same.same_typed_names (map view.param_view a.now) (map view.param_view b.now) }
{
    if a.len() != b.len() {
        return false;
    }
    for i in 0..a.len() {
        if !same_param(&a[i], &b[i]) {
            return false;
        }
    }
    true
}

fn same_class(a: &ClassDecl, b: &ClassDecl) -> bool
    ensures { result ≡ same.same_class (view.class_view a.now) (view.class_view b.now) }
{
    a.name == b.name
        && same_paths(a.supers.as_slice(), b.supers.as_slice())
        && same_fields(a.features.as_slice(), b.features.as_slice())
}

fn same_helper(a: &Helper, b: &Helper) -> bool
    ensures { result ≡ same.same_helper (view.helper_view a.now) (view.helper_view b.now) }
{
    a.pure == b.pure
        && a.path == b.path
        && same_params(a.params.as_slice(), b.params.as_slice())
        && same_optional_type(&a.answer, &b.answer)
        && same_stmts(&a.body, &b.body)
}

fn same_result(a: &ResultDecl, b: &ResultDecl) -> bool
    ensures { result ≡ same.same_result a.now b.now }
{
    same_path(&a.path, &b.path) && same_optional_text(&a.extent, &b.extent)
}

fn same_optional_result(a: &Option<ResultDecl>, b: &Option<ResultDecl>) -> bool
    ensures { result ≡ same.same_optional_result a.now b.now }
{
    match (a, b) {
        (None, None) => true,
        (Some(a), Some(b)) => same_result(a, b),
        _ => false,
    }
}

fn same_head_of(a: &Mapping, b: &Mapping) -> bool
    ensures { result ≡ same.same_head_of (view.mapping_view a.now) (view.mapping_view b.now) }
{
    a.path == b.path
        && same_params(a.params.as_slice(), b.params.as_slice())
        && same_optional_result(&a.result, &b.result)
}

fn same_extras(a: &Mapping, b: &Mapping) -> bool
    ensures { result ≡ same.same_extras (view.mapping_view a.now) (view.mapping_view b.now) }
{
    same_paths(a.inherits.as_slice(), b.inherits.as_slice())
        && same_paths(a.merges.as_slice(), b.merges.as_slice())
        && same_paths(a.disjuncts.as_slice(), b.disjuncts.as_slice())
        && same_optional_expr(&a.condition, &b.condition)
}

fn same_body(a: &Mapping, b: &Mapping) -> bool
    ensures { result ≡ same.same_body (view.mapping_view a.now) (view.mapping_view b.now) }
{
    same_stmts(&a.init, &b.init)
        && same_stmts(&a.population, &b.population)
        && same_stmts(&a.finish, &b.finish)
}

fn same_mapping(a: &Mapping, b: &Mapping) -> bool
    ensures { result ≡ same.same_mapping (view.mapping_view a.now) (view.mapping_view b.now) }
{
    same_head_of(a, b) && same_extras(a, b) && same_body(a, b)
}

fn same_unit(a: &Unit, b: &Unit) -> bool
    ensures { result ≡ same.same_unit (view.unit_view a.now) (view.unit_view b.now) }
{
    match (a, b) {
        (Unit::Class(a), Unit::Class(b)) => same_class(a, b),
        (Unit::Main(a, _), Unit::Main(b, _)) => same_stmts(a, b),
        (Unit::Helper(a), Unit::Helper(b)) => same_helper(a, b),
        (Unit::Constructor(a), Unit::Constructor(b)) => same_helper(a, b),
        (Unit::Mapping(a), Unit::Mapping(b)) => same_mapping(a, b),
        _ => false,
    }
}

fn same_units(a: &[Unit], b: &[Unit]) -> bool
    ensures { result ≡ same.same_units (map view.unit_view a.now) (map view.unit_view b.now) }
{
    if a.len() != b.len() {
        return false;
    }
    for i in 0..a.len() {
        if !same_unit(&a[i], &b[i]) {
            return false;
        }
    }
    true
}

fn same_model_type(a: &ModelType, b: &ModelType) -> bool
    ensures { result ≡ same.same_model_type a.now b.now }
{
    a.name == b.name && a.uri == b.uri
}

fn same_model_types(a: &[ModelType], b: &[ModelType]) -> bool
    ensures { result ≡ same.same_model_types a.now b.now }
{
    if a.len() != b.len() {
        return false;
    }
    for i in 0..a.len() {
        if !same_model_type(&a[i], &b[i]) {
            return false;
        }
    }
    true
}

fn same_model_param(a: &ModelParam, b: &ModelParam) -> bool
    ensures { result ≡ same.same_model_param a.now b.now }
{
    a.direction == b.direction && a.name == b.name && a.model_type == b.model_type
}

fn same_model_params(a: &[ModelParam], b: &[ModelParam]) -> bool
    ensures { result ≡ same.same_model_params a.now b.now }
{
    if a.len() != b.len() {
        return false;
    }
    for i in 0..a.len() {
        if !same_model_param(&a[i], &b[i]) {
            return false;
        }
    }
    true
}

#[tactic(auto, unfolding(crate::specs::SameModule::same_module))]
fn same_module(a: &Module, b: &Module) -> bool
    ensures { result ≡ same.same_module (view.module_view a.now) (view.module_view b.now) }
{
    same_model_types(a.model_types.as_slice(), b.model_types.as_slice())
        && a.name == b.name
        && same_model_params(a.params.as_slice(), b.params.as_slice())
        && same_units(a.units.as_slice(), b.units.as_slice())
}

/// Whether the two are equal but for their places.
#[tactic(auto, using(crate::proofs::SameModule::is_same))]
pub fn same_shape(a: &Module, b: &Module) -> bool
    ensures { IsTrue result ↔ (shape (view.module_view a.now) ≡ shape (view.module_view b.now)) }
{
    same_module(a, b)
}
