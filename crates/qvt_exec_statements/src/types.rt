//! The types of variables, as they are written or as typing found them.

ghost use Rattle.std.specs.Prelude.{◌≡◌, IfOk, option_map};
ghost use Rattle.std.specs.Option.{option_copied};
ghost use Rattle.qvt_exec_resolves.specs.Nodes as nodes;
ghost use Rattle.qvt_exec_resolves.specs.Phrases as phrase;
ghost use Rattle.qvt_types_nodes.specs.View.{typed_expr_view, typed_optional_expr, typed_optional_type, typed_type_view};
ghost use Rattle.qvt_types_words.specs.Rulings.{unless_void};

use qvt_base::copied::Copied;
use qvt_base::list_fault::ListFault;
use qvt_base::numbers::Place;
use qvt_exec_leaves::nodes::place_of;
use qvt_exec_types::nodes::{note_of, written_type};
use qvt_types_data::ty::Ty;
use qvt_types_nodes::tree::TypedExpr;
use qvt_types_nodes::types::TypedTypeTree;
use qvt_types_steps::heads::item_type;
use qvt_types_words::types::is_void;
use std::alloc::Global;

/// A type that a variable is asked to have, which Void is not.
fn unless_void(of: &Option<Ty>) -> Option<&Ty>
    ensures { option_copied result ≡ unless_void of.now }
{
    match of {
        None => None,
        Some(ty) => { if is_void(ty) { None } else { Some(ty) } }
    }
}

/// The type of the value of a variable.
fn value_type(value: &Option<TypedExpr>) -> Option<&Ty>
    ensures { option_copied result ≡ unless_void (nodes.optional_type (typed_optional_expr (option_map typed_expr_view value.now))) }
{
    match value {
        None => None,
        Some(node) => unless_void(&note_of(node).answer),
    }
}

/// The type of a declared variable: the one that is written, else that of its value.
pub(crate) fn variable_type<'a>(
    kind: &'a Option<TypedTypeTree>,
    value: &'a Option<TypedExpr>,
) -> Option<&'a Ty>
    ensures { option_copied result ≡ phrase.variable_type (typed_optional_type kind.now) (typed_optional_expr (option_map typed_expr_view value.now)) }
{
    match kind {
        Some(written) => written_type(written),
        None => value_type(value),
    }
}

/// The type that is written.
fn written(alloc: Global, kind: &TypedTypeTree) -> Result<Option<Ty>, ListFault>
    ensures { IfOk result (λ of. of ≡ nodes.written_type (typed_type_view kind.now)) }
{
    match written_type(kind) {
        None => Ok(None),
        Some(ty) => Ok(Some(ty.copy(alloc)?)),
    }
}

/// The type of the variable of a `forEach`: the one that is written, else that of the items.
pub(crate) fn each_type(
    alloc: Global,
    kind: &Option<TypedTypeTree>,
    source: &TypedExpr,
) -> Result<Option<Ty>, ListFault>
    ensures { IfOk result (λ of. of ≡ phrase.each_type (typed_optional_type kind.now) (typed_expr_view source.now)) }
{
    match kind {
        Some(kind) => written(alloc, kind),
        None => item_type(alloc, &note_of(source).answer),
    }
}

/// Where the value of a variable stands, or the variable where it has none.
pub(crate) fn optional_place(place: Place, value: &Option<TypedExpr>) -> Place
    ensures { result ≡ nodes.optional_place place (typed_optional_expr (option_map typed_expr_view value.now)) }
{
    match value {
        None => place,
        Some(node) => place_of(node),
    }
}
