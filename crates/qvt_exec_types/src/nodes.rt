//! What typing wrote on nodes.

ghost use Rattle.std.specs.Prelude.{◌≡◌};
ghost use Rattle.std.specs.Option.{option_copied};
ghost use Rattle.qvt_types_nodes.specs.View.{typed_expr_view, typed_type_view};
ghost use Rattle.qvt_meaning.specs.Nodes as nodes;
ghost use Rattle.qvt_meaning.specs.StepTypes as types;

use qvt_types_data::note::{Note, Reading};
use qvt_types_data::ruling::Ruling;
use qvt_types_data::ty::Ty;
use qvt_types_nodes::tree::TypedExpr;
use qvt_types_nodes::types::TypedTypeTree;
use qvt_types_steps::classes::ClassPart;

/// The note of an expression.
pub fn note_of(expr: &TypedExpr) -> &Note
    ensures { result.now ≡ (nodes.mark_of (typed_expr_view expr.now)).note }
{
    match expr {
        TypedExpr::Int { note, .. } => note,
        TypedExpr::Str { note, .. } => note,
        TypedExpr::Bool { note, .. } => note,
        TypedExpr::Null { note, .. } => note,
        TypedExpr::SelfRef { note, .. } => note,
        TypedExpr::ResultRef { note, .. } => note,
        TypedExpr::Path(path) => &path.note,
        TypedExpr::Call { note, .. } => note,
        TypedExpr::Coll { note, .. } => note,
        TypedExpr::If { note, .. } => note,
        TypedExpr::Object { note, .. } => note,
        TypedExpr::New { note, .. } => note,
        TypedExpr::Map(call) => &call.note,
        TypedExpr::Resolve(call) => &call.note,
        TypedExpr::Chain { note, .. } => note,
        TypedExpr::Prefix { note, .. } => note,
        TypedExpr::Post { note, .. } => note,
    }
}

/// The type that a path stands for, if it stands for one.
pub fn typed_in(reading: &Reading) -> Option<&Ty>
    ensures { option_copied result ≡ nodes.typed_in reading.now }
{
    match reading {
        Reading::Typed(ty) => Some(ty),
        _ => None,
    }
}

/// A type as it is written.
pub fn written_type(written: &TypedTypeTree) -> Option<&Ty>
    ensures { option_copied result ≡ nodes.written_type (typed_type_view written.now) }
{
    match written {
        TypedTypeTree::Coll { note, .. } => typed_in(&note.reading),
        TypedTypeTree::Path(path) => typed_in(&path.note.reading),
    }
}

/// The class of the objects of a type, if it is one of objects.
pub fn class_in(ty: Option<&Ty>) -> ClassPart
    ensures { result ≡ types.class_part (nodes.class_in (option_copied ty.entry)) }
{
    match ty {
        Some(Ty::Class(class)) => ClassPart::Class(*class),
        _ => ClassPart::Missing,
    }
}

/// The type that is ruled, if the ruling holds.
pub fn answer_of(ruling: Ruling) -> Option<Ty>
    ensures { result ≡ types.answer_of ruling }
{
    let (_, read) = ruling.told();
    read.into_answer()
}
