//! The numbers of expressions.

ghost use Rattle.std.specs.Prelude.{◌≡◌};
ghost use Rattle.qvt_types_nodes.specs.View.{typed_expr_view};
ghost use Rattle.qvt_meaning.specs.Nodes.{mark_of};

use qvt_base::numbers::ExprNo;
use qvt_types_nodes::tree::TypedExpr;

/// The number that typing wrote on an expression.
pub fn number_of(expr: &TypedExpr) -> Option<ExprNo>
    ensures { result ≡ (mark_of (typed_expr_view expr.now)).note.number }
{
    match expr {
        TypedExpr::Int { note, .. } => note.number,
        TypedExpr::Str { note, .. } => note.number,
        TypedExpr::Bool { note, .. } => note.number,
        TypedExpr::Null { note, .. } => note.number,
        TypedExpr::SelfRef { note, .. } => note.number,
        TypedExpr::ResultRef { note, .. } => note.number,
        TypedExpr::Path(path) => path.note.number,
        TypedExpr::Call { note, .. } => note.number,
        TypedExpr::Coll { note, .. } => note.number,
        TypedExpr::If { note, .. } => note.number,
        TypedExpr::Object { note, .. } => note.number,
        TypedExpr::New { note, .. } => note.number,
        TypedExpr::Map(call) => call.note.number,
        TypedExpr::Resolve(call) => call.note.number,
        TypedExpr::Chain { note, .. } => note.number,
        TypedExpr::Prefix { note, .. } => note.number,
        TypedExpr::Post { note, .. } => note.number,
    }
}
