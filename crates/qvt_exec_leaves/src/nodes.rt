//! What typing wrote on nodes, and what the nodes of steps have.

ghost use Rattle.std.specs.Prelude.{◌≡◌, Some, map};
ghost use Rattle.std.specs.Option.{option_copied};
ghost use Rattle.qvt_types_nodes.specs.View.{typed_expr_view, typed_exprs_of};
ghost use Rattle.qvt_meaning.specs.Nodes as nodes;
ghost use Rattle.qvt_exec_leaves.specs.Heads.{iterates, name_of};

use qvt_base::numbers::Place;
use qvt_base::text::Text;
use qvt_types_data::note::Reading;
use qvt_types_data::ty::Ty;
use qvt_types_nodes::tree::{TypedExpr, TypedHead};
use qvt_types_steps::classes::is_selection;
use qvt_types_steps::iterators::{IteratorKind, iterator_named};

/// Where an expression stands.
pub fn place_of(node: &TypedExpr) -> Place
    ensures { result ≡ nodes.place_of (typed_expr_view node.now) }
{
    match node {
        TypedExpr::Int { place, .. } => *place,
        TypedExpr::Str { place, .. } => *place,
        TypedExpr::Bool { place, .. } => *place,
        TypedExpr::Null { place, .. } => *place,
        TypedExpr::SelfRef { place, .. } => *place,
        TypedExpr::ResultRef { place, .. } => *place,
        TypedExpr::Path(path) => path.place,
        TypedExpr::Call { place, .. } => *place,
        TypedExpr::Coll { place, .. } => *place,
        TypedExpr::If { place, .. } => *place,
        TypedExpr::Object { place, .. } => *place,
        TypedExpr::New { place, .. } => *place,
        TypedExpr::Map(call) => call.place,
        TypedExpr::Resolve(call) => call.place,
        TypedExpr::Chain { place, .. } => *place,
        TypedExpr::Prefix { place, .. } => *place,
        TypedExpr::Post { place, .. } => *place,
    }
}

/// The class that a type is.
fn class_in(ty: &Ty) -> Option<u32>
    ensures { result ≡ nodes.class_in (Some ty.now) }
{
    match ty {
        Ty::Class(class) => Some(class.0),
        _ => None,
    }
}

/// The class that an argument names.
fn class_named(node: &TypedExpr) -> Option<u32>
    ensures { result ≡ nodes.class_named (typed_expr_view node.now) }
{
    match node {
        TypedExpr::Path(path) => match &path.note.reading {
            Reading::Typed(ty) => class_in(ty),
            _ => None,
        },
        _ => None,
    }
}

/// The class that the only argument of a step names.
pub fn class_argument(args: &[TypedExpr]) -> Option<u32>
    ensures { result ≡ nodes.class_argument (typed_exprs_of (map typed_expr_view args.now)) }
{
    match args {
        [] => None,
        [one] => class_named(one),
        [_, _, ..] => None,
    }
}

/// The model that an expression is the name of.
pub fn model_named(node: &TypedExpr) -> Option<u32>
    ensures { result ≡ nodes.model_named (typed_expr_view node.now) }
{
    match node {
        TypedExpr::Path(path) => match &path.note.reading {
            Reading::Model(model) => Some(*model),
            _ => None,
        },
        _ => None,
    }
}

/// Whether a step behind an arrow is `iterate`, which alone has an accumulator.
pub fn iterates(name: &str) -> bool
    ensures { result ≡ iterates name.now }
{
    if is_selection(name) {
        return false;
    }
    matches!(iterator_named(name), Some(IteratorKind::Iterate))
}

/// The name that an iterator has, if it has one.
pub fn name_in(head: &Option<TypedHead>) -> Option<&Text>
    ensures { option_copied result ≡ name_of head.now }
{
    match head {
        None => None,
        Some(head) => Some(&head.name),
    }
}
