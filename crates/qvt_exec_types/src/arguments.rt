//! What a step takes, by what typing wrote on it: types, classes, a Head.

ghost use Rattle.std.specs.Prelude.{◌≡◌, map, option_map, IfOk};
ghost use Rattle.std.specs.Option.{option_copied};
ghost use Rattle.qvt_types_nodes.specs.View.{typed_expr_view, typed_exprs_of, typed_head_view, typed_optional_head};
ghost use Rattle.qvt_meaning.specs.Nodes as nodes;
ghost use Rattle.qvt_meaning.specs.StepTypes as types;

use crate::nodes::{class_in, note_of, typed_in, written_type};
use qvt_base::copied::Copied;
use qvt_base::list_fault::ListFault;
use qvt_base::seq::Seq;
use qvt_types_data::ty::Ty;
use qvt_types_nodes::tree::{TypedExpr, TypedHead};
use qvt_types_steps::classes::ClassPart;
use qvt_types_steps::heads::Heading;
use std::alloc::Global;

/// The types of arguments, if each has one.
#[tactic(auto, using(crate::proofs::Listed::none_before, crate::proofs::Listed::one_before, crate::proofs::Listed::all_before))]
pub fn types_of(alloc: Global, args: &[TypedExpr]) -> Result<Option<Seq<Ty>>, ListFault>
    ensures { IfOk result (λ ts. ts ≡ nodes.types_of (typed_exprs_of (map typed_expr_view args.now))) }
{
    let mut types = Seq::new(alloc);
    for arg in args {
        let Some(ty) = &note_of(arg).answer else {
            return Ok(None);
        };
        types.push(ty.copy(alloc)?)?;
    }
    Ok(Some(types))
}

/// The class that an argument names.
pub fn class_named(arg: &TypedExpr) -> ClassPart
    ensures { result ≡ types.class_part (nodes.class_named (typed_expr_view arg.now)) }
{
    match arg {
        TypedExpr::Path(path) => class_in(typed_in(&path.note.reading)),
        _ => ClassPart::Missing,
    }
}

/// The classes that arguments name.
pub fn class_parts(alloc: Global, args: &[TypedExpr]) -> Result<Seq<ClassPart>, ListFault>
    ensures { IfOk result (λ ps. ps ≡ types.class_parts (typed_exprs_of (map typed_expr_view args.now))) }
{
    let mut parts = Seq::new(alloc);
    for arg in args {
        parts.push(class_named(arg))?;
    }
    Ok(parts)
}

/// A Head whose accumulator has this type, if that is known.
fn folding(alloc: Global, ty: Option<&Ty>) -> Result<Heading, ListFault>
    ensures { IfOk result (λ h. h ≡ types.folding (option_copied ty.entry)) }
{
    match ty {
        None => Ok(Heading::Untyped),
        Some(ty) => Ok(Heading::Folding(ty.copy(alloc)?)),
    }
}

/// The Head of an arrow, by the types of its parts.
pub fn heading_of(alloc: Global, head: &Option<TypedHead>) -> Result<Heading, ListFault>
    ensures { IfOk result (λ h. h ≡ types.heading_of (typed_optional_head (option_map typed_head_view head.now))) }
{
    let Some(head) = head else {
        return Ok(Heading::Missing);
    };
    match &head.accumulator {
        None => Ok(Heading::Plain),
        Some(accumulator) => folding(alloc, written_type(&accumulator.kind)),
    }
}

/// Whether an arrow has a Head.
pub fn has_head(head: &Option<TypedHead>) -> bool
    ensures { result ≡ types.has_head (typed_optional_head (option_map typed_head_view head.now)) }
{
    match head {
        None => false,
        Some(_) => true,
    }
}
