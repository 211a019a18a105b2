//! What is known in the units of a transformation.

ghost use Rattle.std.specs.Prelude.{◌≡◌};
ghost use Rattle.qvt_tree_types.specs.Module.{helper_view};
ghost use Rattle.qvt_tree_types.specs.View.{optional_type};
ghost use Rattle.qvt_types_context.specs.Seen.{heads_seen, returns_seen, seen};
ghost use Rattle.qvt_types_context.specs.Units as units;

use qvt_tree_types::module::Helper;
use qvt_tree_types::types::TypeTree;
use qvt_types_context::context::{Context, Heads, Returns};
use qvt_types_data::ty::Ty;
use qvt_types_rules::resolves::head_part;
use qvt_types_steps::classes::ClassPart;
use qvt_types_units::signature::Signature;
use std::alloc::Global;

/// Outside all objects, with nothing that could be assigned.
pub fn outside<'a>(alloc: Global, heads: &Heads<'a>) -> Context<'a>
    ensures { seen result ≡ units.outside (heads_seen heads.now) }
{
    Context {
        alloc,
        heads: *heads,
        pure: false,
        plain: false,
        returns: Returns::NoValue,
        itself: ClassPart::Missing,
        result: ClassPart::Missing,
        sets_result: false,
        object: ClassPart::Missing,
        owner: ClassPart::Missing,
    }
}

/// What the `return`s of a helper may have.
fn returns_of<'a>(written: &Option<TypeTree>, answer: &'a Option<Ty>) -> Returns<'a>
    ensures { returns_seen result ≡ units.returns_of (optional_type written.now) answer.now }
{
    match written {
        None => Returns::NoValue,
        Some(_) => Returns::Value(answer),
    }
}

/// The body of a helper or a query.
pub fn helper_context<'a>(
    alloc: Global,
    heads: &Heads<'a>,
    helper: &Helper,
    signature: &'a Signature,
) -> Context<'a>
    ensures { seen result ≡ units.helper_context (heads_seen heads.now) (helper_view helper.now) signature.now }
{
    Context {
        pure: helper.pure,
        itself: head_part(signature.context),
        returns: returns_of(&helper.answer, &signature.answer),
        ..outside(alloc, heads)
    }
}

/// The body of a constructor, which runs on the new object.
pub fn constructor_context<'a>(
    alloc: Global,
    heads: &Heads<'a>,
    signature: &Signature,
) -> Context<'a>
    ensures { seen result ≡ units.constructor_context (heads_seen heads.now) signature.now }
{
    let class = head_part(signature.context);
    Context {
        itself: class,
        result: class,
        owner: class,
        ..outside(alloc, heads)
    }
}

/// The `when` of a mapping.
pub fn when_context<'a>(alloc: Global, heads: &Heads<'a>, signature: &Signature) -> Context<'a>
    ensures { seen result ≡ units.when_context (heads_seen heads.now) signature.now }
{
    Context {
        pure: true,
        itself: head_part(signature.context),
        ..outside(alloc, heads)
    }
}

/// The init section of a mapping, where `result` may be assigned.
pub fn init_context<'a>(alloc: Global, heads: &Heads<'a>, signature: &Signature) -> Context<'a>
    ensures { seen result ≡ units.init_context (heads_seen heads.now) signature.now }
{
    Context {
        itself: head_part(signature.context),
        result: head_part(signature.result),
        sets_result: true,
        ..outside(alloc, heads)
    }
}

/// The other sections of a mapping.
pub fn section_context<'a>(alloc: Global, heads: &Heads<'a>, signature: &Signature) -> Context<'a>
    ensures { seen result ≡ units.section_context (heads_seen heads.now) signature.now }
{
    let result = head_part(signature.result);
    Context {
        itself: head_part(signature.context),
        result,
        owner: result,
        returns: Returns::Never,
        ..outside(alloc, heads)
    }
}
