//! What an assignment writes.

ghost use Rattle.std.specs.Prelude.{◌≡◌, IfOk};
ghost use Rattle.qvt_types_context.specs.Seen.{heads_seen, seen};
ghost use Rattle.qvt_typing.specs.Aims as aims;
ghost use Rattle.qvt_typing.specs.Names.{model_named};

use crate::context::{Context, Heads};
use qvt_base::copied::Copied;
use qvt_base::list_fault::ListFault;
use qvt_base::numbers::FeatureNo;
use qvt_base::text::Text;
use qvt_types_data::note::Reading;
use qvt_types_data::ruling::Read;
use qvt_types_data::ty::Ty;
use qvt_types_data::variable::VariableSort;
use qvt_types_groups::classes::is_typed;
use qvt_types_states::scope::Scope;
use qvt_typing::classes::ClassPart;
use qvt_typing::parts::Aim;
use qvt_typing::properties::feature_in;
use std::alloc::Global;

fn variable_aim(
    alloc: Global,
    name: &str,
    sort: VariableSort,
    ty: &Option<Ty>,
) -> Result<Aim, ListFault>
    ensures { IfOk result (λ a. a ≡ aims.variable_aim name.now sort ty.now) }
{
    let Some(ty) = ty else {
        return Ok(Aim::UntypedVariable);
    };
    match sort {
        VariableSort::Settable => {
            let ty = ty.copy(alloc)?;
            Ok(Aim::VariableOf(Text::from_str(alloc, name)?, ty))
        }
        _ => Ok(Aim::Fixed),
    }
}

fn property_aim(heads: &Heads<'_>, source: Option<Text>, feature: FeatureNo) -> Aim
    ensures { result ≡ aims.property_aim (heads_seen heads.now) source feature }
{
    if is_typed(heads.first, heads.typed, feature) {
        Aim::Property(source, feature)
    } else {
        Aim::UntypedProperty
    }
}

/// What a name means as a property of an object of a class, if it means one there, or if that is not known.
fn class_aim(
    heads: &Heads<'_>,
    source: Option<Text>,
    name: &str,
    class: ClassPart,
    otherwise: Aim,
) -> Aim
    ensures { result ≡ aims.class_aim (heads_seen heads.now) source name.now class otherwise }
{
    match class {
        ClassPart::Class(class) => match heads.units.metas().feature(class, name) {
            None => otherwise,
            Some(feature) => property_aim(heads, source, feature),
        },
        ClassPart::Untyped => Aim::UntypedProperty,
        ClassPart::Missing => otherwise,
    }
}

fn model_aim(heads: &Heads<'_>, name: &str) -> Aim
    ensures { result ≡ aims.model_aim (model_named (heads_seen heads.now) name.now) }
{
    match heads.models.names.place(name) {
        None => Aim::Nowhere,
        Some(_) => Aim::Fixed,
    }
}

/// What a bare name means on the left of an assignment.
#[tactic(auto, unfolding(qvt_typing::specs::Aims::bare_aim))]
pub fn bare_aim(x: &Context<'_>, scope: &Scope, name: &str) -> Result<Aim, ListFault>
    ensures { IfOk result (λ a. a ≡ aims.bare_aim (seen x.now) scope.now name.now) }
{
    if let Some(known) = scope.find(name) {
        return variable_aim(x.alloc, name, known.sort, &known.ty);
    }
    let result = Some(Text::from_str(x.alloc, "#result")?);
    let otherwise = class_aim(&x.heads, result, name, x.owner, model_aim(&x.heads, name));
    Ok(class_aim(&x.heads, None, name, x.object, otherwise))
}

/// What `result` means on the left of an assignment.
pub fn result_aim(x: &Context<'_>) -> Result<Aim, ListFault>
    ensures { IfOk result (λ a. a ≡ aims.result_aim x.now.sets_result x.now.result) }
{
    match x.result {
        ClassPart::Class(class) => {
            if x.sets_result {
                let name = Text::from_str(x.alloc, "#result")?;
                Ok(Aim::VariableOf(name, Ty::Class(class)))
            } else {
                Ok(Aim::Fixed)
            }
        }
        ClassPart::Untyped => Ok(Aim::UntypedVariable),
        ClassPart::Missing => Ok(Aim::Nowhere),
    }
}

/// What a name means on the left of an assignment, behind an object of this type.
pub fn member_aim(heads: &Heads<'_>, name: &str, object: &Option<Ty>) -> Aim
    ensures { result ≡ aims.member_aim (heads_seen heads.now) name.now object.now }
{
    let Some(ty) = object else {
        return Aim::UntypedProperty;
    };
    match feature_in(heads.units.metas(), ty, name) {
        None => Aim::Nowhere,
        Some(feature) => property_aim(heads, None, feature),
    }
}

/// How what is assigned is read.
pub fn aim_read(alloc: Global, aim: &Aim) -> Result<Read, ListFault>
    ensures { IfOk result (λ r. r ≡ aims.aim_read aim.now) }
{
    match aim {
        Aim::VariableOf(name, _) => { Ok(Read::plain(Reading::Variable(name.copy(alloc)?), None)) }
        Aim::Property(source, feature) => Ok(Read {
            reading: Reading::Feature(*feature),
            source: match source {
                None => None,
                Some(name) => Some(name.copy(alloc)?),
            },
            wrap: false,
            collect: false,
            answer: None,
        }),
        _ => Ok(Read::plain(Reading::Nothing, None)),
    }
}

/// Whether a late resolve may be assigned to it.
pub fn takes_late(aim: &Aim) -> bool
    ensures { result ≡ aims.takes_late aim.now }
{
    match aim {
        Aim::Property(_, _) | Aim::UntypedProperty | Aim::Nowhere => true,
        Aim::UntypedVariable | Aim::Fixed | Aim::VariableOf(_, _) => false,
    }
}

/// Whether an assignment to it changes a property.
pub fn changes_property(aim: &Aim) -> bool
    ensures { result ≡ aims.changes_property aim.now }
{
    match aim {
        Aim::Property(_, _) => true,
        _ => false,
    }
}
