//! Resolves: their mapping, their filter, their class.

ghost use Rattle.std.specs.Prelude.{◌≡◌, IfOk};
ghost use Rattle.qvt_types_context.specs.Seen.{seen};
ghost use Rattle.qvt_types_states.specs.Does.{GivesAndLeaves};
ghost use Rattle.qvt_types_context.specs.Phrases as phrase;
ghost use Rattle.qvt_types_context.specs.Rules as rule;

use crate::settling::tell_effect;
use qvt_base::list_fault::ListFault;
use qvt_base::numbers::Place;
use qvt_base::text::Text;
use qvt_tree_types::types::PathTree;
use qvt_tree_types::words::ResolveWord;
use qvt_types_context::calls::{no_unit, numbers_of, unit_at};
use qvt_types_context::context::Context;
use qvt_types_context::names::{class_type, source, unnamed};
use qvt_types_context::parts::{Effect, Filtered, Given, Within};
use qvt_types_data::note::Reading;
use qvt_types_data::refusal::RefusalKind;
use qvt_types_data::ruling::{Read, Ruling};
use qvt_types_data::ty::Ty;
use qvt_types_data::variable::VariableSort;
use qvt_types_lists::listed::listed;
use qvt_types_lists::signature::HeadClass;
use qvt_types_states::scope::Known;
use qvt_types_states::state::TypingState;
use qvt_types_states::steps::{add_source, declare, marks, settled, tell, writes_nothing};
use qvt_types_steps::classes::ClassPart;
use qvt_types_steps::resolves as ruling_of;
use qvt_types_steps::resolves::{Joint, class_within};

/// What is ruled of a path that is to name a mapping.
fn listed_ruled(x: &Context<'_>, unit: Result<u32, RefusalKind>) -> Result<Ruling, ListFault>
    ensures { IfOk result (λ r. r ≡ rule.listed_ruled (seen x.now) unit) }
{
    match unit {
        Ok(number) => {
            let numbers = numbers_of(x.alloc, &x.heads, &[number])?;
            Ok(Ruling::Holds(Read::plain(Reading::Mappings(numbers), None)))
        }
        Err(kind) => Ok(Ruling::Fails(kind)),
    }
}

fn within_of(unit: Result<u32, RefusalKind>) -> Within
    ensures { result ≡ rule.within_of unit }
{
    match unit {
        Ok(number) => Within::In(number),
        Err(_) => Within::Nobody,
    }
}

/// A path that names a mapping.
#[tactic(auto, unfolding(qvt_typing::specs::Rules::listed_path))]
pub fn listed_path(
    x: &Context<'_>,
    path: &PathTree,
    state: &mut TypingState,
) -> Result<Within, ListFault>
    ensures { GivesAndLeaves (rule.listed_path (seen x.now) path.now state.old) result state.new }
{
    let names = path.names.as_slice();
    let unit = listed(x.heads.given, x.heads.types, x.heads.units.names(), names);
    let read = settled(listed_ruled(x, unit)?, path.place, state)?;
    marks(read, state)?;
    Ok(within_of(unit))
}

/// The mapping of an `In` form.
#[tactic(auto, unfolding(qvt_typing::specs::Rules::everywhere))]
pub fn within(
    x: &Context<'_>,
    path: &Option<PathTree>,
    state: &mut TypingState,
) -> Result<Within, ListFault>
    ensures { GivesAndLeaves (phrase.within (seen x.now) path.now state.old) result state.new }
{
    match path {
        None => Ok(Within::Everywhere),
        Some(path) => listed_path(x, path, state),
    }
}

/// Declares the variable of a filter, or makes the object that is filtered an implicit source.
pub fn declare_filter(
    x: &Context<'_>,
    name: &Option<Text>,
    class: ClassPart,
    place: Place,
    state: &mut TypingState,
) -> Result<(), ListFault>
    ensures { GivesAndLeaves (rule.declare_filter name.now class place state.old) result state.new }
{
    match name {
        None => {
            let name = unnamed(x.alloc, &state.scope)?;
            add_source(source(name, class_type(class)), state)
        }
        Some(name) => {
            let known = Known {
                sort: VariableSort::Iterator,
                ty: class_type(class),
            };
            declare(x.alloc, name.as_str(), known, place, state)
        }
    }
}

/// Settles a filter whose class and condition are judged.
#[tactic(auto, unfolding(qvt_typing::specs::Rules::filter_settled))]
pub fn filter_settled(
    x: &Context<'_>,
    class: ClassPart,
    condition: &Given,
    place: Place,
    state: &mut TypingState,
) -> Result<Filtered, ListFault>
    ensures { GivesAndLeaves (rule.filter_settled (seen x.now) class condition.now place state.old) result state.new }
{
    let kind = class_type(class);
    let ruling = ruling_of::filter(
        x.alloc,
        x.heads.units.metas(),
        &kind,
        condition.is_given,
        &condition.ty,
    )?;
    let part = match &ruling {
        Ruling::Holds(_) => class,
        _ => ClassPart::Untyped,
    };
    settled(ruling, place, state)?;
    writes_nothing(state)?;
    Ok(Filtered::By(part))
}

pub fn head_part(class: HeadClass) -> ClassPart
    ensures { result ≡ rule.head_part class }
{
    match class {
        HeadClass::Known(class) => ClassPart::Class(class),
        HeadClass::Unknown => ClassPart::Untyped,
        HeadClass::Missing => ClassPart::Missing,
    }
}

/// The class that is looked for.
fn looked_for(x: &Context<'_>, word: ResolveWord, within: Within, filter: Filtered) -> ClassPart
    ensures { result ≡ rule.looked_for (seen x.now) word within filter }
{
    match (within, filter) {
        (Within::Nobody, _) => ClassPart::Untyped,
        (Within::Everywhere, Filtered::By(class)) => class,
        (Within::In(_), Filtered::By(class)) => class,
        (Within::Everywhere, Filtered::NoFilter) => ClassPart::Missing,
        (Within::In(number), Filtered::NoFilter) => {
            let none = no_unit(x.alloc);
            let unit = unit_at(x.heads.units, number, &none);
            class_within(word, head_part(unit.result), head_part(unit.context))
        }
    }
}

/// Tells that `late` stands where it may not.
fn tell_late(
    allowed: bool,
    late: bool,
    read: &Read,
    place: Place,
    state: &mut TypingState,
) -> Result<(), ListFault>
    ensures { GivesAndLeaves (rule.late_told allowed late read.now place state.old) result state.new }
{
    if read.answer.is_some() && late && !allowed {
        tell(RefusalKind::LatePlace, place, state)
    } else {
        Ok(())
    }
}

/// A resolve whose mapping and filter are judged: how it stands to its source, and its word.
#[derive(Clone, Copy)]
pub struct Resolving<'a> {
    pub allowed: bool,
    pub late: bool,
    pub joint: Joint,
    pub word: ResolveWord,
    pub source: &'a Option<Ty>,
}

/// Settles a resolve whose mapping and filter are judged.
pub fn resolve_settled(
    x: &Context<'_>,
    call: &Resolving<'_>,
    within: Within,
    filter: Filtered,
    place: Place,
    state: &mut TypingState,
) -> Result<Read, ListFault>
    ensures { GivesAndLeaves (rule.resolve_ruled (seen x.now) call.now.allowed call.now.late call.now.joint call.now.word call.now.source.now (rule.looked_for (seen x.now) call.now.word within filter) place state.old) result state.new }
{
    let class = looked_for(x, call.word, within, filter);
    let ruling = ruling_of::resolve(x.alloc, call.joint, call.word, call.source, class)?;
    let read = settled(ruling, place, state)?;
    tell_effect(x, Effect::PureOne, &read, place, state)?;
    tell_late(call.allowed, call.late, &read, place, state)?;
    Ok(read)
}
