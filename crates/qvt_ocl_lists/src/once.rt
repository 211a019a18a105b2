//! What joins a list of which each item is kept where it first stands.

ghost use Rattle.std.specs.Prelude.{◌≡◌, ◌++◌, true, false, IfOk, MatchOption};
ghost use Rattle.qvt_value.specs.declared.value.Value.{Value};
ghost use Rattle.qvt_value.specs.Kept.{firsts};
ghost use Rattle.qvt_value.specs.Order.{order_of};
ghost use Rattle.qvt_ocl_words.specs.Lists.{same, has, lacking};
ghost use Rattle.qvt_repeats.specs.Repeats.{repeats_by};

use crate::items::with_last_if;
use crate::lookup::Lookup;
use qvt_base::list_fault::ListFault;
use qvt_base::seq::Seq;
use qvt_value::value::{Value, Values};
use std::alloc::Global;

/// The values of the list, with room for so many, or None where an item equals an earlier one.
fn of_different<'a>(
    alloc: Global,
    room: usize,
    items: &'a [Value],
) -> Result<Option<Lookup<'a>>, ListFault>
    ensures { IfOk result (λ o. MatchOption o (repeats_by same items.now ≡ true) (λ all. (repeats_by same items.now ≡ false) × ((x : Value) → has all x ≡ has items.now x))) }
{
    let mut all = Lookup::with_room(alloc, room)?;
    for item in items {
        let is_new = all.note(item)?;
        if !is_new {
            return Ok(None);
        }
    }
    Ok(Some(all))
}

/// Copies of the values that are not known yet, each where it first stands.
fn unknown<'a>(
    alloc: Global,
    known: &mut Lookup<'a>,
    values: &'a [Value],
) -> Result<Values, ListFault>
    ensures { IfOk result (λ fresh. fresh ≡ lacking known.old (firsts order_of values.now)) }
{
    let mut fresh = Seq::new(alloc);
    for value in values {
        let is_new = known.note(value)?;
        fresh = with_last_if(alloc, fresh, is_new, value)?;
    }
    Ok(fresh)
}

/// Copies of the values that join the items, where each is to be kept where it first stands: those that equal no item and no
/// earlier value. None where an item equals an earlier one. Each item and each value is looked up once.
#[tactic(auto, using(crate::proofs::Joined::joined))]
pub fn joining(
    alloc: Global,
    items: &[Value],
    values: &[Value],
) -> Result<Option<Values>, ListFault>
    ensures { IfOk result (λ o. MatchOption o (repeats_by same items.now ≡ true) (λ fresh. items.now ++ fresh ≡ firsts order_of (items.now ++ values.now))) }
{
    let room = items.len().saturating_add(values.len());
    match of_different(alloc, room, items)? {
        None => Ok(None),
        Some(all) => {
            let mut known = all;
            let fresh = unknown(alloc, &mut known, values)?;
            Ok(Some(fresh))
        }
    }
}
