//! The place of the first expression of each number.

ghost use Rattle.std.specs.Prelude.{◌≡◌, ◌==◌, ◌<◌, ℕ, Some, None, length, if◌then◌else◌, IfOk, OnOk};
ghost use Rattle.std.specs.Option.{option_or};
ghost use Rattle.qvt_program_exprs.specs.Index.{IsExprIndex, numbered_so, place_under};
ghost use Rattle.qvt_program_exprs.specs.Listing.{listed_view, listing};

use crate::listed::ListedExpr;
use crate::numbers::number_of;
use qvt_base::list_fault::ListFault;
use qvt_base::seq::Seq;
use std::alloc::Global;

/// Places by number.
pub type PlaceList = Seq<Option<u32>>;

/// The place that stands under a number.
pub fn place_under(places: &[Option<u32>], number: u32) -> Option<u32>
    ensures { result ≡ place_under places.now number }
{
    let at = number as usize;
    if at < places.len() { places[at] } else { None }
}

/// Makes room for a number.
fn grow(places: &mut PlaceList, number: u32) -> Result<(), ListFault>
    ensures same { OnOk result ((n : ℕ) → place_under places.new n ≡ place_under places.old n) }
    ensures room { OnOk result (number < length places.new) }
{
    while places.len() <= number as usize {
        places.push(None)?;
    }
    Ok(())
}

/// Enters a place under a number, unless one stands there.
fn enter(places: &mut PlaceList, number: u32, place: u32) -> Result<(), ListFault>
    ensures { OnOk result ((n : ℕ) → place_under places.new n ≡ option_or (place_under places.old n) (if number == n then Some place else None)) }
{
    grow(places, number)?;
    if place_under(places.as_slice(), number).is_none() {
        places.set(number as usize, Some(place));
    }
    Ok(())
}

/// Enters the place of an expression.
fn enter_expr(places: &mut PlaceList, place: u32, expr: &ListedExpr<'_>) -> Result<(), ListFault>
    ensures { OnOk result ((n : ℕ) → place_under places.new n ≡ option_or (place_under places.old n) (if numbered_so n (listed_view expr.now) then Some place else None)) }
{
    match number_of(expr.expr) {
        None => Ok(()),
        Some(number) => enter(places, number.0, place),
    }
}

/// For each number the place of the first of as many expressions that has it.
fn first_places(alloc: Global, all: &[ListedExpr<'_>], count: u32) -> Result<PlaceList, ListFault>
    requires { length all.now ≡ count }
    ensures { IfOk result (λ ps. IsExprIndex (listing all.now) ps) }
{
    let mut places = Seq::new(alloc);
    for place in 0..count {
        enter_expr(&mut places, place, &all[place as usize])?;
    }
    Ok(places)
}

/// The same of any number of expressions. It is refused as out of memory where that does not fit 32 bits.
pub fn places_of(alloc: Global, all: &[ListedExpr<'_>]) -> Result<PlaceList, ListFault>
    ensures { IfOk result (λ ps. IsExprIndex (listing all.now) ps) }
{
    let Ok(count) = u32::try_from(all.len()) else {
        return Err(ListFault::NoMemory);
    };
    first_places(alloc, all, count)
}
