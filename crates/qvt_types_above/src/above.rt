//! What is told of units of a name by few of them, which ask of those that override them all that the others ask.

ghost use Rattle.std.specs.Prelude.{◌≡◌, [], slice_index_or};
ghost use Rattle.qvt_types_above.specs.Above as above;

use crate::covers::covers_at;
use qvt_base::numbers::ClassNo;
use qvt_base::seq::Seq;
use qvt_types_groups::signature::Signature;
use qvt_types_paths::metas::Metas;

/// What is told of units.
#[derive(Clone, Copy)]
pub enum Above {
    /// Nothing is told.
    Untold,
    /// There are none.
    Nothing,
    /// This unit asks all that any of them asks.
    Least(u32),
    /// What any of them asks one of these two asks.
    Both(u32, u32),
    /// What any of them asks one of the list at this place asks.
    Listed(u32),
}

/// What is told of each class by its number.
pub type AboveRow = Seq<Above>;

/// Of two units the one that asks all that the other asks, or both.
fn lower_of(metas: &Metas, units: &[Signature], one: u32, other: u32) -> Above
    ensures { result ≡ above.lower_of metas.now units.now one other }
{
    if covers_at(metas, units, one, other) {
        Above::Least(one)
    } else if covers_at(metas, units, other, one) {
        Above::Least(other)
    } else {
        Above::Both(one, other)
    }
}

/// Of a unit more and two others, of which none asks all that the other asks.
fn beside_two(metas: &Metas, units: &[Signature], first: u32, second: u32, number: u32) -> Above
    ensures { result ≡ above.beside_two metas.now units.now first second number }
{
    if covers_at(metas, units, first, number) || covers_at(metas, units, second, number) {
        Above::Both(first, second)
    } else if covers_at(metas, units, number, first) {
        if covers_at(metas, units, number, second) {
            Above::Least(number)
        } else {
            Above::Both(number, second)
        }
    } else if covers_at(metas, units, number, second) {
        Above::Both(first, number)
    } else {
        Above::Untold
    }
}

/// A unit more beside what is told.
fn with_one(metas: &Metas, units: &[Signature], told: Above, number: u32) -> Above
    ensures { result ≡ above.with_one metas.now units.now told number }
{
    match told {
        Above::Untold => Above::Untold,
        Above::Nothing => Above::Least(number),
        Above::Least(least) => lower_of(metas, units, least, number),
        Above::Both(first, second) => beside_two(metas, units, first, second, number),
        Above::Listed(_) => Above::Untold,
    }
}

/// A list more beside what is told.
fn with_list(told: Above, place: u32) -> Above
    ensures { result ≡ above.with_list told place }
{
    match told {
        Above::Untold => Above::Untold,
        Above::Nothing => Above::Listed(place),
        Above::Least(_) => Above::Untold,
        Above::Both(_, _) => Above::Untold,
        Above::Listed(other) => {
            if other == place {
                Above::Listed(place)
            } else {
                Above::Untold
            }
        }
    }
}

/// What two tellings tell together, where that is told by as little.
pub fn combined(metas: &Metas, units: &[Signature], one: Above, other: Above) -> Above
    ensures { result ≡ above.combined metas.now units.now one other }
{
    match other {
        Above::Untold => Above::Untold,
        Above::Nothing => one,
        Above::Least(number) => with_one(metas, units, one, number),
        Above::Both(first, second) => {
            let told = with_one(metas, units, one, first);
            with_one(metas, units, told, second)
        }
        Above::Listed(place) => with_list(one, place),
    }
}

/// What is told of a class.
pub fn above_at(row: &[Above], class: u32) -> Above
    ensures { result ≡ above.above_at row.now class }
{
    let at = class as usize;
    if at < row.len() {
        row[at]
    } else {
        Above::Untold
    }
}

/// What is told together already and of these classes.
pub fn from_all(
    metas: &Metas,
    units: &[Signature],
    row: &[Above],
    told: Above,
    classes: &[ClassNo],
) -> Above
    ensures { result ≡ above.from_all metas.now units.now row.now told classes.now }
{
    let mut all = told;
    for class in classes {
        all = combined(metas, units, all, above_at(row, class.0));
    }
    all
}

/// The units of a list.
pub fn list_at(lists: &[Seq<u32>], place: u32) -> &[u32]
    ensures { result.now ≡ slice_index_or lists.now place [] }
{
    let at = place as usize;
    if at < lists.len() {
        lists[at].as_slice()
    } else {
        &[]
    }
}
