//! Units of which one asks of those that override it all that another asks of them.

ghost use Rattle.std.specs.Prelude.{◌≡◌, ◌&&◌, not};
ghost use Rattle.qvt_types_above.specs.Covers as covers;

use crate::shapes::same_sort;
use qvt_types_data::ty::Ty;
use qvt_types_groups::overrides::is_misfit;
use qvt_types_groups::signature::Signature;
use qvt_types_paths::metas::Metas;

/// Whether the first type is known where the second is.
fn knows(one: &Option<Ty>, other: &Option<Ty>) -> bool
    ensures { result ≡ covers.knows one.now other.now }
{
    match one {
        Some(_) => true,
        None => match other {
            None => true,
            Some(_) => false,
        },
    }
}

fn know_all(some: &[Option<Ty>], others: &[Option<Ty>]) -> bool
    ensures { result ≡ covers.know_all some.now others.now }
{
    if some.len() != others.len() {
        return false;
    }
    for (place, one) in some.iter().enumerate() {
        if !knows(one, &others[place]) {
            return false;
        }
    }
    true
}

/// Whether the first unit fits the second, and its types are known where those of the second are. A unit that does not fit the second
/// then does not fit the first.
#[tactic(auto, unfolding(crate::specs::Covers::covers))]
fn covers(metas: &Metas, one: &Signature, other: &Signature) -> bool
    ensures { result ≡ covers.covers metas.now one.now other.now }
{
    same_sort(one.sort, other.sort)
        && !is_misfit(metas, one, other)
        && know_all(one.params.as_slice(), other.params.as_slice())
        && knows(&one.answer, &other.answer)
}

/// The same of two units by their numbers.
pub fn covers_at(metas: &Metas, units: &[Signature], one: u32, other: u32) -> bool
    ensures { result ≡ covers.covers_at metas.now units.now one other }
{
    let at = one as usize;
    let beside = other as usize;
    at < units.len() && beside < units.len() && covers(metas, &units[at], &units[beside])
}
