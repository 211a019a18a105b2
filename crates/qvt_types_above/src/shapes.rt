//! Units that take and answer the same.

ghost use Rattle.std.specs.Prelude.{◌≡◌, ◌&&◌};
ghost use Rattle.qvt_types_above.specs.Shapes as shapes;

use qvt_types_data::ty::{Ty, same};
use qvt_types_groups::signature::{Signature, UnitSort};

/// Whether both are helpers, queries or mappings.
pub fn same_sort(one: UnitSort, other: UnitSort) -> bool
    ensures { result ≡ shapes.same_sort one other }
{
    match (one, other) {
        (UnitSort::Helper, UnitSort::Helper) => true,
        (UnitSort::Query, UnitSort::Query) => true,
        (UnitSort::Mapping(_), UnitSort::Mapping(_)) => true,
        _ => false,
    }
}

fn same_answer(one: &Option<Ty>, other: &Option<Ty>) -> bool
    ensures { result ≡ shapes.same_answer one.now other.now }
{
    match one {
        None => match other {
            None => true,
            Some(_) => false,
        },
        Some(one) => match other {
            None => false,
            Some(other) => same(one, other),
        },
    }
}

/// Whether two lists of types are the same.
pub fn same_types(some: &[Option<Ty>], others: &[Option<Ty>]) -> bool
    ensures { result ≡ shapes.same_types some.now others.now }
{
    if some.len() != others.len() {
        return false;
    }
    for (place, one) in some.iter().enumerate() {
        if !same_answer(one, &others[place]) {
            return false;
        }
    }
    true
}

/// Whether the parameters and answers are the same, and both are helpers, queries or mappings.
#[tactic(auto, unfolding(crate::specs::Shapes::same_shape))]
pub fn same_shape(one: &Signature, other: &Signature) -> bool
    ensures { result ≡ shapes.same_shape one.now other.now }
{
    same_sort(one.sort, other.sort)
        && same_types(one.params.as_slice(), other.params.as_slice())
        && same_answer(&one.answer, &other.answer)
}
