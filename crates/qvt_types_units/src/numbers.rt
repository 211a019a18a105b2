//! What units are by their sorts and contexts, and the one that stands for none.

ghost use Rattle.std.specs.Prelude.{◌≡◌};
ghost use Rattle.qvt_types_units.specs.Numbers as numbers;

use crate::signature::{HeadClass, Signature, UnitSort};
use qvt_base::numbers::{ClassNo, Place};
use qvt_base::seq::Seq;
use qvt_base::text::Text;
use qvt_types_data::ty::Ty;
use std::alloc::Global;

/// The signature that stands for none.
pub fn no_unit(alloc: Global) -> Signature
    ensures { result ≡ numbers.no_unit }
{
    Signature {
        sort: UnitSort::Main,
        name: Text::new(alloc),
        context: HeadClass::Missing,
        params: Seq::new(alloc),
        answer: Some(Ty::Void),
        result: HeadClass::Missing,
        place: Place {
            line: 1,
            column: 1,
            offset: 0,
        },
    }
}

pub fn is_mapping(sort: UnitSort) -> bool
    ensures { result ≡ numbers.is_mapping sort }
{
    match sort {
        UnitSort::Mapping(_) => true,
        _ => false,
    }
}

/// Whether it is a helper or a query: these are called alike.
pub fn is_helper(sort: UnitSort) -> bool
    ensures { result ≡ numbers.is_helper sort }
{
    match sort {
        UnitSort::Helper => true,
        UnitSort::Query => true,
        _ => false,
    }
}

pub fn is_constructor(sort: UnitSort) -> bool
    ensures { result ≡ numbers.is_constructor sort }
{
    match sort {
        UnitSort::Constructor => true,
        _ => false,
    }
}

pub fn is_main(sort: UnitSort) -> bool
    ensures { result ≡ numbers.is_main sort }
{
    match sort {
        UnitSort::Main => true,
        _ => false,
    }
}

/// Whether the context is this class.
pub fn is_context(context: HeadClass, class: ClassNo) -> bool
    ensures { result ≡ numbers.is_context context class.0 }
{
    match context {
        HeadClass::Missing => false,
        HeadClass::Unknown => false,
        HeadClass::Known(other) => other.0 == class.0,
    }
}

pub fn has_context(context: HeadClass) -> bool
    ensures { result ≡ numbers.has_context context }
{
    match context {
        HeadClass::Missing => false,
        HeadClass::Unknown => true,
        HeadClass::Known(_) => true,
    }
}
