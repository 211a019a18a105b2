//! Which operands are invalid or null, and which may be.

ghost use Rattle.std.specs.Prelude.{◌≡◌, ◌∷◌};
ghost use Rattle.std.specs.List.{find, list_any};
ghost use Rattle.std.specs.Option.{option_copied};
ghost use Rattle.qvt_value.specs.Make.{is_invalid};
ghost use Rattle.qvt_ocl_words.specs.Lists.{is_null};
ghost use Rattle.qvt_ocl_words.specs.Operation.{takes_item, besides_items, lacks_operand, is_test, is_equality};

use qvt_ocl_lists::items::{has_null, is_null};
use qvt_ocl_words::op::Op;
use qvt_value::value::Value;

/// Whether the argument is an item of any sort, and not a place or a collection.
pub fn takes_item(op: Op) -> bool
    ensures { result ≡ takes_item op }
{
    match op {
        Op::Includes => true,
        Op::Excludes => true,
        Op::Count => true,
        Op::Including => true,
        Op::Excluding => true,
        Op::IndexOf => true,
        Op::Append => true,
        Op::Prepend => true,
        _ => false,
    }
}

/// Whether an argument is null that may not be, where the source is a collection.
pub fn lacks_argument(op: Op, args: &[Value]) -> bool
    ensures { result ≡ list_any is_null (besides_items op args.now) }
{
    match op {
        Op::InsertAt => match args {
            [] => false,
            [place, _, rest @ ..] => is_null(place) || has_null(rest),
            [place] => is_null(place),
        },
        _ => match args {
            [] => false,
            [first, rest @ ..] => {
                if takes_item(op) {
                    has_null(rest)
                } else {
                    is_null(first) || has_null(rest)
                }
            }
        },
    }
}

/// Whether the source is null, or an argument that may not be.
pub fn lacks_operand(op: Op, source: &Value, args: &[Value]) -> bool
    ensures { result ≡ lacks_operand op source.now args.now }
{
    match source {
        Value::Null => true,
        Value::Coll(_, _) => lacks_argument(op, args),
        _ => has_null(args),
    }
}

/// Whether the value is invalid.
pub fn is_invalid(value: &Value) -> bool
    ensures { result ≡ is_invalid value.now }
{
    matches!(value, Value::Invalid(_, _))
}

/// The first invalid argument.
pub fn invalid_in(args: &[Value]) -> Option<&Value>
    ensures { option_copied result ≡ find is_invalid args.now }
{
    for arg in args {
        if is_invalid(arg) {
            return Some(arg);
        }
    }
    None
}

/// The first invalid operand.
pub fn first_invalid<'a>(source: &'a Value, args: &'a [Value]) -> Option<&'a Value>
    ensures { option_copied result ≡ find is_invalid (source.now ∷ args.now) }
{
    if is_invalid(source) {
        return Some(source);
    }
    invalid_in(args)
}

/// Whether the operation is one of the tests that read any value, invalid ones too.
pub fn is_test(op: Op) -> bool
    ensures { result ≡ is_test op }
{
    matches!(op, Op::IsUndefined | Op::IsInvalid)
}

/// Whether the operation compares its operands, null ones too.
pub fn is_equality(op: Op) -> bool
    ensures { result ≡ is_equality op }
{
    matches!(op, Op::Equal | Op::NotEqual)
}
