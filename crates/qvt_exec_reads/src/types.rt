//! Values of the types of a program, over a store (OCL 2.4, 8.2).

ghost use Rattle.std.specs.Prelude.{◌≡◌};
ghost use Rattle.qvt_types_data.specs.Term.{ty_view};
ghost use Rattle.qvt_run_rules.specs.Typed.{has_type, is_sure};

use qvt_checks::conditions::{is_bool, is_instance, is_int, is_literal, is_text};
use qvt_checks::store::Store;
use qvt_ocl::kinds::same_kind;
use qvt_ocl_lists::items::is_null;
use qvt_types_data::kinds::kind_of;
use qvt_types_data::ty::Ty;
use qvt_value::value::Value;

/// Whether the value is of the type and not null. Every object in it is then there.
fn is_sure(store: &Store, of: &Ty, value: &Value) -> bool
    ensures { result ≡ is_sure store.now (ty_view of.now) value.now }
{
    match of {
        Ty::Void => false,
        Ty::Boolean => is_bool(value),
        Ty::Integer => is_int(value),
        Ty::Str => is_text(value),
        Ty::Enum(metamodel, enumeration) => {
            is_literal(store.metas(), *metamodel, *enumeration, value)
        }
        Ty::Class(class) => is_instance(store, *class, value),
        Ty::Coll(kind, of_items) => {
            let Value::Coll(own, items) = value else {
                return false;
            };
            if !same_kind(*own, kind_of(*kind)) {
                return false;
            }
            for item in items.as_slice() {
                if !is_null(item) && !is_sure(store, of_items.get(), item) {
                    return false;
                }
            }
            true
        }
    }
}

/// Whether the value is of the type: null is of every type, and what is invalid of none.
#[tactic(auto, unfolding(qvt_run_rules::specs::Typed::has_type))]
pub fn has_type(store: &Store, of: &Ty, value: &Value) -> bool
    ensures { result ≡ has_type store.now of.now value.now }
{
    is_null(value) || is_sure(store, of, value)
}
