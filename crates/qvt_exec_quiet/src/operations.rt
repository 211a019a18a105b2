//! Which names behind an arrow are operations.

ghost use Rattle.std.specs.Prelude.{◌≡◌};
ghost use Rattle.qvt_exec_quiet.specs.Operations as operations;

use qvt_base::text::Text;
use qvt_ocl_words::op::Op;
use qvt_types_steps::classes::is_selection;
use qvt_types_steps::iterators::iterator_named;
use qvt_types_words::operation_names::operation_named;

/// The operation that a name is: it is no selection and no iterator.
pub fn operation_alone(name: &Text) -> Option<Op>
    ensures { result ≡ operations.operation_alone name.now }
{
    if is_selection(name.as_str()) {
        return None;
    }
    match iterator_named(name.as_str()) {
        Some(_) => None,
        None => operation_named(name.as_str()),
    }
}
