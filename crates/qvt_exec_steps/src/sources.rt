//! What steps behind an arrow go over.

ghost use Rattle.std.specs.Prelude.{◌≡◌, IfOk};
ghost use Rattle.qvt_run_rules.specs.Sources.{before_arrow};
ghost use Rattle.qvt_exec_types.specs.StepTypes.{kind_before};
ghost use Rattle.qvt_exec_types.specs.Post.{post_of, type_at};

use qvt_base::list_fault::ListFault;
use qvt_base::numbers::Place;
use qvt_base::text::Text;
use qvt_exec_leaves::sources::before_arrow;
use qvt_exec_types::before::Before;
use qvt_ocl_lists::items::is_null;
use qvt_value::value::{Kind, Value};
use std::alloc::Global;

/// The name of the variable of an iterator, if it has one, and the place of the iterator.
#[derive(Clone, Copy)]
pub struct Iteration<'a> {
    pub name: Option<&'a Text>,
    pub place: Place,
}

/// What an arrow goes over. The type before the step is asked for where the value is null alone.
#[inline(never)]
pub fn arrow_source(
    alloc: Global,
    before: &mut Before<'_>,
    index: usize,
    wrap: bool,
    value: Value,
) -> Result<Value, ListFault>
    ensures same { post_of before.new ≡ post_of before.old }
    ensures source { IfOk result (λ source. source ≡ before_arrow wrap (kind_before (type_at (post_of before.old) index)) value) }
{
    let kind = if is_null(&value) {
        before.kind(alloc, index)?
    } else {
        Kind::Set
    };
    before_arrow(alloc, wrap, kind, value)
}
