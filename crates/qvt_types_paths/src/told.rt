//! Refusals that are told of the nodes of a tree.

ghost use Rattle.std.specs.Prelude.{◌≡◌, ◌++◌, OnOk};
ghost use Rattle.qvt_types_paths.specs.Told as told;

use qvt_base::list_fault::ListFault;
use qvt_base::numbers::Place;
use qvt_base::seq::Seq;
use qvt_types_data::refusal::{RefusalKind, TypingRefusal};

/// Refusals, in the order in which they were told.
pub type RefusalList = Seq<TypingRefusal>;

/// Tells a refusal last, where something is wrong.
pub fn tell_if(
    log: &mut RefusalList,
    is_wrong: bool,
    kind: RefusalKind,
    place: Place,
) -> Result<(), ListFault>
    ensures { OnOk result (log.new ≡ log.old ++ told.told_if is_wrong kind place) }
{
    if is_wrong {
        return log.push(TypingRefusal { kind, place });
    }
    Ok(())
}
