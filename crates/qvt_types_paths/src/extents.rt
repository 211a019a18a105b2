//! The extents in which objects are made.

ghost use Rattle.std.specs.Prelude.{◌≡◌};
ghost use Rattle.qvt_types_paths.specs.Models as models;

use crate::models::{ModelRow, Models, takes};
use qvt_base::text::Text;

/// The extent of the parameter at this place, where objects of the metamodel can be made in it.
fn row_extent(rows: &[ModelRow], metamodel: u32, place: Option<u32>) -> Option<u32>
    ensures { result ≡ models.row_extent rows.now metamodel place }
{
    let Some(place) = place else {
        return None;
    };
    let at = place as usize;
    if at < rows.len() && takes(metamodel, rows[at]) {
        Some(place)
    } else {
        None
    }
}

/// The extent in which an object of a class of the metamodel is made, where a name may stand after `@`. None is BadExtent. The
/// metamodel `last` is that of the intermediate classes and of Element.
pub fn extent(params: &Models, last: u32, name: &Option<Text>, metamodel: u32) -> Option<u32>
    ensures { result ≡ models.extent params.now last name.now metamodel }
{
    match name {
        Some(name) => {
            if metamodel == last {
                return None;
            }
            let place = params.names.place(name.as_str());
            row_extent(params.rows.as_slice(), metamodel, place)
        }
        None => {
            if metamodel == last {
                return Some(params.names.count());
            }
            let at = metamodel as usize;
            let firsts = params.firsts.as_slice();
            if at < firsts.len() { firsts[at] } else { None }
        }
    }
}
