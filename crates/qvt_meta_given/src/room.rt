//! Whether the numbers fit 32 bits when classes come after metamodels.

ghost use Rattle.std.specs.Prelude.{◌≡◌, ◌+◌, ◌<◌};
ghost use Rattle.qvt_metas.specs.Extended.{given_count};
ghost use Rattle.qvt_meta_given.specs.Given.{fits, has_room_for};

use qvt_metas::given::ClassData;
use qvt_metas::metas::Metas;

/// Whether the features of the classes, numbered from this one on, have numbers of 32 bits.
fn fit_from(start: u32, classes: &[ClassData]) -> bool
    ensures { result ≡ fits (start + given_count classes.now) }
{
    let mut next = start;
    for class in classes {
        let count = class.features.len();
        if count > (u32::MAX - next) as usize {
            return false;
        }
        next += count as u32;
    }
    true
}

/// Whether the numbers still fit 32 bits when these classes come.
pub fn has_room_for(metas: &Metas, classes: &[ClassData]) -> bool
    ensures { result ≡ has_room_for metas.now classes.now }
{
    let before = metas.class_count();
    let features = metas.feature_infos().len() as u32;
    metas.metamodel_count() < u32::MAX
        && classes.len() < (u32::MAX - before) as usize
        && fit_from(features, classes)
}
