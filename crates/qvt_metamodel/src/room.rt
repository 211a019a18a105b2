//! Whether the numbers of a metamodel fit 32 bits.

ghost use Rattle.std.specs.Prelude.{◌≡◌, ◌<◌, ◌≤◌, ◌^◌, length, IfSome, IsNone, IsTrue};
ghost use Rattle.qvt_metamodel.specs.Added.{feature_count};

use crate::declared::DeclaredClass;
use crate::info::EnumInfo;

/// How many features the classes declare, None where the number does not fit 32 bits.
fn feature_total(classes: &[DeclaredClass]) -> Option<u32>
    ensures some { IfSome result (λ n. n ≡ feature_count classes.now) }
    ensures none { IsNone result → 2 ^ 32 ≤ feature_count classes.now }
{
    let mut total: u32 = 0;
    for class in classes {
        let Ok(count) = u32::try_from(class.features.len()) else {
            return None;
        };
        let Some(sum) = total.checked_add(count) else {
            return None;
        };
        total = sum;
    }
    Some(total)
}

/// Whether all numbers of a metamodel fit 32 bits.
pub fn has_room(enums: &[EnumInfo], classes: &[DeclaredClass]) -> bool
    ensures enums { IsTrue result → length enums.now < 2 ^ 32 }
    ensures classes { IsTrue result → length classes.now < 2 ^ 32 }
    ensures features { IsTrue result → feature_count classes.now < 2 ^ 32 }
    ensures full { length enums.now < 2 ^ 32 → length classes.now < 2 ^ 32 → feature_count classes.now < 2 ^ 32 → IsTrue result }
{
    let few_enums = u32::try_from(enums.len()).is_ok();
    let few_classes = u32::try_from(classes.len()).is_ok();
    few_enums && few_classes && feature_total(classes).is_some()
}
