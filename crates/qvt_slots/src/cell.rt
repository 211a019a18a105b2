ghost use Rattle.std.specs.Prelude.{◌≡◌, ◌&&◌, not};

use qvt_base::numbers::{ClassNo, FeatureNo, Oid};
use qvt_value::value::Values;

/// The containment slot that an object stands in.
#[derive(Clone, Copy)]
pub struct Holder {
    pub object: Oid,
    pub feature: FeatureNo,
}

/// What is known of all slots. Where a mark is not set, nothing is known.
#[derive(Clone, Copy)]
pub struct Marks {
    /// No unique slot holds a value twice.
    pub distinct: bool,
    /// No slot of a model holds an object of another extent.
    pub own: bool,
}

/// An object with its slots, in the order of the features of its class.
pub struct Cell {
    pub class: ClassNo,
    pub extent: u32,
    pub slots: Vec<Values>,
    pub holder: Option<Holder>,
}

impl Drop for Cell {
    fn drop(self) {
        let Cell {
            class,
            extent,
            slots,
            holder,
        } = self;
    }
}

/// What is known where one more slot gets a list, which crosses to another extent or does not, and
/// holds a value twice in a unique slot or does not.
pub fn marks_placed(marks: Marks, crosses: bool, twice: bool) -> Marks
    ensures distinct { result.distinct ≡ (marks.distinct && not twice) }
    ensures own { result.own ≡ (marks.own && not crosses) }
{
    Marks {
        distinct: marks.distinct && !twice,
        own: marks.own && !crosses,
    }
}
