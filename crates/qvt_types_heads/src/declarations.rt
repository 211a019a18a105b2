//! What the heads of a transformation declare, with what it is looked up by.

ghost use Rattle.std.specs.Prelude.{◌≡◌};
ghost use Rattle.qvt_types_context.specs.Seen.{heads_seen};
ghost use Rattle.qvt_types_heads.specs.Heads.{heads_over};

use qvt_base::seq::Seq;
use qvt_types_context::context::Heads;
use qvt_types_lists::units::Units;
use qvt_types_paths::metas::Metas;
use qvt_types_paths::model_types::TypeNames;
use qvt_types_paths::models::Models;

/// What the heads of a transformation declare.
pub struct Declarations {
    pub types: TypeNames,
    pub models: Models,
    /// The metamodels with Element and the intermediate classes, and the units by their names.
    pub units: Units,
    /// The number of the first feature of an intermediate class.
    pub first: u32,
    /// Which features of intermediate classes have a type, from the first on.
    pub typed: Seq<bool>,
}

impl Drop for Declarations {
    fn drop(self) {
        let Declarations {
            types,
            models,
            units,
            first,
            typed,
        } = self;
    }
}

/// Lends it, with the metamodels of the job.
pub fn lent<'a>(declared: &'a Declarations, given: &'a Metas) -> Heads<'a>
    ensures { heads_seen result ≡ heads_over given.now declared.now }
{
    Heads {
        given,
        types: &declared.types,
        models: &declared.models,
        units: &declared.units,
        first: declared.first,
        typed: declared.typed.as_slice(),
    }
}
