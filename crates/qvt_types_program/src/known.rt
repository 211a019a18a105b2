//! The metamodels of models.

ghost use Rattle.std.specs.Prelude.{◌≡◌};
ghost use Rattle.qvt_types_program.specs.Known.{known};

/// The number of a metamodel; 0 where it is not known.
pub fn known(metamodel: Option<u32>) -> u32
    ensures { result ≡ known metamodel }
{
    match metamodel {
        None => 0,
        Some(number) => number,
    }
}
