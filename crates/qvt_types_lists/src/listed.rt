//! The mappings that paths name, in a list of a mapping or in a resolve.

ghost use Rattle.std.specs.Prelude.{◌≡◌};
ghost use Rattle.qvt_types_paths.specs.Paths as paths;
ghost use Rattle.qvt_types_groups.specs.Reuse as reuse;

use qvt_base::numbers::ClassNo;
use qvt_base::text::Text;
use qvt_types_data::refusal::RefusalKind;
use qvt_types_groups::signatures::{front_of, last_of};
use qvt_types_groups::unit_names::UnitNames;
use qvt_types_paths::metas::Metas;
use qvt_types_paths::model_types::TypeNames;
use qvt_types_paths::paths::path_class;

fn or_unknown(number: Option<u32>) -> Result<u32, RefusalKind>
    ensures { result ≡ reuse.or_unknown number }
{
    match number {
        None => Err(RefusalKind::UnknownName),
        Some(number) => Ok(number),
    }
}

fn unless_ambiguous(kind: RefusalKind) -> RefusalKind
    ensures { result ≡ paths.unless_ambiguous kind }
{
    match kind {
        RefusalKind::Ambiguous => RefusalKind::Ambiguous,
        _ => RefusalKind::UnknownName,
    }
}

fn mapping_of(
    units: &UnitNames,
    name: &str,
    class: Result<ClassNo, RefusalKind>,
) -> Result<u32, RefusalKind>
    ensures { result ≡ reuse.mapping_of units.now name.now class }
{
    match class {
        Ok(class) => or_unknown(units.mapping_named(class, name)),
        Err(kind) => Err(unless_ambiguous(kind)),
    }
}

fn mapping_under(
    metas: &Metas,
    names: &TypeNames,
    units: &UnitNames,
    name: &str,
    front: &[Text],
) -> Result<u32, RefusalKind>
    ensures { result ≡ reuse.mapping_under metas.now names.now units.now name.now front.now }
{
    if front.len() == 0 {
        or_unknown(units.free_unit(true, name))
    } else {
        mapping_of(units, name, path_class(metas, names, front))
    }
}

/// The unit that the path names: the mapping of exactly this context and name, or UnknownName or Ambiguous.
#[tactic(auto, unfolding(qvt_types_units::specs::Reuse::listed))]
pub fn listed(
    metas: &Metas,
    names: &TypeNames,
    units: &UnitNames,
    path: &[Text],
) -> Result<u32, RefusalKind>
    ensures { result ≡ reuse.listed metas.now names.now units.now path.now }
{
    mapping_under(metas, names, units, last_of(path), front_of(path))
}
