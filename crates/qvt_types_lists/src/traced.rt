//! The names of mappings in traces.

ghost use Rattle.std.specs.Prelude.{◌≡◌, ◌++◌, codes, IfOk};
ghost use Rattle.qvt_types_groups.specs.Units as units_told;

use qvt_base::list_fault::ListFault;
use qvt_base::text::Text;
use qvt_types_groups::signature::HeadClass;
use qvt_types_paths::metas::Metas;
use std::alloc::Global;

/// A name behind another.
fn behind(alloc: Global, front: &str, name: &str) -> Result<Text, ListFault>
    ensures { IfOk result (λ t. t ≡ front.now ++ codes "::" ++ name.now) }
{
    let mut path = Text::from_str(alloc, front)?;
    path.push_str("::")?;
    path.push_str(name)?;
    Ok(path)
}

/// The path behind the name of a metamodel, if it has one.
fn qualified(alloc: Global, metamodel: &str, path: Text) -> Result<Text, ListFault>
    ensures { IfOk result (λ t. t ≡ units_told.qualified metamodel.now path) }
{
    if metamodel.is_empty() {
        return Ok(path);
    }
    behind(alloc, metamodel, path.as_str())
}

/// The name of a mapping as a trace has it: metamodel, class and name. A class beside the metamodels has no metamodel's name.
pub fn traced_name(
    alloc: Global,
    metas: &Metas,
    context: HeadClass,
    name: &str,
) -> Result<Text, ListFault>
    ensures { IfOk result (λ t. t ≡ units_told.traced_name metas.now context name.now) }
{
    match context {
        HeadClass::Missing => Text::from_str(alloc, name),
        HeadClass::Unknown => Text::from_str(alloc, name),
        HeadClass::Known(class) => {
            let path = behind(alloc, metas.class_name(class), name)?;
            qualified(alloc, metas.metamodel_name(metas.metamodel_of(class)), path)
        }
    }
}
