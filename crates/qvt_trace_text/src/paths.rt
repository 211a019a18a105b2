//! The names of mappings, classes and literals in a trace.

ghost use Rattle.std.specs.Prelude.{◌≡◌, IfOk};
ghost use Rattle.qvt_meaning_report.specs.TraceText.{class_path, literal_path, mapping_path, under, with_colons};
ghost use Rattle.qvt_types_program.specs.Program.{program_view};

use qvt_base::list_fault::ListFault;
use qvt_base::numbers::{ClassNo, MappingNo};
use qvt_base::text::Text;
use qvt_metas::metas::Metas;
use qvt_types_program::program::Program;
use qvt_value::value::LiteralRef;
use std::alloc::Global;

fn with_colons(alloc: Global, front: &str, name: &str) -> Result<Text, ListFault>
    ensures { IfOk result (λ path. path ≡ with_colons front.now name.now) }
{
    let mut path = Text::from_str(alloc, front)?;
    path.push_str("::")?;
    path.push_str(name)?;
    Ok(path)
}

/// The name under another, if that is not empty.
#[tactic(auto, using(crate::proofs::Names::not_under, crate::proofs::Names::is_under))]
fn under(alloc: Global, front: &str, name: &str) -> Result<Text, ListFault>
    ensures { IfOk result (λ path. path ≡ under front.now name.now) }
{
    if front.is_empty() {
        return Text::from_str(alloc, name);
    }
    with_colons(alloc, front, name)
}

/// A class under its metamodel; one of no metamodel of the job alone.
#[tactic(auto, unfolding(qvt_meaning_report::specs::TraceText::class_path))]
pub fn class_path(alloc: Global, metas: &Metas, class: ClassNo) -> Result<Text, ListFault>
    ensures { IfOk result (λ path. path ≡ class_path metas.now class.0) }
{
    let metamodel = metas.metamodel_name(metas.metamodel_of(class));
    under(alloc, metamodel, metas.class_name(class))
}

/// A literal under its metamodel and its enumeration.
pub fn literal_path(alloc: Global, metas: &Metas, literal: LiteralRef) -> Result<Text, ListFault>
    ensures { IfOk result (λ path. path ≡ literal_path metas.now literal) }
{
    let metamodel = metas.metamodel_name(literal.metamodel);
    let enumeration = metas.enumeration_name(literal.metamodel, literal.enumeration);
    let name = metas.literal_name(literal.metamodel, literal.enumeration, literal.literal);
    let front = with_colons(alloc, metamodel, enumeration)?;
    with_colons(alloc, front.as_str(), name)
}

/// A mapping under the class of its context and the metamodel of that.
pub fn mapping_path(program: &Program, mapping: MappingNo) -> &str
    ensures { result.now ≡ mapping_path (program_view program.now) mapping.0 }
{
    program.mapping_name(mapping)
}
