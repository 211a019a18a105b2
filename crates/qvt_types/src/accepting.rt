//! Acceptance.

ghost use Rattle.std.specs.Prelude.{◌≡◌, ◌≢◌, None, Ok, Err, IfOk, IfErr};
ghost use Rattle.qvt_tree_types.specs.Module.{module_view};
ghost use Rattle.qvt_types_laws.specs.JoinModule.{joined};
ghost use Rattle.qvt_types_program.specs.Accepts as accepts;
ghost use Rattle.qvt_types_program.specs.Mappings.{AreNumbered};
ghost use Rattle.qvt_types_program.specs.Program.{program_of, program_view};
ghost use Rattle.qvt_types.specs.Faults.{answered};
ghost use Rattle.qvt_types.specs.Laws.{TreeStays};
ghost use Rattle.qvt_types.specs.declared.fault.TypingFault.TheVariants.{NoMemory};

use crate::fault::TypingFault;
use crate::faults::fault_of;
use crate::judged::judged;
use qvt_base::list_fault::ListFault;
use qvt_base::seq::Seq;
use qvt_metas::metas::Metas;
use qvt_tree_types::module::Module;
use qvt_types_data::note::Note;
use qvt_types_join::joined::joined;
use qvt_types_laws::laws::notes_leave_the_tree;
use qvt_types_program::declarations::{Declarations, lent};
use qvt_types_program::least::least;
use qvt_types_program::program::Program;
use qvt_types_program::reading::read_heads;
use qvt_types_program::tables::tables_of;
use std::alloc::Global;
use std::mem::replace;

/// The program of a transformation with these notes, whose heads declare this.
fn program(
    alloc: Global,
    module: &Module,
    declarations: Declarations,
    notes: Seq<Note>,
) -> Result<Program, ListFault>
    requires { AreNumbered 0 declarations.units.units }
    ensures { IfOk result (λ p. program_view p ≡ program_of (joined (module_view «module».now) notes) declarations) }
{
    let tables = tables_of(alloc, module.params.as_slice(), &declarations)?;
    let typed = joined(alloc, module, notes)?;
    notes_leave_the_tree();
    Ok(Program::new(typed, declarations, tables))
}

/// The program of a transformation over the metamodels of its job, or the first of its refusals.
pub fn accept(alloc: Global, module: &Module, metas: &Metas) -> Result<Program, TypingFault>
    requires { metas.now.element ≡ None }
    ensures ok { IfOk result (λ p. accepts.accepts metas.now (module_view «module».now) ≡ Ok (program_view p)) }
    ensures err { IfErr result (λ fault. fault ≢ NoMemory → answered (accepts.accepts metas.now (module_view «module».now)) ≡ Err fault) }
{
    let mut told = Seq::new(alloc);
    let declarations = read_heads(alloc, module, metas, &mut told)?;
    let mut state = judged(alloc, &lent(&declarations, metas), module, told)?;
    if let Some(refusal) = least(state.log.as_slice()) {
        return Err(fault_of(refusal));
    }
    let notes = replace(&mut state.notes, Seq::new(alloc));
    let program = program(alloc, module, declarations, notes)?;
    Ok(program)
}

/// A law: the tree of a program without its notes is the tree that was accepted.
pub fn notes_leave_the_program()
    ensures { TreeStays }
{
    notes_leave_the_tree();
}
