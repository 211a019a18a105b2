//! The typed tree of a transformation.

ghost use Rattle.std.specs.Prelude.{◌≡◌, IfOk};
ghost use Rattle.qvt_tree_types.specs.Module.{module_view};
ghost use Rattle.qvt_types_laws.specs.JoinModule.{joined};
ghost use Rattle.qvt_types_nodes.specs.Module.{typed_module_view};

use crate::units::module;
use qvt_base::list_fault::ListFault;
use qvt_base::seq::Seq;
use qvt_tree_types::module::Module;
use qvt_types_data::note::Note;
use qvt_types_leaves::notes::Notes;
use qvt_types_nodes::module::TypedModule;
use std::alloc::Global;

/// The typed tree of a transformation and the notes of its nodes, those of the parts of a node before
/// its own. A node that is left without a note gets a bare one, and notes that are left are dropped.
pub fn joined(alloc: Global, of: &Module, notes: Seq<Note>) -> Result<TypedModule, ListFault>
    ensures { IfOk result (λ typed. typed_module_view typed ≡ joined (module_view of.now) notes) }
{
    let mut notes = Notes::new(notes);
    module(alloc, of, &mut notes)
}
