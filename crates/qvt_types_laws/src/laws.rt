//! Each function does nothing: its contract is the law.

ghost use Rattle.std.specs.Prelude.{◌≡◌, ◌↔◌, IsTrue, List};
ghost use Rattle.qvt_tree_types.specs.Module.{ModuleTerm};
ghost use Rattle.qvt_types_data.specs.Term.{TyTerm, ty_of, ty_view, same_type};
ghost use Rattle.qvt_types_data.specs.declared.note.Note.{Note};
ghost use Rattle.qvt_types_data.specs.declared.ty.Ty.{Ty};
ghost use Rattle.qvt_types_nodes.specs.Module.{TypedModuleTerm};
ghost use Rattle.qvt_types_nodes.specs.StripModule.{strip};
ghost use Rattle.qvt_types_laws.specs.JoinModule.{joined};
ghost use Rattle.qvt_types_laws.specs.NotesOfModule.{notes_of};

/// A type and its plain data tell the same.
pub fn types_are_plain_data()
    ensures plain { (T : TyTerm) → ty_view (ty_of T) ≡ T }
    ensures again { (t : Ty) → ty_of (ty_view t) ≡ t }
{}

/// `same_type` is true exactly for equal types.
pub fn same_means_equal()
    ensures { (t u : Ty) → IsTrue (same_type (ty_view t) (ty_view u)) ↔ (t ≡ u) }
{}

/// A typed tree without its notes is the plain tree: whatever notes a tree is joined with, it is left as it is.
pub fn notes_leave_the_tree()
    ensures { (m : ModuleTerm) (ns : List Note) → strip (joined m ns) ≡ m }
{}

/// Joining takes each note where it stands: every typed tree is its plain tree, joined with the notes of its nodes in their order.
pub fn notes_are_taken_in_order()
    ensures { (m : TypedModuleTerm) → joined (strip m) (notes_of m) ≡ m }
{}
