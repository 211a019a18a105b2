//! Each function does nothing: its contract is the law.

ghost use Rattle.std.specs.Prelude.{◌≡◌, ◌++◌, List, [], IsTrue};
ghost use Rattle.std.specs.List.{list_all, range_with_len};
ghost use Rattle.qvt_metas.specs.Metamodels.{Metamodels};
ghost use Rattle.qvt_tree_types.specs.Module.{ModuleTerm};
ghost use Rattle.qvt_types_data.specs.declared.note.Note.{Note};
ghost use Rattle.qvt_types_laws.specs.JoinModule.{join_module, joined};
ghost use Rattle.qvt_typing.specs.Accepts.{heads_of, judged};
ghost use Rattle.qvt_typed_laws.specs.Accepted.{AcceptedIsJudged};
ghost use Rattle.qvt_typed_laws.specs.Numbers.{numbers};
ghost use Rattle.qvt_typed_laws.specs.Typed.{is_typed_note};

/// Where nothing is told of a transformation, each of its expressions has a type; the name of a model, as the source of one of its
/// operations, alone has none.
pub fn expressions_have_types()
    ensures { (m : Metamodels) (t : ModuleTerm) → (judged (heads_of m t) t).log ≡ [] → IsTrue (list_all is_typed_note (judged (heads_of m t) t).notes) }
{}

/// Typing writes the notes of the nodes and no others: joining takes them all, and nothing that stands behind them.
pub fn notes_are_of_nodes()
    ensures { (m : Metamodels) (t : ModuleTerm) (rest : List Note)
        → join_module t ((judged (heads_of m t) t).notes ++ rest) ≡ (joined t (judged (heads_of m t) t).notes, rest) }
{}

/// The numbers of the expressions of a typed tree are those from 0 on, in the order of the text, the outer expression first.
pub fn numbers_ascend()
    ensures { (m : Metamodels) (t : ModuleTerm)
        → numbers (joined t (judged (heads_of m t) t).notes) ≡ range_with_len 0 (judged (heads_of m t) t).next }
{}

/// A program that is accepted is the tree joined with the notes of its nodes, with what its heads declare, and nothing is told of it.
pub fn accepted_is_judged()
    ensures { AcceptedIsJudged }
{}
