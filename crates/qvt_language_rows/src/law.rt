ghost use Rattle.std.specs.Prelude.{◌≡◌, ◌≤◌, List, length, ℕ, true, false, Ok, Err};
ghost use Rattle.qvt_grammar.specs.Reader.{At};
ghost use Rattle.qvt_tree_types.specs.Module.{ModuleTerm};
ghost use Rattle.qvt_language.specs.Tokens.{Tok};
ghost use Rattle.qvt_language.specs.Tokens.{is_nil};
ghost use Rattle.qvt_language.specs.Nesting.{nested_at};
ghost use Rattle.qvt_language.specs.ReadingUnits.{transformation_at};
ghost use Rattle.qvt_language.specs.Units.{transformation, unit};
ghost use Rattle.qvt_language_rows.specs.Units.{UnitRow, ModuleRow};
ghost use Rattle.qvt_language_rows.specs.Language.{Reads, HaveFirstFault};
ghost use Rattle.qvt_language_rows.specs.Law.{AreOne, LooksAtNoPlace};

/// Its clauses are the law that the rows of the grammar have the same lists of tokens, as the same
/// trees, the same beginnings and the same faults as the productions that the parser follows: a
/// transformation, and one of its units. It does nothing.
pub fn rows()
    ensures whole { AreOne ModuleRow transformation }
    ensures part { AreOne UnitRow unit }
{}

/// Its clauses say what the reader's answer for a list of tokens means, at any nesting of at least
/// the list's length: a tree with nothing left is the one tree that the list is read as, and what
/// else is left is the list from its first fault on. It does nothing.
pub fn answers()
    ensures reads { (n : ℕ) (ts : List Tok) → length ts ≤ n → (m : ModuleTerm) (r : List Tok) → transformation_at (nested_at n) ts ≡ Ok (m, r) → is_nil r ≡ true → Reads ts m }
    ensures one { (n : ℕ) (ts : List Tok) → length ts ≤ n → (m : ModuleTerm) (r : List Tok) → transformation_at (nested_at n) ts ≡ Ok (m, r) → is_nil r ≡ true → (other : ModuleTerm) → Reads ts other → other ≡ m }
    ensures rest { (n : ℕ) (ts : List Tok) → length ts ≤ n → (m : ModuleTerm) (r : List Tok) → transformation_at (nested_at n) ts ≡ Ok (m, r) → is_nil r ≡ false → HaveFirstFault ts r }
    ensures fault { (n : ℕ) (ts : List Tok) → length ts ≤ n → (r : List Tok) → transformation_at (nested_at n) ts ≡ Err (At r) → HaveFirstFault ts r }
{}

/// Its clauses are the law that neither a transformation nor one of its units looks at places: the
/// same tokens are read wherever they stand, and are a front wherever they stand. It does nothing.
pub fn fronts()
    ensures whole { LooksAtNoPlace transformation }
    ensures part { LooksAtNoPlace unit }
{}
