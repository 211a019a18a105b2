ghost use Rattle.std.specs.Prelude.{◌≡◌, ◌≤◌, List, length, ℕ, suc, true, false, Ok, Err};
ghost use Rattle.qvt_grammar.specs.Reader.{At};
ghost use Rattle.qvt_tree_types.specs.Module.{ModuleTerm};
ghost use Rattle.qvt_language.specs.Tokens.{Tok, is_nil};
ghost use Rattle.qvt_tree_types.specs.Tree.{StmtTerm};
ghost use Rattle.qvt_language.specs.Statements.{if_stmt};
ghost use Rattle.qvt_language.specs.Conditionals.{if_forms};
ghost use Rattle.qvt_language.specs.Nesting.{nested, nested_at};
ghost use Rattle.qvt_language.specs.ReadingUnits.{transformation_at};
ghost use Rattle.qvt_language.specs.Units.{transformation, unit};
ghost use Rattle.qvt_language.specs.Module.{ReadsModule, IsFault};
ghost use Rattle.qvt_language.specs.Laws.{Beginnings, AtMostOne, Faults};

/// Its clauses are the law of beginnings, for a transformation and for one of its units: a list of
/// tokens is a front exactly where some list that is read begins with it, and what completes a front
/// is tokens that a text can say. It does nothing.
pub fn beginnings()
    ensures whole { Beginnings transformation }
    ensures part { Beginnings unit }
{}

/// Its clauses say, for a transformation and for one of its units, that a list of tokens is read as at
/// most one tree, and has at most one fault. It does nothing.
pub fn at_most_one()
    ensures whole { AtMostOne transformation }
    ensures part { AtMostOne unit }
{}

/// Its clauses say, for a transformation and for one of its units, that a list of tokens is read or
/// has a fault, and that this is the first token such that the tokens up to and including it are no
/// front, or the end. It does nothing.
pub fn faults()
    ensures whole { Faults transformation }
    ensures part { Faults unit }
{}

/// Its clauses say what the reader's answer for a list of tokens means, at any nesting of at least
/// the list's length: a tree with nothing left is the one tree that the list is read as, and what
/// else is left is the list from its first fault on. It does nothing.
pub fn answers()
    ensures reads { (n : ℕ) (ts : List Tok) → length ts ≤ n → (m : ModuleTerm) (r : List Tok) → transformation_at (nested_at n) ts ≡ Ok (m, r) → is_nil r ≡ true → ReadsModule ts m }
    ensures one { (n : ℕ) (ts : List Tok) → length ts ≤ n → (m : ModuleTerm) (r : List Tok) → transformation_at (nested_at n) ts ≡ Ok (m, r) → is_nil r ≡ true → (other : ModuleTerm) → ReadsModule ts other → other ≡ m }
    ensures rest { (n : ℕ) (ts : List Tok) → length ts ≤ n → (m : ModuleTerm) (r : List Tok) → transformation_at (nested_at n) ts ≡ Ok (m, r) → is_nil r ≡ false → IsFault ts r }
    ensures fault { (n : ℕ) (ts : List Tok) → length ts ≤ n → (r : List Tok) → transformation_at (nested_at n) ts ≡ Err (At r) → IsFault ts r }
{}

/// Its clauses say which statements begin with `if`: blocks after a condition in brackets, and a
/// `forEach` over what begins with a conditional expression. It does nothing.
pub fn conditionals()
    ensures forms { (n : ℕ) (ts : List Tok) (s : StmtTerm) → (if_stmt (nested n)).reads ts s → (if_forms (nested n)).reads ts s }
    ensures read { (n : ℕ) (ts : List Tok) (s : StmtTerm) → (if_forms (nested n)).reads ts s → (if_stmt (nested (suc n))).reads ts s }
{}
