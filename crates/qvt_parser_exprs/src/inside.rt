ghost use Rattle.std.specs.Prelude.{ℕ, ◌≡◌, ◌≤◌, length};
ghost use Rattle.qvt_parser_grammar.specs.Gives.{Gives, toks};
ghost use Rattle.qvt_language.specs.Nesting.{nested_at};
ghost use Rattle.qvt_parser_exprs.specs.Views.{lead_view, stmts_view};

use crate::leading::Leading;
use qvt_parser_grammar::cursor::{ParseError, Parser};
use qvt_tree_types::tree::Stmts;

/// The calls that read what stands nested inside.
pub trait Nest {
    /// How many expressions and blocks may stand inside each other.
    ghost room: { Self → ℕ };

    /// An expression that may still become a target.
    fn lead(&self, parser: &mut Parser<'_>) -> Result<Leading, ParseError>
        ensures gives { Gives lead_view result (toks parser.new) ((nested_at (room self.now)).flagged (toks parser.old)) }
        ensures fewer { length (toks parser.new) ≤ length (toks parser.old) };

    /// A block.
    fn block(&self, parser: &mut Parser<'_>) -> Result<Stmts, ParseError>
        ensures gives { Gives stmts_view result (toks parser.new) ((nested_at (room self.now)).block (toks parser.old)) }
        ensures fewer { length (toks parser.new) ≤ length (toks parser.old) };

    /// How many expressions and blocks may stand inside each other.
    fn room(&self) -> usize
        ensures { result ≡ room self.now };
}

/// What stands nested inside, for the calls that read what it stands in.
#[derive(Drop)]
pub struct NestedReader<N> {
    pub nest: N,
}
