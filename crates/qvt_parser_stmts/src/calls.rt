ghost use Rattle.std.specs.Prelude.{ℕ, ◌≡◌, ◌≤◌, length};
ghost use Rattle.qvt_language.specs.Nesting.{nested_at};
ghost use Rattle.qvt_parser_grammar.specs.Gives.{Gives, toks};
ghost use Rattle.qvt_parser_exprs.specs.Views.{lead_view, stmts_view};

use qvt_parser_exprs::inside::Nest;
use qvt_parser_exprs::leading::Leading;
use qvt_parser_grammar::cursor::{ParseError, Parser};
use qvt_tree_types::tree::Stmts;
use std::marker::Model;

/// The calls that read what stands nested inside, as `Nest` has them, of values that are `ready` for
/// them.
pub trait Calls {
    ghost ready: { Self → Type 0 };

    ghost room: { Self → ℕ };

    /// An expression that may still become a target.
    fn lead(&self, parser: &mut Parser<'_>) -> Result<Leading, ParseError>
        requires { ready self.now }
        ensures gives { Gives lead_view result (toks parser.new) ((nested_at (room self.now)).flagged (toks parser.old)) }
        ensures fewer { length (toks parser.new) ≤ length (toks parser.old) };

    /// A block.
    fn block(&self, parser: &mut Parser<'_>) -> Result<Stmts, ParseError>
        requires { ready self.now }
        ensures gives { Gives stmts_view result (toks parser.new) ((nested_at (room self.now)).block (toks parser.old)) }
        ensures fewer { length (toks parser.new) ≤ length (toks parser.old) };

    /// How many expressions and blocks may stand inside each other.
    fn room(&self) -> usize
        ensures { result ≡ room self.now };
}

/// Two closures as the calls. They are ready where each may be called, and gives what is read at the
/// nesting.
#[derive(Drop)]
pub struct CallPair<F, G> {
    pub lead: F,
    pub block: G,
    pub room: usize,
}

impl<
    F: Fn(&mut Parser<'_>) -> Result<Leading, ParseError>,
    G: Fn(&mut Parser<'_>) -> Result<Stmts, ParseError>,
> Calls for CallPair<F, G> {
    ghost use Rattle.qvt_parser_stmts.specs.Pairs.{IsInside};

    ghost ready = { IsInside F.Fn G.Fn };

    ghost room = { λ c. c.room };

    fn lead(&self, parser: &mut Parser<'_>) -> Result<Leading, ParseError> {
        (self.lead)(parser)
    }

    fn block(&self, parser: &mut Parser<'_>) -> Result<Stmts, ParseError> {
        (self.block)(parser)
    }

    fn room(&self) -> usize {
        self.room
    }
}

/// Calls that are ready.
#[derive(Drop)]
pub struct ReadyCalls<C: Calls> {
    pub calls: C,
}

impl<C: Calls> Model for ReadyCalls<C> {
    ghost Value = { C };

    ghost view = { λ s. s.calls };

    ghost invariant = { λ s. C.ready s.calls };
}

impl<C: Calls> Nest for ReadyCalls<C> {
    ghost room = { λ s. C.room s };

    fn lead(&self, parser: &mut Parser<'_>) -> Result<Leading, ParseError> {
        self.calls.lead(parser)
    }

    fn block(&self, parser: &mut Parser<'_>) -> Result<Stmts, ParseError> {
        self.calls.block(parser)
    }

    fn room(&self) -> usize {
        self.calls.room()
    }
}
