ghost use Rattle.std.specs.Prelude.{◌≤◌, length};
ghost use Rattle.qvt_tree_types.specs.View.{expr_view};
ghost use Rattle.qvt_language.specs.Reading.{expr_at, flagged_at};
ghost use Rattle.qvt_language.specs.ReadingStatements.{statements_at, block_at};
ghost use Rattle.qvt_language.specs.Nesting.{nested_at};
ghost use Rattle.qvt_parser_grammar.specs.Gives.{Gives, toks};
ghost use Rattle.qvt_parser_exprs.specs.Views.{lead_view, stmts_view};
ghost use Rattle.qvt_parser_stmts.specs.Views.{ended_view};

use crate::calls::{CallPair, Calls, ReadyCalls};
use crate::statements::Statements;
use crate::turns::EndedStmts;
use qvt_parser_chains::chains::Chains;
use qvt_parser_exprs::inside::NestedReader;
use qvt_parser_exprs::leading::Leading;
use qvt_parser_exprs::made::finish;
use qvt_parser_grammar::cursor::{ParseError, Parser};
use qvt_tree_types::tree::{Expr, Stmts};

/// An expression that may still become a target, by the calls for what stands inside it.
#[tactic(auto, unfolding(qvt_language::specs::Reading::flagged_at))]
fn flagged_over<C: Calls + Drop>(calls: C, parser: &mut Parser<'_>) -> Result<Leading, ParseError>
    requires { C.ready calls }
    ensures gives { Gives lead_view result (toks parser.new) (flagged_at (nested_at (C.room calls)) (toks parser.old)) }
    ensures fewer { length (toks parser.new) ≤ length (toks parser.old) }
{
    let nest = ReadyCalls { calls };
    let chains = Chains {
        inside: NestedReader { nest },
    };
    chains.chain(parser, 8)
}

/// A block, by the calls for what stands inside it.
fn block_over<C: Calls + Drop>(calls: C, parser: &mut Parser<'_>) -> Result<Stmts, ParseError>
    requires { C.ready calls }
    ensures gives { Gives stmts_view result (toks parser.new) (block_at (nested_at (C.room calls)) (toks parser.old)) }
    ensures fewer { length (toks parser.new) ≤ length (toks parser.old) }
{
    let nest = ReadyCalls { calls };
    let statements = Statements {
        chains: Chains {
            inside: NestedReader { nest },
        },
    };
    statements.block_inside(parser)
}

/// The statements of a block without its braces, by the calls for what stands inside them.
fn statements_over<C: Calls + Drop>(
    calls: C,
    parser: &mut Parser<'_>,
) -> Result<EndedStmts, ParseError>
    requires { C.ready calls }
    ensures gives { Gives ended_view result (toks parser.new) (statements_at (nested_at (C.room calls)) (toks parser.old)) }
    ensures fewer { length (toks parser.new) ≤ length (toks parser.old) }
{
    let nest = ReadyCalls { calls };
    let statements = Statements {
        chains: Chains {
            inside: NestedReader { nest },
        },
    };
    statements.statements(parser)
}

/// An expression that may still become a target, with fewer than `room` expressions and blocks
/// inside each other.
#[cycle(nested)]
#[tactic(auto, unfolding(qvt_language::specs::Nesting::nested_at))]
pub fn flagged(parser: &mut Parser<'_>, room: usize) -> Result<Leading, ParseError>
    ensures gives { Gives lead_view result (toks parser.new) ((nested_at room).flagged (toks parser.old)) }
    ensures fewer { length (toks parser.new) ≤ length (toks parser.old) }
{
    if room == 0 {
        return Err(ParseError::Syntax);
    }
    let less = room - 1;
    let expr_inside = |parser: &mut Parser<'_>| -> Result<Leading, ParseError>
        ensures gives { Gives lead_view result (toks parser.new) ((nested_at less).flagged (toks parser.old)) }
        ensures fewer { length (toks parser.new) ≤ length (toks parser.old) }
    { flagged(parser, less) };
    let block_inside = |parser: &mut Parser<'_>| -> Result<Stmts, ParseError>
        ensures gives { Gives stmts_view result (toks parser.new) ((nested_at less).block (toks parser.old)) }
        ensures fewer { length (toks parser.new) ≤ length (toks parser.old) }
    { block(parser, less) };
    let calls = CallPair {
        lead: expr_inside,
        block: block_inside,
        room: less,
    };
    flagged_over(calls, parser)
}

/// A block, with fewer than `room` expressions and blocks inside each other.
#[cycle(nested)]
#[tactic(auto, unfolding(qvt_language::specs::Nesting::nested_at))]
pub fn block(parser: &mut Parser<'_>, room: usize) -> Result<Stmts, ParseError>
    ensures gives { Gives stmts_view result (toks parser.new) ((nested_at room).block (toks parser.old)) }
    ensures fewer { length (toks parser.new) ≤ length (toks parser.old) }
{
    if room == 0 {
        return Err(ParseError::Syntax);
    }
    let less = room - 1;
    let expr_within = |parser: &mut Parser<'_>| -> Result<Leading, ParseError>
        ensures gives { Gives lead_view result (toks parser.new) ((nested_at less).flagged (toks parser.old)) }
        ensures fewer { length (toks parser.new) ≤ length (toks parser.old) }
    { flagged(parser, less) };
    let block_within = |parser: &mut Parser<'_>| -> Result<Stmts, ParseError>
        ensures gives { Gives stmts_view result (toks parser.new) ((nested_at less).block (toks parser.old)) }
        ensures fewer { length (toks parser.new) ≤ length (toks parser.old) }
    { block(parser, less) };
    let calls = CallPair {
        lead: expr_within,
        block: block_within,
        room: less,
    };
    block_over(calls, parser)
}

/// An expression, with fewer than `room` expressions and blocks inside each other.
#[tactic(auto, unfolding(qvt_language::specs::Reading::expr_at))]
pub fn expr(parser: &mut Parser<'_>, room: usize) -> Result<Expr, ParseError>
    ensures gives { Gives expr_view result (toks parser.new) (expr_at (nested_at room) (toks parser.old)) }
    ensures fewer { length (toks parser.new) ≤ length (toks parser.old) }
{
    let lead = flagged(parser, room)?;
    finish(parser.alloc, lead)
}

/// The statements of a block without its braces.
pub fn statements(parser: &mut Parser<'_>, room: usize) -> Result<EndedStmts, ParseError>
    ensures gives { Gives ended_view result (toks parser.new) (statements_at (nested_at room) (toks parser.old)) }
    ensures fewer { length (toks parser.new) ≤ length (toks parser.old) }
{
    let expr_below = |parser: &mut Parser<'_>| -> Result<Leading, ParseError>
        ensures gives { Gives lead_view result (toks parser.new) ((nested_at room).flagged (toks parser.old)) }
        ensures fewer { length (toks parser.new) ≤ length (toks parser.old) }
    { flagged(parser, room) };
    let block_below = |parser: &mut Parser<'_>| -> Result<Stmts, ParseError>
        ensures gives { Gives stmts_view result (toks parser.new) ((nested_at room).block (toks parser.old)) }
        ensures fewer { length (toks parser.new) ≤ length (toks parser.old) }
    { block(parser, room) };
    let calls = CallPair {
        lead: expr_below,
        block: block_below,
        room,
    };
    statements_over(calls, parser)
}
