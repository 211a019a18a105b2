ghost use Rattle.std.specs.Prelude.{◌<◌, ◌≤◌, length, OnOk, ◌≡◌, ◌&&◌, IsTrue, Ok};
ghost use Rattle.std.proofs.Common.{inl, inr};
ghost use Rattle.qvt_grammar.specs.Reader.{starts, made_at, then_at, choose_at, many_at, maybe_at};
ghost use Rattle.qvt_tree_types.specs.View.{expr_view, arm_view};
ghost use Rattle.qvt_language.specs.Tokens.{of, is};
ghost use Rattle.qvt_language.specs.Readers.{the_at};
ghost use Rattle.qvt_language.specs.Firsts.{expr_first, step_first, assign_first};
ghost use Rattle.qvt_language.specs.Trees.{second, inner, expr_of, is_there};
ghost use Rattle.qvt_language.specs.StmtTrees.{choice_expr, each_over, branched, chosen, if_made, closed_turn, simple_turn, written_turn, target_in, IsPlainLead};
ghost use Rattle.qvt_language.specs.Reading.{expr_at, lead_step_at};
ghost use Rattle.qvt_language.specs.ReadingStatements.{var_stmt_at, return_stmt_at, arm_at, else_part_at, branches_at, choice_at, if_rest_at, if_stmt_at, while_stmt_at, assignment_at, semicolon_at, lead_tail_at, lead_stmt_at, statement_at, statements_at, block_at};
ghost use Rattle.qvt_language.specs.Leads.{Bracketed};
ghost use Rattle.qvt_language.specs.Series.{finished_at};
ghost use Rattle.qvt_language.specs.Nesting.{nested_at};
ghost use Rattle.qvt_parser_grammar.specs.Options.{option_view};
ghost use Rattle.qvt_parser_grammar.specs.Gives.{Gives, toks};
ghost use Rattle.qvt_parser_exprs.specs.Views.{boxed_view, lead_view, stmts_view};
ghost use Rattle.qvt_parser_stmts.specs.Views.{arms_view, held_view, turn_view, ended_view, assigned_view};

use crate::made::{
    add_turn, assign, evaluate, for_each, has_target, held, into_target, is_bracketed,
};
use crate::turns::{EndedStmts, Turn};
use qvt_base::numbers::Place;
use qvt_base::seq::Seq;
use qvt_language::class::Class;
use qvt_language::token::SyntaxToken;
use qvt_parser_chains::chains::Chains;
use qvt_parser_exprs::inside::Nest;
use qvt_parser_exprs::leading::Leading;
use qvt_parser_exprs::made::{boxed, conditional, finish, posted};
use qvt_parser_grammar::cursor::{ParseError, Parser};
use qvt_tree_types::tree::{Arm, Expr, Stmt};

/// The calls that read statements, over those that read the expressions in them.
#[derive(Drop)]
pub struct Statements<N> {
    pub chains: Chains<N>,
}

/// A statement with the `;` that may stand after it.
#[tactic(auto, unfolding(qvt_language::specs::ReadingStatements::semicolon_at))]
fn ended(parser: &mut Parser<'_>, stmt: Box<Stmt>) -> Turn
    ensures gives { made_at (λ t. simple_turn (held_view stmt, t)) semicolon_at (toks parser.old) ≡ Ok (turn_view result, toks parser.new) }
    ensures fewer { length (toks parser.new) ≤ length (toks parser.old) }
{
    match parser.skip(Class::Semicolon) {
        Some(_) => Turn::Closed(stmt),
        None => Turn::Last(stmt),
    }
}

/// Whether a target stands before the sign of an assignment.
fn assigns(parser: &Parser<'_>, lead: &Leading) -> bool
    ensures { result ≡ (is_there (target_in (lead_view lead.now)) && starts (of assign_first) (toks parser.now)) }
{
    has_target(lead) && parser.at_assign()
}

impl<N: Nest> Statements<N> {
    #[tactic(auto, unfolding(qvt_language::specs::ReadingStatements::var_stmt_at))]
    fn var_stmt(&self, parser: &mut Parser<'_>) -> Result<Box<Stmt>, ParseError>
        ensures gives { Gives held_view result (toks parser.new) (var_stmt_at (nested_at (N.room self.now.chains.inside.nest)) (toks parser.old)) }
        ensures fewer { length (toks parser.new) ≤ length (toks parser.old) }
        ensures less { OnOk result (length (toks parser.new) < length (toks parser.old)) }
    {
        let place = parser.place();
        parser.take(Class::VarWord)?;
        let name = parser.name()?;
        let kind = parser.optional_type(self.chains.inside.nest.room())?;
        let value = self.initial(parser)?;
        let stmt = Stmt::Var {
            name: name.text,
            kind,
            value,
            place,
        };
        held(parser.alloc, stmt)
    }

    fn initial(&self, parser: &mut Parser<'_>) -> Result<Option<Expr>, ParseError>
        ensures gives { Gives (option_view expr_view) result (toks parser.new) (maybe_at (is Class.Becomes) (made_at second (then_at (the_at Class.Becomes) (expr_at (nested_at (N.room self.now.chains.inside.nest))))) (toks parser.old)) }
        ensures fewer { length (toks parser.new) ≤ length (toks parser.old) }
    {
        if parser.at(Class::Becomes) {
            let value = self.chains.inside.expr_past(parser, Class::Becomes)?;
            return Ok(Some(Box::into_inner(value)));
        }
        Ok(None)
    }

    #[tactic(auto, unfolding(qvt_language::specs::ReadingStatements::return_stmt_at))]
    fn return_stmt(&self, parser: &mut Parser<'_>) -> Result<Box<Stmt>, ParseError>
        ensures gives { Gives held_view result (toks parser.new) (return_stmt_at (nested_at (N.room self.now.chains.inside.nest)) (toks parser.old)) }
        ensures fewer { length (toks parser.new) ≤ length (toks parser.old) }
        ensures less { OnOk result (length (toks parser.new) < length (toks parser.old)) }
    {
        let place = parser.place();
        parser.take(Class::ReturnWord)?;
        let value = self.returned(parser)?;
        held(parser.alloc, Stmt::Return { value, place })
    }

    /// The value after `return`, if there is one.
    fn returned(&self, parser: &mut Parser<'_>) -> Result<Option<Expr>, ParseError>
        ensures gives { Gives (option_view expr_view) result (toks parser.new) (maybe_at (of expr_first) (expr_at (nested_at (N.room self.now.chains.inside.nest))) (toks parser.old)) }
        ensures fewer { length (toks parser.new) ≤ length (toks parser.old) }
    {
        if parser.at_expr() {
            let value = self.chains.inside.expr(parser)?;
            return Ok(Some(value));
        }
        Ok(None)
    }

    #[inline(never)]
    #[tactic(auto, unfolding(qvt_language::specs::ReadingStatements::arm_at, qvt_language::specs::ReadingStatements::condition_at))]
    fn arm(&self, parser: &mut Parser<'_>) -> Result<Arm, ParseError>
        ensures gives { Gives arm_view result (toks parser.new) (arm_at (nested_at (N.room self.now.chains.inside.nest)) (toks parser.old)) }
        ensures fewer { length (toks parser.new) ≤ length (toks parser.old) }
        ensures less { OnOk result (length (toks parser.new) < length (toks parser.old)) }
    {
        parser.take(Class::ElifWord)?;
        let condition = self
            .chains
            .inside
            .enclosed(parser, Class::OpenRound, Class::CloseRound)?;
        parser.skip(Class::ThenWord);
        let body = self.chains.inside.block(parser)?;
        Ok(Arm {
            condition: Box::into_inner(condition),
            body,
        })
    }

    fn arms(&self, parser: &mut Parser<'_>) -> Result<Seq<Arm>, ParseError>
        ensures gives { Gives arms_view result (toks parser.new) (many_at (is Class.ElifWord) (arm_at (nested_at (N.room self.now.chains.inside.nest))) (toks parser.old)) }
        ensures fewer { length (toks parser.new) ≤ length (toks parser.old) }
    {
        let mut arms = Seq::new(parser.alloc);
        while parser.at(Class::ElifWord) {
            let arm = self.arm(parser)?;
            arms.push(arm)?;
        }
        Ok(arms)
    }

    #[tactic(auto, unfolding(qvt_language::specs::ReadingStatements::else_part_at))]
    fn else_part(&self, parser: &mut Parser<'_>) -> Result<Option<Seq<Stmt>>, ParseError>
        ensures gives { Gives (option_view stmts_view) result (toks parser.new) (maybe_at (is Class.ElseWord) (else_part_at (nested_at (N.room self.now.chains.inside.nest))) (toks parser.old)) }
        ensures fewer { length (toks parser.new) ≤ length (toks parser.old) }
    {
        if parser.at(Class::ElseWord) {
            parser.take(Class::ElseWord)?;
            let body = self.chains.inside.block(parser)?;
            return Ok(Some(body));
        }
        Ok(None)
    }

    #[tactic(auto, unfolding(qvt_language::specs::ReadingStatements::if_stmt_at))]
    fn if_stmt(&self, parser: &mut Parser<'_>) -> Result<Box<Stmt>, ParseError>
        ensures gives { Gives held_view result (toks parser.new) (if_stmt_at (nested_at (N.room self.now.chains.inside.nest)) (toks parser.old)) }
        ensures fewer { length (toks parser.new) ≤ length (toks parser.old) }
        ensures less { OnOk result (length (toks parser.new) < length (toks parser.old)) }
    {
        let place = parser.place();
        parser.take(Class::IfWord)?;
        let condition = self.chains.inside.flagged(parser)?;
        self.if_rest(parser, condition, place)
    }

    /// What stands after the expression that follows `if`.
    fn if_rest(
        &self,
        parser: &mut Parser<'_>,
        condition: Leading,
        place: Place,
    ) -> Result<Box<Stmt>, ParseError>
        ensures gives { Gives held_view result (toks parser.new) (made_at (if_made place (expr_of (lead_view condition))) (if_rest_at (nested_at (N.room self.now.chains.inside.nest)) (lead_view condition)) (toks parser.old)) }
        ensures fewer { length (toks parser.new) ≤ length (toks parser.old) }
    {
        let alone = is_bracketed(&condition);
        let condition = boxed(parser.alloc, condition)?;
        if alone {
            return self.branches_or_choice(parser, condition, place);
        }
        self.then_chosen(parser, condition, place)
    }

    fn then_chosen(
        &self,
        parser: &mut Parser<'_>,
        condition: Box<Expr>,
        place: Place,
    ) -> Result<Box<Stmt>, ParseError>
        ensures gives { Gives held_view result (toks parser.new) (made_at (if_made place (boxed_view condition)) (made_at second (then_at (the_at Class.ThenWord) (made_at inr (choice_at (nested_at (N.room self.now.chains.inside.nest)))))) (toks parser.old)) }
        ensures fewer { length (toks parser.new) ≤ length (toks parser.old) }
    {
        parser.take(Class::ThenWord)?;
        self.chosen(parser, condition, place)
    }

    /// The same after one in brackets alone.
    fn branches_or_choice(
        &self,
        parser: &mut Parser<'_>,
        condition: Box<Expr>,
        place: Place,
    ) -> Result<Box<Stmt>, ParseError>
        ensures gives { Gives held_view result (toks parser.new) (made_at (if_made place (boxed_view condition)) (if_rest_at (nested_at (N.room self.now.chains.inside.nest)) (Bracketed (boxed_view condition))) (toks parser.old)) }
        ensures fewer { length (toks parser.new) ≤ length (toks parser.old) }
    {
        if parser.at(Class::OpenBrace) {
            return self.branched(parser, condition, place);
        }
        parser.take(Class::ThenWord)?;
        self.after_then(parser, condition, place)
    }

    /// What stands after its `then`.
    fn after_then(
        &self,
        parser: &mut Parser<'_>,
        condition: Box<Expr>,
        place: Place,
    ) -> Result<Box<Stmt>, ParseError>
        ensures gives { Gives held_view result (toks parser.new) (made_at (if_made place (boxed_view condition)) (choose_at (is Class.OpenBrace) (made_at inl (branches_at (nested_at (N.room self.now.chains.inside.nest)))) (made_at inr (choice_at (nested_at (N.room self.now.chains.inside.nest))))) (toks parser.old)) }
        ensures fewer { length (toks parser.new) ≤ length (toks parser.old) }
    {
        if parser.at(Class::OpenBrace) {
            return self.branched(parser, condition, place);
        }
        self.chosen(parser, condition, place)
    }

    /// The blocks of a conditional statement.
    #[tactic(auto, unfolding(qvt_language::specs::ReadingStatements::branches_at))]
    fn branched(
        &self,
        parser: &mut Parser<'_>,
        condition: Box<Expr>,
        place: Place,
    ) -> Result<Box<Stmt>, ParseError>
        ensures gives { Gives held_view result (toks parser.new) (made_at (branched place (boxed_view condition)) (branches_at (nested_at (N.room self.now.chains.inside.nest))) (toks parser.old)) }
        ensures fewer { length (toks parser.new) ≤ length (toks parser.old) }
    {
        let body = self.chains.inside.block(parser)?;
        let arms = self.arms(parser)?;
        let otherwise = self.else_part(parser)?;
        parser.skip(Class::EndifWord);
        let stmt = Stmt::If {
            condition: Box::into_inner(condition),
            body,
            arms,
            otherwise,
            place,
        };
        held(parser.alloc, stmt)
    }

    /// A `forEach` whose source begins with a conditional, after its `then`.
    #[inline(never)]
    #[tactic(auto, unfolding(qvt_language::specs::ReadingStatements::choice_at))]
    fn chosen(
        &self,
        parser: &mut Parser<'_>,
        condition: Box<Expr>,
        place: Place,
    ) -> Result<Box<Stmt>, ParseError>
        ensures gives { Gives held_view result (toks parser.new) (made_at (chosen place (boxed_view condition)) (choice_at (nested_at (N.room self.now.chains.inside.nest))) (toks parser.old)) }
        ensures fewer { length (toks parser.new) ≤ length (toks parser.old) }
    {
        let source = self.choice(parser, condition, place)?;
        self.each_over(parser, source, place)
    }

    /// A conditional expression, after its `then`.
    fn choice(
        &self,
        parser: &mut Parser<'_>,
        condition: Box<Expr>,
        place: Place,
    ) -> Result<Box<Expr>, ParseError>
        ensures gives { Gives boxed_view result (toks parser.new) (made_at (choice_expr place (boxed_view condition)) (then_at (expr_at (nested_at (N.room self.now.chains.inside.nest))) (made_at inner (then_at (the_at Class.ElseWord) (then_at (expr_at (nested_at (N.room self.now.chains.inside.nest))) (the_at Class.EndifWord))))) (toks parser.old)) }
        ensures fewer { length (toks parser.new) ≤ length (toks parser.old) }
    {
        let yes = self.chains.inside.boxed(parser)?;
        let no = self
            .chains
            .inside
            .enclosed(parser, Class::ElseWord, Class::EndifWord)?;
        let expr = Box::new(parser.alloc, conditional(condition, yes, no, place))?;
        Ok(expr)
    }

    /// The steps after an expression, and the rest of the `forEach` over it.
    fn each_over(
        &self,
        parser: &mut Parser<'_>,
        first: Box<Expr>,
        place: Place,
    ) -> Result<Box<Stmt>, ParseError>
        ensures gives { Gives held_view result (toks parser.new) (made_at (each_over place (boxed_view first)) (finished_at (of step_first) (lead_step_at (nested_at (N.room self.now.chains.inside.nest)))) (toks parser.old)) }
        ensures fewer { length (toks parser.new) ≤ length (toks parser.old) }
    {
        let (steps, part) = self.chains.lead_steps(parser)?;
        match part {
            Some(part) => {
                let source = posted(parser.alloc, place, first, steps)?;
                held(parser.alloc, for_each(source, Box::into_inner(part), place))
            }
            None => Err(ParseError::Syntax),
        }
    }

    #[tactic(auto, unfolding(qvt_language::specs::ReadingStatements::while_stmt_at, qvt_language::specs::ReadingStatements::condition_at))]
    fn while_stmt(&self, parser: &mut Parser<'_>) -> Result<Box<Stmt>, ParseError>
        ensures gives { Gives held_view result (toks parser.new) (while_stmt_at (nested_at (N.room self.now.chains.inside.nest)) (toks parser.old)) }
        ensures fewer { length (toks parser.new) ≤ length (toks parser.old) }
        ensures less { OnOk result (length (toks parser.new) < length (toks parser.old)) }
    {
        let place = parser.place();
        parser.take(Class::WhileWord)?;
        let condition = self
            .chains
            .inside
            .enclosed(parser, Class::OpenRound, Class::CloseRound)?;
        let body = self.chains.inside.block(parser)?;
        let stmt = Stmt::While {
            condition: Box::into_inner(condition),
            body,
            place,
        };
        held(parser.alloc, stmt)
    }

    #[tactic(auto, unfolding(qvt_language::specs::ReadingStatements::assignment_at))]
    fn assignment<'a>(
        &self,
        parser: &mut Parser<'a>,
    ) -> Result<(SyntaxToken<'a>, Box<Expr>), ParseError>
        ensures gives { Gives assigned_view result (toks parser.new) (assignment_at (nested_at (N.room self.now.chains.inside.nest)) (toks parser.old)) }
        ensures fewer { length (toks parser.new) ≤ length (toks parser.old) }
        ensures less { OnOk result (length (toks parser.new) < length (toks parser.old)) }
    {
        let sign = parser.assign_sign()?;
        let value = self.chains.inside.boxed(parser)?;
        Ok((sign, value))
    }

    #[inline(never)]
    #[tactic(auto, unfolding(qvt_language::specs::ReadingStatements::lead_stmt_at))]
    fn lead_stmt(&self, parser: &mut Parser<'_>) -> Result<Turn, ParseError>
        ensures gives { Gives turn_view result (toks parser.new) (lead_stmt_at (nested_at (N.room self.now.chains.inside.nest)) (toks parser.old)) }
        ensures fewer { length (toks parser.new) ≤ length (toks parser.old) }
        ensures less { OnOk result (length (toks parser.new) < length (toks parser.old)) }
    {
        let place = parser.place();
        let lead = self.chains.lead(parser)?;
        match lead {
            Leading::Each { source, part } => {
                let source = Box::into_inner(source);
                let stmt = held(parser.alloc, for_each(source, Box::into_inner(part), place))?;
                Ok(Turn::Closed(stmt))
            }
            lead => self.written(parser, lead, place),
        }
    }

    /// What stands after an expression at the front of a statement.
    fn written(
        &self,
        parser: &mut Parser<'_>,
        lead: Leading,
        place: Place,
    ) -> Result<Turn, ParseError>
        requires plain { IsPlainLead (lead_view lead) }
        ensures gives { Gives turn_view result (toks parser.new) (made_at (written_turn place (lead_view lead)) (lead_tail_at (nested_at (N.room self.now.chains.inside.nest)) (lead_view lead)) (toks parser.old)) }
        ensures fewer { length (toks parser.new) ≤ length (toks parser.old) }
    {
        if assigns(parser, &lead) {
            return self.assigned(parser, lead, place);
        }
        let value = finish(parser.alloc, lead)?;
        let stmt = held(parser.alloc, evaluate(value, place))?;
        Ok(ended(parser, stmt))
    }

    /// The same, where a target and the sign of an assignment stand.
    #[inline(never)]
    fn assigned(
        &self,
        parser: &mut Parser<'_>,
        lead: Leading,
        place: Place,
    ) -> Result<Turn, ParseError>
        requires target { IsTrue (is_there (target_in (lead_view lead))) }
        requires sign { IsTrue (starts (of assign_first) (toks parser.old)) }
        ensures gives { Gives turn_view result (toks parser.new) (made_at (written_turn place (lead_view lead)) (lead_tail_at (nested_at (N.room self.now.chains.inside.nest)) (lead_view lead)) (toks parser.old)) }
        ensures fewer { length (toks parser.new) ≤ length (toks parser.old) }
    {
        let target = into_target(parser.alloc, lead)?;
        let pair = self.assignment(parser)?;
        let (sign, value) = pair;
        let stmt = held(parser.alloc, assign(target, sign.class, value, sign.place))?;
        Ok(ended(parser, stmt))
    }

    #[inline(never)]
    fn if_turn(&self, parser: &mut Parser<'_>) -> Result<Turn, ParseError>
        ensures gives { Gives turn_view result (toks parser.new) (made_at closed_turn (if_stmt_at (nested_at (N.room self.now.chains.inside.nest))) (toks parser.old)) }
        ensures fewer { length (toks parser.new) ≤ length (toks parser.old) }
        ensures less { OnOk result (length (toks parser.new) < length (toks parser.old)) }
    {
        let stmt = self.if_stmt(parser)?;
        Ok(Turn::Closed(stmt))
    }

    #[inline(never)]
    fn while_turn(&self, parser: &mut Parser<'_>) -> Result<Turn, ParseError>
        ensures gives { Gives turn_view result (toks parser.new) (made_at closed_turn (while_stmt_at (nested_at (N.room self.now.chains.inside.nest))) (toks parser.old)) }
        ensures fewer { length (toks parser.new) ≤ length (toks parser.old) }
        ensures less { OnOk result (length (toks parser.new) < length (toks parser.old)) }
    {
        let stmt = self.while_stmt(parser)?;
        Ok(Turn::Closed(stmt))
    }

    #[inline(never)]
    fn var_turn(&self, parser: &mut Parser<'_>) -> Result<Turn, ParseError>
        ensures gives { Gives turn_view result (toks parser.new) (made_at simple_turn (then_at (var_stmt_at (nested_at (N.room self.now.chains.inside.nest))) semicolon_at) (toks parser.old)) }
        ensures fewer { length (toks parser.new) ≤ length (toks parser.old) }
        ensures less { OnOk result (length (toks parser.new) < length (toks parser.old)) }
    {
        let stmt = self.var_stmt(parser)?;
        Ok(ended(parser, stmt))
    }

    #[inline(never)]
    fn return_turn(&self, parser: &mut Parser<'_>) -> Result<Turn, ParseError>
        ensures gives { Gives turn_view result (toks parser.new) (made_at simple_turn (then_at (return_stmt_at (nested_at (N.room self.now.chains.inside.nest))) semicolon_at) (toks parser.old)) }
        ensures fewer { length (toks parser.new) ≤ length (toks parser.old) }
        ensures less { OnOk result (length (toks parser.new) < length (toks parser.old)) }
    {
        let stmt = self.return_stmt(parser)?;
        Ok(ended(parser, stmt))
    }

    #[tactic(auto, unfolding(qvt_language::specs::ReadingStatements::statement_at))]
    fn statement(&self, parser: &mut Parser<'_>) -> Result<Turn, ParseError>
        ensures gives { Gives turn_view result (toks parser.new) (statement_at (nested_at (N.room self.now.chains.inside.nest)) (toks parser.old)) }
        ensures fewer { length (toks parser.new) ≤ length (toks parser.old) }
        ensures less { OnOk result (length (toks parser.new) < length (toks parser.old)) }
    {
        if parser.at(Class::Semicolon) {
            parser.take(Class::Semicolon)?;
            return Ok(Turn::Empty);
        }
        if parser.at(Class::IfWord) {
            return self.if_turn(parser);
        }
        if parser.at(Class::WhileWord) {
            return self.while_turn(parser);
        }
        if parser.at(Class::VarWord) {
            return self.var_turn(parser);
        }
        if parser.at(Class::ReturnWord) {
            return self.return_turn(parser);
        }
        self.lead_stmt(parser)
    }

    /// The statements of a block without its braces.
    #[tactic(auto, unfolding(qvt_language::specs::ReadingStatements::statements_at))]
    pub fn statements(&self, parser: &mut Parser<'_>) -> Result<EndedStmts, ParseError>
        ensures gives { Gives ended_view result (toks parser.new) (statements_at (nested_at (N.room self.now.chains.inside.nest)) (toks parser.old)) }
        ensures fewer { length (toks parser.new) ≤ length (toks parser.old) }
    {
        let mut stmts = Seq::new(parser.alloc);
        while parser.at_stmt() {
            let turn = self.statement(parser)?;
            let last = add_turn(&mut stmts, turn)?;
            if last {
                return Ok(EndedStmts {
                    stmts,
                    open_end: true,
                });
            }
        }
        Ok(EndedStmts {
            stmts,
            open_end: false,
        })
    }

    /// A block.
    #[tactic(auto, unfolding(qvt_language::specs::ReadingStatements::block_at))]
    pub fn block_inside(&self, parser: &mut Parser<'_>) -> Result<Seq<Stmt>, ParseError>
        ensures gives { Gives stmts_view result (toks parser.new) (block_at (nested_at (N.room self.now.chains.inside.nest)) (toks parser.old)) }
        ensures fewer { length (toks parser.new) ≤ length (toks parser.old) }
        ensures less { OnOk result (length (toks parser.new) < length (toks parser.old)) }
    {
        parser.take(Class::OpenBrace)?;
        let ended = self.statements(parser)?;
        parser.take(Class::CloseBrace)?;
        Ok(ended.stmts)
    }
}
