ghost use Rattle.std.specs.Prelude.{◌<◌, ◌≤◌, IsTrue, length, OnOk};
ghost use Rattle.qvt_grammar.specs.Reader.{starts, made_at, then_at, many_at, maybe_at};
ghost use Rattle.qvt_tree_types.specs.View.{step_view, accumulator_view};
ghost use Rattle.qvt_language.specs.Tokens.{of, is};
ghost use Rattle.qvt_language.specs.Firsts.{head_first, step_first};
ghost use Rattle.qvt_language.specs.Trees.{dot_of, arrow_of, with_first, is_there};
ghost use Rattle.qvt_language.specs.Reading.{name_at, args_at, dot_rest_at, dot_step_at, accumulator_at, head_rest_at, more_exprs_at, after_first_at, arrow_body_at, arrow_args_at, arrow_rest_at, step_at};
ghost use Rattle.qvt_language.specs.Nesting.{nested_at};
ghost use Rattle.qvt_parser_grammar.specs.Options.{option_view};
ghost use Rattle.qvt_parser_exprs.specs.Views.{boxed_view, lead_view, exprs_view, steps_view, head_rest_view, arrow_args_view};
ghost use Rattle.qvt_parser_grammar.specs.Gives.{Gives, toks};
ghost use Rattle.qvt_parser_chains.specs.Heads.{name_in};

use crate::chains::Chains;
use crate::made::{head_name, head_of, is_head, one_expr};
use qvt_base::seq::Seq;
use qvt_language::class::Class;
use qvt_parser_exprs::inside::Nest;
use qvt_parser_exprs::leading::Leading;
use qvt_parser_exprs::made::{boxed, short_list};
use qvt_parser_grammar::cursor::{ParseError, Parser};
use qvt_tree_types::tree::{Accumulator, Expr, Head, Step};
use qvt_tree_types::types::TypeTree;

impl<N: Nest> Chains<N> {
    #[tactic(auto, unfolding(qvt_language::specs::Reading::dot_rest_at))]
    fn dot_rest(&self, parser: &mut Parser<'_>) -> Result<Step, ParseError>
        ensures gives { Gives step_view result (toks parser.new) (dot_rest_at (nested_at (N.room self.now.inside.nest)) (toks parser.old)) }
        ensures fewer { length (toks parser.new) ≤ length (toks parser.old) }
        ensures less { OnOk result (length (toks parser.new) < length (toks parser.old)) }
    {
        if parser.at(Class::Name) {
            return self.dot_name(parser);
        }
        if parser.at_map() {
            let call = self.inside.map_call(parser)?;
            return Ok(Step::DotMap(call));
        }
        let call = self.inside.resolve(parser)?;
        Ok(Step::DotResolve(call))
    }

    fn optional_args(&self, parser: &mut Parser<'_>) -> Result<Option<Seq<Expr>>, ParseError>
        ensures gives { Gives (option_view exprs_view) result (toks parser.new) (maybe_at (is Class.OpenRound) (args_at (nested_at (N.room self.now.inside.nest))) (toks parser.old)) }
        ensures fewer { length (toks parser.new) ≤ length (toks parser.old) }
    {
        if parser.at(Class::OpenRound) {
            let args = self.inside.args(parser)?;
            return Ok(Some(args));
        }
        Ok(None)
    }

    fn dot_name(&self, parser: &mut Parser<'_>) -> Result<Step, ParseError>
        ensures gives { Gives step_view result (toks parser.new) (made_at dot_of (then_at name_at (maybe_at (is Class.OpenRound) (args_at (nested_at (N.room self.now.inside.nest))))) (toks parser.old)) }
        ensures fewer { length (toks parser.new) ≤ length (toks parser.old) }
        ensures less { OnOk result (length (toks parser.new) < length (toks parser.old)) }
    {
        let name = parser.name()?;
        let args = self.optional_args(parser)?;
        Ok(Step::Dot {
            name: name.text,
            args,
            place: name.place,
        })
    }

    /// A step that begins with a dot.
    #[tactic(auto, unfolding(qvt_language::specs::Reading::dot_step_at))]
    pub fn dot_step(&self, parser: &mut Parser<'_>) -> Result<Step, ParseError>
        ensures gives { Gives step_view result (toks parser.new) (dot_step_at (nested_at (N.room self.now.inside.nest)) (toks parser.old)) }
        ensures fewer { length (toks parser.new) ≤ length (toks parser.old) }
        ensures less { OnOk result (length (toks parser.new) < length (toks parser.old)) }
    {
        parser.take(Class::Dot)?;
        self.dot_rest(parser)
    }

    #[inline(never)]
    #[tactic(auto, unfolding(qvt_language::specs::Reading::accumulator_at))]
    fn accumulator(&self, parser: &mut Parser<'_>) -> Result<Accumulator, ParseError>
        ensures gives { Gives accumulator_view result (toks parser.new) (accumulator_at (nested_at (N.room self.now.inside.nest)) (toks parser.old)) }
        ensures fewer { length (toks parser.new) ≤ length (toks parser.old) }
        ensures less { OnOk result (length (toks parser.new) < length (toks parser.old)) }
    {
        parser.take(Class::Semicolon)?;
        let name = parser.name()?;
        let kind = parser.colon_type(self.inside.nest.room())?;
        parser.take(Class::EqualSign)?;
        let first = self.inside.expr(parser)?;
        Ok(Accumulator {
            name: name.text,
            kind,
            first,
            place: name.place,
        })
    }

    fn optional_accumulator(
        &self,
        parser: &mut Parser<'_>,
    ) -> Result<Option<Accumulator>, ParseError>
        ensures gives { Gives (option_view accumulator_view) result (toks parser.new) (maybe_at (is Class.Semicolon) (accumulator_at (nested_at (N.room self.now.inside.nest))) (toks parser.old)) }
        ensures fewer { length (toks parser.new) ≤ length (toks parser.old) }
    {
        if parser.at(Class::Semicolon) {
            let accumulator = self.accumulator(parser)?;
            return Ok(Some(accumulator));
        }
        Ok(None)
    }

    #[tactic(auto, unfolding(qvt_language::specs::Reading::head_rest_at, qvt_language::specs::Reading::bar_expr_at))]
    fn head_rest(
        &self,
        parser: &mut Parser<'_>,
    ) -> Result<(Option<TypeTree>, (Option<Accumulator>, Box<Expr>)), ParseError>
        ensures gives { Gives head_rest_view result (toks parser.new) (head_rest_at (nested_at (N.room self.now.inside.nest)) (toks parser.old)) }
        ensures fewer { length (toks parser.new) ≤ length (toks parser.old) }
        ensures less { OnOk result (length (toks parser.new) < length (toks parser.old)) }
    {
        let kind = parser.optional_type(self.inside.nest.room())?;
        let accumulator = self.optional_accumulator(parser)?;
        let body = self.inside.expr_past(parser, Class::Bar)?;
        Ok((kind, (accumulator, body)))
    }

    #[tactic(auto, unfolding(qvt_language::specs::Reading::arrow_body_at))]
    fn arrow_body(&self, parser: &mut Parser<'_>) -> Result<(Option<Head>, Seq<Expr>), ParseError>
        ensures gives { Gives arrow_args_view result (toks parser.new) (arrow_body_at (nested_at (N.room self.now.inside.nest)) (toks parser.old)) }
        ensures fewer { length (toks parser.new) ≤ length (toks parser.old) }
    {
        let lead = self.inside.flagged(parser)?;
        if parser.at_head() {
            return self.head_after(parser, lead);
        }
        let first = boxed(parser.alloc, lead)?;
        self.exprs_after(parser, first)
    }

    fn head_after(
        &self,
        parser: &mut Parser<'_>,
        lead: Leading,
    ) -> Result<(Option<Head>, Seq<Expr>), ParseError>
        requires head { IsTrue (starts (of head_first) (toks parser.old)) }
        ensures gives { Gives arrow_args_view result (toks parser.new) (after_first_at (nested_at (N.room self.now.inside.nest)) (lead_view lead) (toks parser.old)) }
        ensures fewer { length (toks parser.new) ≤ length (toks parser.old) }
    {
        if is_head(&lead) {
            return self.headed(parser, lead);
        }
        let first = boxed(parser.alloc, lead)?;
        self.exprs_after(parser, first)
    }

    /// The rest of the head that the name begins.
    fn headed(
        &self,
        parser: &mut Parser<'_>,
        lead: Leading,
    ) -> Result<(Option<Head>, Seq<Expr>), ParseError>
        requires head { IsTrue (starts (of head_first) (toks parser.old)) }
        requires name { IsTrue (is_there (name_in (lead_view lead))) }
        ensures gives { Gives arrow_args_view result (toks parser.new) (after_first_at (nested_at (N.room self.now.inside.nest)) (lead_view lead) (toks parser.old)) }
        ensures fewer { length (toks parser.new) ≤ length (toks parser.old) }
    {
        let Some(name) = head_name(lead) else {
            return Err(ParseError::Syntax);
        };
        let (kind, (accumulator, body)) = self.head_rest(parser)?;
        let head = head_of(name, kind, accumulator);
        let args = one_expr(parser.alloc, body)?;
        Ok((Some(head), args))
    }

    fn exprs_after(
        &self,
        parser: &mut Parser<'_>,
        first: Box<Expr>,
    ) -> Result<(Option<Head>, Seq<Expr>), ParseError>
        ensures gives { Gives arrow_args_view result (toks parser.new) (made_at (with_first (boxed_view first)) (more_exprs_at (nested_at (N.room self.now.inside.nest))) (toks parser.old)) }
        ensures fewer { length (toks parser.new) ≤ length (toks parser.old) }
    {
        let exprs = self.inside.exprs_from(parser, first)?;
        Ok((None, exprs))
    }

    #[tactic(auto, unfolding(qvt_language::specs::Reading::arrow_args_at))]
    fn arrow_args(&self, parser: &mut Parser<'_>) -> Result<(Option<Head>, Seq<Expr>), ParseError>
        ensures gives { Gives arrow_args_view result (toks parser.new) (arrow_args_at (nested_at (N.room self.now.inside.nest)) (toks parser.old)) }
        ensures fewer { length (toks parser.new) ≤ length (toks parser.old) }
        ensures less { OnOk result (length (toks parser.new) < length (toks parser.old)) }
    {
        parser.take(Class::OpenRound)?;
        if parser.at(Class::CloseRound) {
            parser.take(Class::CloseRound)?;
            return Ok((None, Seq::new(parser.alloc)));
        }
        let body = self.arrow_body(parser)?;
        parser.take(Class::CloseRound)?;
        Ok(body)
    }

    fn arrow_name(&self, parser: &mut Parser<'_>) -> Result<Step, ParseError>
        ensures gives { Gives step_view result (toks parser.new) (made_at arrow_of (then_at name_at (arrow_args_at (nested_at (N.room self.now.inside.nest)))) (toks parser.old)) }
        ensures fewer { length (toks parser.new) ≤ length (toks parser.old) }
        ensures less { OnOk result (length (toks parser.new) < length (toks parser.old)) }
    {
        let name = parser.name()?;
        let (head, args) = self.arrow_args(parser)?;
        Ok(Step::Arrow {
            name: name.text,
            head,
            args,
            place: name.place,
        })
    }

    /// What stands after an arrow, but for `forEach`.
    #[inline(never)]
    #[tactic(auto, unfolding(qvt_language::specs::Reading::arrow_rest_at))]
    pub fn arrow_rest(&self, parser: &mut Parser<'_>) -> Result<Step, ParseError>
        ensures gives { Gives step_view result (toks parser.new) (arrow_rest_at (nested_at (N.room self.now.inside.nest)) (toks parser.old)) }
        ensures fewer { length (toks parser.new) ≤ length (toks parser.old) }
        ensures less { OnOk result (length (toks parser.new) < length (toks parser.old)) }
    {
        if parser.at(Class::Name) {
            return self.arrow_name(parser);
        }
        if parser.at_map() {
            let call = self.inside.map_call(parser)?;
            return Ok(Step::ArrowMap(call));
        }
        let call = self.inside.resolve(parser)?;
        Ok(Step::ArrowResolve(call))
    }

    #[inline(never)]
    #[tactic(auto, unfolding(qvt_language::specs::Reading::step_at))]
    fn step(&self, parser: &mut Parser<'_>) -> Result<Step, ParseError>
        ensures gives { Gives step_view result (toks parser.new) (step_at (nested_at (N.room self.now.inside.nest)) (toks parser.old)) }
        ensures fewer { length (toks parser.new) ≤ length (toks parser.old) }
        ensures less { OnOk result (length (toks parser.new) < length (toks parser.old)) }
    {
        if parser.at(Class::Dot) {
            return self.dot_step(parser);
        }
        parser.take(Class::Arrow)?;
        self.arrow_rest(parser)
    }

    /// Any number of steps.
    pub fn steps(&self, parser: &mut Parser<'_>) -> Result<Seq<Step>, ParseError>
        ensures gives { Gives steps_view result (toks parser.new) (many_at (of step_first) (step_at (nested_at (N.room self.now.inside.nest))) (toks parser.old)) }
        ensures fewer { length (toks parser.new) ≤ length (toks parser.old) }
    {
        let some = parser.at_step();
        let mut steps = short_list(parser.alloc, some)?;
        while parser.at_step() {
            let step = self.step(parser)?;
            steps.push(step)?;
        }
        Ok(steps)
    }
}
