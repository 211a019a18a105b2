ghost use Rattle.std.specs.Prelude.{◌<◌, ◌≤◌, length, OnOk};
ghost use Rattle.qvt_grammar.specs.Reader.{many_at, ended_at};
ghost use Rattle.qvt_tree_types.specs.View.{link_view};
ghost use Rattle.qvt_language.specs.Tokens.{of};
ghost use Rattle.qvt_language.specs.Firsts.{step_first};
ghost use Rattle.qvt_language.specs.Reading.{operators, post_at, signed_post_at, pre_at, each_tail_at, lead_step_at, link_at, links_at, chain_at, lead_post_at, lead_pre_at, lead_at};
ghost use Rattle.qvt_language.specs.Nesting.{nested_at};
ghost use Rattle.qvt_parser_exprs.specs.Views.{lead_view, held_each_view, links_view, lead_step_view, lead_steps_view};
ghost use Rattle.qvt_parser_grammar.specs.Gives.{Gives, toks};
ghost use Rattle.qvt_parser_chains.specs.Raised.{raised_at};

use crate::made::{chained, each_lead, linked, post_lead, prefixed};
use qvt_base::numbers::Place;
use qvt_base::seq::Seq;
use qvt_language::class::Class;
use qvt_parser_exprs::inside::{Nest, NestedReader};
use qvt_parser_exprs::leading::{EachTail, LeadStep, Leading};
use qvt_parser_exprs::made::{finish, short_list};
use qvt_parser_grammar::cursor::{ParseError, Parser};
use qvt_tree_types::tree::{Link, Step};

/// The calls that read steps and chains of operands, over those that read the expressions in them.
#[derive(Drop)]
pub struct Chains<N> {
    pub inside: NestedReader<N>,
}

impl<N: Nest> Chains<N> {
    #[tactic(auto, unfolding(qvt_language::specs::Reading::post_at))]
    fn post(&self, parser: &mut Parser<'_>) -> Result<Leading, ParseError>
        ensures gives { Gives lead_view result (toks parser.new) (post_at (nested_at (N.room self.now.inside.nest)) (toks parser.old)) }
        ensures fewer { length (toks parser.new) ≤ length (toks parser.old) }
        ensures less { OnOk result (length (toks parser.new) < length (toks parser.old)) }
    {
        let place = parser.place();
        let first = self.inside.primary(parser)?;
        let steps = self.steps(parser)?;
        Ok(post_lead(place, first, steps))
    }

    #[inline(never)]
    #[tactic(auto, unfolding(qvt_language::specs::Reading::signed_post_at, qvt_language::specs::Reading::signs_at))]
    fn signed_post(&self, parser: &mut Parser<'_>) -> Result<Leading, ParseError>
        ensures gives { Gives lead_view result (toks parser.new) (signed_post_at (nested_at (N.room self.now.inside.nest)) (toks parser.old)) }
        ensures fewer { length (toks parser.new) ≤ length (toks parser.old) }
        ensures less { OnOk result (length (toks parser.new) < length (toks parser.old)) }
    {
        let place = parser.place();
        let sign = parser.sign()?;
        let more = parser.more_signs()?;
        let operand = self.post(parser)?;
        let operand = finish(parser.alloc, operand)?;
        prefixed(parser.alloc, place, sign, more, operand)
    }

    #[tactic(auto, unfolding(qvt_language::specs::Reading::pre_at))]
    fn pre(&self, parser: &mut Parser<'_>) -> Result<Leading, ParseError>
        ensures gives { Gives lead_view result (toks parser.new) (pre_at (nested_at (N.room self.now.inside.nest)) (toks parser.old)) }
        ensures fewer { length (toks parser.new) ≤ length (toks parser.old) }
        ensures less { OnOk result (length (toks parser.new) < length (toks parser.old)) }
    {
        if parser.at_sign() {
            return self.signed_post(parser);
        }
        self.post(parser)
    }

    /// Operands with operators of the `level` tightest levels between them: at 8 an expression. The
    /// operands of each level in turn stand after what is read of the tighter ones. Each level that
    /// is open keeps little on the stack.
    #[cycle(chain)]
    pub fn chain(&self, parser: &mut Parser<'_>, level: usize) -> Result<Leading, ParseError>
        requires tight { level ≤ 8 }
        ensures gives { Gives lead_view result (toks parser.new) (chain_at level (pre_at (nested_at (N.room self.now.inside.nest))) (pre_at (nested_at (N.room self.now.inside.nest))) (toks parser.old)) }
        ensures fewer { length (toks parser.new) ≤ length (toks parser.old) }
        ensures less { OnOk result (length (toks parser.new) < length (toks parser.old)) }
    {
        let place = parser.place();
        let mut lead = self.pre(parser)?;
        for below in 0..level {
            match self.raised(parser, place, lead, below) {
                Ok(more) => lead = more,
                Err(fault) => return Err(fault),
            }
        }
        Ok(lead)
    }

    /// With what stands of the level above the `below` tightest ones after it.
    #[cycle(chain)]
    fn raised(
        &self,
        parser: &mut Parser<'_>,
        place: Place,
        first: Leading,
        below: usize,
    ) -> Result<Leading, ParseError>
        requires tight { below < 8 }
        ensures gives { Gives lead_view result (toks parser.new) (raised_at below (pre_at (nested_at (N.room self.now.inside.nest))) place (lead_view first) (toks parser.old)) }
        ensures fewer { length (toks parser.new) ≤ length (toks parser.old) }
    {
        if !parser.at_operator(below) {
            return Ok(first);
        }
        let rest = self.links(parser, &first, below)?;
        chained(parser.alloc, below, place, first, rest)
    }

    /// The operands after the first. A `forEach` has none.
    #[cycle(chain)]
    fn links(
        &self,
        parser: &mut Parser<'_>,
        first: &Leading,
        level: usize,
    ) -> Result<Seq<Link>, ParseError>
        requires tight { level < 8 }
        ensures gives { Gives links_view result (toks parser.new) (links_at level (chain_at level (pre_at (nested_at (N.room self.now.inside.nest))) (pre_at (nested_at (N.room self.now.inside.nest)))) (lead_view first.now) (toks parser.old)) }
        ensures fewer { length (toks parser.new) ≤ length (toks parser.old) }
    {
        match first {
            Leading::Each { .. } => Ok(Seq::new(parser.alloc)),
            _ => self.operands(parser, level),
        }
    }

    #[cycle(chain)]
    fn operands(&self, parser: &mut Parser<'_>, level: usize) -> Result<Seq<Link>, ParseError>
        requires tight { level < 8 }
        ensures gives { Gives links_view result (toks parser.new) (many_at (of (operators level)) (link_at level (chain_at level (pre_at (nested_at (N.room self.now.inside.nest))) (pre_at (nested_at (N.room self.now.inside.nest))))) (toks parser.old)) }
        ensures fewer { length (toks parser.new) ≤ length (toks parser.old) }
    {
        let some = parser.at_operator(level);
        let mut links = short_list(parser.alloc, some)?;
        while parser.at_operator(level) {
            let link = self.link(parser, level)?;
            links.push(link)?;
        }
        Ok(links)
    }

    #[cycle(chain)]
    #[tactic(auto, unfolding(qvt_language::specs::Reading::link_at))]
    fn link(&self, parser: &mut Parser<'_>, level: usize) -> Result<Link, ParseError>
        requires tight { level < 8 }
        ensures gives { Gives link_view result (toks parser.new) (link_at level (chain_at level (pre_at (nested_at (N.room self.now.inside.nest))) (pre_at (nested_at (N.room self.now.inside.nest)))) (toks parser.old)) }
        ensures fewer { length (toks parser.new) ≤ length (toks parser.old) }
        ensures less { OnOk result (length (toks parser.new) < length (toks parser.old)) }
    {
        let sign = parser.operator(level)?;
        let operand = self.chain(parser, level)?;
        linked(parser.alloc, sign.class, sign.place, operand)
    }

    #[inline(never)]
    #[tactic(auto, unfolding(qvt_language::specs::Reading::each_tail_at))]
    fn each_tail(&self, parser: &mut Parser<'_>) -> Result<Box<EachTail>, ParseError>
        ensures gives { Gives held_each_view result (toks parser.new) (each_tail_at (nested_at (N.room self.now.inside.nest)) (toks parser.old)) }
        ensures fewer { length (toks parser.new) ≤ length (toks parser.old) }
        ensures less { OnOk result (length (toks parser.new) < length (toks parser.old)) }
    {
        parser.take(Class::ForEachWord)?;
        parser.take(Class::OpenRound)?;
        let name = parser.name()?;
        let kind = parser.optional_type(self.inside.nest.room())?;
        let condition = self.inside.optional_bar(parser)?;
        parser.take(Class::CloseRound)?;
        let body = self.inside.block(parser)?;
        let tail = EachTail {
            name: name.text,
            kind,
            condition,
            body,
        };
        let tail = Box::new(parser.alloc, tail)?;
        Ok(tail)
    }

    #[inline(never)]
    #[tactic(auto, unfolding(qvt_language::specs::Reading::lead_step_at))]
    fn lead_step(&self, parser: &mut Parser<'_>) -> Result<LeadStep, ParseError>
        ensures gives { Gives lead_step_view result (toks parser.new) (lead_step_at (nested_at (N.room self.now.inside.nest)) (toks parser.old)) }
        ensures fewer { length (toks parser.new) ≤ length (toks parser.old) }
        ensures less { OnOk result (length (toks parser.new) < length (toks parser.old)) }
    {
        if parser.at(Class::Dot) {
            let step = self.dot_step(parser)?;
            return Ok(LeadStep::Step(step));
        }
        parser.take(Class::Arrow)?;
        if parser.at(Class::ForEachWord) {
            let part = self.each_tail(parser)?;
            return Ok(LeadStep::Each(part));
        }
        let step = self.arrow_rest(parser)?;
        Ok(LeadStep::Step(step))
    }

    /// Any number of steps, and then perhaps the rest of a `forEach`.
    pub fn lead_steps(
        &self,
        parser: &mut Parser<'_>,
    ) -> Result<(Seq<Step>, Option<Box<EachTail>>), ParseError>
        ensures gives { Gives lead_steps_view result (toks parser.new) (ended_at (of step_first) (lead_step_at (nested_at (N.room self.now.inside.nest))) (toks parser.old)) }
        ensures fewer { length (toks parser.new) ≤ length (toks parser.old) }
    {
        let some = parser.at_step();
        let mut steps = short_list(parser.alloc, some)?;
        while parser.at_step() {
            let step = self.lead_step(parser)?;
            match step {
                LeadStep::Step(step) => steps.push(step)?,
                LeadStep::Each(part) => return Ok((steps, Some(part))),
            }
        }
        Ok((steps, None))
    }

    #[tactic(auto, unfolding(qvt_language::specs::Reading::lead_post_at))]
    fn lead_post(&self, parser: &mut Parser<'_>) -> Result<Leading, ParseError>
        ensures gives { Gives lead_view result (toks parser.new) (lead_post_at (nested_at (N.room self.now.inside.nest)) (toks parser.old)) }
        ensures fewer { length (toks parser.new) ≤ length (toks parser.old) }
        ensures less { OnOk result (length (toks parser.new) < length (toks parser.old)) }
    {
        let place = parser.place();
        let first = self.inside.other_primary(parser)?;
        let (steps, part) = self.lead_steps(parser)?;
        each_lead(parser.alloc, place, first, steps, part)
    }

    #[tactic(auto, unfolding(qvt_language::specs::Reading::lead_pre_at))]
    fn lead_pre(&self, parser: &mut Parser<'_>) -> Result<Leading, ParseError>
        ensures gives { Gives lead_view result (toks parser.new) (lead_pre_at (nested_at (N.room self.now.inside.nest)) (toks parser.old)) }
        ensures fewer { length (toks parser.new) ≤ length (toks parser.old) }
        ensures less { OnOk result (length (toks parser.new) < length (toks parser.old)) }
    {
        if parser.at_sign() {
            return self.signed_post(parser);
        }
        self.lead_post(parser)
    }

    /// An expression at the front of a statement, which may go on as a `forEach`.
    #[tactic(auto, unfolding(qvt_language::specs::Reading::lead_at))]
    pub fn lead(&self, parser: &mut Parser<'_>) -> Result<Leading, ParseError>
        ensures gives { Gives lead_view result (toks parser.new) (lead_at (nested_at (N.room self.now.inside.nest)) (toks parser.old)) }
        ensures fewer { length (toks parser.new) ≤ length (toks parser.old) }
        ensures less { OnOk result (length (toks parser.new) < length (toks parser.old)) }
    {
        let place = parser.place();
        let mut lead = self.lead_pre(parser)?;
        for below in 0..8 {
            match self.raised(parser, place, lead, below) {
                Ok(more) => lead = more,
                Err(fault) => return Err(fault),
            }
        }
        Ok(lead)
    }
}
