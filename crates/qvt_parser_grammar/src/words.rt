ghost use Rattle.std.specs.Prelude.{◌≡◌, ◌<◌, ◌≤◌, length, OnOk};
ghost use Rattle.qvt_grammar.specs.Reader.{starts, choose_at};
ghost use Rattle.qvt_tree_types.specs.View.{expr_view};
ghost use Rattle.qvt_language.specs.Tokens.{of, is, tok_of};
ghost use Rattle.qvt_language.specs.Readers.{the_at};
ghost use Rattle.qvt_language.specs.Firsts.{map_first, all_first, resolve_first, late_first, maker_first, plain_first, front_first, simple_first, primary_first, literal_first, word_first, head_first, step_first, sign_first, assign_first, expr_first, stmt_first};
ghost use Rattle.qvt_language.specs.Reading.{literal_at, word_at, object_head_at, all_word_at, in_word_at, sign_at, more_signs_at, operator_at, operators};
ghost use Rattle.qvt_parser_grammar.specs.Gives.{Gives, toks, same};

use crate::cursor::{ParseError, Parser};
use crate::names::path_of;
use qvt_base::seq::Seq;
use qvt_base::text::Text;
use qvt_language::class::Class;
use qvt_language::token::SyntaxToken;
use qvt_tree_types::tree::Expr;
use qvt_tree_types::types::{ObjectVar, PathTree};
use qvt_tree_types::words::{PrefixOp, Sign};

impl<'a> Parser<'a> {
    /// Whether a mapping call begins.
    pub fn at_map(&self) -> bool
        ensures { result ≡ starts (of map_first) (toks self.now) }
    {
        self.at(Class::XmapWord) || self.at(Class::MapWord)
    }

    /// Whether the next token is a resolve word without a mapping.
    pub fn at_all(&self) -> bool
        ensures { result ≡ starts (of all_first) (toks self.now) }
    {
        self.at(Class::ResolveOneWord)
            || self.at(Class::ResolveAllWord)
            || self.at(Class::InvResolveOneWord)
            || self.at(Class::InvResolveWord)
    }

    /// Whether a literal of one token begins.
    pub fn at_literal(&self) -> bool
        ensures { result ≡ starts (of literal_first) (toks self.now) }
    {
        self.at(Class::TrueWord)
            || self.at(Class::FalseWord)
            || self.at(Class::Str)
            || self.at(Class::Integer)
    }

    /// Whether an expression of one word begins.
    pub fn at_word(&self) -> bool
        ensures { result ≡ starts (of word_first) (toks self.now) }
    {
        self.at(Class::SelfWord) || self.at(Class::ResultWord) || self.at(Class::NullWord)
    }

    /// Whether the next token may only go on with a head.
    pub fn at_head(&self) -> bool
        ensures { result ≡ starts (of head_first) (toks self.now) }
    {
        self.at(Class::Bar) || self.at(Class::Colon) || self.at(Class::Semicolon)
    }

    /// Whether a step begins.
    pub fn at_step(&self) -> bool
        ensures { result ≡ starts (of step_first) (toks self.now) }
    {
        self.at(Class::Arrow) || self.at(Class::Dot)
    }

    /// Whether a sign begins.
    pub fn at_sign(&self) -> bool
        ensures { result ≡ starts (of sign_first) (toks self.now) }
    {
        self.at(Class::NotWord) || self.at(Class::MinusSign)
    }

    /// Whether the sign of an assignment is next.
    pub fn at_assign(&self) -> bool
        ensures { result ≡ starts (of assign_first) (toks self.now) }
    {
        self.at(Class::PlusEqual) || self.at(Class::Becomes)
    }

    /// A literal: a number, a text, `true` or `false`.
    #[tactic(auto, unfolding(qvt_language::specs::Reading::literal_at))]
    pub fn literal(&mut self) -> Result<Expr, ParseError>
        ensures gives { Gives expr_view result (toks self.new) (literal_at (toks self.old)) }
        ensures fewer { length (toks self.new) ≤ length (toks self.old) }
        ensures less { OnOk result (length (toks self.new) < length (toks self.old)) }
    {
        if self.at(Class::Integer) {
            let token = self.take(Class::Integer)?;
            return Ok(Expr::Int {
                value: token.number,
                place: token.place,
            });
        }
        if self.at(Class::Str) {
            let token = self.take(Class::Str)?;
            let value = Text::from_str(self.alloc, token.text)?;
            return Ok(Expr::Str {
                value,
                place: token.place,
            });
        }
        if self.at(Class::TrueWord) {
            let token = self.take(Class::TrueWord)?;
            return Ok(Expr::Bool {
                value: true,
                place: token.place,
            });
        }
        let token = self.take(Class::FalseWord)?;
        Ok(Expr::Bool {
            value: false,
            place: token.place,
        })
    }

    /// `null`, `self` or `result`.
    #[tactic(auto, unfolding(qvt_language::specs::Reading::word_at))]
    pub fn word(&mut self) -> Result<Expr, ParseError>
        ensures gives { Gives expr_view result (toks self.new) (word_at (toks self.old)) }
        ensures fewer { length (toks self.new) ≤ length (toks self.old) }
        ensures less { OnOk result (length (toks self.new) < length (toks self.old)) }
    {
        if self.at(Class::NullWord) {
            let token = self.take(Class::NullWord)?;
            return Ok(Expr::Null { place: token.place });
        }
        if self.at(Class::SelfWord) {
            let token = self.take(Class::SelfWord)?;
            return Ok(Expr::SelfRef { place: token.place });
        }
        let token = self.take(Class::ResultWord)?;
        Ok(Expr::ResultRef { place: token.place })
    }

    /// The variable of an object expression, if one is told, and the path of its class.
    #[tactic(auto, unfolding(qvt_language::specs::Reading::object_head_at))]
    pub fn object_head(&mut self) -> Result<(Option<ObjectVar>, PathTree), ParseError>
        ensures gives { Gives same result (toks self.new) (object_head_at (toks self.old)) }
        ensures fewer { length (toks self.new) ≤ length (toks self.old) }
        ensures less { OnOk result (length (toks self.new) < length (toks self.old)) }
    {
        if self.at(Class::ResultWord) {
            let token = self.take(Class::ResultWord)?;
            let path = self.colon_path()?;
            return Ok((Some(ObjectVar::ResultVar { place: token.place }), path));
        }
        let first = self.name()?;
        if self.at(Class::Colon) {
            let path = self.colon_path()?;
            return Ok((
                Some(ObjectVar::Named {
                    name: first.text,
                    place: first.place,
                }),
                path,
            ));
        }
        let more = self.more_names()?;
        let path = path_of(self.alloc, first, more)?;
        Ok((None, path))
    }

    /// The word of a resolve over all mappings.
    #[tactic(auto, unfolding(qvt_language::specs::Reading::all_word_at))]
    pub fn all_word(&mut self) -> Result<SyntaxToken<'a>, ParseError>
        ensures gives { Gives tok_of result (toks self.new) (all_word_at (toks self.old)) }
        ensures fewer { length (toks self.new) ≤ length (toks self.old) }
        ensures less { OnOk result (length (toks self.new) < length (toks self.old)) }
    {
        if self.at(Class::ResolveAllWord) {
            return self.take(Class::ResolveAllWord);
        }
        if self.at(Class::ResolveOneWord) {
            return self.take(Class::ResolveOneWord);
        }
        if self.at(Class::InvResolveWord) {
            return self.take(Class::InvResolveWord);
        }
        self.take(Class::InvResolveOneWord)
    }

    /// The word of a resolve in one mapping.
    #[tactic(auto, unfolding(qvt_language::specs::Reading::in_word_at))]
    pub fn in_word(&mut self) -> Result<SyntaxToken<'a>, ParseError>
        ensures gives { Gives tok_of result (toks self.new) (in_word_at (toks self.old)) }
        ensures fewer { length (toks self.new) ≤ length (toks self.old) }
        ensures less { OnOk result (length (toks self.new) < length (toks self.old)) }
    {
        if self.at(Class::ResolveInWord) {
            return self.take(Class::ResolveInWord);
        }
        if self.at(Class::ResolveOneInWord) {
            return self.take(Class::ResolveOneInWord);
        }
        if self.at(Class::InvResolveInWord) {
            return self.take(Class::InvResolveInWord);
        }
        self.take(Class::InvResolveOneInWord)
    }

    /// `map` or `xmap`.
    pub fn map_word(&mut self) -> Result<SyntaxToken<'a>, ParseError>
        ensures gives { Gives tok_of result (toks self.new) (choose_at (is Class.MapWord) (the_at Class.MapWord) (the_at Class.XmapWord) (toks self.old)) }
        ensures fewer { length (toks self.new) ≤ length (toks self.old) }
        ensures less { OnOk result (length (toks self.new) < length (toks self.old)) }
    {
        if self.at(Class::MapWord) {
            return self.take(Class::MapWord);
        }
        self.take(Class::XmapWord)
    }

    /// `:=` or `+=`.
    pub fn assign_sign(&mut self) -> Result<SyntaxToken<'a>, ParseError>
        ensures gives { Gives tok_of result (toks self.new) (choose_at (is Class.Becomes) (the_at Class.Becomes) (the_at Class.PlusEqual) (toks self.old)) }
        ensures fewer { length (toks self.new) ≤ length (toks self.old) }
        ensures less { OnOk result (length (toks self.new) < length (toks self.old)) }
    {
        if self.at(Class::Becomes) {
            return self.take(Class::Becomes);
        }
        self.take(Class::PlusEqual)
    }

    /// `not` or the sign `-`.
    #[tactic(auto, unfolding(qvt_language::specs::Reading::sign_at))]
    pub fn sign(&mut self) -> Result<Sign, ParseError>
        ensures gives { Gives same result (toks self.new) (sign_at (toks self.old)) }
        ensures fewer { length (toks self.new) ≤ length (toks self.old) }
        ensures less { OnOk result (length (toks self.new) < length (toks self.old)) }
    {
        if self.at(Class::NotWord) {
            let token = self.take(Class::NotWord)?;
            return Ok(Sign {
                op: PrefixOp::Not,
                place: token.place,
            });
        }
        let token = self.take(Class::MinusSign)?;
        Ok(Sign {
            op: PrefixOp::Minus,
            place: token.place,
        })
    }

    /// The signs before an operand, as many as stand there.
    #[tactic(auto, unfolding(qvt_language::specs::Reading::more_signs_at))]
    pub fn more_signs(&mut self) -> Result<Seq<Sign>, ParseError>
        ensures gives { Gives same result (toks self.new) (more_signs_at (toks self.old)) }
        ensures fewer { length (toks self.new) ≤ length (toks self.old) }
    {
        let mut signs = Seq::new(self.alloc);
        while self.at_sign() {
            let sign = self.sign()?;
            signs.push(sign)?;
        }
        Ok(signs)
    }

    /// `<`, `<=`, `>` or `>=`.
    pub fn relation_operator(&mut self) -> Result<SyntaxToken<'a>, ParseError>
        ensures gives { Gives tok_of result (toks self.new) (operator_at 2 (toks self.old)) }
        ensures fewer { length (toks self.new) ≤ length (toks self.old) }
        ensures less { OnOk result (length (toks self.new) < length (toks self.old)) }
    {
        if self.at(Class::LessSign) {
            return self.take(Class::LessSign);
        }
        if self.at(Class::AtMost) {
            return self.take(Class::AtMost);
        }
        if self.at(Class::GreaterSign) {
            return self.take(Class::GreaterSign);
        }
        self.take(Class::AtLeast)
    }

    /// `=`, `==`, `<>` or `!=`.
    pub fn equality_operator(&mut self) -> Result<SyntaxToken<'a>, ParseError>
        ensures gives { Gives tok_of result (toks self.new) (operator_at 3 (toks self.old)) }
        ensures fewer { length (toks self.new) ≤ length (toks self.old) }
        ensures less { OnOk result (length (toks self.new) < length (toks self.old)) }
    {
        if self.at(Class::EqualSign) {
            return self.take(Class::EqualSign);
        }
        if self.at(Class::DoubleEqual) {
            return self.take(Class::DoubleEqual);
        }
        if self.at(Class::Diamond) {
            return self.take(Class::Diamond);
        }
        self.take(Class::BangEqual)
    }

    /// An operator of the level, from 0 for `*` to 7.
    pub fn operator(&mut self, level: usize) -> Result<SyntaxToken<'a>, ParseError>
        requires { level < 8 }
        ensures gives { Gives tok_of result (toks self.new) (operator_at level (toks self.old)) }
        ensures fewer { length (toks self.new) ≤ length (toks self.old) }
        ensures less { OnOk result (length (toks self.new) < length (toks self.old)) }
    {
        match level {
            0 => self.take(Class::Star),
            1 => {
                if self.at(Class::PlusSign) {
                    return self.take(Class::PlusSign);
                }
                self.take(Class::MinusSign)
            }
            2 => self.relation_operator(),
            3 => self.equality_operator(),
            4 => self.take(Class::AndWord),
            5 => self.take(Class::OrWord),
            6 => self.take(Class::XorWord),
            _ => self.take(Class::ImpliesWord),
        }
    }

    /// Whether an operator of the level is next.
    pub fn at_operator(&self, level: usize) -> bool
        requires { level < 8 }
        ensures { result ≡ starts (of (operators level)) (toks self.now) }
    {
        match level {
            0 => self.at(Class::Star),
            1 => self.at(Class::MinusSign) || self.at(Class::PlusSign),
            2 => self.at(Class::AtLeast)
                || self.at(Class::GreaterSign)
                || self.at(Class::AtMost)
                || self.at(Class::LessSign),
            3 => self.at(Class::BangEqual)
                || self.at(Class::Diamond)
                || self.at(Class::DoubleEqual)
                || self.at(Class::EqualSign),
            4 => self.at(Class::AndWord),
            5 => self.at(Class::OrWord),
            6 => self.at(Class::XorWord),
            _ => self.at(Class::ImpliesWord),
        }
    }

    /// Whether a resolve expression begins that is late or names a mapping.
    fn at_late(&self) -> bool
        ensures { result ≡ starts (of late_first) (toks self.now) }
    {
        self.at(Class::ResolveOneInWord)
            || self.at(Class::ResolveInWord)
            || self.at(Class::LateWord)
            || self.at(Class::InvResolveOneInWord)
            || self.at(Class::InvResolveInWord)
    }

    /// Whether a resolve expression begins.
    fn at_resolve(&self) -> bool
        ensures { result ≡ starts (of resolve_first) (toks self.now) }
    {
        if self.at_all() {
            return true;
        }
        self.at_late()
    }

    /// Whether a collection, an object or a mapping call begins.
    fn at_maker(&self) -> bool
        ensures { result ≡ starts (of maker_first) (toks self.now) }
    {
        self.at(Class::XmapWord)
            || self.at(Class::SetWord)
            || self.at(Class::SequenceWord)
            || self.at(Class::OrderedSetWord)
            || self.at(Class::ObjectWord)
            || self.at(Class::NewWord)
            || self.at(Class::MapWord)
            || self.at(Class::BagWord)
    }

    /// Whether a name, a bracket or an expression of one word begins.
    fn at_plain(&self) -> bool
        ensures { result ≡ starts (of plain_first) (toks self.now) }
    {
        self.at(Class::SelfWord)
            || self.at(Class::ResultWord)
            || self.at(Class::NullWord)
            || self.at(Class::OpenRound)
            || self.at(Class::Name)
    }

    /// Whether a primary begins that is no `if`.
    fn at_primary(&self) -> bool
        ensures { result ≡ starts (of primary_first) (toks self.now) }
    {
        if self.at_literal() {
            return true;
        }
        if self.at_plain() {
            return true;
        }
        if self.at_maker() {
            return true;
        }
        self.at_resolve()
    }

    /// Whether a sign or an `if` is next.
    fn at_front(&self) -> bool
        ensures { result ≡ starts (of front_first) (toks self.now) }
    {
        self.at(Class::NotWord) || self.at(Class::IfWord) || self.at(Class::MinusSign)
    }

    /// Whether an expression begins.
    pub fn at_expr(&self) -> bool
        ensures { result ≡ starts (of expr_first) (toks self.now) }
    {
        if self.at_primary() {
            return true;
        }
        self.at_front()
    }

    /// Whether a statement begins that is no expression.
    fn at_simple(&self) -> bool
        ensures { result ≡ starts (of simple_first) (toks self.now) }
    {
        self.at(Class::WhileWord)
            || self.at(Class::VarWord)
            || self.at(Class::ReturnWord)
            || self.at(Class::Semicolon)
    }

    /// Whether an item of a block begins.
    pub fn at_stmt(&self) -> bool
        ensures { result ≡ starts (of stmt_first) (toks self.now) }
    {
        if self.at_expr() {
            return true;
        }
        self.at_simple()
    }
}
