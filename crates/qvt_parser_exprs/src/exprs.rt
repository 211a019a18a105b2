ghost use Rattle.std.specs.Prelude.{◌<◌, ◌≤◌, length, OnOk};
ghost use Rattle.qvt_grammar.specs.Reader.{made_at, then_at, choose_at, many_at, maybe_at};
ghost use Rattle.qvt_tree_types.specs.Tree.{MapExpr, ResolveExpr};
ghost use Rattle.qvt_tree_types.specs.View.{expr_view, item_view, filter_view, range_view, map_view, resolve_view};
ghost use Rattle.qvt_language.specs.Tokens.{of, is};
ghost use Rattle.qvt_language.specs.Readers.{the_at};
ghost use Rattle.qvt_language.specs.Firsts.{all_first};
ghost use Rattle.qvt_language.specs.Trees.{second, inner, cons_of, range_of, with_head};
ghost use Rattle.qvt_language.specs.Reading.{expr_at, exprs_at, args_at, named_expr_at, item_at, coll_at, if_expr_at, object_at, new_expr_at, map_call_at, filter_head_at, bar_expr_at, filter_at, all_form_at, in_form_at, resolve_at, longer_at, bare_expr_at, other_primary_at, primary_at, more_exprs_at};
ghost use Rattle.qvt_language.specs.Nesting.{nested_at};
ghost use Rattle.qvt_parser_grammar.specs.Options.{option_view};
ghost use Rattle.qvt_parser_exprs.specs.Views.{boxed_view, first_view, lead_view, exprs_view, items_view, stmts_view, filter_head_view, form_view};
ghost use Rattle.qvt_parser_grammar.specs.Gives.{Gives, toks};

use crate::inside::{Nest, NestedReader};
use crate::leading::{First, Leading};
use crate::made::{bare, boxed, conditional, finish, is_strict, resolve_word, short_list};
use qvt_base::seq::Seq;
use qvt_base::text::Text;
use qvt_language::class::Class;
use qvt_parser_grammar::cursor::{ParseError, Parser};
use qvt_parser_grammar::names::{coll_kind, path_of};
use qvt_tree_types::tree::{Expr, Filter, Item, MapCall, RangeEnd, ResolveCall, Stmts};
use qvt_tree_types::types::{PathTree, TypeTree};
use qvt_tree_types::words::ResolveWord;

impl<N: Nest> NestedReader<N> {
    /// An expression that may still become a target.
    pub fn flagged(&self, parser: &mut Parser<'_>) -> Result<Leading, ParseError>
        ensures gives { Gives lead_view result (toks parser.new) ((nested_at (N.room self.now.nest)).flagged (toks parser.old)) }
        ensures fewer { length (toks parser.new) ≤ length (toks parser.old) }
    {
        self.nest.lead(parser)
    }

    /// A block.
    pub fn block(&self, parser: &mut Parser<'_>) -> Result<Stmts, ParseError>
        ensures gives { Gives stmts_view result (toks parser.new) ((nested_at (N.room self.now.nest)).block (toks parser.old)) }
        ensures fewer { length (toks parser.new) ≤ length (toks parser.old) }
    {
        self.nest.block(parser)
    }

    /// An expression.
    #[tactic(auto, unfolding(qvt_language::specs::Reading::expr_at))]
    pub fn expr(&self, parser: &mut Parser<'_>) -> Result<Expr, ParseError>
        ensures gives { Gives expr_view result (toks parser.new) (expr_at (nested_at (N.room self.now.nest)) (toks parser.old)) }
        ensures fewer { length (toks parser.new) ≤ length (toks parser.old) }
    {
        let lead = self.flagged(parser)?;
        finish(parser.alloc, lead)
    }

    /// The same, on the heap.
    #[tactic(auto, unfolding(qvt_language::specs::Reading::expr_at))]
    pub fn boxed(&self, parser: &mut Parser<'_>) -> Result<Box<Expr>, ParseError>
        ensures gives { Gives boxed_view result (toks parser.new) (expr_at (nested_at (N.room self.now.nest)) (toks parser.old)) }
        ensures fewer { length (toks parser.new) ≤ length (toks parser.old) }
    {
        let lead = self.flagged(parser)?;
        boxed(parser.alloc, lead)
    }

    /// An expression after a token of the class.
    pub fn expr_past(&self, parser: &mut Parser<'_>, class: Class) -> Result<Box<Expr>, ParseError>
        ensures gives { Gives boxed_view result (toks parser.new) (made_at second (then_at (the_at class) (expr_at (nested_at (N.room self.now.nest)))) (toks parser.old)) }
        ensures fewer { length (toks parser.new) ≤ length (toks parser.old) }
        ensures less { OnOk result (length (toks parser.new) < length (toks parser.old)) }
    {
        parser.take(class)?;
        self.boxed(parser)
    }

    /// An expression between a token of each class.
    pub fn enclosed(
        &self,
        parser: &mut Parser<'_>,
        opening: Class,
        closing: Class,
    ) -> Result<Box<Expr>, ParseError>
        ensures gives { Gives boxed_view result (toks parser.new) (made_at inner (then_at (the_at opening) (then_at (expr_at (nested_at (N.room self.now.nest))) (the_at closing))) (toks parser.old)) }
        ensures fewer { length (toks parser.new) ≤ length (toks parser.old) }
        ensures less { OnOk result (length (toks parser.new) < length (toks parser.old)) }
    {
        parser.take(opening)?;
        let expr = self.boxed(parser)?;
        parser.take(closing)?;
        Ok(expr)
    }

    #[tactic(auto, unfolding(qvt_language::specs::Reading::exprs_at, qvt_language::specs::Reading::more_exprs_at))]
    fn exprs(&self, parser: &mut Parser<'_>) -> Result<Seq<Expr>, ParseError>
        ensures gives { Gives exprs_view result (toks parser.new) (exprs_at (nested_at (N.room self.now.nest)) (toks parser.old)) }
        ensures fewer { length (toks parser.new) ≤ length (toks parser.old) }
    {
        let first = self.boxed(parser)?;
        self.exprs_from(parser, first)
    }

    /// The expressions after the first one, with it.
    #[tactic(auto, unfolding(qvt_language::specs::Reading::more_exprs_at))]
    pub fn exprs_from(
        &self,
        parser: &mut Parser<'_>,
        first: Box<Expr>,
    ) -> Result<Seq<Expr>, ParseError>
        ensures gives { Gives exprs_view result (toks parser.new) (made_at (with_head (boxed_view first)) (more_exprs_at (nested_at (N.room self.now.nest))) (toks parser.old)) }
        ensures fewer { length (toks parser.new) ≤ length (toks parser.old) }
    {
        let mut exprs = short_list(parser.alloc, true)?;
        exprs.push(Box::into_inner(first))?;
        while parser.at(Class::Comma) {
            let next = self.expr_past(parser, Class::Comma)?;
            let expr = Box::into_inner(next);
            exprs.push(expr)?;
        }
        Ok(exprs)
    }

    /// Arguments in brackets.
    #[tactic(auto, unfolding(qvt_language::specs::Reading::args_at))]
    pub fn args(&self, parser: &mut Parser<'_>) -> Result<Seq<Expr>, ParseError>
        ensures gives { Gives exprs_view result (toks parser.new) (args_at (nested_at (N.room self.now.nest)) (toks parser.old)) }
        ensures fewer { length (toks parser.new) ≤ length (toks parser.old) }
        ensures less { OnOk result (length (toks parser.new) < length (toks parser.old)) }
    {
        parser.take(Class::OpenRound)?;
        if parser.at(Class::CloseRound) {
            parser.take(Class::CloseRound)?;
            return Ok(Seq::new(parser.alloc));
        }
        let exprs = self.exprs(parser)?;
        parser.take(Class::CloseRound)?;
        Ok(exprs)
    }

    #[tactic(auto, unfolding(qvt_language::specs::Reading::named_expr_at))]
    fn named_expr(&self, parser: &mut Parser<'_>) -> Result<Expr, ParseError>
        ensures gives { Gives expr_view result (toks parser.new) (named_expr_at (nested_at (N.room self.now.nest)) (toks parser.old)) }
        ensures fewer { length (toks parser.new) ≤ length (toks parser.old) }
        ensures less { OnOk result (length (toks parser.new) < length (toks parser.old)) }
    {
        let name = parser.name()?;
        if parser.at(Class::OpenRound) {
            let args = self.args(parser)?;
            return Ok(Expr::Call {
                name: name.text,
                args,
                place: name.place,
            });
        }
        let more = parser.more_names()?;
        let path = path_of(parser.alloc, name, more)?;
        Ok(Expr::Path(path))
    }

    #[inline(never)]
    fn range(&self, parser: &mut Parser<'_>) -> Result<Option<RangeEnd>, ParseError>
        ensures gives { Gives (option_view range_view) result (toks parser.new) (maybe_at (is Class.DotDot) (made_at range_of (then_at (the_at Class.DotDot) (expr_at (nested_at (N.room self.now.nest))))) (toks parser.old)) }
        ensures fewer { length (toks parser.new) ≤ length (toks parser.old) }
    {
        if parser.at(Class::DotDot) {
            let dots = parser.take(Class::DotDot)?;
            let last = self.expr(parser)?;
            return Ok(Some(RangeEnd {
                last,
                place: dots.place,
            }));
        }
        Ok(None)
    }

    #[tactic(auto, unfolding(qvt_language::specs::Reading::item_at))]
    fn item(&self, parser: &mut Parser<'_>) -> Result<Item, ParseError>
        ensures gives { Gives item_view result (toks parser.new) (item_at (nested_at (N.room self.now.nest)) (toks parser.old)) }
        ensures fewer { length (toks parser.new) ≤ length (toks parser.old) }
    {
        let place = parser.place();
        let first = self.boxed(parser)?;
        let last = self.range(parser)?;
        Ok(Item {
            first: Box::into_inner(first),
            last,
            place,
        })
    }

    fn next_item(&self, parser: &mut Parser<'_>) -> Result<Item, ParseError>
        ensures gives { Gives item_view result (toks parser.new) (made_at second (then_at (the_at Class.Comma) (item_at (nested_at (N.room self.now.nest)))) (toks parser.old)) }
        ensures fewer { length (toks parser.new) ≤ length (toks parser.old) }
        ensures less { OnOk result (length (toks parser.new) < length (toks parser.old)) }
    {
        parser.take(Class::Comma)?;
        self.item(parser)
    }

    fn items(&self, parser: &mut Parser<'_>) -> Result<Seq<Item>, ParseError>
        ensures gives { Gives items_view result (toks parser.new) (made_at cons_of (then_at (item_at (nested_at (N.room self.now.nest))) (many_at (is Class.Comma) (made_at second (then_at (the_at Class.Comma) (item_at (nested_at (N.room self.now.nest))))))) (toks parser.old)) }
        ensures fewer { length (toks parser.new) ≤ length (toks parser.old) }
    {
        let mut items = short_list(parser.alloc, true)?;
        let first = self.item(parser)?;
        items.push(first)?;
        while parser.at(Class::Comma) {
            let next = self.next_item(parser)?;
            items.push(next)?;
        }
        Ok(items)
    }

    #[inline(never)]
    #[tactic(auto, unfolding(qvt_language::specs::Reading::coll_at))]
    fn coll(&self, parser: &mut Parser<'_>) -> Result<Expr, ParseError>
        ensures gives { Gives expr_view result (toks parser.new) (coll_at (nested_at (N.room self.now.nest)) (toks parser.old)) }
        ensures fewer { length (toks parser.new) ≤ length (toks parser.old) }
        ensures less { OnOk result (length (toks parser.new) < length (toks parser.old)) }
    {
        let word = parser.kind_word()?;
        parser.take(Class::OpenBrace)?;
        if parser.at(Class::CloseBrace) {
            parser.take(Class::CloseBrace)?;
            return Ok(Expr::Coll {
                kind: coll_kind(word.class),
                items: Seq::new(parser.alloc),
                place: word.place,
            });
        }
        let items = self.items(parser)?;
        parser.take(Class::CloseBrace)?;
        Ok(Expr::Coll {
            kind: coll_kind(word.class),
            items,
            place: word.place,
        })
    }

    #[inline(never)]
    #[tactic(auto, unfolding(qvt_language::specs::Reading::if_expr_at))]
    fn if_expr(&self, parser: &mut Parser<'_>) -> Result<Expr, ParseError>
        ensures gives { Gives expr_view result (toks parser.new) (if_expr_at (nested_at (N.room self.now.nest)) (toks parser.old)) }
        ensures fewer { length (toks parser.new) ≤ length (toks parser.old) }
        ensures less { OnOk result (length (toks parser.new) < length (toks parser.old)) }
    {
        let place = parser.place();
        parser.take(Class::IfWord)?;
        let condition = self.boxed(parser)?;
        let yes = self.expr_past(parser, Class::ThenWord)?;
        let no = self.enclosed(parser, Class::ElseWord, Class::EndifWord)?;
        Ok(conditional(condition, yes, no, place))
    }

    #[inline(never)]
    #[tactic(auto, unfolding(qvt_language::specs::Reading::object_at))]
    fn object(&self, parser: &mut Parser<'_>) -> Result<Expr, ParseError>
        ensures gives { Gives expr_view result (toks parser.new) (object_at (nested_at (N.room self.now.nest)) (toks parser.old)) }
        ensures fewer { length (toks parser.new) ≤ length (toks parser.old) }
        ensures less { OnOk result (length (toks parser.new) < length (toks parser.old)) }
    {
        let word = parser.take(Class::ObjectWord)?;
        let (variable, path) = parser.object_head()?;
        let extent = parser.extent()?;
        let body = self.block(parser)?;
        Ok(Expr::Object {
            variable,
            path,
            extent,
            body,
            place: word.place,
        })
    }

    #[inline(never)]
    #[tactic(auto, unfolding(qvt_language::specs::Reading::new_expr_at))]
    fn new_expr(&self, parser: &mut Parser<'_>) -> Result<Expr, ParseError>
        ensures gives { Gives expr_view result (toks parser.new) (new_expr_at (nested_at (N.room self.now.nest)) (toks parser.old)) }
        ensures fewer { length (toks parser.new) ≤ length (toks parser.old) }
        ensures less { OnOk result (length (toks parser.new) < length (toks parser.old)) }
    {
        let word = parser.take(Class::NewWord)?;
        let path = parser.path()?;
        let extent = parser.extent()?;
        let args = self.args(parser)?;
        Ok(Expr::New {
            path,
            extent,
            args,
            place: word.place,
        })
    }

    /// A mapping call.
    #[inline(never)]
    #[tactic(auto, unfolding(qvt_language::specs::Reading::map_call_at))]
    pub fn map_call(&self, parser: &mut Parser<'_>) -> Result<MapCall, ParseError>
        ensures gives { Gives map_view result (toks parser.new) (map_call_at (nested_at (N.room self.now.nest)) (toks parser.old)) }
        ensures fewer { length (toks parser.new) ≤ length (toks parser.old) }
        ensures less { OnOk result (length (toks parser.new) < length (toks parser.old)) }
    {
        let word = parser.map_word()?;
        let name = parser.name()?;
        let args = self.args(parser)?;
        Ok(MapCall {
            strict: is_strict(word.class),
            name: name.text,
            args,
            place: name.place,
        })
    }

    #[tactic(auto, unfolding(qvt_language::specs::Reading::filter_head_at))]
    fn filter_head(&self, parser: &mut Parser<'_>) -> Result<(Option<Text>, TypeTree), ParseError>
        ensures gives { Gives filter_head_view result (toks parser.new) (filter_head_at (nested_at (N.room self.now.nest)) (toks parser.old)) }
        ensures fewer { length (toks parser.new) ≤ length (toks parser.old) }
        ensures less { OnOk result (length (toks parser.new) < length (toks parser.old)) }
    {
        if parser.at_kind() {
            let kind = parser.coll_type(self.nest.room())?;
            return Ok((None, kind));
        }
        let name = parser.name()?;
        if parser.at(Class::Colon) {
            let kind = parser.colon_type(self.nest.room())?;
            return Ok((Some(name.text), kind));
        }
        let more = parser.more_names()?;
        let path = path_of(parser.alloc, name, more)?;
        Ok((None, TypeTree::Path(path)))
    }

    /// A bar and an expression, or nothing.
    #[tactic(auto, unfolding(qvt_language::specs::Reading::bar_expr_at))]
    pub fn optional_bar(&self, parser: &mut Parser<'_>) -> Result<Option<Expr>, ParseError>
        ensures gives { Gives (option_view expr_view) result (toks parser.new) (maybe_at (is Class.Bar) (bar_expr_at (nested_at (N.room self.now.nest))) (toks parser.old)) }
        ensures fewer { length (toks parser.new) ≤ length (toks parser.old) }
    {
        if parser.at(Class::Bar) {
            let expr = self.expr_past(parser, Class::Bar)?;
            return Ok(Some(Box::into_inner(expr)));
        }
        Ok(None)
    }

    #[tactic(auto, unfolding(qvt_language::specs::Reading::filter_at, qvt_language::specs::Reading::bar_expr_at))]
    fn filter(&self, parser: &mut Parser<'_>) -> Result<Filter, ParseError>
        ensures gives { Gives filter_view result (toks parser.new) (filter_at (nested_at (N.room self.now.nest)) (toks parser.old)) }
        ensures fewer { length (toks parser.new) ≤ length (toks parser.old) }
        ensures less { OnOk result (length (toks parser.new) < length (toks parser.old)) }
    {
        let place = parser.place();
        let (name, kind) = self.filter_head(parser)?;
        if parser.at(Class::Bar) {
            let condition = self.expr_past(parser, Class::Bar)?;
            return Ok(Filter {
                name,
                kind,
                condition: Some(condition),
                place,
            });
        }
        Ok(Filter {
            name,
            kind,
            condition: None,
            place,
        })
    }

    fn next_filter(&self, parser: &mut Parser<'_>) -> Result<Option<Filter>, ParseError>
        ensures gives { Gives (option_view filter_view) result (toks parser.new) (maybe_at (is Class.Comma) (made_at second (then_at (the_at Class.Comma) (filter_at (nested_at (N.room self.now.nest))))) (toks parser.old)) }
        ensures fewer { length (toks parser.new) ≤ length (toks parser.old) }
    {
        if parser.at(Class::Comma) {
            parser.take(Class::Comma)?;
            let filter = self.filter(parser)?;
            return Ok(Some(filter));
        }
        Ok(None)
    }

    #[tactic(auto, unfolding(qvt_language::specs::Reading::all_form_at))]
    fn all_form(
        &self,
        parser: &mut Parser<'_>,
    ) -> Result<(ResolveWord, (Option<PathTree>, Option<Filter>)), ParseError>
        ensures gives { Gives form_view result (toks parser.new) (all_form_at (nested_at (N.room self.now.nest)) (toks parser.old)) }
        ensures fewer { length (toks parser.new) ≤ length (toks parser.old) }
        ensures less { OnOk result (length (toks parser.new) < length (toks parser.old)) }
    {
        let word = parser.all_word()?;
        parser.take(Class::OpenRound)?;
        let filter = self.filter(parser)?;
        parser.take(Class::CloseRound)?;
        Ok((resolve_word(word.class), (None, Some(filter))))
    }

    #[tactic(auto, unfolding(qvt_language::specs::Reading::in_form_at))]
    fn in_form(
        &self,
        parser: &mut Parser<'_>,
    ) -> Result<(ResolveWord, (Option<PathTree>, Option<Filter>)), ParseError>
        ensures gives { Gives form_view result (toks parser.new) (in_form_at (nested_at (N.room self.now.nest)) (toks parser.old)) }
        ensures fewer { length (toks parser.new) ≤ length (toks parser.old) }
        ensures less { OnOk result (length (toks parser.new) < length (toks parser.old)) }
    {
        let word = parser.in_word()?;
        parser.take(Class::OpenRound)?;
        let path = parser.path()?;
        let filter = self.next_filter(parser)?;
        parser.take(Class::CloseRound)?;
        Ok((resolve_word(word.class), (Some(path), filter)))
    }

    fn form(
        &self,
        parser: &mut Parser<'_>,
    ) -> Result<(ResolveWord, (Option<PathTree>, Option<Filter>)), ParseError>
        ensures gives { Gives form_view result (toks parser.new) (choose_at (of all_first) (all_form_at (nested_at (N.room self.now.nest))) (in_form_at (nested_at (N.room self.now.nest))) (toks parser.old)) }
        ensures fewer { length (toks parser.new) ≤ length (toks parser.old) }
        ensures less { OnOk result (length (toks parser.new) < length (toks parser.old)) }
    {
        if parser.at_all() {
            return self.all_form(parser);
        }
        self.in_form(parser)
    }

    /// A resolve, with `late` or without.
    #[inline(never)]
    #[tactic(auto, unfolding(qvt_language::specs::Reading::resolve_at))]
    pub fn resolve(&self, parser: &mut Parser<'_>) -> Result<ResolveCall, ParseError>
        ensures gives { Gives resolve_view result (toks parser.new) (resolve_at (nested_at (N.room self.now.nest)) (toks parser.old)) }
        ensures fewer { length (toks parser.new) ≤ length (toks parser.old) }
        ensures less { OnOk result (length (toks parser.new) < length (toks parser.old)) }
    {
        let place = parser.place();
        let late = parser.at(Class::LateWord);
        if late {
            parser.take(Class::LateWord)?;
        }
        let (word, (within, filter)) = self.form(parser)?;
        Ok(ResolveCall {
            late,
            word,
            within,
            filter,
            place,
        })
    }

    #[tactic(auto, unfolding(qvt_language::specs::Reading::bare_expr_at))]
    fn bare_expr(&self, parser: &mut Parser<'_>) -> Result<Expr, ParseError>
        ensures gives { Gives expr_view result (toks parser.new) (bare_expr_at (nested_at (N.room self.now.nest)) (toks parser.old)) }
        ensures fewer { length (toks parser.new) ≤ length (toks parser.old) }
        ensures less { OnOk result (length (toks parser.new) < length (toks parser.old)) }
    {
        if parser.at_literal() {
            return parser.literal();
        }
        if parser.at_word() {
            return parser.word();
        }
        if parser.at(Class::Name) {
            return self.named_expr(parser);
        }
        self.longer(parser)
    }

    #[inline(never)]
    #[tactic(auto, unfolding(qvt_language::specs::Reading::longer_at))]
    fn longer(&self, parser: &mut Parser<'_>) -> Result<Expr, ParseError>
        ensures gives { Gives expr_view result (toks parser.new) (longer_at (nested_at (N.room self.now.nest)) (toks parser.old)) }
        ensures fewer { length (toks parser.new) ≤ length (toks parser.old) }
        ensures less { OnOk result (length (toks parser.new) < length (toks parser.old)) }
    {
        if parser.at_kind() {
            return self.coll(parser);
        }
        if parser.at(Class::ObjectWord) {
            return self.object(parser);
        }
        if parser.at(Class::NewWord) {
            return self.new_expr(parser);
        }
        if parser.at_map() {
            return self.map_expr(parser);
        }
        self.resolve_expr(parser)
    }

    fn map_expr(&self, parser: &mut Parser<'_>) -> Result<Expr, ParseError>
        ensures gives { Gives expr_view result (toks parser.new) (made_at MapExpr (map_call_at (nested_at (N.room self.now.nest))) (toks parser.old)) }
        ensures fewer { length (toks parser.new) ≤ length (toks parser.old) }
        ensures less { OnOk result (length (toks parser.new) < length (toks parser.old)) }
    {
        let call = self.map_call(parser)?;
        Ok(Expr::Map(call))
    }

    fn resolve_expr(&self, parser: &mut Parser<'_>) -> Result<Expr, ParseError>
        ensures gives { Gives expr_view result (toks parser.new) (made_at ResolveExpr (resolve_at (nested_at (N.room self.now.nest))) (toks parser.old)) }
        ensures fewer { length (toks parser.new) ≤ length (toks parser.old) }
        ensures less { OnOk result (length (toks parser.new) < length (toks parser.old)) }
    {
        let call = self.resolve(parser)?;
        Ok(Expr::Resolve(call))
    }

    /// A primary that is no `if`: such a one may begin a statement.
    #[tactic(auto, unfolding(qvt_language::specs::Reading::other_primary_at, qvt_language::specs::Reading::brackets_at))]
    pub fn other_primary(&self, parser: &mut Parser<'_>) -> Result<First, ParseError>
        ensures gives { Gives first_view result (toks parser.new) (other_primary_at (nested_at (N.room self.now.nest)) (toks parser.old)) }
        ensures fewer { length (toks parser.new) ≤ length (toks parser.old) }
        ensures less { OnOk result (length (toks parser.new) < length (toks parser.old)) }
    {
        if parser.at(Class::OpenRound) {
            let expr = self.enclosed(parser, Class::OpenRound, Class::CloseRound)?;
            return Ok(First { expr, bare: false });
        }
        let expr = self.bare_expr(parser)?;
        bare(parser.alloc, expr)
    }

    /// What stands before steps and between operators.
    #[tactic(auto, unfolding(qvt_language::specs::Reading::primary_at))]
    pub fn primary(&self, parser: &mut Parser<'_>) -> Result<First, ParseError>
        ensures gives { Gives first_view result (toks parser.new) (primary_at (nested_at (N.room self.now.nest)) (toks parser.old)) }
        ensures fewer { length (toks parser.new) ≤ length (toks parser.old) }
        ensures less { OnOk result (length (toks parser.new) < length (toks parser.old)) }
    {
        if parser.at(Class::IfWord) {
            let expr = self.if_expr(parser)?;
            return bare(parser.alloc, expr);
        }
        self.other_primary(parser)
    }
}
