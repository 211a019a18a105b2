ghost use Rattle.std.specs.Prelude.{◌≡◌, ◌<◌, ◌≤◌, ◌∷◌, [], length, OnOk};
ghost use Rattle.qvt_grammar.specs.Reader.{starts, made_at, then_at, choose_at, many_at, maybe_at};
ghost use Rattle.qvt_tree_types.specs.View.{expr_view};
ghost use Rattle.qvt_tree_types.specs.Module.{param_view, field_view, unit_view, module_view};
ghost use Rattle.qvt_language.specs.Tokens.{of, is, tok_of, code_of};
ghost use Rattle.qvt_language.specs.Readers.{the_at};
ghost use Rattle.qvt_language.specs.Firsts.{clause_first, unit_first};
ghost use Rattle.qvt_language.specs.Trees.{second, cons_of, nothing, text_of};
ghost use Rattle.qvt_language.specs.UnitTrees.{sections_of, read_words, some_unit, units_of, mapping_of, no_clauses};
ghost use Rattle.qvt_language.specs.Reading.{paths_at, unit_path_at};
ghost use Rattle.qvt_language.specs.ReadingUnits.{param_at, params_at, feature_at, features_at, class_unit_at, main_unit_at, helper_body_at, helper_unit_at, constructor_unit_at, result_decl_at, when_clause_at, clause_at, init_part_at, end_part_at, sections_at, body_at, fresh_at, clauses_at, mapping_unit_at, unit_at, strictness_at, uri_at, model_type_at, model_param_at, header_at, transformation_at};
ghost use Rattle.qvt_language.specs.Nesting.{nested_at};
ghost use Rattle.qvt_parser_grammar.specs.Options.{option_view};
ghost use Rattle.qvt_parser_grammar.specs.Gives.{Gives, toks, same};
ghost use Rattle.qvt_parser_exprs.specs.Views.{stmts_view};
ghost use Rattle.qvt_parser_units.specs.Adding.{turn_view, AddsTurn};
ghost use Rattle.qvt_parser_units.specs.UnitViews.{params_view, fields_view, units_view, clause_view, clauses_view, sections_view, body_view};

use crate::clauses::{
    Body, Clause, Clauses, direction_of, is_query, mapping, no_clauses, one_return, paths_or_none,
    stmts_or_none, with_clause,
};
use qvt_base::numbers::Place;
use qvt_base::seq::Seq;
use qvt_base::text::Text;
use qvt_language::class::Class;
use qvt_language::token::SyntaxToken;
use qvt_parser_grammar::cursor::{ParseError, Parser};
use qvt_parser_stmts::nested::{block, expr, statements};
use qvt_tree_types::module::{
    ClassDecl, Field, Helper, ModelParam, ModelType, Module, Param, ResultDecl, Unit,
};
use qvt_tree_types::tree::{Expr, Stmt};
use qvt_tree_types::types::PathTree;

#[tactic(auto, unfolding(qvt_language::specs::ReadingUnits::param_at))]
fn param(parser: &mut Parser<'_>, room: usize) -> Result<Param, ParseError>
    ensures gives { Gives param_view result (toks parser.new) (param_at (nested_at room) (toks parser.old)) }
    ensures fewer { length (toks parser.new) ≤ length (toks parser.old) }
    ensures less { OnOk result (length (toks parser.new) < length (toks parser.old)) }
{
    let place = parser.place();
    parser.skip(Class::InWord);
    let name = parser.name()?;
    let kind = parser.colon_type(room)?;
    Ok(Param {
        name: name.text,
        kind,
        place,
    })
}

fn next_param(parser: &mut Parser<'_>, room: usize) -> Result<Param, ParseError>
    ensures gives { Gives param_view result (toks parser.new) (made_at second (then_at (the_at Class.Comma) (param_at (nested_at room))) (toks parser.old)) }
    ensures fewer { length (toks parser.new) ≤ length (toks parser.old) }
    ensures less { OnOk result (length (toks parser.new) < length (toks parser.old)) }
{
    parser.take(Class::Comma)?;
    param(parser, room)
}

fn some_params(parser: &mut Parser<'_>, room: usize) -> Result<Seq<Param>, ParseError>
    ensures gives { Gives params_view result (toks parser.new) (made_at cons_of (then_at (param_at (nested_at room)) (many_at (is Class.Comma) (made_at second (then_at (the_at Class.Comma) (param_at (nested_at room)))))) (toks parser.old)) }
    ensures fewer { length (toks parser.new) ≤ length (toks parser.old) }
    ensures less { OnOk result (length (toks parser.new) < length (toks parser.old)) }
{
    let mut params = Seq::new(parser.alloc);
    let first = param(parser, room)?;
    params.push(first)?;
    while parser.at(Class::Comma) {
        let next = next_param(parser, room)?;
        params.push(next)?;
    }
    Ok(params)
}

#[tactic(auto, unfolding(qvt_language::specs::ReadingUnits::params_at))]
fn params(parser: &mut Parser<'_>, room: usize) -> Result<Seq<Param>, ParseError>
    ensures gives { Gives params_view result (toks parser.new) (params_at (nested_at room) (toks parser.old)) }
    ensures fewer { length (toks parser.new) ≤ length (toks parser.old) }
    ensures less { OnOk result (length (toks parser.new) < length (toks parser.old)) }
{
    parser.take(Class::OpenRound)?;
    if parser.at(Class::CloseRound) {
        parser.take(Class::CloseRound)?;
        return Ok(Seq::new(parser.alloc));
    }
    let params = some_params(parser, room)?;
    parser.take(Class::CloseRound)?;
    Ok(params)
}

#[tactic(auto, unfolding(qvt_language::specs::ReadingUnits::feature_at))]
fn feature(parser: &mut Parser<'_>, room: usize) -> Result<Field, ParseError>
    ensures gives { Gives field_view result (toks parser.new) (feature_at (nested_at room) (toks parser.old)) }
    ensures fewer { length (toks parser.new) ≤ length (toks parser.old) }
    ensures less { OnOk result (length (toks parser.new) < length (toks parser.old)) }
{
    let name = parser.name()?;
    let kind = parser.colon_type(room)?;
    parser.take(Class::Semicolon)?;
    Ok(Field {
        name: name.text,
        kind,
        place: name.place,
    })
}

fn some_features(parser: &mut Parser<'_>, room: usize) -> Result<Seq<Field>, ParseError>
    ensures gives { Gives fields_view result (toks parser.new) (many_at (is Class.Name) (feature_at (nested_at room)) (toks parser.old)) }
    ensures fewer { length (toks parser.new) ≤ length (toks parser.old) }
{
    let mut features = Seq::new(parser.alloc);
    while parser.at(Class::Name) {
        let feature = feature(parser, room)?;
        features.push(feature)?;
    }
    Ok(features)
}

#[tactic(auto, unfolding(qvt_language::specs::ReadingUnits::features_at))]
fn features(parser: &mut Parser<'_>, room: usize) -> Result<Seq<Field>, ParseError>
    ensures gives { Gives fields_view result (toks parser.new) (features_at (nested_at room) (toks parser.old)) }
    ensures fewer { length (toks parser.new) ≤ length (toks parser.old) }
    ensures less { OnOk result (length (toks parser.new) < length (toks parser.old)) }
{
    parser.take(Class::OpenBrace)?;
    let features = some_features(parser, room)?;
    parser.take(Class::CloseBrace)?;
    Ok(features)
}

fn paths_after(parser: &mut Parser<'_>, class: Class) -> Result<Seq<PathTree>, ParseError>
    ensures gives { Gives same result (toks parser.new) (made_at second (then_at (the_at class) paths_at) (toks parser.old)) }
    ensures fewer { length (toks parser.new) ≤ length (toks parser.old) }
    ensures less { OnOk result (length (toks parser.new) < length (toks parser.old)) }
{
    parser.take(class)?;
    parser.paths()
}

fn supers(parser: &mut Parser<'_>) -> Result<Option<Seq<PathTree>>, ParseError>
    ensures gives { Gives same result (toks parser.new) (maybe_at (is Class.ExtendsWord) (made_at second (then_at (the_at Class.ExtendsWord) paths_at)) (toks parser.old)) }
    ensures fewer { length (toks parser.new) ≤ length (toks parser.old) }
{
    if parser.at(Class::ExtendsWord) {
        let paths = paths_after(parser, Class::ExtendsWord)?;
        return Ok(Some(paths));
    }
    Ok(None)
}

#[tactic(auto, unfolding(qvt_language::specs::ReadingUnits::class_unit_at))]
fn class_unit(parser: &mut Parser<'_>, room: usize) -> Result<Unit, ParseError>
    ensures gives { Gives unit_view result (toks parser.new) (class_unit_at (nested_at room) (toks parser.old)) }
    ensures fewer { length (toks parser.new) ≤ length (toks parser.old) }
    ensures less { OnOk result (length (toks parser.new) < length (toks parser.old)) }
{
    let place = parser.place();
    parser.take(Class::IntermediateWord)?;
    parser.take(Class::ClassWord)?;
    let name = parser.name()?;
    let supers = supers(parser)?;
    let features = features(parser, room)?;
    let supers = paths_or_none(parser.alloc, supers);
    Ok(Unit::Class(ClassDecl {
        name: name.text,
        supers,
        features,
        place,
    }))
}

#[tactic(auto, unfolding(qvt_language::specs::ReadingUnits::main_unit_at))]
fn main_unit(parser: &mut Parser<'_>, room: usize) -> Result<Unit, ParseError>
    ensures gives { Gives unit_view result (toks parser.new) (main_unit_at (nested_at room) (toks parser.old)) }
    ensures fewer { length (toks parser.new) ≤ length (toks parser.old) }
    ensures less { OnOk result (length (toks parser.new) < length (toks parser.old)) }
{
    let place = parser.place();
    parser.take(Class::MainWord)?;
    parser.take(Class::OpenRound)?;
    parser.take(Class::CloseRound)?;
    let body = block(parser, room)?;
    Ok(Unit::Main(body, place))
}

#[tactic(auto, unfolding(qvt_language::specs::ReadingUnits::helper_body_at))]
fn helper_body(parser: &mut Parser<'_>, room: usize) -> Result<Seq<Stmt>, ParseError>
    ensures gives { Gives stmts_view result (toks parser.new) (helper_body_at (nested_at room) (toks parser.old)) }
    ensures fewer { length (toks parser.new) ≤ length (toks parser.old) }
{
    if parser.at(Class::EqualSign) {
        let sign = parser.take(Class::EqualSign)?;
        let value = expr(parser, room)?;
        parser.take(Class::Semicolon)?;
        return one_return(parser.alloc, value, sign.place);
    }
    block(parser, room)
}

fn helper_word<'a>(parser: &mut Parser<'a>) -> Result<SyntaxToken<'a>, ParseError>
    ensures gives { Gives tok_of result (toks parser.new) (choose_at (is Class.HelperWord) (the_at Class.HelperWord) (the_at Class.QueryWord) (toks parser.old)) }
    ensures fewer { length (toks parser.new) ≤ length (toks parser.old) }
    ensures less { OnOk result (length (toks parser.new) < length (toks parser.old)) }
{
    if parser.at(Class::HelperWord) {
        return parser.take(Class::HelperWord);
    }
    parser.take(Class::QueryWord)
}

#[tactic(auto, unfolding(qvt_language::specs::ReadingUnits::helper_unit_at))]
fn helper_unit(parser: &mut Parser<'_>, room: usize) -> Result<Unit, ParseError>
    ensures gives { Gives unit_view result (toks parser.new) (helper_unit_at (nested_at room) (toks parser.old)) }
    ensures fewer { length (toks parser.new) ≤ length (toks parser.old) }
    ensures less { OnOk result (length (toks parser.new) < length (toks parser.old)) }
{
    let word = helper_word(parser)?;
    let path = parser.unit_path()?;
    let params = params(parser, room)?;
    let answer = parser.optional_type(room)?;
    let body = helper_body(parser, room)?;
    Ok(Unit::Helper(Helper {
        pure: is_query(word.class),
        path: path.names,
        params,
        answer,
        body,
        place: path.place,
    }))
}

#[tactic(auto, unfolding(qvt_language::specs::ReadingUnits::constructor_unit_at))]
fn constructor_unit(parser: &mut Parser<'_>, room: usize) -> Result<Unit, ParseError>
    ensures gives { Gives unit_view result (toks parser.new) (constructor_unit_at (nested_at room) (toks parser.old)) }
    ensures fewer { length (toks parser.new) ≤ length (toks parser.old) }
    ensures less { OnOk result (length (toks parser.new) < length (toks parser.old)) }
{
    parser.take(Class::ConstructorWord)?;
    let path = parser.unit_path()?;
    let params = params(parser, room)?;
    let body = block(parser, room)?;
    Ok(Unit::Constructor(Helper {
        pure: false,
        path: path.names,
        params,
        answer: None,
        body,
        place: path.place,
    }))
}

#[tactic(auto, unfolding(qvt_language::specs::ReadingUnits::result_decl_at))]
fn result_decl(parser: &mut Parser<'_>) -> Result<ResultDecl, ParseError>
    ensures gives { Gives same result (toks parser.new) (result_decl_at (toks parser.old)) }
    ensures fewer { length (toks parser.new) ≤ length (toks parser.old) }
    ensures less { OnOk result (length (toks parser.new) < length (toks parser.old)) }
{
    parser.take(Class::Colon)?;
    let path = parser.path()?;
    let extent = parser.extent()?;
    let place = path.place;
    Ok(ResultDecl {
        path,
        extent,
        place,
    })
}

fn optional_result(parser: &mut Parser<'_>) -> Result<Option<ResultDecl>, ParseError>
    ensures gives { Gives same result (toks parser.new) (maybe_at (is Class.Colon) result_decl_at (toks parser.old)) }
    ensures fewer { length (toks parser.new) ≤ length (toks parser.old) }
{
    if parser.at(Class::Colon) {
        let result = result_decl(parser)?;
        return Ok(Some(result));
    }
    Ok(None)
}

#[tactic(auto, unfolding(qvt_language::specs::ReadingUnits::when_clause_at))]
fn when_clause(parser: &mut Parser<'_>, room: usize) -> Result<Expr, ParseError>
    ensures gives { Gives expr_view result (toks parser.new) (when_clause_at (nested_at room) (toks parser.old)) }
    ensures fewer { length (toks parser.new) ≤ length (toks parser.old) }
    ensures less { OnOk result (length (toks parser.new) < length (toks parser.old)) }
{
    parser.take(Class::WhenWord)?;
    parser.take(Class::OpenBrace)?;
    let condition = expr(parser, room)?;
    parser.skip(Class::Semicolon);
    parser.take(Class::CloseBrace)?;
    Ok(condition)
}

#[tactic(auto, unfolding(qvt_language::specs::ReadingUnits::clause_at))]
fn clause(parser: &mut Parser<'_>, room: usize) -> Result<Clause, ParseError>
    ensures gives { Gives clause_view result (toks parser.new) (clause_at (nested_at room) (toks parser.old)) }
    ensures fewer { length (toks parser.new) ≤ length (toks parser.old) }
    ensures less { OnOk result (length (toks parser.new) < length (toks parser.old)) }
{
    if parser.at(Class::InheritsWord) {
        let paths = paths_after(parser, Class::InheritsWord)?;
        return Ok(Clause::Inherits(paths));
    }
    if parser.at(Class::MergesWord) {
        let paths = paths_after(parser, Class::MergesWord)?;
        return Ok(Clause::Merges(paths));
    }
    if parser.at(Class::DisjunctsWord) {
        let paths = paths_after(parser, Class::DisjunctsWord)?;
        return Ok(Clause::Disjuncts(paths));
    }
    let condition = when_clause(parser, room)?;
    Ok(Clause::When(condition))
}

/// Whether the next token begins a clause of a kind that was read.
fn at_read(parser: &Parser<'_>, clauses: &Clauses) -> bool
    ensures { result ≡ starts (of (read_words (clauses_view clauses.now))) (toks parser.now) }
{
    (parser.at(Class::InheritsWord) && clauses.inherits.is_some())
        || (parser.at(Class::MergesWord) && clauses.merges.is_some())
        || (parser.at(Class::DisjunctsWord) && clauses.disjuncts.is_some())
        || (parser.at(Class::WhenWord) && clauses.condition.is_some())
}

fn at_clause(parser: &Parser<'_>) -> bool
    ensures { result ≡ starts (of clause_first) (toks parser.now) }
{
    parser.at(Class::WhenWord)
        || parser.at(Class::MergesWord)
        || parser.at(Class::InheritsWord)
        || parser.at(Class::DisjunctsWord)
}

fn at_unit(parser: &Parser<'_>) -> bool
    ensures { result ≡ starts (of unit_first) (toks parser.now) }
{
    parser.at(Class::QueryWord)
        || parser.at(Class::MappingWord)
        || parser.at(Class::MainWord)
        || parser.at(Class::IntermediateWord)
        || parser.at(Class::HelperWord)
        || parser.at(Class::ConstructorWord)
        || parser.at(Class::Semicolon)
}

/// The clauses of a mapping, each kind once. `left` counts the kinds that may still come.
fn more_clauses(
    parser: &mut Parser<'_>,
    left: usize,
    clauses: Clauses,
    room: usize,
) -> Result<Clauses, ParseError>
    ensures gives { Gives clauses_view result (toks parser.new) (clauses_at (nested_at room) left (clauses_view clauses) (toks parser.old)) }
    ensures fewer { length (toks parser.new) ≤ length (toks parser.old) }
{
    if left == 0 || !at_clause(parser) {
        return Ok(clauses);
    }
    let clauses = fresh(parser, clauses, room)?;
    more_clauses(parser, left - 1, clauses, room)
}

fn fresh(parser: &mut Parser<'_>, clauses: Clauses, room: usize) -> Result<Clauses, ParseError>
    ensures gives { Gives clauses_view result (toks parser.new) (fresh_at (nested_at room) (clauses_view clauses) (toks parser.old)) }
    ensures fewer { length (toks parser.new) ≤ length (toks parser.old) }
{
    if at_read(parser, &clauses) {
        return Err(ParseError::Syntax);
    }
    let clause = clause(parser, room)?;
    Ok(with_clause(clauses, clause))
}

#[tactic(auto, unfolding(qvt_language::specs::ReadingUnits::init_part_at))]
fn init_part(parser: &mut Parser<'_>, room: usize) -> Result<Option<Seq<Stmt>>, ParseError>
    ensures gives { Gives (option_view stmts_view) result (toks parser.new) (maybe_at (is Class.InitWord) (init_part_at (nested_at room)) (toks parser.old)) }
    ensures fewer { length (toks parser.new) ≤ length (toks parser.old) }
{
    if parser.at(Class::InitWord) {
        parser.take(Class::InitWord)?;
        let stmts = block(parser, room)?;
        return Ok(Some(stmts));
    }
    Ok(None)
}

#[tactic(auto, unfolding(qvt_language::specs::ReadingUnits::end_part_at))]
fn end_part(parser: &mut Parser<'_>, room: usize) -> Result<Option<Seq<Stmt>>, ParseError>
    ensures gives { Gives (option_view stmts_view) result (toks parser.new) (maybe_at (is Class.EndWord) (end_part_at (nested_at room)) (toks parser.old)) }
    ensures fewer { length (toks parser.new) ≤ length (toks parser.old) }
{
    if parser.at(Class::EndWord) {
        parser.take(Class::EndWord)?;
        let stmts = block(parser, room)?;
        return Ok(Some(stmts));
    }
    Ok(None)
}

fn population(parser: &mut Parser<'_>, room: usize) -> Result<(Seq<Stmt>, Seq<Stmt>), ParseError>
    ensures gives { Gives sections_view result (toks parser.new) (made_at sections_of (made_at second (then_at (the_at Class.PopulationWord) (then_at (nested_at room).block (maybe_at (is Class.EndWord) (end_part_at (nested_at room)))))) (toks parser.old)) }
    ensures fewer { length (toks parser.new) ≤ length (toks parser.old) }
    ensures less { OnOk result (length (toks parser.new) < length (toks parser.old)) }
{
    parser.take(Class::PopulationWord)?;
    let population = block(parser, room)?;
    let finish = end_part(parser, room)?;
    let finish = stmts_or_none(parser.alloc, finish);
    Ok((population, finish))
}

#[tactic(auto, unfolding(qvt_language::specs::ReadingUnits::sections_at))]
fn sections(parser: &mut Parser<'_>, room: usize) -> Result<(Seq<Stmt>, Seq<Stmt>), ParseError>
    ensures gives { Gives sections_view result (toks parser.new) (sections_at (nested_at room) (toks parser.old)) }
    ensures fewer { length (toks parser.new) ≤ length (toks parser.old) }
{
    if parser.at(Class::PopulationWord) {
        return population(parser, room);
    }
    let ended = statements(parser, room)?;
    if ended.open_end {
        return Ok((ended.stmts, Seq::new(parser.alloc)));
    }
    let finish = end_part(parser, room)?;
    let finish = stmts_or_none(parser.alloc, finish);
    Ok((ended.stmts, finish))
}

#[tactic(auto, unfolding(qvt_language::specs::ReadingUnits::body_at))]
fn body(parser: &mut Parser<'_>, room: usize) -> Result<Body, ParseError>
    ensures gives { Gives body_view result (toks parser.new) (body_at (nested_at room) (toks parser.old)) }
    ensures fewer { length (toks parser.new) ≤ length (toks parser.old) }
    ensures less { OnOk result (length (toks parser.new) < length (toks parser.old)) }
{
    if parser.at(Class::Semicolon) {
        parser.take(Class::Semicolon)?;
        return Ok(Body {
            init: Seq::new(parser.alloc),
            population: Seq::new(parser.alloc),
            finish: Seq::new(parser.alloc),
        });
    }
    parser.take(Class::OpenBrace)?;
    let init = init_part(parser, room)?;
    let (population, finish) = sections(parser, room)?;
    parser.take(Class::CloseBrace)?;
    let init = stmts_or_none(parser.alloc, init);
    Ok(Body {
        init,
        population,
        finish,
    })
}

/// How many kinds of clause a mapping may have.
const CLAUSE_KINDS: usize = 4;

/// A mapping with at most so many clauses.
fn mapping_with(parser: &mut Parser<'_>, kinds: usize, room: usize) -> Result<Unit, ParseError>
    ensures gives { Gives unit_view result (toks parser.new) (made_at mapping_of (made_at second (then_at (the_at Class.MappingWord) (then_at unit_path_at (then_at (params_at (nested_at room)) (then_at (maybe_at (is Class.Colon) result_decl_at) (then_at (clauses_at (nested_at room) kinds no_clauses) (body_at (nested_at room)))))))) (toks parser.old)) }
    ensures fewer { length (toks parser.new) ≤ length (toks parser.old) }
    ensures less { OnOk result (length (toks parser.new) < length (toks parser.old)) }
{
    parser.take(Class::MappingWord)?;
    let path = parser.unit_path()?;
    let params = params(parser, room)?;
    let result = optional_result(parser)?;
    let clauses = more_clauses(parser, kinds, no_clauses(), room)?;
    let body = body(parser, room)?;
    Ok(Unit::Mapping(mapping(parser.alloc, path, params, result, clauses, body)))
}

#[tactic(auto, unfolding(qvt_language::specs::ReadingUnits::mapping_unit_at))]
fn mapping_unit(parser: &mut Parser<'_>, room: usize) -> Result<Unit, ParseError>
    ensures gives { Gives unit_view result (toks parser.new) (mapping_unit_at (nested_at room) (toks parser.old)) }
    ensures fewer { length (toks parser.new) ≤ length (toks parser.old) }
    ensures less { OnOk result (length (toks parser.new) < length (toks parser.old)) }
{
    mapping_with(parser, CLAUSE_KINDS, room)
}

#[tactic(auto, unfolding(qvt_language::specs::ReadingUnits::unit_at))]
fn unit(parser: &mut Parser<'_>, room: usize) -> Result<Unit, ParseError>
    ensures gives { Gives unit_view result (toks parser.new) (unit_at (nested_at room) (toks parser.old)) }
    ensures fewer { length (toks parser.new) ≤ length (toks parser.old) }
    ensures less { OnOk result (length (toks parser.new) < length (toks parser.old)) }
{
    if parser.at(Class::IntermediateWord) {
        return class_unit(parser, room);
    }
    if parser.at(Class::MainWord) {
        return main_unit(parser, room);
    }
    if parser.at(Class::ConstructorWord) {
        return constructor_unit(parser, room);
    }
    if parser.at(Class::MappingWord) {
        return mapping_unit(parser, room);
    }
    helper_unit(parser, room)
}

fn string(parser: &mut Parser<'_>) -> Result<Text, ParseError>
    ensures gives { Gives same result (toks parser.new) (made_at text_of (the_at Class.Str) (toks parser.old)) }
    ensures fewer { length (toks parser.new) ≤ length (toks parser.old) }
    ensures less { OnOk result (length (toks parser.new) < length (toks parser.old)) }
{
    let token = parser.take(Class::Str)?;
    let text = Text::from_str(parser.alloc, token.text)?;
    Ok(text)
}

#[tactic(auto, unfolding(qvt_language::specs::ReadingUnits::uri_at))]
fn uri(parser: &mut Parser<'_>) -> Result<Text, ParseError>
    ensures gives { Gives same result (toks parser.new) (uri_at (toks parser.old)) }
    ensures fewer { length (toks parser.new) ≤ length (toks parser.old) }
    ensures less { OnOk result (length (toks parser.new) < length (toks parser.old)) }
{
    if parser.at(Class::Str) {
        return string(parser);
    }
    parser.take(Class::Name)?;
    parser.take(Class::OpenRound)?;
    let uri = string(parser)?;
    parser.take(Class::CloseRound)?;
    Ok(uri)
}

/// A string before `uses` that is no strictness is a fault.
fn strictness<'a>(parser: &mut Parser<'a>) -> Result<Option<SyntaxToken<'a>>, ParseError>
    ensures gives { Gives (option_view tok_of) result (toks parser.new) (maybe_at (of (code_of Class.Str ∷ [])) strictness_at (toks parser.old)) }
    ensures fewer { length (toks parser.new) ≤ length (toks parser.old) }
{
    if !parser.at(Class::Str) {
        return Ok(None);
    }
    let text = parser.text();
    if text != "strict" && text != "effective" {
        return Err(ParseError::Syntax);
    }
    let token = parser.take(Class::Str)?;
    Ok(Some(token))
}

#[tactic(auto, unfolding(qvt_language::specs::ReadingUnits::model_type_at))]
fn model_type(parser: &mut Parser<'_>) -> Result<ModelType, ParseError>
    ensures gives { Gives same result (toks parser.new) (model_type_at (toks parser.old)) }
    ensures fewer { length (toks parser.new) ≤ length (toks parser.old) }
    ensures less { OnOk result (length (toks parser.new) < length (toks parser.old)) }
{
    let place = parser.place();
    parser.take(Class::ModelTypeWord)?;
    let name = parser.name()?;
    strictness(parser)?;
    parser.take(Class::UsesWord)?;
    let uri = uri(parser)?;
    parser.take(Class::Semicolon)?;
    Ok(ModelType {
        name: name.text,
        uri,
        place,
    })
}

fn model_types(parser: &mut Parser<'_>) -> Result<Seq<ModelType>, ParseError>
    ensures gives { Gives same result (toks parser.new) (many_at (is Class.ModelTypeWord) model_type_at (toks parser.old)) }
    ensures fewer { length (toks parser.new) ≤ length (toks parser.old) }
{
    let mut model_types = Seq::new(parser.alloc);
    while parser.at(Class::ModelTypeWord) {
        let model_type = model_type(parser)?;
        model_types.push(model_type)?;
    }
    Ok(model_types)
}

fn direction_word<'a>(parser: &mut Parser<'a>) -> Result<SyntaxToken<'a>, ParseError>
    ensures gives { Gives tok_of result (toks parser.new) (choose_at (is Class.InWord) (the_at Class.InWord) (choose_at (is Class.OutWord) (the_at Class.OutWord) (the_at Class.InoutWord)) (toks parser.old)) }
    ensures fewer { length (toks parser.new) ≤ length (toks parser.old) }
    ensures less { OnOk result (length (toks parser.new) < length (toks parser.old)) }
{
    if parser.at(Class::InWord) {
        return parser.take(Class::InWord);
    }
    if parser.at(Class::OutWord) {
        return parser.take(Class::OutWord);
    }
    parser.take(Class::InoutWord)
}

#[tactic(auto, unfolding(qvt_language::specs::ReadingUnits::model_param_at))]
fn model_param(parser: &mut Parser<'_>) -> Result<ModelParam, ParseError>
    ensures gives { Gives same result (toks parser.new) (model_param_at (toks parser.old)) }
    ensures fewer { length (toks parser.new) ≤ length (toks parser.old) }
    ensures less { OnOk result (length (toks parser.new) < length (toks parser.old)) }
{
    let word = direction_word(parser)?;
    let name = parser.name()?;
    parser.take(Class::Colon)?;
    let model_type = parser.name()?;
    Ok(ModelParam {
        direction: direction_of(word.class),
        name: name.text,
        model_type: model_type.text,
        place: word.place,
    })
}

fn next_model_param(parser: &mut Parser<'_>) -> Result<ModelParam, ParseError>
    ensures gives { Gives same result (toks parser.new) (made_at second (then_at (the_at Class.Comma) model_param_at) (toks parser.old)) }
    ensures fewer { length (toks parser.new) ≤ length (toks parser.old) }
    ensures less { OnOk result (length (toks parser.new) < length (toks parser.old)) }
{
    parser.take(Class::Comma)?;
    model_param(parser)
}

fn model_params(parser: &mut Parser<'_>) -> Result<Seq<ModelParam>, ParseError>
    ensures gives { Gives same result (toks parser.new) (made_at cons_of (then_at model_param_at (many_at (is Class.Comma) (made_at second (then_at (the_at Class.Comma) model_param_at)))) (toks parser.old)) }
    ensures fewer { length (toks parser.new) ≤ length (toks parser.old) }
    ensures less { OnOk result (length (toks parser.new) < length (toks parser.old)) }
{
    let mut params = Seq::new(parser.alloc);
    let first = model_param(parser)?;
    params.push(first)?;
    while parser.at(Class::Comma) {
        let next = next_model_param(parser)?;
        params.push(next)?;
    }
    Ok(params)
}

#[tactic(auto, unfolding(qvt_language::specs::ReadingUnits::header_at))]
fn header(parser: &mut Parser<'_>) -> Result<(Text, Seq<ModelParam>), ParseError>
    ensures gives { Gives same result (toks parser.new) (header_at (toks parser.old)) }
    ensures fewer { length (toks parser.new) ≤ length (toks parser.old) }
    ensures less { OnOk result (length (toks parser.new) < length (toks parser.old)) }
{
    parser.take(Class::TransformationWord)?;
    let name = parser.name_text()?;
    parser.take(Class::OpenRound)?;
    let params = model_params(parser)?;
    parser.take(Class::CloseRound)?;
    parser.take(Class::Semicolon)?;
    Ok((name, params))
}

/// A unit, or nothing but a `;`.
fn turn(parser: &mut Parser<'_>, room: usize) -> Result<Option<Unit>, ParseError>
    ensures gives { Gives turn_view result (toks parser.new) (choose_at (is Class.Semicolon) (made_at nothing (the_at Class.Semicolon)) (made_at some_unit (unit_at (nested_at room))) (toks parser.old)) }
    ensures fewer { length (toks parser.new) ≤ length (toks parser.old) }
    ensures less { OnOk result (length (toks parser.new) < length (toks parser.old)) }
{
    if parser.at(Class::Semicolon) {
        parser.take(Class::Semicolon)?;
        return Ok(None);
    }
    let unit = unit(parser, room)?;
    Ok(Some(unit))
}

/// Puts the unit of a turn after the others.
fn add(units: &mut Seq<Unit>, turn: Option<Unit>) -> Result<(), ParseError>
    ensures { AddsTurn (turn_view turn) (units_view units.old) (units_view units.new) result }
{
    match turn {
        None => Ok(()),
        Some(unit) => {
            units.push(unit)?;
            Ok(())
        }
    }
}

fn units(parser: &mut Parser<'_>, room: usize) -> Result<Seq<Unit>, ParseError>
    ensures gives { Gives units_view result (toks parser.new) (made_at units_of (many_at (of unit_first) (choose_at (is Class.Semicolon) (made_at nothing (the_at Class.Semicolon)) (made_at some_unit (unit_at (nested_at room))))) (toks parser.old)) }
    ensures fewer { length (toks parser.new) ≤ length (toks parser.old) }
{
    let mut units = Seq::new(parser.alloc);
    while at_unit(parser) {
        let turn = turn(parser, room)?;
        add(&mut units, turn)?;
    }
    Ok(units)
}

/// A whole transformation. The tokens do not tell where their text ends.
#[tactic(auto, unfolding(qvt_language::specs::ReadingUnits::transformation_at))]
pub fn transformation(parser: &mut Parser<'_>, room: usize) -> Result<Module, ParseError>
    ensures gives { Gives module_view result (toks parser.new) (transformation_at (nested_at room) (toks parser.old)) }
    ensures fewer { length (toks parser.new) ≤ length (toks parser.old) }
    ensures less { OnOk result (length (toks parser.new) < length (toks parser.old)) }
{
    let model_types = model_types(parser)?;
    let (name, params) = header(parser)?;
    let units = units(parser, room)?;
    Ok(Module {
        model_types,
        name,
        params,
        units,
        end: Place {
            line: 0,
            column: 0,
            offset: 0,
        },
    })
}
