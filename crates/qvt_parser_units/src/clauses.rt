ghost use Rattle.std.specs.Prelude.{◌≡◌, ◌∷◌, [], None};
ghost use Rattle.qvt_tree_types.specs.View.{expr_view};
ghost use Rattle.qvt_tree_types.specs.Tree.{ReturnStmt, SomeExpr};
ghost use Rattle.qvt_tree_types.specs.Module.{mapping_view, MappingOf};
ghost use Rattle.qvt_language.specs.UnitTrees as units;
ghost use Rattle.qvt_parser_grammar.specs.Options.{option_view};
ghost use Rattle.qvt_parser_exprs.specs.Views.{stmts_view};
ghost use Rattle.qvt_parser_units.specs.UnitViews.{params_view, clause_view, clauses_view, body_view};
ghost use Rattle.qvt_parser_grammar.specs.Gives.{Makes};

use qvt_base::numbers::Place;
use qvt_base::seq::Seq;
use qvt_language::class::Class;
use qvt_language::named::UnitPath;
use qvt_parser_grammar::cursor::ParseError;
use qvt_tree_types::module::{Mapping, Param, ResultDecl};
use qvt_tree_types::tree::{Expr, Stmt};
use qvt_tree_types::types::PathTree;
use qvt_tree_types::words::Direction;
use std::alloc::Global;

/// A clause of a mapping.
#[derive(Drop)]
pub enum Clause {
    Inherits(Seq<PathTree>),
    Merges(Seq<PathTree>),
    Disjuncts(Seq<PathTree>),
    When(Expr),
}

/// The clauses of a mapping, as far as they were read.
#[derive(Drop)]
pub struct Clauses {
    pub inherits: Option<Seq<PathTree>>,
    pub merges: Option<Seq<PathTree>>,
    pub disjuncts: Option<Seq<PathTree>>,
    pub condition: Option<Expr>,
}

/// The sections of a mapping's body.
#[derive(Drop)]
pub struct Body {
    pub init: Seq<Stmt>,
    pub population: Seq<Stmt>,
    pub finish: Seq<Stmt>,
}

pub fn no_clauses() -> Clauses
    ensures { clauses_view result ≡ units.no_clauses }
{
    Clauses {
        inherits: None,
        merges: None,
        disjuncts: None,
        condition: None,
    }
}

/// The clauses with one more, in place of one of its kind.
pub fn with_clause(clauses: Clauses, clause: Clause) -> Clauses
    ensures { clauses_view result ≡ units.with_clause (clauses_view clauses) (clause_view clause) }
{
    let Clauses {
        inherits,
        merges,
        disjuncts,
        condition,
    } = clauses;
    match clause {
        Clause::Inherits(paths) => Clauses {
            inherits: Some(paths),
            merges,
            disjuncts,
            condition,
        },
        Clause::Merges(paths) => Clauses {
            inherits,
            merges: Some(paths),
            disjuncts,
            condition,
        },
        Clause::Disjuncts(paths) => Clauses {
            inherits,
            merges,
            disjuncts: Some(paths),
            condition,
        },
        Clause::When(expr) => Clauses {
            inherits,
            merges,
            disjuncts,
            condition: Some(expr),
        },
    }
}

pub fn paths_or_none(alloc: Global, paths: Option<Seq<PathTree>>) -> Seq<PathTree>
    ensures { result ≡ units.paths_or_none paths }
{
    match paths {
        Some(paths) => paths,
        None => Seq::new(alloc),
    }
}

pub fn stmts_or_none(alloc: Global, stmts: Option<Seq<Stmt>>) -> Seq<Stmt>
    ensures { stmts_view result ≡ units.stmts_or_none (option_view stmts_view stmts) }
{
    match stmts {
        Some(stmts) => stmts,
        None => Seq::new(alloc),
    }
}

/// The block of one return.
pub fn one_return(alloc: Global, value: Expr, place: Place) -> Result<Seq<Stmt>, ParseError>
    ensures { Makes stmts_view result (ReturnStmt (SomeExpr (expr_view value)) place ∷ []) }
{
    let mut stmts = Seq::new(alloc);
    stmts.push(Stmt::Return {
        value: Some(value),
        place,
    })?;
    Ok(stmts)
}

pub fn is_query(class: Class) -> bool
    ensures { result ≡ units.is_query class }
{
    match class {
        Class::QueryWord => true,
        _ => false,
    }
}

pub fn direction_of(class: Class) -> Direction
    ensures { result ≡ units.direction_of class }
{
    match class {
        Class::InWord => Direction::Input,
        Class::OutWord => Direction::Output,
        _ => Direction::Both,
    }
}

pub fn mapping(
    alloc: Global,
    path: UnitPath,
    params: Seq<Param>,
    answer: Option<ResultDecl>,
    clauses: Clauses,
    body: Body,
) -> Mapping
    ensures { MappingOf (mapping_view result) ≡ units.mapping_of (path, (params_view params, (answer, (clauses_view clauses, body_view body)))) }
{
    let Clauses {
        inherits,
        merges,
        disjuncts,
        condition,
    } = clauses;
    Mapping {
        path: path.names,
        params,
        result: answer,
        inherits: paths_or_none(alloc, inherits),
        merges: paths_or_none(alloc, merges),
        disjuncts: paths_or_none(alloc, disjuncts),
        condition,
        init: body.init,
        population: body.population,
        finish: body.finish,
        place: path.place,
    }
}
