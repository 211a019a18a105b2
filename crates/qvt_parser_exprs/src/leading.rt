use qvt_base::numbers::Place;
use qvt_base::text::Text;
use qvt_tree_types::tree::{Expr, Step, StepList, Stmts};
use qvt_tree_types::types::TypeTree;

/// A primary, and whether it stands without brackets.
#[derive(Drop)]
pub struct First {
    pub expr: Box<Expr>,
    pub bare: bool,
}

/// A step, or the rest of a `forEach`.
#[derive(Drop)]
pub enum LeadStep {
    Step(Step),
    Each(Box<EachTail>),
}

/// An expression that may still become a target, or the source and the rest of a `forEach`.
#[derive(Drop)]
pub enum Leading {
    /// A primary that stands without brackets and steps: a target where it is one name or `result`.
    Bare(Box<Expr>),
    /// Steps, at least one, after an expression.
    Post {
        first: Box<Expr>,
        steps: StepList,
        place: Place,
    },
    /// An expression that stands in brackets alone.
    Bracketed(Box<Expr>),
    /// An expression that is no target.
    Done(Box<Expr>),
    Each {
        source: Box<Expr>,
        part: Box<EachTail>,
    },
}

/// What stands after the source of a `forEach`.
#[derive(Drop)]
pub struct EachTail {
    pub name: Text,
    pub kind: Option<TypeTree>,
    pub condition: Option<Expr>,
    pub body: Stmts,
}
