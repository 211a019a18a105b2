ghost use Rattle.std.specs.Prelude.{◌≡◌, None, Some, MatchResult, map};
ghost use Rattle.qvt_tree_types.specs.Parts.{member_in, path_in, post_in, prefix_in};
ghost use Rattle.qvt_tree_types.specs.View.{expr_view, step_view, steps_of};

use crate::types::{ObjectVar, PathTree, TypeTree};
use crate::words::{BinaryOp, CollKind, Level, ResolveWord, Sign};
use qvt_base::numbers::Place;
use qvt_base::seq::Seq;
use qvt_base::text::Text;

pub type ExprList = Seq<Expr>;

pub type ItemList = Seq<Item>;

pub type LinkList = Seq<Link>;

pub type SignList = Seq<Sign>;

pub type StepList = Seq<Step>;

pub type ArmList = Seq<Arm>;

pub type Stmts = Seq<Stmt>;

/// A statement (QVT 1.3, 8.2.2). An assignment's place is its sign, that of any other its first
/// token.
#[cycle(tree)]
pub enum Stmt {
    Var {
        name: Text,
        kind: Option<TypeTree>,
        value: Option<Expr>,
        place: Place,
    },
    /// `adds` tells a `+=`.
    Assign {
        target: Target,
        adds: bool,
        value: Expr,
        place: Place,
    },
    Return {
        value: Option<Expr>,
        place: Place,
    },
    Value {
        value: Expr,
        place: Place,
    },
    /// `arms` are the `elif`s, `otherwise` the `else`.
    If {
        condition: Expr,
        body: Stmts,
        arms: ArmList,
        otherwise: Option<Stmts>,
        place: Place,
    },
    While {
        condition: Expr,
        body: Stmts,
        place: Place,
    },
    ForEach {
        source: Expr,
        name: Text,
        kind: Option<TypeTree>,
        condition: Option<Expr>,
        body: Stmts,
        place: Place,
    },
}

impl Drop for Stmt {
    #[cycle(drops)]
    fn drop(self) {
        match self {
            Stmt::Var {
                name,
                kind,
                value,
                place,
            } => {}
            Stmt::Assign {
                target,
                adds,
                value,
                place,
            } => {}
            Stmt::Return { value, place } => {}
            Stmt::Value { value, place } => {}
            Stmt::If {
                condition,
                body,
                arms,
                otherwise,
                place,
            } => {}
            Stmt::While {
                condition,
                body,
                place,
            } => {}
            Stmt::ForEach {
                source,
                name,
                kind,
                condition,
                body,
                place,
            } => {}
        }
    }
}

/// An `elif`.
#[derive(Drop)]
#[cycle(tree)]
pub struct Arm {
    pub condition: Expr,
    pub body: Stmts,
}

/// What an assignment writes. Its place is its name or `result`.
#[derive(Drop)]
#[cycle(tree)]
pub enum Target {
    Bare {
        name: Text,
        place: Place,
    },
    ResultVar {
        place: Place,
    },
    Member {
        object: Expr,
        name: Text,
        place: Place,
    },
}

/// An expression (OCL 2.4, 7; QVT 1.3, 8.2.2). Brackets leave no node. A place is that of the
/// first token, for what begins with a bracket the bracket.
#[cycle(tree)]
pub enum Expr {
    Int {
        value: i64,
        place: Place,
    },
    Str {
        value: Text,
        place: Place,
    },
    Bool {
        value: bool,
        place: Place,
    },
    Null {
        place: Place,
    },
    SelfRef {
        place: Place,
    },
    ResultRef {
        place: Place,
    },
    Path(PathTree),
    Call {
        name: Text,
        args: ExprList,
        place: Place,
    },
    Coll {
        kind: CollKind,
        items: ItemList,
        place: Place,
    },
    If {
        condition: Box<Expr>,
        yes: Box<Expr>,
        no: Box<Expr>,
        place: Place,
    },
    /// `extent` is the name after `@`.
    Object {
        variable: Option<ObjectVar>,
        path: PathTree,
        extent: Option<Text>,
        body: Stmts,
        place: Place,
    },
    New {
        path: PathTree,
        extent: Option<Text>,
        args: ExprList,
        place: Place,
    },
    Map(MapCall),
    Resolve(ResolveCall),
    /// Operands of one level with operators between them, at least two.
    Chain {
        level: Level,
        first: Box<Expr>,
        rest: LinkList,
        place: Place,
    },
    /// An operand with at least one sign before it, the outermost first.
    Prefix {
        signs: SignList,
        operand: Box<Expr>,
        place: Place,
    },
    /// An expression with at least one step after it.
    Post {
        first: Box<Expr>,
        steps: StepList,
        place: Place,
    },
}

impl Drop for Expr {
    #[cycle(drops)]
    fn drop(self) {
        match self {
            Expr::Int { value, place } => {}
            Expr::Str { value, place } => {}
            Expr::Bool { value, place } => {}
            Expr::Null { place } => {}
            Expr::SelfRef { place } => {}
            Expr::ResultRef { place } => {}
            Expr::Path(part) => {}
            Expr::Call { name, args, place } => {}
            Expr::Coll { kind, items, place } => {}
            Expr::If {
                condition,
                yes,
                no,
                place,
            } => {}
            Expr::Object {
                variable,
                path,
                extent,
                body,
                place,
            } => {}
            Expr::New {
                path,
                extent,
                args,
                place,
            } => {}
            Expr::Map(part) => {}
            Expr::Resolve(part) => {}
            Expr::Chain {
                level,
                first,
                rest,
                place,
            } => {}
            Expr::Prefix {
                signs,
                operand,
                place,
            } => {}
            Expr::Post {
                first,
                steps,
                place,
            } => {}
        }
    }
}

impl Expr {
    /// The path that the expression is, or none.
    pub fn into_path(self) -> Option<PathTree>
        ensures { result ≡ path_in (expr_view self) }
    {
        match self {
            Expr::Path(path) => Some(path),
            _ => None,
        }
    }

    /// What stands before the steps, and the steps. An expression without steps is given back.
    pub fn into_post(self) -> Result<(Box<Expr>, Seq<Step>), Expr>
        ensures { MatchResult result (λ post. post_in (expr_view self) ≡ Some (expr_view post.0.value, steps_of (map step_view post.1))) (λ other. (post_in (expr_view self) ≡ None) × (other ≡ self)) }
    {
        match self {
            Expr::Post {
                first,
                steps,
                place: _,
            } => Ok((first, steps)),
            other => Err(other),
        }
    }

    /// The signs, and the operand after them. An expression without signs is given back.
    pub fn into_prefix(self) -> Result<(Seq<Sign>, Box<Expr>), Expr>
        ensures { MatchResult result (λ prefix. prefix_in (expr_view self) ≡ Some (prefix.0, expr_view prefix.1.value)) (λ other. (prefix_in (expr_view self) ≡ None) × (other ≡ self)) }
    {
        match self {
            Expr::Prefix {
                signs,
                operand,
                place: _,
            } => Ok((signs, operand)),
            other => Err(other),
        }
    }
}

/// A further operand of a chain, with the operator before it and the operator's place.
#[derive(Drop)]
#[cycle(tree)]
pub struct Link {
    pub op: BinaryOp,
    pub operand: Expr,
    pub place: Place,
}

/// An item of a collection literal: an expression, or a range up to `last`.
#[derive(Drop)]
#[cycle(tree)]
pub struct Item {
    pub first: Expr,
    pub last: Option<RangeEnd>,
    pub place: Place,
}

/// The end of a range, with the place of the `..` before it.
#[derive(Drop)]
#[cycle(tree)]
pub struct RangeEnd {
    pub last: Expr,
    pub place: Place,
}

/// A mapping call, with the place of the called name. `strict` tells an `xmap`.
#[derive(Drop)]
#[cycle(tree)]
pub struct MapCall {
    pub strict: bool,
    pub name: Text,
    pub args: ExprList,
    pub place: Place,
}

/// A resolve, with the place of `late` or else of its word. `within` is the mapping of an `In`
/// form.
#[derive(Drop)]
#[cycle(tree)]
pub struct ResolveCall {
    pub late: bool,
    pub word: ResolveWord,
    pub within: Option<PathTree>,
    pub filter: Option<Filter>,
    pub place: Place,
}

/// The class of a resolve, with its variable and condition.
#[derive(Drop)]
#[cycle(tree)]
pub struct Filter {
    pub name: Option<Text>,
    pub kind: TypeTree,
    pub condition: Option<Box<Expr>>,
    pub place: Place,
}

/// The iterator of an arrow step, and the accumulator of an `iterate`.
#[derive(Drop)]
#[cycle(tree)]
pub struct Head {
    pub name: Text,
    pub kind: Option<TypeTree>,
    pub accumulator: Option<Accumulator>,
    pub place: Place,
}

#[derive(Drop)]
#[cycle(tree)]
pub struct Accumulator {
    pub name: Text,
    pub kind: TypeTree,
    pub first: Expr,
    pub place: Place,
}

/// A step after an expression, with the place of its name. The `args` of an arrow with a head are
/// its one body.
#[cycle(tree)]
pub enum Step {
    Dot {
        name: Text,
        args: Option<ExprList>,
        place: Place,
    },
    Arrow {
        name: Text,
        head: Option<Head>,
        args: ExprList,
        place: Place,
    },
    DotMap(MapCall),
    ArrowMap(MapCall),
    DotResolve(ResolveCall),
    ArrowResolve(ResolveCall),
}

impl Drop for Step {
    #[cycle(drops)]
    fn drop(self) {
        match self {
            Step::Dot { name, args, place } => {}
            Step::Arrow {
                name,
                head,
                args,
                place,
            } => {}
            Step::DotMap(part) => {}
            Step::ArrowMap(part) => {}
            Step::DotResolve(part) => {}
            Step::ArrowResolve(part) => {}
        }
    }
}

impl Step {
    /// The name that the step is, where it has no arguments, with its place.
    pub fn into_member(self) -> Option<(Text, Place)>
        ensures { result ≡ member_in (step_view self) }
    {
        match self {
            Step::Dot {
                name,
                args: None,
                place,
            } => Some((name, place)),
            _ => None,
        }
    }
}
