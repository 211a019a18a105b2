use crate::types::{TypedObjectVar, TypedPathTree, TypedSign, TypedTypeTree};
use qvt_base::numbers::Place;
use qvt_base::seq::Seq;
use qvt_base::text::Text;
use qvt_tree_types::words::{BinaryOp, CollKind, Level, ResolveWord};
use qvt_types_data::note::Note;

pub type TypedExprList = Seq<TypedExpr>;

pub type TypedItemList = Seq<TypedItem>;

pub type TypedLinkList = Seq<TypedLink>;

pub type TypedSignList = Seq<TypedSign>;

pub type TypedStepList = Seq<TypedStep>;

pub type TypedArmList = Seq<TypedArm>;

pub type TypedStmts = Seq<TypedStmt>;

/// A statement (QVT 1.3, 8.2.2). An assignment's place is its sign, that of any other its first
/// token.
#[cycle(typed)]
pub enum TypedStmt {
    Var {
        name: Text,
        kind: Option<TypedTypeTree>,
        value: Option<TypedExpr>,
        place: Place,
        note: Note,
    },
    /// `adds` tells a `+=`.
    Assign {
        target: Box<TypedTarget>,
        adds: bool,
        value: TypedExpr,
        place: Place,
        note: Note,
    },
    Return {
        value: Option<TypedExpr>,
        place: Place,
        note: Note,
    },
    Value {
        value: TypedExpr,
        place: Place,
        note: Note,
    },
    /// `arms` are the `elif`s, `otherwise` the `else`.
    If {
        condition: TypedExpr,
        body: TypedStmts,
        arms: TypedArmList,
        otherwise: Option<TypedStmts>,
        place: Place,
        note: Note,
    },
    While {
        condition: TypedExpr,
        body: TypedStmts,
        place: Place,
        note: Note,
    },
    ForEach {
        source: TypedExpr,
        name: Text,
        kind: Option<TypedTypeTree>,
        condition: Option<Box<TypedExpr>>,
        body: TypedStmts,
        place: Place,
        note: Note,
    },
}

impl Drop for TypedStmt {
    #[cycle(drops)]
    fn drop(self) {
        match self {
            TypedStmt::Var {
                name,
                kind,
                value,
                place,
                note,
            } => {}
            TypedStmt::Assign {
                target,
                adds,
                value,
                place,
                note,
            } => {}
            TypedStmt::Return { value, place, note } => {}
            TypedStmt::Value { value, place, note } => {}
            TypedStmt::If {
                condition,
                body,
                arms,
                otherwise,
                place,
                note,
            } => {}
            TypedStmt::While {
                condition,
                body,
                place,
                note,
            } => {}
            TypedStmt::ForEach {
                source,
                name,
                kind,
                condition,
                body,
                place,
                note,
            } => {}
        }
    }
}

/// An `elif`.
#[derive(Drop)]
#[cycle(typed)]
pub struct TypedArm {
    pub condition: TypedExpr,
    pub body: TypedStmts,
}

/// What an assignment writes. Its place is its name or `result`.
#[derive(Drop)]
#[cycle(typed)]
pub enum TypedTarget {
    Bare {
        name: Text,
        place: Place,
        note: Note,
    },
    ResultVar {
        place: Place,
        note: Note,
    },
    Member {
        object: TypedExpr,
        name: Text,
        place: Place,
        note: Note,
    },
}

/// An expression (OCL 2.4, 7; QVT 1.3, 8.2.2). Brackets leave no node. A place is that of the
/// first token, for what begins with a bracket the bracket.
#[cycle(typed)]
pub enum TypedExpr {
    Int {
        value: i64,
        place: Place,
        note: Note,
    },
    Str {
        value: Text,
        place: Place,
        note: Note,
    },
    Bool {
        value: bool,
        place: Place,
        note: Note,
    },
    Null {
        place: Place,
        note: Note,
    },
    SelfRef {
        place: Place,
        note: Note,
    },
    ResultRef {
        place: Place,
        note: Note,
    },
    Path(TypedPathTree),
    Call {
        name: Text,
        args: TypedExprList,
        place: Place,
        note: Note,
    },
    Coll {
        kind: CollKind,
        items: TypedItemList,
        place: Place,
        note: Note,
    },
    If {
        condition: Box<TypedExpr>,
        yes: Box<TypedExpr>,
        no: Box<TypedExpr>,
        place: Place,
        note: Note,
    },
    /// `extent` is the name after `@`.
    Object {
        variable: Option<TypedObjectVar>,
        path: TypedPathTree,
        extent: Option<Text>,
        body: TypedStmts,
        place: Place,
        note: Note,
    },
    New {
        path: TypedPathTree,
        extent: Option<Text>,
        args: TypedExprList,
        place: Place,
        note: Note,
    },
    Map(TypedMapCall),
    Resolve(TypedResolveCall),
    /// Operands of one level with operators between them, at least two.
    Chain {
        level: Level,
        first: Box<TypedExpr>,
        rest: TypedLinkList,
        place: Place,
        note: Note,
    },
    /// An operand with at least one sign before it, the outermost first.
    Prefix {
        signs: TypedSignList,
        operand: Box<TypedExpr>,
        place: Place,
        note: Note,
    },
    /// An expression with at least one step after it.
    Post {
        first: Box<TypedExpr>,
        steps: TypedStepList,
        place: Place,
        note: Note,
    },
}

impl Drop for TypedExpr {
    #[cycle(drops)]
    fn drop(self) {
        match self {
            TypedExpr::Int { value, place, note } => {}
            TypedExpr::Str { value, place, note } => {}
            TypedExpr::Bool { value, place, note } => {}
            TypedExpr::Null { place, note } => {}
            TypedExpr::SelfRef { place, note } => {}
            TypedExpr::ResultRef { place, note } => {}
            TypedExpr::Path(part) => {}
            TypedExpr::Call {
                name,
                args,
                place,
                note,
            } => {}
            TypedExpr::Coll {
                kind,
                items,
                place,
                note,
            } => {}
            TypedExpr::If {
                condition,
                yes,
                no,
                place,
                note,
            } => {}
            TypedExpr::Object {
                variable,
                path,
                extent,
                body,
                place,
                note,
            } => {}
            TypedExpr::New {
                path,
                extent,
                args,
                place,
                note,
            } => {}
            TypedExpr::Map(part) => {}
            TypedExpr::Resolve(part) => {}
            TypedExpr::Chain {
                level,
                first,
                rest,
                place,
                note,
            } => {}
            TypedExpr::Prefix {
                signs,
                operand,
                place,
                note,
            } => {}
            TypedExpr::Post {
                first,
                steps,
                place,
                note,
            } => {}
        }
    }
}

/// A further operand of a chain, with the operator before it and the operator's place.
#[derive(Drop)]
#[cycle(typed)]
pub struct TypedLink {
    pub op: BinaryOp,
    pub operand: TypedExpr,
    pub place: Place,
    pub note: Note,
}

/// An item of a collection literal: an expression, or a range up to `last`.
#[derive(Drop)]
#[cycle(typed)]
pub struct TypedItem {
    pub first: TypedExpr,
    pub last: Option<TypedRangeEnd>,
    pub place: Place,
    pub note: Note,
}

/// The end of a range, with the place of the `..` before it.
#[derive(Drop)]
#[cycle(typed)]
pub struct TypedRangeEnd {
    pub last: TypedExpr,
    pub place: Place,
    pub note: Note,
}

/// A mapping call, with the place of the called name. `strict` tells an `xmap`.
#[derive(Drop)]
#[cycle(typed)]
pub struct TypedMapCall {
    pub strict: bool,
    pub name: Text,
    pub args: TypedExprList,
    pub place: Place,
    pub note: Note,
}

/// A resolve, with the place of `late` or else of its word. `within` is the mapping of an `In`
/// form.
#[derive(Drop)]
#[cycle(typed)]
pub struct TypedResolveCall {
    pub late: bool,
    pub word: ResolveWord,
    pub within: Option<TypedPathTree>,
    pub filter: Option<Box<TypedFilter>>,
    pub place: Place,
    pub note: Note,
}

/// The class of a resolve, with its variable and condition.
#[derive(Drop)]
#[cycle(typed)]
pub struct TypedFilter {
    pub name: Option<Text>,
    pub kind: TypedTypeTree,
    pub condition: Option<Box<TypedExpr>>,
    pub place: Place,
    pub note: Note,
}

/// The iterator of an arrow step, and the accumulator of an `iterate`.
#[derive(Drop)]
#[cycle(typed)]
pub struct TypedHead {
    pub name: Text,
    pub kind: Option<TypedTypeTree>,
    pub accumulator: Option<Box<TypedAccumulator>>,
    pub place: Place,
    pub note: Note,
}

#[derive(Drop)]
#[cycle(typed)]
pub struct TypedAccumulator {
    pub name: Text,
    pub kind: TypedTypeTree,
    pub first: TypedExpr,
    pub place: Place,
    pub note: Note,
}

/// A step after an expression, with the place of its name. The `args` of an arrow with a head are
/// its one body.
#[cycle(typed)]
pub enum TypedStep {
    Dot {
        name: Text,
        args: Option<TypedExprList>,
        place: Place,
        note: Note,
    },
    Arrow {
        name: Text,
        head: Option<TypedHead>,
        args: TypedExprList,
        place: Place,
        note: Note,
    },
    DotMap(TypedMapCall),
    ArrowMap(TypedMapCall),
    DotResolve(TypedResolveCall),
    ArrowResolve(TypedResolveCall),
}

impl Drop for TypedStep {
    #[cycle(drops)]
    fn drop(self) {
        match self {
            TypedStep::Dot {
                name,
                args,
                place,
                note,
            } => {}
            TypedStep::Arrow {
                name,
                head,
                args,
                place,
                note,
            } => {}
            TypedStep::DotMap(part) => {}
            TypedStep::ArrowMap(part) => {}
            TypedStep::DotResolve(part) => {}
            TypedStep::ArrowResolve(part) => {}
        }
    }
}
