ghost use Rattle.std.specs.Prelude.{◌≡◌};
ghost use Rattle.qvt_tree_types.specs.Resolves.{is_one, is_inverse, is_within};

use qvt_base::numbers::Place;

/// The direction of a model parameter: `in`, `out` or `inout`.
#[derive(Clone, Copy, Debug, PartialEq, Eq)]
pub enum Direction {
    Input,
    Output,
    Both,
}

/// The kinds of collection (OCL 2.4, 11.6).
#[derive(Clone, Copy, Debug, PartialEq, Eq)]
pub enum CollKind {
    Set,
    Bag,
    Sequence,
    OrderedSet,
}

/// The levels of operators between two operands, the loosest first.
#[derive(Clone, Copy, Debug, PartialEq, Eq)]
pub enum Level {
    Implies,
    Xor,
    Or,
    And,
    Equality,
    Relation,
    Sum,
    Product,
}

/// An operator between two operands. `==` is `Equal`, and `!=` is `NotEqual`.
#[derive(Clone, Copy, Debug, PartialEq, Eq)]
pub enum BinaryOp {
    Implies,
    Xor,
    Or,
    And,
    Equal,
    NotEqual,
    Less,
    LessEqual,
    Greater,
    GreaterEqual,
    Plus,
    Minus,
    Times,
}

/// An operator before its operand.
#[derive(Clone, Copy, Debug, PartialEq, Eq)]
pub enum PrefixOp {
    Not,
    Minus,
}

/// An operator before its operand, with its place.
#[derive(Clone, Copy, Debug, PartialEq, Eq)]
pub struct Sign {
    pub op: PrefixOp,
    pub place: Place,
}

/// The word of a resolve (QVT 1.3, 8.1.10).
#[derive(Clone, Copy, Debug, PartialEq, Eq)]
pub enum ResolveWord {
    Resolve,
    ResolveOne,
    InvResolve,
    InvResolveOne,
    ResolveIn,
    ResolveOneIn,
    InvResolveIn,
    InvResolveOneIn,
}

impl ResolveWord {
    /// Whether it gives the first of what it finds alone.
    pub fn is_one(self) -> bool
        ensures { result ≡ is_one self }
    {
        match self {
            ResolveWord::ResolveOne => true,
            ResolveWord::InvResolveOne => true,
            ResolveWord::ResolveOneIn => true,
            ResolveWord::InvResolveOneIn => true,
            _ => false,
        }
    }

    /// Whether it goes from results to sources.
    pub fn is_inverse(self) -> bool
        ensures { result ≡ is_inverse self }
    {
        match self {
            ResolveWord::InvResolve => true,
            ResolveWord::InvResolveOne => true,
            ResolveWord::InvResolveIn => true,
            ResolveWord::InvResolveOneIn => true,
            _ => false,
        }
    }

    /// Whether it is an `In` form: one that names a mapping, and looks at what that one made, and where
    /// it is a dispatcher at what those made that it disjuncts to.
    pub fn is_within(self) -> bool
        ensures { result ≡ is_within self }
    {
        match self {
            ResolveWord::ResolveIn => true,
            ResolveWord::ResolveOneIn => true,
            ResolveWord::InvResolveIn => true,
            ResolveWord::InvResolveOneIn => true,
            _ => false,
        }
    }
}
