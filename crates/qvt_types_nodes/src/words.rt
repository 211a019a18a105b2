//! A word of the text has no place, and so no note: among typed nodes it is itself.

use qvt_tree_types::words::{BinaryOp, CollKind, Direction, Level, PrefixOp, ResolveWord};

pub type TypedDirection = Direction;

pub type TypedCollKind = CollKind;

pub type TypedLevel = Level;

pub type TypedBinaryOp = BinaryOp;

pub type TypedPrefixOp = PrefixOp;

pub type TypedResolveWord = ResolveWord;
