use qvt_tree_types::tree::{Stmt, Stmts};

/// An item of a block. Its statement is on the heap until it stands in the block.
#[derive(Drop)]
pub enum Turn {
    Empty,
    Closed(Box<Stmt>),
    /// A statement without its `;`, which only the last one is.
    Last(Box<Stmt>),
}

/// The statements of a block, and whether the last one has no `;`.
#[derive(Drop)]
pub struct EndedStmts {
    pub stmts: Stmts,
    pub open_end: bool,
}
