//! Ways to write a list into a slot.

/// `Put` writes the list in place of the old one, `Add` after it.
#[derive(Clone, Copy, Debug, PartialEq, Eq)]
pub enum SetOp {
    Put,
    Add,
}
