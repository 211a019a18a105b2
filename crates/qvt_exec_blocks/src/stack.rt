//! How much of the stack statements take.

use qvt_types_nodes::tree::{TypedExpr, TypedStep, TypedStmt};

/// As many statements of a block are looked at.
const LOOKED_AT: usize = 8;

/// How much a block takes, and the most that it takes with one of its statements.
const BLOCK: u32 = 640;

const MOST: u32 = 6100;

fn is_resolve(step: &TypedStep) -> bool {
    match step {
        TypedStep::DotResolve(_) => true,
        TypedStep::ArrowResolve(_) => true,
        _ => false,
    }
}

/// Whether the value of an assignment may be late.
fn ends_in_resolve(value: &TypedExpr) -> bool {
    match value {
        TypedExpr::Post { steps, .. } => match steps.as_slice().last() {
            Some(step) => is_resolve(step),
            None => false,
        },
        _ => false,
    }
}

/// How many bytes of the stack a block takes with what may stand between it and a phrase inside this statement of it.
fn bytes_of_stmt(stmt: &TypedStmt) -> u32 {
    match stmt {
        TypedStmt::Var { .. } => 1020,
        TypedStmt::Assign { value, .. } => { if ends_in_resolve(value) { MOST } else { 2200 } }
        TypedStmt::Return { .. } => 950,
        TypedStmt::Value { .. } => 840,
        TypedStmt::If { arms, .. } => { if arms.is_empty() { 1030 } else { 1460 } }
        TypedStmt::While { .. } => 1210,
        TypedStmt::ForEach { .. } => 2120,
    }
}

/// How many bytes of the stack a block takes with what may stand between it and a phrase inside it, by what was measured of
/// the program as LLVM builds it. A long block is not looked through.
pub fn bytes_of_block(stmts: &[TypedStmt]) -> u32 {
    if stmts.len() > LOOKED_AT {
        return MOST;
    }
    let mut most = BLOCK;
    for stmt in stmts {
        let bytes = bytes_of_stmt(stmt);
        if bytes > most {
            most = bytes;
        }
    }
    most
}
