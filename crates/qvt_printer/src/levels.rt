//! Where round brackets stand.

ghost use Rattle.std.specs.Prelude.{◌≡◌};
ghost use Rattle.qvt_tree_types.specs.View.{expr_view};
ghost use Rattle.qvt_printer.specs.Levels as levels;

use qvt_tree_types::tree::Expr;
use qvt_tree_types::words::Level;

fn tightness(level: Level) -> u8
    ensures { result ≡ levels.tightness level }
{
    match level {
        Level::Implies => 0,
        Level::Xor => 1,
        Level::Or => 2,
        Level::And => 3,
        Level::Equality => 4,
        Level::Relation => 5,
        Level::Sum => 6,
        Level::Product => 7,
    }
}

/// Whether the expression is a chain of this or a looser level.
pub fn is_as_loose(level: Level, expr: &Expr) -> bool
    ensures { result ≡ levels.is_as_loose level (expr_view expr.now) }
{
    match expr {
        Expr::Chain { level: other, .. } => tightness(*other) <= tightness(level),
        _ => false,
    }
}

pub fn is_chain(expr: &Expr) -> bool
    ensures { result ≡ levels.is_chain (expr_view expr.now) }
{
    match expr {
        Expr::Chain { .. } => true,
        _ => false,
    }
}

pub fn is_chain_or_prefix(expr: &Expr) -> bool
    ensures { result ≡ levels.is_chain_or_prefix (expr_view expr.now) }
{
    match expr {
        Expr::Chain { .. } => true,
        Expr::Prefix { .. } => true,
        _ => false,
    }
}
