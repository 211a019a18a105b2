//! Expressions and conditions of programs by their numbers.

ghost use Rattle.qvt_program_exprs.specs.Table.{IsTable};

use super::read::program_of;
use qvt_base::numbers::ExprNo;
use qvt_program_exprs::table::Expressions;
use qvt_types_nodes::tree::TypedExpr;
use std::test::Fail;

const CONDITIONS: &str =
    "main() { var n := 1; resolve(C | a = 2); resolve(x : C | x.a = 3); resolve(C); }";

/// The Integer that is written under a number.
fn integer_at(expressions: &Expressions<'_>, number: u32) -> Option<i64>
    requires { IsTable expressions.now }
{
    match expressions.expr(ExprNo(number)) {
        Some(TypedExpr::Int { value, .. }) => Some(*value),
        _ => None,
    }
}

/// The name of the variable of the condition under a number, empty where its filter has none.
fn variable_at<'a>(expressions: &Expressions<'a>, number: u32) -> Option<&'a str>
    requires { IsTable expressions.now }
{
    match expressions.condition(ExprNo(number)) {
        None => None,
        Some(condition) => match condition.variable {
            None => Some(""),
            Some(name) => Some(name.as_str()),
        },
    }
}

#[test]
fn expressions_have_the_numbers_of_the_text(rt: HostRuntime) -> Result<(), Fail> {
    let program = program_of(rt.alloc(), CONDITIONS)?;
    let expressions = Expressions::new(rt.alloc(), &program)?;
    assert!(rt; integer_at(&expressions, 0) == Some(1));
    assert!(rt; matches!(expressions.expr(ExprNo(1)), Some(TypedExpr::Resolve(_))));
    assert!(rt; matches!(expressions.expr(ExprNo(2)), Some(TypedExpr::Chain { .. })));
    assert!(rt; matches!(expressions.expr(ExprNo(3)), Some(TypedExpr::Path(_))));
    assert!(rt; integer_at(&expressions, 4) == Some(2));
    assert!(rt; matches!(expressions.expr(ExprNo(7)), Some(TypedExpr::Post { .. })));
    assert!(rt; integer_at(&expressions, 9) == Some(3));
    assert!(rt; matches!(expressions.expr(ExprNo(10)), Some(TypedExpr::Resolve(_))));
    assert!(rt; expressions.expr(ExprNo(11)).is_none());
    assert!(rt; expressions.expr(ExprNo(4_294_967_295)).is_none());
    Ok(())
}

#[test]
fn conditions_have_the_variables_of_filters(rt: HostRuntime) -> Result<(), Fail> {
    let program = program_of(rt.alloc(), CONDITIONS)?;
    let expressions = Expressions::new(rt.alloc(), &program)?;
    assert!(rt; variable_at(&expressions, 2) == Some(""));
    assert!(rt; variable_at(&expressions, 6) == Some("x"));
    assert!(rt; variable_at(&expressions, 1).is_none());
    assert!(rt; variable_at(&expressions, 7).is_none());
    assert!(rt; variable_at(&expressions, 11).is_none());
    Ok(())
}
