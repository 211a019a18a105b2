//! The first expression of each text, over a store without objects and a variable `x` that is 5: what it gives, and its cost.

ghost use Rattle.std.specs.Prelude.{◌≡◌, None, IfOk};

use qvt_base::numbers::ExprNo;
use qvt_base::seq::Seq;
use qvt_base::text::Text;
use qvt_checks::conditions::are_named;
use qvt_exec_plain::plain::eval_plain;
use qvt_exec_plain::table::Expressions;
use qvt_exec_plain::told::Told;
use qvt_meta::meta::read_meta;
use qvt_metas::metas::Metas;
use qvt_parser::parse::parse;
use qvt_run_data::exit::End;
use qvt_run_data::fault::RunFault;
use qvt_store::store::Store;
use qvt_types::accepting::accept;
use qvt_types::program::Program;
use qvt_value::value::{Reason, Value, Var};
use std::alloc::Global;
use std::test::Fail;

const META: &str = r#"{"classes":[{"name":"C"}],"name":"M"}"#;

const HEAD: &str =
    "modeltype MT uses 'M';\ntransformation T(out t : MT);\nmain() { var x : Integer; var v := ";

/// The number of characters before the expression in its line, which is the third.
const BEFORE: u32 = 35;

/// What an expression gives. The cause of an invalid value stands at this character of the expression, from 1.
#[derive(Debug)]
enum Given {
    Null,
    Bool(bool),
    Int(i64),
    Str(&'static str),
    Invalid(Reason, u32),
}

/// An expression, what it gives, and its cost.
type Case = (&'static str, Given, u64);

const CASES: [Case; 12] = [
    ("x", Given::Int(5), 1),
    ("x + 2 * 3", Given::Int(11), 5),
    ("- x.abs()", Given::Int(-5), 3),
    ("'ab'.size() + x", Given::Int(7), 4),
    ("if x > 3 then 'yes' else 'no' endif", Given::Str("yes"), 5),
    ("if x > 5 then 1 else null endif", Given::Null, 5),
    (
        "Sequence{1..4}->select(i | i > x - 3)->size()",
        Given::Int(2),
        25,
    ),
    (
        "Set{3, 1, 2}->sortedBy(i | 0 - i)->first()",
        Given::Int(3),
        15,
    ),
    (
        "Sequence{x, 1}->iterate(i; s : Integer = 0 | s + i)",
        Given::Int(6),
        11,
    ),
    ("false and 1.div(0) = 1", Given::Bool(false), 2),
    ("x.div(x - 5) + 1", Given::Invalid(Reason::ZeroDivide, 3), 7),
    (
        "Sequence{x}->at(2)",
        Given::Invalid(Reason::BadIndex, 14),
        4,
    ),
];

fn metas_of(alloc: Global) -> Result<Metas, Fail>
    ensures { IfOk result (λ m. m.element ≡ None) }
{
    let Ok(meta) = read_meta(alloc, META.as_bytes()) else {
        return Err(Fail::new("the metamodel is refused"));
    };
    let mut metas = Metas::new(alloc);
    if !metas.has_room(&meta) {
        return Err(Fail::new("the metamodel is too large"));
    }
    match metas.add(meta) {
        Ok(()) => Ok(metas),
        Err(_) => Err(Fail::new("no memory for the metamodel")),
    }
}

/// The program of a text.
fn read(alloc: Global, text: &str) -> Result<Program, Fail> {
    if text.len() > 100_000 {
        return Err(Fail::new("too long"));
    }
    let Ok(module) = parse(alloc, text) else {
        return Err(Fail::new("not read"));
    };
    let metas = metas_of(alloc)?;
    match accept(alloc, &module, &metas) {
        Ok(program) => Ok(program),
        Err(_) => Err(Fail::new("refused")),
    }
}

/// The program whose first expression this is.
fn program_of(alloc: Global, expression: &str) -> Result<Program, Fail> {
    let mut text = Text::from_str(alloc, HEAD)?;
    text.push_str(expression)?;
    text.push_str("; }")?;
    read(alloc, text.as_str())
}

/// A store without objects.
fn store_of(alloc: Global, metas: &Metas) -> Result<Store, Fail> {
    let extents = Seq::new(alloc);
    if !are_named(metas, &extents) {
        return Err(Fail::new("an extent without a name"));
    }
    match Store::new(alloc, metas, &extents) {
        Ok(store) => Ok(store),
        Err(_) => Err(Fail::new("no memory for the store")),
    }
}

/// What the expression of this number gives.
fn told_of(alloc: Global, expression: &str, number: u32) -> Result<Told, Fail> {
    let program = program_of(alloc, expression)?;
    let expressions = Expressions::new(alloc, &program)?;
    let store = store_of(alloc, program.metas())?;
    let mut vars = Seq::new(alloc);
    vars.push(Var {
        name: Text::from_str(alloc, "x")?,
        value: Value::Int(5),
    })?;
    Ok(eval_plain(alloc, &expressions, &store, vars.as_slice(), ExprNo(number))?)
}

fn is_given(value: &Value, wanted: &Given) -> bool {
    match (value, wanted) {
        (Value::Null, Given::Null) => true,
        (Value::Bool(held), Given::Bool(asked)) => *held == *asked,
        (Value::Int(held), Given::Int(asked)) => *held == *asked,
        (Value::Str(held), Given::Str(asked)) => held.as_str() == *asked,
        (Value::Invalid(held, place), Given::Invalid(asked, at)) => {
            *held == *asked && place.line == 3 && place.column.checked_sub(BEFORE) == Some(*at)
        }
        _ => false,
    }
}

fn is_as_told(alloc: Global, case: &Case) -> Result<bool, Fail> {
    let (expression, wanted, cost) = case;
    let told = told_of(alloc, expression, 0)?;
    match &told.outcome {
        Ok(value) => Ok(is_given(value, wanted) && told.cost == *cost),
        Err(_) => Ok(false),
    }
}

#[test]
fn expressions_have_values_and_costs(rt: HostRuntime) -> Result<(), Fail> {
    for case in &CASES {
        assert!(rt; is_as_told(rt.alloc(), case)?, "{case:?}");
    }
    Ok(())
}

#[test]
fn a_number_of_no_expression_is_a_type_fault(rt: HostRuntime) -> Result<(), Fail> {
    let told = told_of(rt.alloc(), "x", 1)?;
    assert!(rt; told.cost == 0);
    assert!(rt; matches!(&told.outcome, Err(End::Fault(RunFault::TypeFault, _))));
    Ok(())
}
