//! Units, and a whole program.

ghost use Rattle.std.specs.Prelude.{◌≡◌, ◌++◌, None, IfOk, OnOk};
ghost use Rattle.qvt_types_nodes.specs.Module.{TypedMappingOf, typed_condition_view, typed_mapping_view, typed_unit_view};
ghost use Rattle.qvt_meaning.specs.Numbered as numbered;
ghost use Rattle.qvt_types_program.specs.Program.{program_view};
ghost use Rattle.qvt_program_exprs.specs.Listing.{listing};

use crate::expressions::expr;
use crate::listed::{FilterName, ListedExprList};
use crate::statements::stmts;
use qvt_base::list_fault::ListFault;
use qvt_base::seq::Seq;
use qvt_types_nodes::module::{TypedMapping, TypedUnit};
use qvt_types_nodes::tree::TypedExpr;
use qvt_types_program::program::Program;
use std::alloc::Global;

#[tactic(auto, unfolding(qvt_meaning::specs::Numbered::in_optional))]
fn condition<'a>(node: &'a Option<TypedExpr>, all: &mut ListedExprList<'a>) -> Result<(), ListFault>
    ensures { OnOk result (listing all.new ≡ listing all.old ++ numbered.in_optional None (typed_condition_view node.now)) }
{
    match node {
        None => Ok(()),
        Some(node) => expr(FilterName::NoFilter, node, all),
    }
}

fn mapping<'a>(node: &'a TypedMapping, all: &mut ListedExprList<'a>) -> Result<(), ListFault>
    ensures { OnOk result (listing all.new ≡ listing all.old ++ numbered.in_unit (TypedMappingOf (typed_mapping_view node.now))) }
{
    condition(&node.condition, all)?;
    stmts(node.init.as_slice(), all)?;
    stmts(node.population.as_slice(), all)?;
    stmts(node.finish.as_slice(), all)
}

fn unit<'a>(node: &'a TypedUnit, all: &mut ListedExprList<'a>) -> Result<(), ListFault>
    ensures { OnOk result (listing all.new ≡ listing all.old ++ numbered.in_unit (typed_unit_view node.now)) }
{
    match node {
        TypedUnit::Class(_) => Ok(()),
        TypedUnit::Main(body, _, _) => stmts(body.as_slice(), all),
        TypedUnit::Helper(helper) => stmts(helper.body.as_slice(), all),
        TypedUnit::Constructor(helper) => stmts(helper.body.as_slice(), all),
        TypedUnit::Mapping(node) => mapping(node, all),
    }
}

/// All expressions of a program, in the order of the text.
#[tactic(auto, unfolding(crate::specs::Listing::listing, qvt_meaning::specs::Numbered::all_listed))]
pub fn all_exprs<'a>(alloc: Global, program: &'a Program) -> Result<ListedExprList<'a>, ListFault>
    ensures { IfOk result (λ all. listing all ≡ numbered.all_listed (program_view program.now)) }
{
    let mut all = Seq::new(alloc);
    for node in program.module.units.as_slice() {
        unit(node, &mut all)?;
    }
    Ok(all)
}
