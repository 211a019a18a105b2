//! Expressions and what stands in them.

ghost use Rattle.std.specs.Prelude.{◌≡◌, ◌++◌, None, map, option_map, OnOk};
ghost use Rattle.qvt_types_nodes.specs.View as view;
ghost use Rattle.qvt_meaning.specs.Numbered as numbered;
ghost use Rattle.qvt_program_exprs.specs.Listing.{filter_view, listing};

use crate::listed::{FilterName, ListedExprList, add, filter_name};
use crate::statements::stmts;
use qvt_base::list_fault::ListFault;
use qvt_types_nodes::tree::{
    TypedAccumulator, TypedExpr, TypedFilter, TypedHead, TypedItem, TypedLink, TypedRangeEnd,
    TypedStep,
};

/// An expression and those in it.
#[cycle(listing)]
#[tactic(auto, unfolding(qvt_meaning::specs::Numbered::in_expr, qvt_meaning::specs::Numbered::in_map, qvt_meaning::specs::Numbered::in_resolve))]
pub fn expr<'a>(
    filter: FilterName<'a>,
    node: &'a TypedExpr,
    all: &mut ListedExprList<'a>,
) -> Result<(), ListFault>
    ensures { OnOk result (listing all.new ≡ listing all.old ++ numbered.in_expr (filter_view filter.entry) (view.typed_expr_view node.now)) }
{
    add(filter, node, all)?;
    match node {
        TypedExpr::Int { .. } => Ok(()),
        TypedExpr::Str { .. } => Ok(()),
        TypedExpr::Bool { .. } => Ok(()),
        TypedExpr::Null { .. } => Ok(()),
        TypedExpr::SelfRef { .. } => Ok(()),
        TypedExpr::ResultRef { .. } => Ok(()),
        TypedExpr::Path(_) => Ok(()),
        TypedExpr::Call { args, .. } => exprs(args.as_slice(), all),
        TypedExpr::Coll { items, .. } => all_items(items.as_slice(), all),
        TypedExpr::If {
            condition,
            yes,
            no,
            ..
        } => {
            expr(FilterName::NoFilter, condition, all)?;
            expr(FilterName::NoFilter, yes, all)?;
            expr(FilterName::NoFilter, no, all)
        }
        TypedExpr::Object { body, .. } => stmts(body.as_slice(), all),
        TypedExpr::New { args, .. } => exprs(args.as_slice(), all),
        TypedExpr::Map(call) => exprs(call.args.as_slice(), all),
        TypedExpr::Resolve(call) => optional_filter(&call.filter, all),
        TypedExpr::Chain { first, rest, .. } => {
            expr(FilterName::NoFilter, first, all)?;
            links(rest.as_slice(), all)
        }
        TypedExpr::Prefix { operand, .. } => expr(FilterName::NoFilter, operand, all),
        TypedExpr::Post { first, steps, .. } => {
            expr(FilterName::NoFilter, first, all)?;
            all_steps(steps.as_slice(), all)
        }
    }
}

#[cycle(listing)]
#[tactic(auto, unfolding(qvt_meaning::specs::Numbered::in_exprs))]
pub fn exprs<'a>(nodes: &'a [TypedExpr], all: &mut ListedExprList<'a>) -> Result<(), ListFault>
    ensures { OnOk result (listing all.new ≡ listing all.old ++ numbered.in_exprs (view.typed_exprs_of (map view.typed_expr_view nodes.now))) }
{
    for node in nodes {
        expr(FilterName::NoFilter, node, all)?;
    }
    Ok(())
}

#[cycle(listing)]
#[tactic(auto, unfolding(qvt_meaning::specs::Numbered::in_optional))]
pub fn optional<'a>(
    node: &'a Option<TypedExpr>,
    all: &mut ListedExprList<'a>,
) -> Result<(), ListFault>
    ensures { OnOk result (listing all.new ≡ listing all.old ++ numbered.in_optional None (view.typed_optional_expr (option_map view.typed_expr_view node.now))) }
{
    match node {
        None => Ok(()),
        Some(node) => expr(FilterName::NoFilter, node, all),
    }
}

#[cycle(listing)]
#[tactic(auto, unfolding(qvt_meaning::specs::Numbered::in_optional))]
pub fn boxed<'a>(
    node: &'a Option<Box<TypedExpr>>,
    all: &mut ListedExprList<'a>,
) -> Result<(), ListFault>
    ensures { OnOk result (listing all.new ≡ listing all.old ++ numbered.in_optional None (view.typed_boxed_view node.now)) }
{
    match node {
        None => Ok(()),
        Some(node) => expr(FilterName::NoFilter, node, all),
    }
}

#[cycle(listing)]
#[tactic(auto, unfolding(qvt_meaning::specs::Numbered::in_links, qvt_meaning::specs::Numbered::in_link))]
pub fn links<'a>(nodes: &'a [TypedLink], all: &mut ListedExprList<'a>) -> Result<(), ListFault>
    ensures { OnOk result (listing all.new ≡ listing all.old ++ numbered.in_links (view.typed_links_of (map view.typed_link_view nodes.now))) }
{
    for node in nodes {
        expr(FilterName::NoFilter, &node.operand, all)?;
    }
    Ok(())
}

#[cycle(listing)]
#[tactic(auto, unfolding(qvt_meaning::specs::Numbered::in_range))]
pub fn optional_end<'a>(
    node: &'a Option<TypedRangeEnd>,
    all: &mut ListedExprList<'a>,
) -> Result<(), ListFault>
    ensures { OnOk result (listing all.new ≡ listing all.old ++ numbered.in_range (view.typed_optional_range (option_map view.typed_range_view node.now))) }
{
    match node {
        None => Ok(()),
        Some(end) => expr(FilterName::NoFilter, &end.last, all),
    }
}

#[cycle(listing)]
#[tactic(auto, unfolding(qvt_meaning::specs::Numbered::in_item))]
pub fn item<'a>(node: &'a TypedItem, all: &mut ListedExprList<'a>) -> Result<(), ListFault>
    ensures { OnOk result (listing all.new ≡ listing all.old ++ numbered.in_item (view.typed_item_view node.now)) }
{
    expr(FilterName::NoFilter, &node.first, all)?;
    optional_end(&node.last, all)
}

#[cycle(listing)]
#[tactic(auto, unfolding(qvt_meaning::specs::Numbered::in_items))]
pub fn all_items<'a>(nodes: &'a [TypedItem], all: &mut ListedExprList<'a>) -> Result<(), ListFault>
    ensures { OnOk result (listing all.new ≡ listing all.old ++ numbered.in_items (view.typed_items_of (map view.typed_item_view nodes.now))) }
{
    for node in nodes {
        item(node, all)?;
    }
    Ok(())
}

/// The condition of a filter.
#[cycle(listing)]
#[tactic(auto, unfolding(qvt_meaning::specs::Numbered::in_filter, qvt_meaning::specs::Numbered::in_optional))]
pub fn filter<'a>(node: &'a TypedFilter, all: &mut ListedExprList<'a>) -> Result<(), ListFault>
    ensures { OnOk result (listing all.new ≡ listing all.old ++ numbered.in_filter (view.typed_filter_view node.now)) }
{
    match &node.condition {
        None => Ok(()),
        Some(condition) => expr(filter_name(&node.name), condition, all),
    }
}

#[cycle(listing)]
#[tactic(auto, unfolding(qvt_meaning::specs::Numbered::in_filter))]
pub fn optional_filter<'a>(
    node: &'a Option<Box<TypedFilter>>,
    all: &mut ListedExprList<'a>,
) -> Result<(), ListFault>
    ensures { OnOk result (listing all.new ≡ listing all.old ++ numbered.in_filter (view.typed_boxed_filter_view node.now)) }
{
    match node {
        None => Ok(()),
        Some(node) => filter(node, all),
    }
}

#[cycle(listing)]
#[tactic(auto, unfolding(qvt_meaning::specs::Numbered::in_accumulator))]
pub fn optional_accumulator<'a>(
    node: &'a Option<Box<TypedAccumulator>>,
    all: &mut ListedExprList<'a>,
) -> Result<(), ListFault>
    ensures { OnOk result (listing all.new ≡ listing all.old ++ numbered.in_accumulator (view.typed_boxed_accumulator_view node.now)) }
{
    match node {
        None => Ok(()),
        Some(accumulator) => expr(FilterName::NoFilter, &accumulator.first, all),
    }
}

#[cycle(listing)]
#[tactic(auto, unfolding(qvt_meaning::specs::Numbered::in_head))]
pub fn optional_head<'a>(
    node: &'a Option<TypedHead>,
    all: &mut ListedExprList<'a>,
) -> Result<(), ListFault>
    ensures { OnOk result (listing all.new ≡ listing all.old ++ numbered.in_head (view.typed_optional_head (option_map view.typed_head_view node.now))) }
{
    match node {
        None => Ok(()),
        Some(head) => optional_accumulator(&head.accumulator, all),
    }
}

#[cycle(listing)]
#[tactic(auto, unfolding(qvt_meaning::specs::Numbered::in_step, qvt_meaning::specs::Numbered::in_args, qvt_meaning::specs::Numbered::in_map, qvt_meaning::specs::Numbered::in_resolve))]
pub fn step<'a>(node: &'a TypedStep, all: &mut ListedExprList<'a>) -> Result<(), ListFault>
    ensures { OnOk result (listing all.new ≡ listing all.old ++ numbered.in_step (view.typed_step_view node.now)) }
{
    match node {
        TypedStep::Dot { args, .. } => match args {
            None => Ok(()),
            Some(args) => exprs(args.as_slice(), all),
        },
        TypedStep::Arrow { head, args, .. } => {
            optional_head(head, all)?;
            exprs(args.as_slice(), all)
        }
        TypedStep::DotMap(call) => exprs(call.args.as_slice(), all),
        TypedStep::ArrowMap(call) => exprs(call.args.as_slice(), all),
        TypedStep::DotResolve(call) => optional_filter(&call.filter, all),
        TypedStep::ArrowResolve(call) => optional_filter(&call.filter, all),
    }
}

#[cycle(listing)]
#[tactic(auto, unfolding(qvt_meaning::specs::Numbered::in_steps))]
pub fn all_steps<'a>(nodes: &'a [TypedStep], all: &mut ListedExprList<'a>) -> Result<(), ListFault>
    ensures { OnOk result (listing all.new ≡ listing all.old ++ numbered.in_steps (view.typed_steps_of (map view.typed_step_view nodes.now))) }
{
    for node in nodes {
        step(node, all)?;
    }
    Ok(())
}
