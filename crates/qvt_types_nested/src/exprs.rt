//! Expressions and their steps.

ghost use Rattle.std.specs.Option.{option_map};
ghost use Rattle.std.specs.Prelude.{map};
ghost use Rattle.qvt_tree_types.specs.Tree.{CallExpr, CollExpr, ObjectExpr, NewExpr, PrefixExpr};
ghost use Rattle.qvt_tree_types.specs.View.{expr_view, exprs_of, link_view, links_of, item_view, items_of, range_view, step_view, steps_of, head_view, accumulator_view, filter_view, map_view, resolve_view, optional_filter, optional_head, optional_accumulator, optional_range, block_view};
ghost use Rattle.qvt_types_laws.specs.Join.{join_expr, join_exprs, join_link, join_links, join_item, join_items, join_range, join_step, join_steps, join_head, join_accumulator, join_filter, join_map, join_resolve, join_optional_expr};
ghost use Rattle.qvt_types_leaves.specs.Joins.{Joins, boxed_view};
ghost use Rattle.qvt_types_exprs.specs.Made.{held, unboxed};
ghost use Rattle.qvt_types_nodes.specs.View.{typed_expr_view, typed_exprs_of, typed_link_view, typed_links_of, typed_item_view, typed_items_of, typed_range_view, typed_step_view, typed_steps_of, typed_head_view, typed_accumulator_view, typed_filter_view, typed_map_view, typed_resolve_view, typed_optional_head, typed_optional_range, typed_boxed_view, typed_boxed_filter_view, typed_boxed_accumulator_view};

use crate::stmts::stmts;
use qvt_base::list_fault::ListFault;
use qvt_base::numbers::Place;
use qvt_base::seq::Seq;
use qvt_base::text::Text;
use qvt_tree_types::tree::{
    Accumulator, Expr, Filter, Head, Item, Link, MapCall, RangeEnd, ResolveCall, Step, Stmt,
};
use qvt_tree_types::types::{ObjectVar, PathTree};
use qvt_tree_types::words::{CollKind, Sign};
use qvt_types_exprs::boxes::{optional_path, optional_type, path, push, variable};
use qvt_types_exprs::{exprs as made, steps as made_step};
use qvt_types_leaves::leaves::{boxed_type, signs};
use qvt_types_leaves::notes::Notes;
use qvt_types_nodes::tree::{
    TypedAccumulator, TypedExpr, TypedExprList, TypedFilter, TypedHead, TypedItem, TypedItemList,
    TypedLink, TypedLinkList, TypedMapCall, TypedRangeEnd, TypedResolveCall, TypedStep,
    TypedStepList,
};
use std::alloc::Global;

#[cycle(join)]
pub fn expr(alloc: Global, of: &Expr, notes: &mut Notes) -> Result<Box<TypedExpr>, ListFault>
    ensures { Joins (held typed_expr_view) (join_expr (expr_view of.now) notes.old) result notes.new }
{
    match of {
        Expr::Int { value, place } => made::integer(alloc, *value, *place, notes),
        Expr::Str { value, place } => made::text(alloc, value, *place, notes),
        Expr::Bool { value, place } => made::boolean(alloc, *value, *place, notes),
        Expr::Null { place } => made::null(alloc, *place, notes),
        Expr::SelfRef { place } => made::self_ref(alloc, *place, notes),
        Expr::ResultRef { place } => made::result_ref(alloc, *place, notes),
        Expr::Path(of) => made::path_expr(alloc, of, notes),
        Expr::Call { name, args, place } => call(alloc, name, args.as_slice(), *place, notes),
        Expr::Coll { kind, items, place } => literal(alloc, *kind, items.as_slice(), *place, notes),
        Expr::If {
            condition,
            yes,
            no,
            place,
        } => {
            let condition = expr(alloc, condition, notes)?;
            let yes = expr(alloc, yes, notes)?;
            let no = expr(alloc, no, notes)?;
            made::conditional(alloc, condition, yes, no, *place, notes)
        }
        Expr::Object {
            variable,
            path,
            extent,
            body,
            place,
        } => object(
            alloc,
            body.as_slice(),
            variable,
            path,
            extent,
            *place,
            notes,
        ),
        Expr::New {
            path,
            extent,
            args,
            place,
        } => new_object(alloc, args.as_slice(), path, extent, *place, notes),
        Expr::Map(of) => {
            let call = map_call(alloc, of, notes)?;
            made::map_expr(alloc, call)
        }
        Expr::Resolve(of) => {
            let call = resolve_call(alloc, of, notes)?;
            made::resolve_expr(alloc, call)
        }
        Expr::Chain {
            level,
            first,
            rest,
            place,
        } => {
            let first = expr(alloc, first, notes)?;
            let rest = links(alloc, rest.as_slice(), notes)?;
            made::chain(alloc, *level, first, rest, *place, notes)
        }
        Expr::Prefix {
            signs,
            operand,
            place,
        } => prefix(alloc, operand, signs.as_slice(), *place, notes),
        Expr::Post {
            first,
            steps: list,
            place,
        } => {
            let first = expr(alloc, first, notes)?;
            let steps = steps(alloc, list.as_slice(), notes)?;
            made::post(alloc, first, steps, *place, notes)
        }
    }
}

#[cycle(join)]
pub fn exprs(alloc: Global, of: &[Expr], notes: &mut Notes) -> Result<TypedExprList, ListFault>
    ensures { Joins (λ xs. typed_exprs_of (map typed_expr_view xs)) (join_exprs (exprs_of (map expr_view of.now)) notes.old) result notes.new }
{
    let mut done = Seq::with_room(alloc, of.len())?;
    for each in of {
        let next = expr(alloc, each, notes)?;
        push(&mut done, next)?;
    }
    Ok(done)
}

#[cycle(join)]
pub fn call(
    alloc: Global,
    name: &Text,
    args: &[Expr],
    place: Place,
    notes: &mut Notes,
) -> Result<Box<TypedExpr>, ListFault>
    ensures { Joins (held typed_expr_view) (join_expr (CallExpr name.now (exprs_of (map expr_view args.now)) place) notes.old) result notes.new }
{
    let args = exprs(alloc, args, notes)?;
    made::call(alloc, name, args, place, notes)
}

#[cycle(join)]
pub fn literal(
    alloc: Global,
    kind: CollKind,
    items: &[Item],
    place: Place,
    notes: &mut Notes,
) -> Result<Box<TypedExpr>, ListFault>
    ensures { Joins (held typed_expr_view) (join_expr (CollExpr kind (items_of (map item_view items.now)) place) notes.old) result notes.new }
{
    let items = all_items(alloc, items, notes)?;
    made::collection(alloc, kind, items, place, notes)
}

#[cycle(join)]
pub fn object(
    alloc: Global,
    body: &[Stmt],
    of: &Option<ObjectVar>,
    class: &PathTree,
    extent: &Option<Text>,
    place: Place,
    notes: &mut Notes,
) -> Result<Box<TypedExpr>, ListFault>
    ensures { Joins (held typed_expr_view) (join_expr (ObjectExpr of.now class.now extent.now (block_view body.now) place) notes.old) result notes.new }
{
    let variable = variable(alloc, of, notes)?;
    let path = path(alloc, class, notes)?;
    let body = stmts(alloc, body, notes)?;
    made::object(alloc, variable, path, extent, body, place, notes)
}

#[cycle(join)]
pub fn new_object(
    alloc: Global,
    args: &[Expr],
    class: &PathTree,
    extent: &Option<Text>,
    place: Place,
    notes: &mut Notes,
) -> Result<Box<TypedExpr>, ListFault>
    ensures { Joins (held typed_expr_view) (join_expr (NewExpr class.now extent.now (exprs_of (map expr_view args.now)) place) notes.old) result notes.new }
{
    let path = path(alloc, class, notes)?;
    let args = exprs(alloc, args, notes)?;
    made::new_object(alloc, path, extent, args, place, notes)
}

#[cycle(join)]
pub fn prefix(
    alloc: Global,
    operand: &Expr,
    before: &[Sign],
    place: Place,
    notes: &mut Notes,
) -> Result<Box<TypedExpr>, ListFault>
    ensures { Joins (held typed_expr_view) (join_expr (PrefixExpr before.now (expr_view operand.now) place) notes.old) result notes.new }
{
    let signs = signs(alloc, before, notes)?;
    let operand = expr(alloc, operand, notes)?;
    made::prefix(alloc, signs, operand, place, notes)
}

#[cycle(join)]
pub fn link(alloc: Global, of: &Link, notes: &mut Notes) -> Result<Box<TypedLink>, ListFault>
    ensures { Joins (held typed_link_view) (join_link (link_view of.now) notes.old) result notes.new }
{
    let operand = expr(alloc, &of.operand, notes)?;
    made_step::link(alloc, of.op, operand, of.place, notes)
}

#[cycle(join)]
pub fn links(alloc: Global, of: &[Link], notes: &mut Notes) -> Result<TypedLinkList, ListFault>
    ensures { Joins (λ xs. typed_links_of (map typed_link_view xs)) (join_links (links_of (map link_view of.now)) notes.old) result notes.new }
{
    let mut done = Seq::with_room(alloc, of.len())?;
    for each in of {
        let next = link(alloc, each, notes)?;
        push(&mut done, next)?;
    }
    Ok(done)
}

#[cycle(join)]
pub fn range_end(
    alloc: Global,
    of: &RangeEnd,
    notes: &mut Notes,
) -> Result<Box<TypedRangeEnd>, ListFault>
    ensures { Joins (held typed_range_view) (join_range (range_view of.now) notes.old) result notes.new }
{
    let last = expr(alloc, &of.last, notes)?;
    made_step::range_end(alloc, last, of.place, notes)
}

#[cycle(join)]
pub fn optional_range(
    alloc: Global,
    of: &Option<RangeEnd>,
    notes: &mut Notes,
) -> Result<Option<Box<TypedRangeEnd>>, ListFault>
    ensures { Joins (λ o. typed_optional_range (option_map typed_range_view (unboxed o))) (join_range (optional_range (option_map range_view of.now)) notes.old) result notes.new }
{
    match of {
        None => Ok(None),
        Some(of) => Ok(Some(range_end(alloc, of, notes)?)),
    }
}

#[cycle(join)]
pub fn one_item(alloc: Global, of: &Item, notes: &mut Notes) -> Result<Box<TypedItem>, ListFault>
    ensures { Joins (held typed_item_view) (join_item (item_view of.now) notes.old) result notes.new }
{
    let first = expr(alloc, &of.first, notes)?;
    let last = optional_range(alloc, &of.last, notes)?;
    made_step::item(alloc, first, last, of.place, notes)
}

#[cycle(join)]
pub fn all_items(alloc: Global, of: &[Item], notes: &mut Notes) -> Result<TypedItemList, ListFault>
    ensures { Joins (λ xs. typed_items_of (map typed_item_view xs)) (join_items (items_of (map item_view of.now)) notes.old) result notes.new }
{
    let mut done = Seq::with_room(alloc, of.len())?;
    for each in of {
        let next = one_item(alloc, each, notes)?;
        push(&mut done, next)?;
    }
    Ok(done)
}

#[cycle(join)]
pub fn map_call(
    alloc: Global,
    of: &MapCall,
    notes: &mut Notes,
) -> Result<Box<TypedMapCall>, ListFault>
    ensures { Joins (held typed_map_view) (join_map (map_view of.now) notes.old) result notes.new }
{
    let args = exprs(alloc, of.args.as_slice(), notes)?;
    made_step::map_call(alloc, of.strict, &of.name, args, of.place, notes)
}

#[cycle(join)]
pub fn resolve_call(
    alloc: Global,
    of: &ResolveCall,
    notes: &mut Notes,
) -> Result<Box<TypedResolveCall>, ListFault>
    ensures { Joins (held typed_resolve_view) (join_resolve (resolve_view of.now) notes.old) result notes.new }
{
    let within = optional_path(alloc, &of.within, notes)?;
    let filter = optional_filter(alloc, &of.filter, notes)?;
    made_step::resolve_call(alloc, of.late, of.word, within, filter, of.place, notes)
}

#[cycle(join)]
pub fn filter(alloc: Global, of: &Filter, notes: &mut Notes) -> Result<Box<TypedFilter>, ListFault>
    ensures { Joins (held typed_filter_view) (join_filter (filter_view of.now) notes.old) result notes.new }
{
    let kind = boxed_type(alloc, &of.kind, notes)?;
    let condition = optional_boxed(alloc, &of.condition, notes)?;
    made_step::filter(alloc, &of.name, kind, condition, of.place, notes)
}

#[cycle(join)]
pub fn optional_filter(
    alloc: Global,
    of: &Option<Filter>,
    notes: &mut Notes,
) -> Result<Option<Box<TypedFilter>>, ListFault>
    ensures { Joins typed_boxed_filter_view (join_filter (optional_filter (option_map filter_view of.now)) notes.old) result notes.new }
{
    match of {
        None => Ok(None),
        Some(of) => Ok(Some(filter(alloc, of, notes)?)),
    }
}

#[cycle(join)]
pub fn optional_boxed(
    alloc: Global,
    of: &Option<Box<Expr>>,
    notes: &mut Notes,
) -> Result<Option<Box<TypedExpr>>, ListFault>
    ensures { Joins typed_boxed_view (join_optional_expr (boxed_view of.now) notes.old) result notes.new }
{
    match of {
        None => Ok(None),
        Some(of) => Ok(Some(expr(alloc, of, notes)?)),
    }
}

#[cycle(join)]
pub fn accumulator(
    alloc: Global,
    of: &Accumulator,
    notes: &mut Notes,
) -> Result<Box<TypedAccumulator>, ListFault>
    ensures { Joins (held typed_accumulator_view) (join_accumulator (accumulator_view of.now) notes.old) result notes.new }
{
    let kind = boxed_type(alloc, &of.kind, notes)?;
    let first = expr(alloc, &of.first, notes)?;
    made_step::accumulator(alloc, &of.name, kind, first, of.place, notes)
}

#[cycle(join)]
pub fn optional_accumulator(
    alloc: Global,
    of: &Option<Accumulator>,
    notes: &mut Notes,
) -> Result<Option<Box<TypedAccumulator>>, ListFault>
    ensures { Joins typed_boxed_accumulator_view (join_accumulator (optional_accumulator (option_map accumulator_view of.now)) notes.old) result notes.new }
{
    match of {
        None => Ok(None),
        Some(of) => Ok(Some(accumulator(alloc, of, notes)?)),
    }
}

#[cycle(join)]
pub fn head(alloc: Global, of: &Head, notes: &mut Notes) -> Result<Box<TypedHead>, ListFault>
    ensures { Joins (held typed_head_view) (join_head (head_view of.now) notes.old) result notes.new }
{
    let kind = optional_type(alloc, &of.kind, notes)?;
    let accumulator = optional_accumulator(alloc, &of.accumulator, notes)?;
    made_step::head(alloc, &of.name, kind, accumulator, of.place, notes)
}

#[cycle(join)]
pub fn optional_head(
    alloc: Global,
    of: &Option<Head>,
    notes: &mut Notes,
) -> Result<Option<Box<TypedHead>>, ListFault>
    ensures { Joins (λ o. typed_optional_head (option_map typed_head_view (unboxed o))) (join_head (optional_head (option_map head_view of.now)) notes.old) result notes.new }
{
    match of {
        None => Ok(None),
        Some(of) => Ok(Some(head(alloc, of, notes)?)),
    }
}

#[cycle(join)]
pub fn step(alloc: Global, of: &Step, notes: &mut Notes) -> Result<Box<TypedStep>, ListFault>
    ensures { Joins (held typed_step_view) (join_step (step_view of.now) notes.old) result notes.new }
{
    match of {
        Step::Dot { name, args, place } => match args {
            None => made_step::dot(alloc, name, None, *place, notes),
            Some(args) => {
                let args = exprs(alloc, args.as_slice(), notes)?;
                made_step::dot(alloc, name, Some(args), *place, notes)
            }
        },
        Step::Arrow {
            name,
            head,
            args,
            place,
        } => {
            let head = optional_head(alloc, head, notes)?;
            let args = exprs(alloc, args.as_slice(), notes)?;
            made_step::arrow(alloc, name, head, args, *place, notes)
        }
        Step::DotMap(of) => {
            let call = map_call(alloc, of, notes)?;
            made_step::dot_map(alloc, call)
        }
        Step::ArrowMap(of) => {
            let call = map_call(alloc, of, notes)?;
            made_step::arrow_map(alloc, call)
        }
        Step::DotResolve(of) => {
            let call = resolve_call(alloc, of, notes)?;
            made_step::dot_resolve(alloc, call)
        }
        Step::ArrowResolve(of) => {
            let call = resolve_call(alloc, of, notes)?;
            made_step::arrow_resolve(alloc, call)
        }
    }
}

#[cycle(join)]
pub fn steps(alloc: Global, of: &[Step], notes: &mut Notes) -> Result<TypedStepList, ListFault>
    ensures { Joins (λ xs. typed_steps_of (map typed_step_view xs)) (join_steps (steps_of (map step_view of.now)) notes.old) result notes.new }
{
    let mut done = Seq::with_room(alloc, of.len())?;
    for each in of {
        let next = step(alloc, each, notes)?;
        push(&mut done, next)?;
    }
    Ok(done)
}
