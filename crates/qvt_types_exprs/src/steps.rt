//! Steps after an expression, and what stands in calls, chains and collections.

ghost use Rattle.std.specs.Prelude.{map};
ghost use Rattle.std.specs.Option.{option_map};
ghost use Rattle.qvt_types_exprs.specs.Made.{held, unboxed, MakesNode, Noted};
ghost use Rattle.qvt_types_nodes.specs.Tree.{TypedLinkOf, TypedRangeTo, TypedItemOf, TypedMapOf, TypedResolveOf, TypedFilterOf, TypedHeadOf, TypedAccumulatorOf, TypedDotStep, TypedArrowStep, TypedDotMapStep, TypedArrowMapStep, TypedDotResolveStep, TypedArrowResolveStep};
ghost use Rattle.qvt_types_nodes.specs.View.{typed_type_view, typed_optional_type, typed_expr_view, typed_exprs_of, typed_link_view, typed_range_view, typed_item_view, typed_map_view, typed_resolve_view, typed_filter_view, typed_head_view, typed_accumulator_view, typed_step_view, typed_optional_args, typed_optional_range, typed_optional_head, typed_boxed_view, typed_boxed_filter_view, typed_boxed_accumulator_view};

use qvt_base::copied::Copied;
use qvt_base::list_fault::ListFault;
use qvt_base::numbers::Place;
use qvt_base::text::Text;
use qvt_tree_types::words::{BinaryOp, ResolveWord};
use qvt_types_leaves::leaves::{in_box, optional_text, out_of_box};
use qvt_types_leaves::notes::Notes;
use qvt_types_nodes::tree::{
    TypedAccumulator, TypedExpr, TypedExprList, TypedFilter, TypedHead, TypedItem, TypedLink,
    TypedMapCall, TypedRangeEnd, TypedResolveCall, TypedStep,
};
use qvt_types_nodes::types::{TypedPathTree, TypedTypeTree};
use std::alloc::Global;

/// A further operand of a chain, with the operator before it.
pub fn link(
    alloc: Global,
    op: BinaryOp,
    operand: Box<TypedExpr>,
    place: Place,
    notes: &mut Notes,
) -> Result<Box<TypedLink>, ListFault>
    ensures { Noted typed_link_view (TypedLinkOf op (held typed_expr_view operand) place) notes.old result notes.new }
{
    let note = notes.take();
    in_box(
        alloc,
        TypedLink {
            op,
            operand: Box::into_inner(operand),
            place,
            note,
        },
    )
}

/// The end of a range.
pub fn range_end(
    alloc: Global,
    last: Box<TypedExpr>,
    place: Place,
    notes: &mut Notes,
) -> Result<Box<TypedRangeEnd>, ListFault>
    ensures { Noted typed_range_view (TypedRangeTo (held typed_expr_view last) place) notes.old result notes.new }
{
    let note = notes.take();
    in_box(
        alloc,
        TypedRangeEnd {
            last: Box::into_inner(last),
            place,
            note,
        },
    )
}

/// An item of a collection.
pub fn item(
    alloc: Global,
    first: Box<TypedExpr>,
    last: Option<Box<TypedRangeEnd>>,
    place: Place,
    notes: &mut Notes,
) -> Result<Box<TypedItem>, ListFault>
    ensures { Noted typed_item_view (TypedItemOf (held typed_expr_view first) (typed_optional_range (option_map typed_range_view (unboxed last))) place) notes.old result notes.new }
{
    let note = notes.take();
    in_box(
        alloc,
        TypedItem {
            first: Box::into_inner(first),
            last: out_of_box(last),
            place,
            note,
        },
    )
}

/// What a mapping call calls, and with what.
pub fn map_call(
    alloc: Global,
    strict: bool,
    name: &Text,
    args: TypedExprList,
    place: Place,
    notes: &mut Notes,
) -> Result<Box<TypedMapCall>, ListFault>
    ensures { Noted typed_map_view (TypedMapOf strict name.now (typed_exprs_of (map typed_expr_view args)) place) notes.old result notes.new }
{
    let name = name.copy(alloc)?;
    let note = notes.take();
    in_box(
        alloc,
        TypedMapCall {
            strict,
            name,
            args,
            place,
            note,
        },
    )
}

/// What a resolve asks for.
pub fn resolve_call(
    alloc: Global,
    late: bool,
    word: ResolveWord,
    within: Option<Box<TypedPathTree>>,
    filter: Option<Box<TypedFilter>>,
    place: Place,
    notes: &mut Notes,
) -> Result<Box<TypedResolveCall>, ListFault>
    ensures { Noted typed_resolve_view (TypedResolveOf late word (unboxed within) (typed_boxed_filter_view filter) place) notes.old result notes.new }
{
    let note = notes.take();
    in_box(
        alloc,
        TypedResolveCall {
            late,
            word,
            within: out_of_box(within),
            filter,
            place,
            note,
        },
    )
}

/// The class of a resolve, with its variable and condition.
pub fn filter(
    alloc: Global,
    name: &Option<Text>,
    kind: Box<TypedTypeTree>,
    condition: Option<Box<TypedExpr>>,
    place: Place,
    notes: &mut Notes,
) -> Result<Box<TypedFilter>, ListFault>
    ensures { Noted typed_filter_view (TypedFilterOf name.now (held typed_type_view kind) (typed_boxed_view condition) place) notes.old result notes.new }
{
    let name = optional_text(alloc, name)?;
    let note = notes.take();
    in_box(
        alloc,
        TypedFilter {
            name,
            kind: Box::into_inner(kind),
            condition,
            place,
            note,
        },
    )
}

/// The iterator of an arrow step, and the accumulator of an `iterate`.
pub fn head(
    alloc: Global,
    name: &Text,
    kind: Option<Box<TypedTypeTree>>,
    accumulator: Option<Box<TypedAccumulator>>,
    place: Place,
    notes: &mut Notes,
) -> Result<Box<TypedHead>, ListFault>
    ensures { Noted typed_head_view (TypedHeadOf name.now (typed_optional_type (unboxed kind)) (typed_boxed_accumulator_view accumulator) place) notes.old result notes.new }
{
    let name = name.copy(alloc)?;
    let note = notes.take();
    in_box(
        alloc,
        TypedHead {
            name,
            kind: out_of_box(kind),
            accumulator,
            place,
            note,
        },
    )
}

/// An accumulator with its first value.
pub fn accumulator(
    alloc: Global,
    name: &Text,
    kind: Box<TypedTypeTree>,
    first: Box<TypedExpr>,
    place: Place,
    notes: &mut Notes,
) -> Result<Box<TypedAccumulator>, ListFault>
    ensures { Noted typed_accumulator_view (TypedAccumulatorOf name.now (held typed_type_view kind) (held typed_expr_view first) place) notes.old result notes.new }
{
    let name = name.copy(alloc)?;
    let note = notes.take();
    in_box(
        alloc,
        TypedAccumulator {
            name,
            kind: Box::into_inner(kind),
            first: Box::into_inner(first),
            place,
            note,
        },
    )
}

/// A step with a dot.
pub fn dot(
    alloc: Global,
    name: &Text,
    args: Option<TypedExprList>,
    place: Place,
    notes: &mut Notes,
) -> Result<Box<TypedStep>, ListFault>
    ensures { Noted typed_step_view (TypedDotStep name.now (typed_optional_args (option_map (map typed_expr_view) args)) place) notes.old result notes.new }
{
    let name = name.copy(alloc)?;
    let note = notes.take();
    in_box(
        alloc,
        TypedStep::Dot {
            name,
            args,
            place,
            note,
        },
    )
}

/// A step with an arrow.
pub fn arrow(
    alloc: Global,
    name: &Text,
    head: Option<Box<TypedHead>>,
    args: TypedExprList,
    place: Place,
    notes: &mut Notes,
) -> Result<Box<TypedStep>, ListFault>
    ensures { Noted typed_step_view (TypedArrowStep name.now (typed_optional_head (option_map typed_head_view (unboxed head))) (typed_exprs_of (map typed_expr_view args)) place) notes.old result notes.new }
{
    let name = name.copy(alloc)?;
    let note = notes.take();
    in_box(
        alloc,
        TypedStep::Arrow {
            name,
            head: out_of_box(head),
            args,
            place,
            note,
        },
    )
}

/// A mapping call after a dot.
pub fn dot_map(alloc: Global, call: Box<TypedMapCall>) -> Result<Box<TypedStep>, ListFault>
    ensures { MakesNode typed_step_view (TypedDotMapStep (held typed_map_view call)) result }
{
    in_box(alloc, TypedStep::DotMap(Box::into_inner(call)))
}

/// A mapping call after an arrow.
pub fn arrow_map(alloc: Global, call: Box<TypedMapCall>) -> Result<Box<TypedStep>, ListFault>
    ensures { MakesNode typed_step_view (TypedArrowMapStep (held typed_map_view call)) result }
{
    in_box(alloc, TypedStep::ArrowMap(Box::into_inner(call)))
}

/// A resolve after a dot.
pub fn dot_resolve(alloc: Global, call: Box<TypedResolveCall>) -> Result<Box<TypedStep>, ListFault>
    ensures { MakesNode typed_step_view (TypedDotResolveStep (held typed_resolve_view call)) result }
{
    in_box(alloc, TypedStep::DotResolve(Box::into_inner(call)))
}

/// A resolve after an arrow.
pub fn arrow_resolve(
    alloc: Global,
    call: Box<TypedResolveCall>,
) -> Result<Box<TypedStep>, ListFault>
    ensures { MakesNode typed_step_view (TypedArrowResolveStep (held typed_resolve_view call)) result }
{
    in_box(alloc, TypedStep::ArrowResolve(Box::into_inner(call)))
}
