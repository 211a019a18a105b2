//! Resolves.

ghost use Rattle.std.specs.Prelude.{option_map};
ghost use Rattle.qvt_tree_types.specs.View as view;
ghost use Rattle.qvt_types_rules.specs.Seen.{seen};
ghost use Rattle.qvt_types_states.specs.Does.{GivesAndLeaves};
ghost use Rattle.qvt_typing.specs.Phrases as phrase;
ghost use Rattle.qvt_types_walk_steps.specs.Parts as part;

use crate::lists::given_boxed;
use crate::nested::NestedWalk;
use qvt_base::list_fault::ListFault;
use qvt_base::numbers::Place;
use qvt_base::text::Text;
use qvt_tree_types::tree::{Expr, Filter, ResolveCall};
use qvt_tree_types::types::PathTree;
use qvt_types_data::ruling::Read;
use qvt_types_data::ty::Ty;
use qvt_types_rules::context::Context;
use qvt_types_rules::leaves::written_class;
use qvt_types_rules::resolves::{
    Resolving, declare_filter, filter_settled, resolve_settled, within,
};
use qvt_types_states::state::TypingState;
use qvt_types_states::steps::{answers, fresh, marks};
use qvt_types_steps::classes::ClassPart;
use qvt_types_steps::resolves::Joint;
use qvt_typing::parts::{Filtered, Given};

/// The condition of a filter, in which what is filtered is in scope.
fn filter_condition<C: NestedWalk>(
    x: &Context<'_>,
    inside: &C,
    name: &Option<Text>,
    class: ClassPart,
    condition: &Option<Box<Expr>>,
    place: Place,
    state: &mut TypingState,
) -> Result<Given, ListFault>
    requires { C.ready inside.now }
    ensures { GivesAndLeaves (part.filter_condition name.now class place (phrase.given_expr (phrase.plain_in (seen x.now)) (view.optional_expr (option_map (λ e. view.expr_view e.value) condition.now))) state.old) result state.new }
{
    let (named, sources) = state.scope.mark();
    declare_filter(x, name, class, place, state)?;
    let inner = Context { plain: true, ..*x };
    let condition = given_boxed(&inner, inside, condition, state)?;
    state.scope.cut(named, sources);
    Ok(condition)
}

#[tactic(auto, unfolding(qvt_typing::specs::Phrases::filtered, qvt_typing::specs::Rules::filter))]
fn filter<C: NestedWalk>(
    x: &Context<'_>,
    inside: &C,
    filter: &Filter,
    state: &mut TypingState,
) -> Result<Filtered, ListFault>
    requires { C.ready inside.now }
    ensures { GivesAndLeaves (phrase.filtered (seen x.now) (view.filter_view filter.now) state.old) result state.new }
{
    let class = written_class(x, &filter.kind, state)?;
    let condition = filter_condition(
        x,
        inside,
        &filter.name,
        class,
        &filter.condition,
        filter.place,
        state,
    )?;
    filter_settled(x, class, &condition, filter.place, state)
}

#[tactic(auto, unfolding(qvt_typing::specs::Phrases::filtered))]
fn filter_if<C: NestedWalk>(
    x: &Context<'_>,
    inside: &C,
    node: &Option<Filter>,
    state: &mut TypingState,
) -> Result<Filtered, ListFault>
    requires { C.ready inside.now }
    ensures { GivesAndLeaves (phrase.filtered (seen x.now) (view.optional_filter (option_map view.filter_view node.now)) state.old) result state.new }
{
    match node {
        None => Ok(Filtered::NoFilter),
        Some(node) => filter(x, inside, node, state),
    }
}

/// A resolve, up to its note.
fn resolve_read<C: NestedWalk>(
    x: &Context<'_>,
    inside: &C,
    mapping: &Option<PathTree>,
    filter: &Option<Filter>,
    resolving: &Resolving<'_>,
    place: Place,
    state: &mut TypingState,
) -> Result<Read, ListFault>
    requires { C.ready inside.now }
    ensures { GivesAndLeaves (part.resolve_read (seen x.now) resolving.now.allowed resolving.now.late resolving.now.joint resolving.now.word resolving.now.source.now (phrase.within (seen x.now) mapping.now) (phrase.filtered (seen x.now) (view.optional_filter (option_map view.filter_view filter.now))) place state.old) result state.new }
{
    let mapping = within(x, mapping, state)?;
    let filter = filter_if(x, inside, filter, state)?;
    resolve_settled(x, resolving, mapping, filter, place, state)
}

/// A resolve that looks at all objects.
#[tactic(auto, unfolding(qvt_typing::specs::Phrases::resolved, qvt_typing::specs::Rules::resolve))]
pub fn resolve_call<C: NestedWalk>(
    x: &Context<'_>,
    inside: &C,
    late: bool,
    call: &ResolveCall,
    state: &mut TypingState,
) -> Result<Option<Ty>, ListFault>
    requires { C.ready inside.now }
    ensures { GivesAndLeaves (phrase.resolved (seen x.now) late (view.resolve_view call.now) state.old) result state.new }
{
    let number = fresh(state)?;
    let resolving = Resolving {
        allowed: late,
        late: call.late,
        joint: Joint::Sourceless,
        word: call.word,
        source: &None,
    };
    let read = resolve_read(
        x,
        inside,
        &call.within,
        &call.filter,
        &resolving,
        call.place,
        state,
    )?;
    answers(x.alloc, number, read, state)
}

/// A resolve from what stands before it.
#[tactic(auto, unfolding(qvt_typing::specs::Phrases::resolved_behind, qvt_typing::specs::Rules::resolve_step))]
pub fn resolve_step<C: NestedWalk>(
    x: &Context<'_>,
    inside: &C,
    late: bool,
    joint: Joint,
    call: &ResolveCall,
    source: &Option<Ty>,
    state: &mut TypingState,
) -> Result<Option<Ty>, ListFault>
    requires { C.ready inside.now }
    ensures { GivesAndLeaves (phrase.resolved_behind (seen x.now) late joint (view.resolve_view call.now) source.now state.old) result state.new }
{
    let resolving = Resolving {
        allowed: late,
        late: call.late,
        joint,
        word: call.word,
        source,
    };
    let read = resolve_read(
        x,
        inside,
        &call.within,
        &call.filter,
        &resolving,
        call.place,
        state,
    )?;
    marks(read, state)
}
