//! `+=` to variables of collection types.

ghost use Rattle.std.specs.Prelude.{◌≡◌, ◌<◌, length, slice_get, slice_set, IfOk, IfSome, OnOk, Some};
ghost use Rattle.std.specs.List.{list_all};
ghost use Rattle.std.specs.Option.{option_copied};
ghost use Rattle.qvt_run_rules.specs.Locals.{local};
ghost use Rattle.qvt_run_rules.specs.Statements.{added, added_as, added_items, added_to, collection_type, is_item};
ghost use Rattle.qvt_types_words.specs.Rulings as rulings;
ghost use Rattle.qvt_exec_state.specs.Runs.{Runs, seen};
ghost use Rattle.qvt_exec_moves.specs.Appended.{IsSequence, IsSequenceAt, are_beyond, barred, with_items};
ghost use Rattle.qvt_exec_moves.specs.Moves.{add_there, added_on};

use crate::values::valid;
use crate::variables::{place_in, set_there};
use qvt_base::copied::Copied;
use qvt_base::list_fault::ListFault;
use qvt_base::numbers::Place;
use qvt_base::seq::Seq;
use qvt_exec_reads::types::has_type;
use qvt_exec_state::state::RunState;
use qvt_exec_state::steps::{found, misfit};
use qvt_exec_state::store::Store;
use qvt_exec_words::made::built;
use qvt_exec_words::sources::items_of;
use qvt_metas::metas::Metas;
use qvt_ocl_lists::items::{followed, is_null};
use qvt_run_data::exit::{End, Exit, Halt};
use qvt_run_data::fault::RunFault;
use qvt_run_data::local::Local;
use qvt_tree_types::words::CollKind;
use qvt_types_data::kinds::kind_of;
use qvt_types_data::ty::Ty;
use qvt_types_words::rulings::items_conform;
use qvt_value::limits::MOST;
use qvt_value::value::{Kind, Reason, Value, Values};
use std::alloc::Global;
use std::mem;

fn are_items(store: &Store, item: &Ty, values: &[Value]) -> bool
    ensures { result ≡ list_all (is_item store.now item.now) values.now }
{
    values.iter().all(|value| has_type(store, item, value))
}

/// Whether the type is one of collections whose items conform.
fn are_conforming(metas: &Metas, of: Option<&Ty>, item: &Ty) -> bool
    ensures { result ≡ rulings.items_conform metas.now (collection_type (option_copied of.entry)) item.now }
{
    match of {
        None => false,
        Some(of) => items_conform(metas, of, item),
    }
}

/// The items that a value of the type adds to a variable with this type of item.
#[tactic(auto, using(crate::proofs::Added::items_added))]
fn added_items(
    alloc: Global,
    metas: &Metas,
    of: Option<&Ty>,
    item: &Ty,
    value: Value,
) -> Result<Values, ListFault>
    ensures { IfOk result (λ items. items ≡ added_items metas.now (collection_type (option_copied of.entry)) item.now value) }
{
    if is_null(&value) {
        return Ok(Seq::new(alloc));
    }
    if are_conforming(metas, of, item) {
        return items_of(alloc, value);
    }
    let mut items = Seq::new(alloc);
    items.push(value)?;
    Ok(items)
}

/// What a variable of a collection type then holds, None where an item is not of its item type.
fn added_to(
    alloc: Global,
    store: &Store,
    place: Place,
    kind: CollKind,
    item: &Ty,
    old: &Value,
    items: Values,
) -> Result<Option<Value>, ListFault>
    ensures { IfOk result (λ sum. sum ≡ added_to store.now place (record { kind = kind; item = item.now }) old.now items) }
{
    if !are_items(store, item, items.as_slice()) {
        return Ok(None);
    }
    let held = items_of(alloc, old.copy(alloc)?)?;
    let all = followed(held, items)?;
    Ok(Some(built(alloc, place, kind_of(kind), all)?))
}

/// The same of a variable with any type, or none.
fn added_as(
    alloc: Global,
    store: &Store,
    place: Place,
    old: &Local,
    of: Option<&Ty>,
    value: Value,
) -> Result<Option<Value>, ListFault>
    ensures { IfOk result (λ sum. sum ≡ added_as store.now place (collection_type old.now.asked) (collection_type (option_copied of.entry)) old.now.value value) }
{
    match &old.asked {
        Some(Ty::Coll(kind, item)) => {
            let items = added_items(alloc, store.metas(), of, item.get(), value)?;
            added_to(alloc, store, place, *kind, item.get(), &old.value, items)
        }
        _ => Ok(None),
    }
}

/// What a variable holds once a value with this type is added to it.
fn added(
    alloc: Global,
    old: &Local,
    of: Option<&Ty>,
    value: Value,
    place: Place,
    state: &RunState<'_>,
) -> Result<Value, Halt>
    ensures { Runs (added old.now (option_copied of.entry) value place (seen state.now)) result state.now }
{
    let sum = added_as(alloc, state.store.as_store(), place, old, of, value)?;
    found(sum, place, state)
}

/// Whether the lists make one that is beyond the limit.
fn are_beyond(held: &[Value], items: &[Value]) -> bool
    ensures { result ≡ are_beyond held.now items.now }
{
    match held.len().checked_add(items.len()) {
        None => true,
        Some(all) => all > MOST,
    }
}

/// What keeps items from standing behind those of a Sequence with this type of item.
fn barred(store: &Store, item: &Ty, held: &[Value], items: &[Value], place: Place) -> Option<End>
    ensures { result ≡ barred store.now item.now held.now items.now place }
{
    if !are_items(store, item, items) {
        return Some(End::Fault(RunFault::TypeFault, place));
    }
    if are_beyond(held, items) {
        return Some(End::Fault(RunFault::InvalidValue(Reason::TooLarge), place));
    }
    if !are_items(store, item, held) {
        return Some(End::Fault(RunFault::TypeFault, place));
    }
    None
}

/// The item type and the items of a variable of a Sequence type that holds a Sequence.
fn sequence_in(held: &Local) -> Option<(&Ty, &[Value])>
    ensures { IfSome result (λ parts. IsSequence held.now parts.0.now parts.1.now) }
{
    match (&held.asked, &held.value) {
        (Some(Ty::Coll(CollKind::Sequence, item)), Value::Coll(Kind::Sequence, items)) => {
            Some((item.get(), items.as_slice()))
        }
        _ => None,
    }
}

/// The same of the variable at this place.
fn sequence_at(locals: &Seq<Local>, at: usize) -> Option<(&Ty, &[Value])>
    ensures { IfSome result (λ parts. IsSequenceAt locals.now at parts.0.now parts.1.now) }
{
    match locals.get(at) {
        Some(held) => sequence_in(held),
        None => None,
    }
}

/// The collection with these items behind its own. None is copied.
#[tactic(auto, using(crate::proofs::Appended::behind_items, crate::proofs::Appended::behind_none))]
fn with_items(collection: Value, items: Values) -> Result<Value, ListFault>
    ensures { IfOk result (λ sum. sum ≡ with_items collection items) }
{
    match collection.into_items() {
        Ok((kind, held)) => Ok(Value::Coll(kind, followed(held, items)?)),
        Err(single) => Ok(single),
    }
}

/// Puts items behind those of the collection that the variable at this place holds. None is copied;
/// where there is no memory for it, the variables are gone.
fn append(alloc: Global, locals: &mut Seq<Local>, at: usize, items: Values) -> Result<(), ListFault>
    requires { at < length locals.old }
    ensures { (l : Local) → slice_get locals.old at ≡ Some l → OnOk result (locals.new ≡ slice_set locals.old at (local l.name l.asked (with_items l.value items))) }
{
    let mut all = mem::replace(locals, Seq::new(alloc)).into_vec();
    let held = &mut all[at];
    let old = mem::replace(&mut held.value, Value::Null);
    held.value = with_items(old, items)?;
    *locals = Seq::from_vec(all);
    Ok(())
}

/// `+=` to the variable at this place by a sum of its own.
fn add_copied(
    alloc: Global,
    at: usize,
    of: Option<&Ty>,
    value: Value,
    place: Place,
    state: &mut RunState<'_>,
) -> Result<(), Halt>
    ensures { Runs (add_there at (option_copied of.entry) value place (seen state.old)) result state.new }
{
    let Some(old) = state.locals.get(at) else {
        return misfit(place);
    };
    let sum = added(alloc, old, of, value, place, state)?;
    let sum = valid(sum, state)?;
    set_there(alloc, at, sum, place, state)
}

/// `+=` of a value with this type to the variable at this place. What a Sequence holds is not copied.
fn add_there(
    alloc: Global,
    at: usize,
    of: Option<&Ty>,
    value: Value,
    place: Place,
    state: &mut RunState<'_>,
) -> Result<(), Halt>
    ensures { Runs (add_there at (option_copied of.entry) value place (seen state.old)) result state.new }
{
    let Some((item, held)) = sequence_at(&state.locals, at) else {
        return add_copied(alloc, at, of, value, place, state);
    };
    let store = state.store.as_store();
    let items = added_items(alloc, store.metas(), of, item, value)?;
    match barred(store, item, held, items.as_slice(), place) {
        Some(end) => Err(Halt::Exits(Exit::Ends(end))),
        None => {
            append(alloc, &mut state.locals, at, items)?;
            Ok(())
        }
    }
}

/// `+=` of a value with this type to the first variable of that name.
#[tactic(auto, using(crate::proofs::Named::added_without_place))]
pub fn add_variable(
    alloc: Global,
    name: &str,
    of: Option<&Ty>,
    value: Value,
    place: Place,
    state: &mut RunState<'_>,
) -> Result<(), Halt>
    ensures { Runs (added_on name.now (option_copied of.entry) value place (seen state.old)) result state.new }
{
    match place_in(state.locals.as_slice(), name) {
        Some(at) => add_there(alloc, at, of, value, place, state),
        None => misfit(place),
    }
}
