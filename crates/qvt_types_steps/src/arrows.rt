//! Arrows with a name: iterators, and operations, which take no Head.

ghost use Rattle.std.specs.Prelude.{◌≡◌, IfOk, [], ◌∷◌};
ghost use Rattle.qvt_types_data.specs.declared.ty.Ty.TheVariants as ty;
ghost use Rattle.qvt_types_steps.specs.Calls.{source_of};
ghost use Rattle.qvt_types_steps.specs.IteratorTable.{iterator_named as iterator_of};
ghost use Rattle.qvt_types_steps.specs.Iterators as iterators;

use crate::calls::{
    call, flattened, is_single_type, named_arity, operation_read, source_item, source_kind,
};
use crate::heads::{Heading, is_untyped};
use crate::iterators::{
    BodyDemand, ItemDemand, IteratorAnswer, IteratorRow, iterator_named, row_of,
};
use qvt_base::copied::Copied;
use qvt_base::list_fault::ListFault;
use qvt_base::seq::Seq;
use qvt_base::text::Text;
use qvt_tree_types::words::CollKind;
use qvt_types_data::boxed::Boxed;
use qvt_types_data::refusal::RefusalKind;
use qvt_types_data::ruling::Ruling;
use qvt_types_data::ty::Ty;
use qvt_types_words::metas::Metas;
use qvt_types_words::rulings::items_conform;
use qvt_types_words::types::{collected_kind, conforms, is_ordered};
use std::alloc::Global;

/// Whether the values of the type are objects, or null alone.
pub fn is_object(t: &Ty) -> bool
    ensures { result ≡ iterators.is_object t.now }
{
    match t {
        Ty::Class(_) => true,
        Ty::Void => true,
        _ => false,
    }
}

fn are_items(items: ItemDemand, item: &Ty) -> bool
    ensures { result ≡ iterators.are_items items item.now }
{
    match items {
        ItemDemand::Every => true,
        ItemDemand::Objects => is_object(item),
    }
}

/// Whether the body is what the iterator takes.
fn body_fits(metas: &Metas, body: BodyDemand, item: &Ty, accumulator: &Ty, t: &Ty) -> bool
    ensures { result ≡ iterators.body_fits metas.now body item.now accumulator.now t.now }
{
    match body {
        BodyDemand::Every => true,
        BodyDemand::Boolean => conforms(metas, t, &Ty::Boolean),
        BodyDemand::Key => conforms(metas, t, &Ty::Integer) || conforms(metas, t, &Ty::Str),
        BodyDemand::SameObjects => conforms(metas, t, item) || items_conform(metas, t, item),
        BodyDemand::Accumulated => conforms(metas, t, accumulator),
    }
}

fn row_fits(metas: &Metas, row: IteratorRow, item: &Ty, accumulator: &Ty, t: &Ty) -> bool
    ensures { result ≡ iterators.row_fits metas.now row item.now accumulator.now t.now }
{
    are_items(row.items, item) && body_fits(metas, row.body, item, accumulator, t)
}

fn sorted_kind(kind: CollKind) -> CollKind
    ensures { result ≡ iterators.sorted_kind kind }
{
    match kind {
        CollKind::Set => CollKind::OrderedSet,
        CollKind::OrderedSet => CollKind::OrderedSet,
        CollKind::Bag => CollKind::Sequence,
        CollKind::Sequence => CollKind::Sequence,
    }
}

fn reached_kind(kind: CollKind) -> CollKind
    ensures { result ≡ iterators.reached_kind kind }
{
    if is_ordered(kind) {
        CollKind::OrderedSet
    } else {
        CollKind::Set
    }
}

/// The collection of the kind with these items.
fn collection(alloc: Global, kind: CollKind, item: &Ty) -> Result<Ty, ListFault>
    ensures { IfOk result (λ t. t ≡ ty.Coll kind item.now) }
{
    Ok(Ty::Coll(kind, Boxed::new(alloc, item.copy(alloc)?)?))
}

/// What the iterator answers.
fn given(
    alloc: Global,
    gives: IteratorAnswer,
    kind: CollKind,
    item: &Ty,
    accumulator: &Ty,
    body: &Ty,
) -> Result<Ty, ListFault>
    ensures { IfOk result (λ t. t ≡ iterators.given gives kind item.now accumulator.now body.now) }
{
    match gives {
        IteratorAnswer::Boolean => Ok(Ty::Boolean),
        IteratorAnswer::Item => item.copy(alloc),
        IteratorAnswer::Items => collection(alloc, kind, item),
        IteratorAnswer::Sorted => collection(alloc, sorted_kind(kind), item),
        IteratorAnswer::Reached => collection(alloc, reached_kind(kind), item),
        IteratorAnswer::Bodies => collection(alloc, collected_kind(kind), body),
        IteratorAnswer::Flattened => flattened(alloc, kind, body),
        IteratorAnswer::Accumulator => accumulator.copy(alloc),
    }
}

/// What is ruled of an iterator over this source with one body.
fn iterated(
    alloc: Global,
    metas: &Metas,
    name: &Text,
    row: IteratorRow,
    source: &Ty,
    accumulator: &Ty,
    body: &Ty,
) -> Result<Ruling, ListFault>
    ensures { IfOk result (λ r. r ≡ iterators.iterated metas.now name.now row (source_of source.now) accumulator.now body.now) }
{
    let item = source_item(source);
    if !row_fits(metas, row, item, accumulator, body) {
        return Ok(Ruling::Fails(RefusalKind::WrongType));
    }
    let answer = given(
        alloc,
        row.gives,
        source_kind(source),
        item,
        accumulator,
        body,
    )?;
    operation_read(alloc, name, answer)
}

/// Whether an accumulator stands exactly where the iterator takes one.
fn head_fits(folds: bool, heading: &Heading) -> bool
    ensures { result ≡ iterators.head_fits folds heading.now }
{
    match heading {
        Heading::Folding(_) => folds,
        Heading::Missing => !folds,
        Heading::Plain => !folds,
        Heading::Untyped => false,
    }
}

/// What is ruled of an iterator with one body, by its Head.
fn with_head(
    alloc: Global,
    metas: &Metas,
    name: &Text,
    row: IteratorRow,
    heading: &Heading,
    source: &Ty,
    body: &Ty,
) -> Result<Ruling, ListFault>
    ensures { IfOk result (λ r. r ≡ iterators.iteration metas.now name.now row heading.now (source_of source.now) (body.now ∷ [])) }
{
    if !head_fits(row.folds, heading) {
        return Ok(Ruling::Fails(RefusalKind::WrongCount));
    }
    match heading {
        Heading::Folding(accumulator) => {
            iterated(alloc, metas, name, row, source, accumulator, body)
        }
        _ => iterated(alloc, metas, name, row, source, &Ty::Void, body),
    }
}

/// What is ruled of an iterator.
fn iteration(
    alloc: Global,
    metas: &Metas,
    name: &Text,
    row: IteratorRow,
    heading: &Heading,
    source: &Ty,
    bodies: &[Ty],
) -> Result<Ruling, ListFault>
    ensures { IfOk result (λ r. r ≡ iterators.iteration metas.now name.now row heading.now (source_of source.now) bodies.now) }
{
    match bodies {
        [body] => with_head(alloc, metas, name, row, heading, source, body),
        _ => Ok(Ruling::Fails(RefusalKind::WrongCount)),
    }
}

fn is_missing(heading: &Heading) -> bool
    ensures { result ≡ iterators.is_missing heading.now }
{
    match heading {
        Heading::Missing => true,
        _ => false,
    }
}

/// What is ruled of an operation behind an arrow.
fn headless(
    alloc: Global,
    metas: &Metas,
    name: &Text,
    heading: &Heading,
    source: &Ty,
    args: &[Ty],
) -> Result<Ruling, ListFault>
    ensures { IfOk result (λ r. r ≡ iterators.headless metas.now name.now heading.now source.now args.now) }
{
    if is_missing(heading) {
        return call(alloc, metas, name, source, args);
    }
    match named_arity(name.as_str(), source) {
        None => Ok(Ruling::Fails(RefusalKind::UnknownName)),
        Some(_) => Ok(Ruling::Fails(RefusalKind::WrongCount)),
    }
}

/// What is ruled of an operation behind an arrow over this source, which is wrapped where it is no collection.
fn operation(
    alloc: Global,
    metas: &Metas,
    name: &Text,
    heading: &Heading,
    source: &Ty,
    args: &[Ty],
) -> Result<Ruling, ListFault>
    ensures { IfOk result (λ r. r ≡ iterators.headless metas.now name.now heading.now (ty.Coll (source_of source.now).kind (source_of source.now).item) args.now) }
{
    match source {
        Ty::Coll(_, _) => headless(alloc, metas, name, heading, source, args),
        _ => {
            let set = collection(alloc, CollKind::Set, source)?;
            headless(alloc, metas, name, heading, &set, args)
        }
    }
}

/// What is ruled of an arrow, apart from the wrap.
fn arrowed(
    alloc: Global,
    metas: &Metas,
    name: &Text,
    heading: &Heading,
    source: &Ty,
    args: &[Ty],
) -> Result<Ruling, ListFault>
    ensures { IfOk result (λ r. r ≡ iterators.arrowed metas.now name.now (iterator_of name.now) heading.now (source_of source.now) args.now) }
{
    match iterator_named(name.as_str()) {
        None => operation(alloc, metas, name, heading, source, args),
        Some(iterator) => { iteration(alloc, metas, name, row_of(iterator), heading, source, args) }
    }
}

/// What is ruled of an arrow with a name and arguments, of which an iterator has one, its body.
pub fn arrow(
    alloc: Global,
    metas: &Metas,
    name: &Text,
    heading: &Heading,
    source: &Option<Ty>,
    args: &Option<Seq<Ty>>,
) -> Result<Ruling, ListFault>
    ensures { IfOk result (λ r. r ≡ iterators.arrow metas.now name.now heading.now source.now args.now) }
{
    let Some(t) = source else {
        return Ok(Ruling::Silent);
    };
    let Some(args) = args else {
        return Ok(Ruling::Silent);
    };
    if is_untyped(heading) {
        return Ok(Ruling::Silent);
    }
    let ruling = arrowed(alloc, metas, name, heading, t, args.as_slice())?;
    Ok(ruling.wrapped(is_single_type(t)))
}
