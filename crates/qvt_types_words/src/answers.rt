//! What the table of operations answers at types of the source and the arguments.

ghost use Rattle.std.specs.Prelude.{◌≡◌, Option, IfOk, Some, None, option_map, if◌then◌else◌, length, [], ◌∷◌};
ghost use Rattle.std.specs.Option.{is_some};
ghost use Rattle.qvt_metas.specs.Descends.{descends};
ghost use Rattle.qvt_ocl_types.specs.Operation.{is_test, is_equality};
ghost use Rattle.qvt_types_data.specs.Term.{ty_view, Boolean, Collection};
ghost use Rattle.qvt_ocl_types.specs.Table.{listed, allows};
ghost use Rattle.qvt_ocl_types.specs.Rows.{type_of, kind_in_common};
ghost use Rattle.qvt_ocl_types.specs.Types as types;
ghost use Rattle.qvt_ocl_types.specs.Typing as typing;
ghost use Rattle.qvt_types_words.specs.Answers as answers;
ghost use Rattle.qvt_types_words.specs.Answers.{accepted_view};

use crate::types::{conforms, innermost, is_string, join};
use qvt_base::copied::Copied;
use qvt_base::list_fault::ListFault;
use qvt_metas::metas::Metas;
use qvt_ocl_types::op::Op;
use qvt_ocl_types::signature::{
    AnswerType, ArgumentSort, ArgumentSorts, Demand, Kinds, OperationSignature, Sort,
};
use qvt_ocl_types::table::signature;
use qvt_types_data::boxed::Boxed;
use qvt_types_data::kinds::{kind_of, word_of};
use qvt_types_data::ty::Ty;
use qvt_value::value::Kind;
use std::alloc::Global;

/// What the arguments come to: the kind of the last collection among them, or of the source where there is none, and the
/// join of the item types.
pub struct Accepted {
    pub kind: Kind,
    pub joined: Ty,
}

impl Drop for Accepted {
    fn drop(self) {
        let Accepted { kind, joined } = self;
    }
}

impl Accepted {
    /// The join alone.
    fn into_joined(self) -> Ty
        ensures { result ≡ self.joined }
    {
        let Accepted { kind: _, joined } = self;
        joined
    }
}

fn same_kind(kind: Kind, other: Kind) -> bool
    ensures { result ≡ allows (Kinds.Only kind) other }
{
    match (kind, other) {
        (Kind::Set, Kind::Set) => true,
        (Kind::Bag, Kind::Bag) => true,
        (Kind::Sequence, Kind::Sequence) => true,
        (Kind::OrderedSet, Kind::OrderedSet) => true,
        _ => false,
    }
}

/// Whether a collection of the kind may be given.
fn is_allowed(kinds: Kinds, kind: Kind) -> bool
    ensures { result ≡ allows kinds kind }
{
    match kinds {
        Kinds::Every => true,
        Kinds::SetOrBag => match kind {
            Kind::Set => true,
            Kind::Bag => true,
            _ => false,
        },
        Kinds::Only(only) => same_kind(only, kind),
    }
}

/// The join of the types, by their plain data.
#[tactic(auto, using(crate::proofs::Joins::seen_join))]
fn joined(alloc: Global, metas: &Metas, t: &Ty, u: &Ty) -> Result<Option<Ty>, ListFault>
    ensures { IfOk result (λ o. option_map ty_view o ≡ types.join (descends metas.now) (ty_view t.now) (ty_view u.now)) }
{
    let found = join(alloc, metas, t, u)?;
    Ok(found)
}

/// What a collection as the one argument comes to.
fn accept_items(
    alloc: Global,
    metas: &Metas,
    kinds: Kinds,
    before: Accepted,
    given: &Ty,
) -> Result<Option<Accepted>, ListFault>
    ensures { IfOk result (λ o. option_map accepted_view o ≡ typing.accepts (descends metas.now) (ArgumentSort.Items kinds ∷ []) before.kind (ty_view before.joined) (ty_view given.now ∷ [])) }
{
    let Ty::Coll(word, item) = given else {
        return Ok(None);
    };
    let kind = kind_of(*word);
    if !is_allowed(kinds, kind) {
        return Ok(None);
    }
    match joined(alloc, metas, &before.joined, item.get())? {
        None => Ok(None),
        Some(joined) => Ok(Some(Accepted { kind, joined })),
    }
}

/// What an item as the one argument comes to.
fn accept_item(
    alloc: Global,
    metas: &Metas,
    before: Accepted,
    given: &Ty,
) -> Result<Option<Accepted>, ListFault>
    ensures { IfOk result (λ o. option_map accepted_view o ≡ typing.accepts (descends metas.now) (ArgumentSort.Item ∷ []) before.kind (ty_view before.joined) (ty_view given.now ∷ [])) }
{
    match joined(alloc, metas, &before.joined, given)? {
        None => Ok(None),
        Some(joined) => Ok(Some(Accepted {
            kind: before.kind,
            joined,
        })),
    }
}

fn kept_if(conforms: bool, before: Accepted) -> Option<Accepted>
    ensures { result ≡ (if conforms then Some before else None) }
{
    if conforms { Some(before) } else { None }
}

/// What one argument comes to.
fn accept_one(
    alloc: Global,
    metas: &Metas,
    param: ArgumentSort,
    before: Accepted,
    given: &Ty,
) -> Result<Option<Accepted>, ListFault>
    ensures { IfOk result (λ o. option_map accepted_view o ≡ typing.accepts (descends metas.now) (param ∷ []) before.kind (ty_view before.joined) (ty_view given.now ∷ [])) }
{
    match param {
        ArgumentSort::Integer => Ok(kept_if(conforms(metas, given, &Ty::Integer), before)),
        ArgumentSort::Text => Ok(kept_if(conforms(metas, given, &Ty::Str), before)),
        ArgumentSort::Item => accept_item(alloc, metas, before, given),
        ArgumentSort::Items(kinds) => accept_items(alloc, metas, kinds, before, given),
    }
}

/// What the arguments come to where one is taken.
#[tactic(auto, using(crate::proofs::Arguments::one_by_one, crate::proofs::Arguments::none_given))]
fn accept_last(
    alloc: Global,
    metas: &Metas,
    param: ArgumentSort,
    before: Accepted,
    args: &[Ty],
) -> Result<Option<Accepted>, ListFault>
    ensures { IfOk result (λ o. option_map accepted_view o ≡ typing.accepts (descends metas.now) (param ∷ []) before.kind (ty_view before.joined) (answers.plain_types args.now)) }
{
    match args {
        [] => Ok(None),
        [given, rest @ ..] => match accept_one(alloc, metas, param, before, given)? {
            None => Ok(None),
            Some(next) => match rest {
                [] => Ok(Some(next)),
                [_, ..] => Ok(None),
            },
        },
    }
}

/// What the last argument comes to, after what those before it came to.
fn accept_after(
    alloc: Global,
    metas: &Metas,
    param: ArgumentSort,
    before: Option<Accepted>,
    args: &[Ty],
) -> Result<Option<Accepted>, ListFault>
    ensures { IfOk result (λ o. option_map accepted_view o ≡ answers.after (descends metas.now) (param ∷ []) (answers.plain_types args.now) (option_map accepted_view before)) }
{
    match before {
        None => Ok(None),
        Some(before) => accept_last(alloc, metas, param, before, args),
    }
}

/// What two arguments and more come to where two are taken.
#[tactic(auto, using(crate::proofs::Arguments::one_by_one))]
fn accept_pair(
    alloc: Global,
    metas: &Metas,
    first: ArgumentSort,
    second: ArgumentSort,
    before: Accepted,
    given: &Ty,
    others: &[Ty],
) -> Result<Option<Accepted>, ListFault>
    ensures { IfOk result (λ o. option_map accepted_view o ≡ typing.accepts (descends metas.now) (first ∷ second ∷ []) before.kind (ty_view before.joined) (ty_view given.now ∷ answers.plain_types others.now)) }
{
    let next = accept_one(alloc, metas, first, before, given)?;
    let last = accept_after(alloc, metas, second, next, others)?;
    Ok(last)
}

/// What the arguments come to where two are taken.
#[tactic(auto, using(crate::proofs::Arguments::none_given))]
fn accept_two(
    alloc: Global,
    metas: &Metas,
    first: ArgumentSort,
    second: ArgumentSort,
    before: Accepted,
    args: &[Ty],
) -> Result<Option<Accepted>, ListFault>
    ensures { IfOk result (λ o. option_map accepted_view o ≡ typing.accepts (descends metas.now) (first ∷ second ∷ []) before.kind (ty_view before.joined) (answers.plain_types args.now)) }
{
    match args {
        [] => Ok(None),
        [given, others @ ..] => {
            let taken = accept_pair(alloc, metas, first, second, before, given, others)?;
            Ok(taken)
        }
    }
}

/// What the arguments come to.
fn accept_all(
    alloc: Global,
    metas: &Metas,
    params: ArgumentSorts,
    before: Accepted,
    args: &[Ty],
) -> Result<Option<Accepted>, ListFault>
    ensures { IfOk result (λ o. option_map accepted_view o ≡ typing.accepts (descends metas.now) (listed params) before.kind (ty_view before.joined) (answers.plain_types args.now)) }
{
    match params {
        ArgumentSorts::None => match args {
            [] => Ok(Some(before)),
            [_, ..] => Ok(None),
        },
        ArgumentSorts::One(param) => accept_last(alloc, metas, param, before, args),
        ArgumentSorts::Two(first, second) => accept_two(alloc, metas, first, second, before, args),
    }
}

/// Whether the items are as demanded.
fn meets(demand: Demand, item: &Ty) -> bool
    ensures { result ≡ typing.meets demand (ty_view item.now) }
{
    match demand {
        Demand::Any => true,
        Demand::Integers => match item {
            Ty::Integer => true,
            Ty::Void => true,
            _ => false,
        },
        Demand::Ordered => match item {
            Ty::Integer => true,
            Ty::Str => true,
            Ty::Void => true,
            _ => false,
        },
    }
}

/// A collection type of the kind.
fn collection(alloc: Global, kind: Kind, item: Ty) -> Result<Ty, ListFault>
    ensures { IfOk result (λ t. ty_view t ≡ Collection kind (ty_view item)) }
{
    Ok(Ty::Coll(word_of(kind), Boxed::new(alloc, item)?))
}

/// The kind of what two collections have in common.
fn common_kind(kind: Kind, other: Kind) -> Kind
    ensures { result ≡ kind_in_common kind other }
{
    match (kind, other) {
        (Kind::Bag, Kind::Bag) => Kind::Bag,
        _ => Kind::Set,
    }
}

/// The innermost item type, by its plain data.
#[tactic(auto, using(qvt_types_data::proofs::PlainTypes::plain))]
fn innermost_item(alloc: Global, t: &Ty) -> Result<Ty, ListFault>
    ensures { IfOk result (λ item. ty_view item ≡ types.innermost (ty_view t.now)) }
{
    let item = innermost(t).copy(alloc)?;
    Ok(item)
}

/// The type of the answer, by the item type of the source and what the arguments came to.
fn type_of(alloc: Global, answer: AnswerType, item: &Ty, taken: Accepted) -> Result<Ty, ListFault>
    ensures { IfOk result (λ t. ty_view t ≡ type_of answer (ty_view item.now) taken.kind (ty_view taken.joined)) }
{
    match answer {
        AnswerType::Boolean => Ok(Ty::Boolean),
        AnswerType::Integer => Ok(Ty::Integer),
        AnswerType::Text => Ok(Ty::Str),
        AnswerType::Texts => collection(alloc, Kind::Sequence, Ty::Str),
        AnswerType::Item => item.copy(alloc),
        AnswerType::Items(kind) => collection(alloc, kind, item.copy(alloc)?),
        AnswerType::Innermost(kind) => collection(alloc, kind, innermost_item(alloc, item)?),
        AnswerType::Joined(kind) => collection(alloc, kind, taken.into_joined()),
        AnswerType::Common(kind) => {
            let common = common_kind(kind, taken.kind);
            collection(alloc, common, item.copy(alloc)?)
        }
    }
}

/// What a row of the table answers at a source with items of this type.
fn signed(
    alloc: Global,
    metas: &Metas,
    signature: OperationSignature,
    kind: Kind,
    item: &Ty,
    args: &[Ty],
) -> Result<Option<Ty>, ListFault>
    ensures { IfOk result (λ o. option_map ty_view o ≡ (if typing.meets signature.demand (ty_view item.now) then typing.answered (descends metas.now) signature (ty_view item.now) (typing.accepts (descends metas.now) (listed signature.params) kind (ty_view item.now) (answers.plain_types args.now)) else None)) }
{
    if !meets(signature.demand, item) {
        return Ok(None);
    }
    let before = Accepted {
        kind,
        joined: item.copy(alloc)?,
    };
    match accept_all(alloc, metas, signature.params, before, args)? {
        None => Ok(None),
        Some(taken) => Ok(Some(type_of(alloc, signature.answer, item, taken)?)),
    }
}

/// What a row of the table answers at a source.
fn by_signature(
    alloc: Global,
    metas: &Metas,
    signature: OperationSignature,
    source: &Ty,
    args: &[Ty],
) -> Result<Option<Ty>, ListFault>
    ensures { IfOk result (λ o. option_map ty_view o ≡ typing.by_signature (descends metas.now) (Some signature) (ty_view source.now) (answers.plain_types args.now)) }
{
    match source {
        Ty::Coll(kind, item) => {
            signed(alloc, metas, signature, kind_of(*kind), item.get(), args)
        }
        _ => signed(alloc, metas, signature, Kind::Set, &Ty::Void, args),
    }
}

/// Whether it is an operator, which takes a source of type Void too.
fn is_operator(op: Op) -> bool
    ensures { result ≡ typing.is_operator op }
{
    match op {
        Op::Plus => true,
        Op::Minus => true,
        Op::Times => true,
        Op::Negate => true,
        Op::Less => true,
        Op::LessEqual => true,
        Op::Greater => true,
        Op::GreaterEqual => true,
        _ => false,
    }
}

/// The sort that a source of type Void is read as.
fn sort_beside(args: &[Ty]) -> Sort
    ensures { result ≡ typing.sort_beside (answers.plain_types args.now) }
{
    match args {
        [] => Sort::Integer,
        [first, ..] => {
            if is_string(first) {
                Sort::Text
            } else {
                Sort::Integer
            }
        }
    }
}

/// The sort of a source, None where it has no operations of its own.
fn sort_of(op: Op, source: &Ty, args: &[Ty]) -> Option<Sort>
    ensures { result ≡ typing.sort_of op (ty_view source.now) (answers.plain_types args.now) }
{
    match source {
        Ty::Boolean => Some(Sort::Boolean),
        Ty::Integer => Some(Sort::Integer),
        Ty::Str => Some(Sort::Text),
        Ty::Coll(kind, _) => Some(Sort::Collection(kind_of(*kind))),
        Ty::Void => {
            if is_operator(op) {
                Some(sort_beside(args))
            } else {
                None
            }
        }
        _ => None,
    }
}

fn is_test(op: Op) -> bool
    ensures { result ≡ is_test op }
{
    match op {
        Op::IsUndefined => true,
        Op::IsInvalid => true,
        _ => false,
    }
}

fn is_equality(op: Op) -> bool
    ensures { result ≡ is_equality op }
{
    match op {
        Op::Equal => true,
        Op::NotEqual => true,
        _ => false,
    }
}

/// Boolean, where that is right.
fn boolean_if(right: bool) -> Option<Ty>
    ensures { option_map ty_view result ≡ (if right then Some Boolean else None) }
{
    if right { Some(Ty::Boolean) } else { None }
}

/// Whether the types join.
fn has_join(metas: &Metas, t: &Ty, u: &Ty) -> bool
    ensures { result ≡ is_some (types.join (descends metas.now) (ty_view t.now) (ty_view u.now)) }
{
    conforms(metas, t, u) || conforms(metas, u, t)
}

/// The type of what is asked of all values: a test without arguments, `=` and `<>` with one that joins.
fn type_of_all(metas: &Metas, op: Op, source: &Ty, args: &[Ty]) -> Option<Ty>
    ensures { option_map ty_view result ≡ typing.type_of_all (descends metas.now) op (ty_view source.now) (answers.plain_types args.now) }
{
    match op {
        Op::IsUndefined => match args {
            [] => Some(Ty::Boolean),
            _ => None,
        },
        Op::IsInvalid => match args {
            [] => Some(Ty::Boolean),
            _ => None,
        },
        Op::Equal => match args {
            [other] => boolean_if(has_join(metas, source, other)),
            _ => None,
        },
        Op::NotEqual => match args {
            [other] => boolean_if(has_join(metas, source, other)),
            _ => None,
        },
        _ => None,
    }
}

/// What the table of operations answers at these types of the source and the arguments, by their plain data.
#[tactic(auto, unfolding(qvt_ocl_types::specs::Typing::answer_type))]
fn plain_answer(
    alloc: Global,
    metas: &Metas,
    op: Op,
    source: &Ty,
    args: &[Ty],
) -> Result<Option<Ty>, ListFault>
    ensures { IfOk result (λ o. option_map ty_view o ≡ typing.answer_type (descends metas.now) op (ty_view source.now) (answers.plain_types args.now)) }
{
    if is_test(op) || is_equality(op) {
        return Ok(type_of_all(metas, op, source, args));
    }
    let Some(sort) = sort_of(op, source, args) else {
        return Ok(None);
    };
    let Some(signature) = signature(op, sort) else {
        return Ok(None);
    };
    by_signature(alloc, metas, signature, source, args)
}

/// The type that the table of operations gives at these types of the source and the arguments, None where it gives none.
#[tactic(auto, using(qvt_types_data::proofs::PlainTypes::from_plain, qvt_types_data::proofs::PlainTypes::again_if_any), unfolding(crate::specs::Answers::answer))]
pub fn answer(
    alloc: Global,
    metas: &Metas,
    op: Op,
    source: &Ty,
    args: &[Ty],
) -> Result<Option<Ty>, ListFault>
    ensures { IfOk result (λ o. o ≡ answers.answer metas.now op source.now args.now) }
{
    let found = plain_answer(alloc, metas, op, source, args)?;
    Ok(found)
}

/// How many arguments a row of the table takes.
fn count(params: ArgumentSorts) -> usize
    ensures { result ≡ length (listed params) }
{
    match params {
        ArgumentSorts::None => 0,
        ArgumentSorts::One(_) => 1,
        ArgumentSorts::Two(_, _) => 2,
    }
}

/// How many arguments the operation takes at a source of the type, None where no such source has it.
#[tactic(auto, unfolding(crate::specs::Answers::arity))]
pub fn arity(op: Op, source: &Ty) -> Option<usize>
    ensures { result ≡ answers.arity op source.now }
{
    if is_test(op) {
        return Some(0);
    }
    if is_equality(op) {
        return Some(1);
    }
    let Some(sort) = sort_of(op, source, &[]) else {
        return None;
    };
    match signature(op, sort) {
        None => None,
        Some(signature) => Some(count(signature.params)),
    }
}
