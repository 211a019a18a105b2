//! What is ruled of operators, conditionals, literals, variables and assignments by the types of their parts.

ghost use Rattle.std.specs.Prelude.{◌≡◌, IfOk, Some};
ghost use Rattle.qvt_types_data.specs.declared.ty.Ty.TheVariants as ty;
ghost use Rattle.qvt_types_words.specs.Types.{collection_of};
ghost use Rattle.qvt_types_words.specs.Rulings as rulings;

use crate::answers::answer;
use crate::types::{conforms, is_void, join};
use qvt_base::copied::Copied;
use qvt_base::list_fault::ListFault;
use qvt_base::seq::Seq;
use qvt_metas::metas::Metas;
use qvt_ocl_types::op::Op;
use qvt_tree_types::words::{BinaryOp, CollKind, PrefixOp};
use qvt_types_data::boxed::Boxed;
use qvt_types_data::note::Reading;
use qvt_types_data::refusal::RefusalKind;
use qvt_types_data::ruling::{Read, Ruling};
use qvt_types_data::ty::{Ty, copied};
use std::alloc::Global;
use std::slice;

/// The node has this type, and nothing is read.
fn typed(t: Ty) -> Ruling
    ensures { result ≡ rulings.typed t }
{
    Ruling::Holds(Read::plain(Reading::Nothing, Some(t)))
}

/// A type, or WrongType.
fn or_wrong(t: Option<Ty>) -> Ruling
    ensures { result ≡ rulings.or_wrong t }
{
    match t {
        None => Ruling::Fails(RefusalKind::WrongType),
        Some(t) => typed(t),
    }
}

/// The type where that is right, else WrongType.
fn typed_if(right: bool, t: Ty) -> Ruling
    ensures { result ≡ rulings.typed_if right t }
{
    if right {
        typed(t)
    } else {
        Ruling::Fails(RefusalKind::WrongType)
    }
}

/// Whether both operands conform to the type.
fn both(metas: &Metas, want: &Ty, a: &Ty, b: &Ty) -> bool
    ensures { result ≡ rulings.both metas.now want.now a.now b.now }
{
    conforms(metas, a, want) && conforms(metas, b, want)
}

/// The operation that an operator between two operands is, None for the words of logic.
fn operation_of(op: BinaryOp) -> Option<Op>
    ensures { result ≡ rulings.operation_of op }
{
    match op {
        BinaryOp::Implies => None,
        BinaryOp::Xor => None,
        BinaryOp::Or => None,
        BinaryOp::And => None,
        BinaryOp::Equal => Some(Op::Equal),
        BinaryOp::NotEqual => Some(Op::NotEqual),
        BinaryOp::Less => Some(Op::Less),
        BinaryOp::LessEqual => Some(Op::LessEqual),
        BinaryOp::Greater => Some(Op::Greater),
        BinaryOp::GreaterEqual => Some(Op::GreaterEqual),
        BinaryOp::Plus => Some(Op::Plus),
        BinaryOp::Minus => Some(Op::Minus),
        BinaryOp::Times => Some(Op::Times),
    }
}

/// An operator between operands that have types.
fn operated(alloc: Global, metas: &Metas, op: BinaryOp, a: &Ty, b: &Ty) -> Result<Ruling, ListFault>
    ensures { IfOk result (λ r. r ≡ rulings.operated metas.now op a.now b.now) }
{
    match operation_of(op) {
        None => Ok(typed_if(both(metas, &Ty::Boolean, a, b), Ty::Boolean)),
        Some(op) => Ok(or_wrong(answer(alloc, metas, op, a, slice::from_ref(b))?)),
    }
}

/// What is ruled of an operator between two operands.
pub fn operator(
    alloc: Global,
    metas: &Metas,
    op: BinaryOp,
    a: &Option<Ty>,
    b: &Option<Ty>,
) -> Result<Ruling, ListFault>
    ensures { IfOk result (λ r. r ≡ rulings.operator metas.now op a.now b.now) }
{
    let Some(a) = a else {
        return Ok(Ruling::Silent);
    };
    let Some(b) = b else {
        return Ok(Ruling::Silent);
    };
    operated(alloc, metas, op, a, b)
}

/// An operator before an operand that has a type.
fn signed(alloc: Global, metas: &Metas, op: PrefixOp, t: &Ty) -> Result<Ruling, ListFault>
    ensures { IfOk result (λ r. r ≡ rulings.signed metas.now op t.now) }
{
    match op {
        PrefixOp::Not => Ok(typed_if(conforms(metas, t, &Ty::Boolean), Ty::Boolean)),
        PrefixOp::Minus => Ok(or_wrong(answer(alloc, metas, Op::Negate, t, &[])?)),
    }
}

/// What is ruled of an operator before its operand.
pub fn prefixed(
    alloc: Global,
    metas: &Metas,
    op: PrefixOp,
    t: &Option<Ty>,
) -> Result<Ruling, ListFault>
    ensures { IfOk result (λ r. r ≡ rulings.prefixed metas.now op t.now) }
{
    match t {
        None => Ok(Ruling::Silent),
        Some(t) => signed(alloc, metas, op, t),
    }
}

/// A conditional whose parts have types.
fn chosen(
    alloc: Global,
    metas: &Metas,
    condition: &Ty,
    yes: &Ty,
    no: &Ty,
) -> Result<Ruling, ListFault>
    ensures { IfOk result (λ r. r ≡ rulings.chosen metas.now condition.now yes.now no.now) }
{
    if !conforms(metas, condition, &Ty::Boolean) {
        return Ok(Ruling::Fails(RefusalKind::WrongType));
    }
    let joined = join(alloc, metas, yes, no)?;
    Ok(or_wrong(joined))
}

/// What is ruled of a conditional.
pub fn conditional(
    alloc: Global,
    metas: &Metas,
    condition: &Option<Ty>,
    yes: &Option<Ty>,
    no: &Option<Ty>,
) -> Result<Ruling, ListFault>
    ensures { IfOk result (λ r. r ≡ rulings.conditional metas.now condition.now yes.now no.now) }
{
    let Some(condition) = condition else {
        return Ok(Ruling::Silent);
    };
    let Some(yes) = yes else {
        return Ok(Ruling::Silent);
    };
    let Some(no) = no else {
        return Ok(Ruling::Silent);
    };
    chosen(alloc, metas, condition, yes, no)
}

/// The join of all of these, from the left.
fn joined(alloc: Global, metas: &Metas, types: &[Ty]) -> Result<Option<Ty>, ListFault>
    ensures { IfOk result (λ o. o ≡ rulings.joined_from metas.now (Some ty.Void) types.now) }
{
    let mut joined = Ty::Void;
    for t in types {
        match join(alloc, metas, &joined, t)? {
            None => return Ok(None),
            Some(next) => joined = next,
        }
    }
    Ok(Some(joined))
}

/// What is ruled of a collection literal with items of these types.
pub fn literal(
    alloc: Global,
    metas: &Metas,
    kind: CollKind,
    types: &Option<Seq<Ty>>,
) -> Result<Ruling, ListFault>
    ensures { IfOk result (λ r. r ≡ rulings.literal metas.now kind types.now) }
{
    let Some(types) = types else {
        return Ok(Ruling::Silent);
    };
    match joined(alloc, metas, types.as_slice())? {
        None => Ok(Ruling::Fails(RefusalKind::WrongType)),
        Some(t) => Ok(typed(Ty::Coll(kind, Boxed::new(alloc, t)?))),
    }
}

/// What is ruled of a range.
pub fn range(metas: &Metas, first: &Option<Ty>, last: &Option<Ty>) -> Ruling
    ensures { result ≡ rulings.range metas.now first.now last.now }
{
    let Some(first) = first else {
        return Ruling::Silent;
    };
    let Some(last) = last else {
        return Ruling::Silent;
    };
    typed_if(both(metas, &Ty::Integer, first, last), Ty::Integer)
}

/// WrongType, where that is not right.
fn wrong_unless(right: bool) -> Option<RefusalKind>
    ensures { result ≡ rulings.wrong_unless right }
{
    if right {
        None
    } else {
        Some(RefusalKind::WrongType)
    }
}

/// What is told of a `var` with or without a type and a value.
pub fn var_wrong(
    metas: &Metas,
    has_kind: bool,
    kind: &Option<Ty>,
    has_value: bool,
    value: &Option<Ty>,
) -> Option<RefusalKind>
    ensures { result ≡ rulings.var_wrong metas.now has_kind kind.now has_value value.now }
{
    if has_kind {
        let Some(kind) = kind else {
            return None;
        };
        if !has_value {
            return None;
        }
        let Some(value) = value else {
            return None;
        };
        return wrong_unless(conforms(metas, value, kind));
    }
    if !has_value {
        return Some(RefusalKind::WrongType);
    }
    match value {
        None => None,
        Some(value) => {
            if is_void(value) {
                Some(RefusalKind::WrongType)
            } else {
                None
            }
        }
    }
}

/// The type of a `var`.
pub fn var_type(
    alloc: Global,
    has_kind: bool,
    kind: &Option<Ty>,
    value: &Option<Ty>,
) -> Result<Option<Ty>, ListFault>
    ensures { IfOk result (λ o. o ≡ rulings.var_type has_kind kind.now value.now) }
{
    if has_kind {
        return copied(alloc, kind);
    }
    match value {
        None => Ok(None),
        Some(t) => {
            if is_void(t) {
                Ok(None)
            } else {
                Ok(Some(t.copy(alloc)?))
            }
        }
    }
}

/// Whether the type is a collection whose items conform.
pub fn items_conform(metas: &Metas, t: &Ty, item: &Ty) -> bool
    ensures { result ≡ rulings.items_conform metas.now (collection_of t.now) item.now }
{
    match t {
        Ty::Coll(_, own) => conforms(metas, own.get(), item),
        _ => false,
    }
}

/// What is told of an assignment to a variable.
pub fn variable_wrong(metas: &Metas, adds: bool, variable: &Ty, t: &Ty) -> Option<RefusalKind>
    ensures { result ≡ rulings.variable_wrong metas.now adds variable.now t.now }
{
    if !adds {
        return wrong_unless(conforms(metas, t, variable));
    }
    match variable {
        Ty::Coll(_, item) => {
            wrong_unless(items_conform(metas, t, item.get()) || conforms(metas, t, item.get()))
        }
        _ => Some(RefusalKind::BadTarget),
    }
}

/// What is told of an assignment to a property.
pub fn property_wrong(
    metas: &Metas,
    adds: bool,
    single: bool,
    property: &Ty,
    t: &Ty,
) -> Option<RefusalKind>
    ensures { result ≡ rulings.property_wrong metas.now adds single property.now t.now }
{
    let conforming = conforms(metas, t, property);
    if single {
        if adds && conforming {
            return Some(RefusalKind::BadTarget);
        }
        return wrong_unless(conforming);
    }
    wrong_unless(conforming || items_conform(metas, t, property))
}

/// The type of a range.
pub fn range_type(metas: &Metas, first: &Option<Ty>, last: &Option<Ty>) -> Option<Ty>
    ensures { result ≡ rulings.range_type metas.now first.now last.now }
{
    let Some(first) = first else {
        return None;
    };
    let Some(last) = last else {
        return None;
    };
    if both(metas, &Ty::Integer, first, last) {
        Some(Ty::Integer)
    } else {
        None
    }
}
