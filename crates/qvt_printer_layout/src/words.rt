//! The reserved words and signs of a tree's words.

ghost use Rattle.std.specs.Prelude.{◌≡◌};
ghost use Rattle.qvt_printer_layout.specs.Words as words;

use qvt_language::class::Class;
use qvt_tree_types::words::{BinaryOp, CollKind, Direction, PrefixOp, ResolveWord};

pub fn direction_word(direction: Direction) -> Class
    ensures { result ≡ words.direction_word direction }
{
    match direction {
        Direction::Input => Class::InWord,
        Direction::Output => Class::OutWord,
        Direction::Both => Class::InoutWord,
    }
}

pub fn kind_word(kind: CollKind) -> Class
    ensures { result ≡ words.kind_word kind }
{
    match kind {
        CollKind::Set => Class::SetWord,
        CollKind::Bag => Class::BagWord,
        CollKind::Sequence => Class::SequenceWord,
        CollKind::OrderedSet => Class::OrderedSetWord,
    }
}

pub fn operator_sign(op: BinaryOp) -> Class
    ensures { result ≡ words.operator_sign op }
{
    match op {
        BinaryOp::Implies => Class::ImpliesWord,
        BinaryOp::Xor => Class::XorWord,
        BinaryOp::Or => Class::OrWord,
        BinaryOp::And => Class::AndWord,
        BinaryOp::Equal => Class::EqualSign,
        BinaryOp::NotEqual => Class::Diamond,
        BinaryOp::Less => Class::LessSign,
        BinaryOp::LessEqual => Class::AtMost,
        BinaryOp::Greater => Class::GreaterSign,
        BinaryOp::GreaterEqual => Class::AtLeast,
        BinaryOp::Plus => Class::PlusSign,
        BinaryOp::Minus => Class::MinusSign,
        BinaryOp::Times => Class::Star,
    }
}

pub fn prefix_sign(op: PrefixOp) -> Class
    ensures { result ≡ words.prefix_sign op }
{
    match op {
        PrefixOp::Not => Class::NotWord,
        PrefixOp::Minus => Class::MinusSign,
    }
}

pub fn resolve_word(word: ResolveWord) -> Class
    ensures { result ≡ words.resolve_word word }
{
    match word {
        ResolveWord::Resolve => Class::ResolveAllWord,
        ResolveWord::ResolveOne => Class::ResolveOneWord,
        ResolveWord::InvResolve => Class::InvResolveWord,
        ResolveWord::InvResolveOne => Class::InvResolveOneWord,
        ResolveWord::ResolveIn => Class::ResolveInWord,
        ResolveWord::ResolveOneIn => Class::ResolveOneInWord,
        ResolveWord::InvResolveIn => Class::InvResolveInWord,
        ResolveWord::InvResolveOneIn => Class::InvResolveOneInWord,
    }
}

pub fn truth_word(value: bool) -> Class
    ensures { result ≡ words.truth_word value }
{
    if value {
        Class::TrueWord
    } else {
        Class::FalseWord
    }
}

pub fn map_word(strict: bool) -> Class
    ensures { result ≡ words.map_word strict }
{
    if strict {
        Class::XmapWord
    } else {
        Class::MapWord
    }
}

pub fn assign_sign(adds: bool) -> Class
    ensures { result ≡ words.assign_sign adds }
{
    if adds {
        Class::PlusEqual
    } else {
        Class::Becomes
    }
}

pub fn helper_word(pure: bool) -> Class
    ensures { result ≡ words.helper_word pure }
{
    if pure {
        Class::QueryWord
    } else {
        Class::HelperWord
    }
}
