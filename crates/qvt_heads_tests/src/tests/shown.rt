//! Types and refusals as words.

use qvt_base::list_fault::ListFault;
use qvt_base::text::Text;
use qvt_metas::metas::Metas;
use qvt_tree_types::words::CollKind;
use qvt_types_data::refusal::{RefusalKind, TypingRefusal};
use qvt_types_data::ty::Ty;
use std::alloc::Global;
use std::test::Fail;

fn kind_name(kind: CollKind) -> &'static str {
    match kind {
        CollKind::Set => " Set",
        CollKind::Bag => " Bag",
        CollKind::Sequence => " Sequence",
        CollKind::OrderedSet => " OrderedSet",
    }
}

fn put(text: &mut Text, metas: &Metas, t: &Ty) -> Result<(), ListFault> {
    match t {
        Ty::Void => text.push_str("Void"),
        Ty::Boolean => text.push_str("Boolean"),
        Ty::Integer => text.push_str("Integer"),
        Ty::Str => text.push_str("String"),
        Ty::Enum(metamodel, enumeration) => {
            text.push_str(metas.enumeration_name(*metamodel, *enumeration))
        }
        Ty::Class(class) => {
            if metas.metamodel_of(*class) == 1 {
                text.push_str("N::")?;
            }
            text.push_str(metas.class_name(*class))
        }
        Ty::Coll(kind, item) => {
            put(text, metas, item.get())?;
            text.push_str(kind_name(*kind))
        }
    }
}

/// A type from the inside to the outside, `-` for none.
pub fn type_shown(alloc: Global, metas: &Metas, t: &Option<Ty>) -> Result<Text, ListFault> {
    let mut text = Text::new(alloc);
    match t {
        None => text.push_str("-")?,
        Some(t) => put(&mut text, metas, t)?,
    }
    Ok(text)
}

/// The name of a refusal.
pub fn kind_shown(alloc: Global, kind: RefusalKind) -> Result<Text, Fail> {
    let name = format!(in alloc; "{kind:?}")?;
    Ok(Text::from_string(name))
}

/// The refusals with their lines, in the order in which they were told.
pub fn log_shown(alloc: Global, log: &[TypingRefusal]) -> Result<Text, Fail> {
    let mut text = Text::new(alloc);
    if log.is_empty() {
        text.push_str("fine")?;
    }
    for refusal in log {
        if !text.is_empty() {
            text.push_str(" ")?;
        }
        let (kind, line) = (refusal.kind, refusal.place.line);
        let told = format!(in alloc; "{kind:?}:{line}")?;
        text.push_str(told.as_str())?;
    }
    Ok(text)
}
