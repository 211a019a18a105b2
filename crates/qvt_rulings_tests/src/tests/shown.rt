//! Types and rulings as words.

use qvt_base::list_fault::ListFault;
use qvt_base::text::Text;
use qvt_metas::metas::Metas;
use qvt_tree_types::words::CollKind;
use qvt_types_data::note::Reading;
use qvt_types_data::refusal::RefusalKind;
use qvt_types_data::ruling::{Read, Ruling};
use qvt_types_data::ty::Ty;
use std::alloc::Global;
use std::test::Fail;

fn kind_name(kind: CollKind) -> &'static str {
    match kind {
        CollKind::Set => " Set",
        CollKind::Bag => " Bag",
        CollKind::Sequence => " Sequence",
        CollKind::OrderedSet => " OrderedSet",
    }
}

fn put(text: &mut Text, metas: &Metas, t: &Ty) -> Result<(), ListFault> {
    match t {
        Ty::Void => text.push_str("Void"),
        Ty::Boolean => text.push_str("Boolean"),
        Ty::Integer => text.push_str("Integer"),
        Ty::Str => text.push_str("String"),
        Ty::Enum(metamodel, enumeration) => {
            text.push_str(metas.enumeration_name(*metamodel, *enumeration))
        }
        Ty::Class(class) => {
            if metas.metamodel_of(*class) == 1 {
                text.push_str("N::")?;
            }
            text.push_str(metas.class_name(*class))
        }
        Ty::Coll(kind, item) => {
            put(text, metas, item.get())?;
            text.push_str(kind_name(*kind))
        }
    }
}

/// A type from the inside to the outside, `-` for none.
pub fn type_shown(alloc: Global, metas: &Metas, t: &Option<Ty>) -> Result<Text, ListFault> {
    let mut text = Text::new(alloc);
    match t {
        None => text.push_str("-")?,
        Some(t) => put(&mut text, metas, t)?,
    }
    Ok(text)
}

/// The name of a refusal.
fn kind_shown(alloc: Global, kind: RefusalKind) -> Result<Text, Fail> {
    let name = format!(in alloc; "{kind:?}")?;
    Ok(Text::from_string(name))
}

/// The name of a refusal, where one is told.
pub fn wrong_shown(alloc: Global, kind: Option<RefusalKind>) -> Result<Text, Fail> {
    match kind {
        None => Ok(Text::from_str(alloc, "fine")?),
        Some(kind) => kind_shown(alloc, kind),
    }
}

fn put_number(alloc: Global, text: &mut Text, number: u32) -> Result<(), Fail> {
    let digits = format!(in alloc; "{number}")?;
    text.push_str(digits.as_str())?;
    Ok(())
}

fn put_reading(
    alloc: Global,
    text: &mut Text,
    metas: &Metas,
    reading: &Reading,
) -> Result<(), Fail> {
    match reading {
        Reading::Feature(feature) => {
            text.push_str(".")?;
            text.push_str(metas.feature_name(*feature))?;
        }
        Reading::Operation(name) => text.push_str(name.as_str())?,
        Reading::Model(model) => {
            text.push_str("model ")?;
            put_number(alloc, text, *model)?;
        }
        _ => {}
    }
    Ok(())
}

fn put_read(alloc: Global, text: &mut Text, metas: &Metas, read: &Read) -> Result<(), Fail> {
    if let Some(source) = &read.source {
        text.push_str(source.as_str())?;
    }
    put_reading(alloc, text, metas, &read.reading)?;
    text.push_str(": ")?;
    let t = type_shown(alloc, metas, &read.answer)?;
    text.push_str(t.as_str())?;
    if read.wrap {
        text.push_str(" wrapped")?;
    }
    if read.collect {
        text.push_str(" each")?;
    }
    Ok(())
}

/// What is read with its type, the kind that is told, or silence.
pub fn ruling_shown(alloc: Global, metas: &Metas, ruling: &Ruling) -> Result<Text, Fail> {
    let mut text = Text::new(alloc);
    match ruling {
        Ruling::Holds(read) => put_read(alloc, &mut text, metas, read)?,
        Ruling::Fails(kind) => text.push_str(kind_shown(alloc, *kind)?.as_str())?,
        Ruling::Silent => text.push_str("silent")?,
    }
    Ok(text)
}
