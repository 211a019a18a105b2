//! The classes at and below each class, as rows of bits.

use super::ground::metas;
use qvt_base::text::Text;
use qvt_metas::row::{Row, is_marked};
use qvt_rows::below::rows_below;
use qvt_types_choices::class_choices::class_order;
use std::alloc::Global;
use std::test::Fail;

/// The classes at and below each of the seven, by their numbers.
const BELOW: [&str; 7] = [" 0 1 2 3", " 1 3", " 2 3", " 3", " 4", " 5", " 6"];

/// The numbers of a set below 64, with a space before each.
fn shown(alloc: Global, row: &Row) -> Result<Text, Fail> {
    let mut text = Text::new(alloc);
    for number in 0..64 {
        if is_marked(row, number) {
            let word = format!(in alloc; " {number}")?;
            text.push_str(word.as_str())?;
        }
    }
    Ok(text)
}

#[test]
fn classes_at_and_below_each_class(rt: HostRuntime) -> Result<(), Fail> {
    let alloc = rt.alloc();
    let metas = metas(alloc)?;
    let order = class_order(alloc, &metas)?;
    let rows = rows_below(alloc, &order, metas.class_infos(), metas.class_count())?;
    assert_eq!(rt; rows.len(), BELOW.len());
    for (row, expected) in rows.as_slice().iter().zip(&BELOW) {
        assert_eq!(rt; shown(alloc, row)?.as_str(), *expected);
    }
    Ok(())
}
