//! Sets of numbers below 512 as rows of bits.

ghost use Rattle.std.specs.Prelude.{◌≤◌, ◌+◌, length, IfOk};
ghost use Rattle.qvt_meta_tables.specs.Tables.{EndsWithin};

use qvt_base::list_fault::ListFault;
use qvt_base::seq::Seq;
use qvt_base::text::Text;
use qvt_counts::counts::{add_set, counted_without, no_counts, put_counted};
use qvt_metamodel::row::{Row, is_marked};
use qvt_rows::sets::{empty_row, unite, united, without};
use std::alloc::Global;
use std::test::Fail;

/// The set with these words from a place on.
fn row_of(alloc: Global, place: u32, words: &[u64]) -> Result<Row, ListFault>
    requires { place + length words.now ≤ 512 }
    ensures { IfOk result (EndsWithin 512) }
{
    Ok(Row {
        start: 0,
        skipped: place,
        words: Seq::from_slice(alloc, words)?,
    })
}

/// The numbers of a set, with a space before each.
fn shown(alloc: Global, row: &Row) -> Result<Text, Fail> {
    let mut text = Text::new(alloc);
    for number in 0..512 {
        if is_marked(row, number) {
            let word = format!(in alloc; " {number}")?;
            text.push_str(word.as_str())?;
        }
    }
    Ok(text)
}

/// What is in one of two sets, and what is in the first alone.
#[test]
fn two_sets_are_joined_and_parted(rt: HostRuntime) -> Result<(), Fail> {
    let alloc = rt.alloc();
    let low = row_of(alloc, 1, &[1, 6])?;
    let high = row_of(alloc, 2, &[2, 0, 1])?;
    assert_eq!(rt; shown(alloc, &low)?.as_str(), " 64 129 130");
    assert_eq!(rt; shown(alloc, &high)?.as_str(), " 129 256");
    assert_eq!(rt;
        shown(alloc, &united(alloc, 512, &low, &high)?)?.as_str(),
        " 64 129 130 256"
    );
    assert_eq!(rt;
        shown(alloc, &without(alloc, 512, &low, &high)?)?.as_str(),
        " 64 130"
    );
    assert_eq!(rt;
        shown(alloc, &without(alloc, 512, &high, &low)?)?.as_str(),
        " 256"
    );
    Ok(())
}

/// A set takes another in: one that goes on behind it, one inside, and one that begins before it.
#[test]
fn a_set_takes_others_in(rt: HostRuntime) -> Result<(), Fail> {
    let alloc = rt.alloc();
    let mut row = row_of(alloc, 1, &[1])?;
    unite(alloc, 512, &mut row, &row_of(alloc, 3, &[4, 1])?)?;
    assert_eq!(rt; shown(alloc, &row)?.as_str(), " 64 194 256");
    unite(alloc, 512, &mut row, &row_of(alloc, 2, &[2])?)?;
    assert_eq!(rt; shown(alloc, &row)?.as_str(), " 64 129 194 256");
    unite(alloc, 512, &mut row, &row_of(alloc, 0, &[8])?)?;
    assert_eq!(rt; shown(alloc, &row)?.as_str(), " 3 64 129 194 256");
    unite(alloc, 512, &mut row, &empty_row(alloc))?;
    assert_eq!(rt; shown(alloc, &row)?.as_str(), " 3 64 129 194 256");
    Ok(())
}

/// Of three sets two are the same: which numbers are in some, which of these in two, and which in another number of them.
#[test]
fn sets_are_counted(rt: HostRuntime) -> Result<(), Fail> {
    let alloc = rt.alloc();
    let low = row_of(alloc, 1, &[1, 6])?;
    let high = row_of(alloc, 2, &[2, 0, 1])?;
    let mut counts = no_counts(alloc, 8)?;
    add_set(&mut counts, 512, &low);
    add_set(&mut counts, 512, &high);
    add_set(&mut counts, 512, &low);
    let mut words = Seq::from_slice(alloc, &[0, 0, 0, 0, 0, 0, 0, 0])?;
    assert_eq!(rt;
        shown(
            alloc,
            &counted_without(alloc, counts.as_slice(), words.as_slice())?
        )?
        .as_str(),
        " 64 129 130 256"
    );
    put_counted(&mut words, 512, &low, counts.as_slice(), 2);
    assert_eq!(rt;
        shown(
            alloc,
            &Row {
                start: 0,
                skipped: 0,
                words: Seq::from_slice(alloc, words.as_slice())?,
            }
        )?
        .as_str(),
        " 64 130"
    );
    assert_eq!(rt;
        shown(
            alloc,
            &counted_without(alloc, counts.as_slice(), words.as_slice())?
        )?
        .as_str(),
        " 129 256"
    );
    Ok(())
}
