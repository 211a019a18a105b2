//! Which classes are below each class.

ghost use Rattle.std.specs.Prelude.{◌≡◌, ◌<◌, ◌+◌, ℕ, ◌||◌, ◌==◌, nat_lt, length, IfOk, IsTrue, OnOk, slice_index_or, slice_set};
ghost use Rattle.std.specs.List.{list_all};
ghost use Rattle.qvt_metamodel.specs.Metamodels.{class_at};
ghost use Rattle.qvt_metamodel.specs.Descends.{reaches};
ghost use Rattle.qvt_metamodel.specs.Kept.{no_row, is_marked};
ghost use Rattle.qvt_meta_tables.specs.Tables.{of_classes, IsOrder, EndsWithin};
ghost use Rattle.qvt_rows.specs.Sets.{handed_on};

use crate::sets::{bit_of, empty_row, unite};
use qvt_base::list_fault::ListFault;
use qvt_base::seq::Seq;
use qvt_meta_tables::order::Order;
use qvt_meta_tables::tables::{put, supers_at};
use qvt_metamodel::info::ClassInfo;
use qvt_metamodel::row::Row;
use std::alloc::Global;
use std::mem;

/// The set of this class alone.
fn row_of_one(alloc: Global, class: u32) -> Result<Row, ListFault>
    ensures within { IfOk result (EndsWithin (class + 1)) }
    ensures own { IfOk result (λ r. (d : ℕ) → is_marked r d ≡ (class == d)) }
{
    let mut words = Seq::with_room(alloc, 1)?;
    words.push(bit_of(class))?;
    Ok(Row {
        start: 0,
        skipped: class / 64,
        words,
    })
}

/// For each of as many classes the set of itself alone.
fn own_rows(alloc: Global, count: u32) -> Result<Vec<Row>, ListFault>
    ensures each { IfOk result (λ v. length v.items ≡ count) }
    ensures within { IfOk result (λ v. (c : ℕ) → EndsWithin count (slice_index_or v.items c no_row)) }
    ensures own { IfOk result (λ v. (c : ℕ) → c < count → (d : ℕ) → is_marked (slice_index_or v.items c no_row) d ≡ (c == d)) }
{
    let mut rows = Seq::with_room(alloc, count as usize)?;
    for class in 0..count {
        rows.push(row_of_one(alloc, class)?)?;
    }
    Ok(rows.into_vec())
}

/// Takes the set of a class out and leaves an empty one.
fn take_row(alloc: Global, rows: &mut Vec<Row>, class: u32) -> Row
    requires { class < length rows.old.items }
    ensures row { result ≡ slice_index_or rows.old.items class no_row }
    ensures rows { rows.new.items ≡ slice_set rows.old.items class no_row }
{
    mem::replace(&mut rows[class as usize], empty_row(alloc))
}

/// Puts what the set of a class has into those of its superclasses.
fn hand_on(
    alloc: Global,
    bound: u32,
    classes: &[ClassInfo],
    rows: &mut Vec<Row>,
    class: u32,
) -> Result<(), ListFault>
    requires classes { length classes.now ≡ bound }
    requires count { length rows.old.items ≡ bound }
    requires live { IsTrue (list_all (λ s. nat_lt s.0 bound) (class_at (of_classes classes.now) class).supers) }
    requires rows { (c : ℕ) → EndsWithin bound (slice_index_or rows.old.items c no_row) }
    ensures count { OnOk result (length rows.new.items ≡ bound) }
    ensures within { OnOk result ((c : ℕ) → EndsWithin bound (slice_index_or rows.new.items c no_row)) }
    ensures marks { OnOk result ((c d : ℕ) → is_marked (slice_index_or rows.new.items c no_row) d ≡ handed_on rows.old.items class (class_at (of_classes classes.now) class).supers c d) }
{
    let supers = supers_at(classes, class);
    if supers.is_empty() {
        return Ok(());
    }
    let row = take_row(alloc, rows, class);
    for superclass in supers {
        unite(alloc, bound, &mut rows[superclass.0 as usize], &row)?;
    }
    put(rows, class as usize, row);
    Ok(())
}

/// For each class the set of itself and the classes below it.
pub fn rows_below(
    alloc: Global,
    order: &Order,
    classes: &[ClassInfo],
    count: u32,
) -> Result<Vec<Row>, ListFault>
    requires count { length classes.now ≡ count }
    requires order { IsOrder (of_classes classes.now) order.now.classes order.now.ranks }
    ensures each { IfOk result (λ v. length v.items ≡ count) }
    ensures within { IfOk result (λ v. (c : ℕ) → EndsWithin count (slice_index_or v.items c no_row)) }
    ensures below { IfOk result (λ v. (c : ℕ) → c < count → (d : ℕ) → is_marked (slice_index_or v.items c no_row) d ≡ ((c == d) || reaches (of_classes classes.now) d c)) }
{
    let mut rows = own_rows(alloc, count)?;
    for place in (0..count).rev() {
        let class = order.classes.as_slice()[place as usize];
        hand_on(alloc, count, classes, &mut rows, class)?;
    }
    Ok(rows)
}
