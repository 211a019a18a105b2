//! The tables of classes: for each its features in order, and which classes are above it.

ghost use Rattle.std.specs.Prelude.{◌≡◌, ℕ, [], length, IfOk, IsTrue, OnOk, slice_index_or, slice_set};
ghost use Rattle.qvt_metamodel.specs.Metamodels.{features_of, nowhere_class};
ghost use Rattle.qvt_metamodel.specs.Lists.{all_lists};
ghost use Rattle.qvt_meta_tables.specs.Placed.{AreNew};
ghost use Rattle.qvt_meta_tables.specs.Tables.{of_classes, IsOrder, AreTables};
ghost use Rattle.qvt_meta_tables.specs.Search.{AreLive, IsAcyclic};

use crate::inherited::{SeenFeatures, put_list};
use crate::number_set::MarkedNumbers;
use crate::order::{Order, order_of};
use crate::rows::rows_of;
use qvt_base::list_fault::ListFault;
use qvt_base::numbers::{ClassNo, FeatureNo};
use qvt_metamodel::info::ClassInfo;
use qvt_metamodel::lists::FeatureLists;
use qvt_metamodel::row::Row;
use std::alloc::Global;

/// For each class its features in order, and which classes are above it; and ranks of the classes
/// that lie above those of their superclasses.
#[derive(Drop)]
pub struct Tables {
    pub lists: FeatureLists,
    pub rows: Vec<Row>,
    pub ranks: Vec<u32>,
}

/// The features that stand in lists, and whether no list has a feature twice.
#[derive(Drop)]
pub struct Placed {
    pub features: MarkedNumbers,
    pub once: bool,
}

/// Puts these features there, and tells whether none of them was. Where one was, the others may not
/// all be put there.
fn put_new(placed: &mut MarkedNumbers, own: &[FeatureNo]) -> Result<bool, ListFault>
    ensures { IfOk result (λ new. IsTrue new → AreNew placed.old own.now placed.new) }
{
    for feature in own {
        if placed.has(feature.0) {
            return Ok(false);
        }
        placed.put(feature.0)?;
    }
    Ok(true)
}

/// Notes the features of one more class.
fn note(placed: &mut Placed, own: &[FeatureNo]) -> Result<(), ListFault>
    ensures once { OnOk result (IsTrue placed.new.once → IsTrue placed.old.once) }
    ensures new { OnOk result (IsTrue placed.new.once → AreNew placed.old.features own.now placed.new.features) }
{
    if placed.once {
        placed.once = put_new(&mut placed.features, own)?;
    }
    Ok(())
}

/// Puts an item at a place, if there is such a place.
pub fn put<T: Drop>(items: &mut Vec<T>, place: usize, item: T)
    ensures { items.new.items ≡ slice_set items.old.items place item }
{
    if place < items.len() {
        items[place] = item;
    }
}

/// The superclasses of a class, none where there is no such class.
pub fn supers_at(classes: &[ClassInfo], class: u32) -> &[ClassNo]
    ensures { result.now ≡ (slice_index_or classes.now class nowhere_class).supers }
{
    let at = class as usize;
    if at < classes.len() {
        classes[at].supers.as_slice()
    } else {
        &[]
    }
}

/// The features that a class declares itself, none where there is no such class.
fn own_at(classes: &[ClassInfo], class: u32) -> &[FeatureNo]
    ensures { result.now ≡ (slice_index_or classes.now class nowhere_class).own }
{
    let at = class as usize;
    if at < classes.len() {
        classes[at].own.as_slice()
    } else {
        &[]
    }
}

/// The features of each class.
fn lists_of(
    alloc: Global,
    order: &Order,
    classes: &[ClassInfo],
    room: usize,
) -> Result<FeatureLists, ListFault>
    requires { IsOrder (of_classes classes.now) order.now.classes order.now.ranks }
    ensures each { IfOk result (λ ls. length (all_lists ls) ≡ length classes.now) }
    ensures features { IfOk result (λ ls. (c : ℕ) → slice_index_or (all_lists ls) c [] ≡ features_of (of_classes classes.now) c) }
{
    let mut seen = SeenFeatures {
        class: None,
        first: MarkedNumbers::new(alloc),
        later: MarkedNumbers::new(alloc),
    };
    let mut placed = Placed {
        features: MarkedNumbers::new(alloc),
        once: true,
    };
    let mut lists = FeatureLists::empty(alloc, classes.len(), room)?;
    for class in order.classes.as_slice() {
        let supers = supers_at(classes, *class);
        let own = own_at(classes, *class);
        put_list(
            alloc,
            &mut seen,
            placed.once,
            &mut lists,
            *class,
            supers,
            own,
        )?;
        note(&mut placed, own)?;
    }
    Ok(lists)
}

/// The tables of these classes, of which none is above itself. They are refused as out of memory where
/// more features than there is room for would be copied from superclasses or looked through.
pub fn tables_of(
    alloc: Global,
    classes: &[ClassInfo],
    count: u32,
    room: usize,
) -> Result<Tables, ListFault>
    requires live { AreLive classes.now }
    requires acyclic { IsAcyclic classes.now }
    requires count { length classes.now ≡ count }
    ensures { IfOk result (λ t. AreTables (of_classes classes.now) (all_lists t.lists) t.rows.items t.ranks.items) }
{
    let order = order_of(alloc, classes, count)?;
    let lists = lists_of(alloc, &order, classes, room)?;
    let rows = rows_of(alloc, &order, classes, count)?;
    Ok(Tables {
        lists,
        rows,
        ranks: order.ranks.into_vec(),
    })
}
