//! Sets of classes as rows of bits.

ghost use Rattle.std.specs.Prelude.{true, IfOk};
ghost use Rattle.qvt_metas.specs.Metamodels.{class_at};
ghost use Rattle.qvt_metas.specs.Descends.{descends};
ghost use Rattle.qvt_types_choices.specs.Sets.{IsSetOf, AreSets};

use crate::bits::{mark_if, no_bits, row_of};
use crate::class_choices::is_element;
use qvt_base::list_fault::ListFault;
use qvt_base::numbers::ClassNo;
use qvt_metas::order::Order;
use qvt_metas::row::Row;
use qvt_rows::below::rows_below;
use qvt_rows::sets::empty_row;
use qvt_types_paths::metas::Metas;
use std::alloc::Global;

/// Sets of classes.
#[derive(Drop)]
pub struct ClassSets {
    /// For each class the set of it and those below it; what Element is above is not told here.
    pub below: Vec<Row>,
    pub all: Row,
    pub abstracts: Row,
    pub none: Row,
}

/// The set of all classes.
fn all_classes(alloc: Global, metas: &Metas) -> Result<Row, ListFault>
    ensures { IfOk result (IsSetOf metas.now (λ d. true)) }
{
    let count = metas.class_count();
    let mut words = no_bits(alloc, count)?;
    for class in 0..count {
        mark_if(&mut words, true, class);
    }
    Ok(row_of(words))
}

/// The set of the abstract classes.
fn abstract_classes(alloc: Global, metas: &Metas) -> Result<Row, ListFault>
    ensures { IfOk result (IsSetOf metas.now (λ d. (class_at metas.now d).is_abstract)) }
{
    let count = metas.class_count();
    let mut words = no_bits(alloc, count)?;
    for class in 0..count {
        mark_if(&mut words, metas.is_abstract(ClassNo(class)), class);
    }
    Ok(row_of(words))
}

/// The sets of the classes of these metamodels, by an order of them.
pub fn class_sets(alloc: Global, metas: &Metas, order: &Order) -> Result<ClassSets, ListFault>
    requires { IsOrder (of_classes metas.now.classes) order.now.classes order.now.ranks }
    ensures { IfOk result (AreSets metas.now) }
{
    Ok(ClassSets {
        below: rows_below(alloc, order, metas.class_infos(), metas.class_count())?,
        all: all_classes(alloc, metas)?,
        abstracts: abstract_classes(alloc, metas)?,
        none: empty_row(alloc),
    })
}

ghost use Rattle.qvt_metas.specs.Tables.{IsOrder, of_classes};

/// The set of the class and those below it.
pub fn set_below<'a>(metas: &Metas, sets: &'a ClassSets, class: ClassNo) -> &'a Row
    requires { AreSets metas.now sets.now }
    ensures { IsSetOf metas.now (λ d. descends metas.now d class.0) result.now }
{
    metas.are_well_formed();
    metas.ancestors_are_least();
    let at = class.0 as usize;
    if is_element(metas, class) {
        &sets.all
    } else if at < sets.below.len() {
        &sets.below[at]
    } else {
        &sets.none
    }
}
