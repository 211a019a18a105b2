ghost use Rattle.std.specs.Prelude.{◌≡◌, ◌++◌, IfOk};

use crate::info::{ClassInfo, EnumInfo, FeatureInfo, MetamodelInfo};
use crate::row::Row;
use qvt_base::copied::Copied;
use qvt_base::list_fault::ListFault;
use qvt_base::seq::Seq;
use qvt_base::text::Text;
use std::alloc::Global;

/// Copies of all of these, in order.
pub fn copies<T: Copied>(alloc: Global, items: &[T]) -> Result<Vec<T>, ListFault>
    ensures { IfOk result (λ v. v.items ≡ items.now) }
{
    let mut copies = Seq::with_room(alloc, items.len())?;
    for item in items {
        copies.push(item.copy(alloc)?)?;
    }
    Ok(copies.into_vec())
}

/// Copies of the first ones, and then the others.
pub fn joined<T: Copied>(
    alloc: Global,
    first: &[T],
    mut others: Vec<T>,
) -> Result<Vec<T>, ListFault>
    ensures { IfOk result (λ v. v.items ≡ first.now ++ others.items) }
{
    let mut all = copies(alloc, first)?;
    match all.append(&mut others) {
        Ok(()) => Ok(all),
        Err(_) => Err(ListFault::NoMemory),
    }
}

/// A copy of the text, if there is one.
pub fn copy_of_text(alloc: Global, text: &Option<Text>) -> Result<Option<Text>, ListFault>
    ensures { IfOk result (λ o. o ≡ text.now) }
{
    match text {
        None => Ok(None),
        Some(text) => Ok(Some(text.copy(alloc)?)),
    }
}

impl Copied for EnumInfo {
    fn copy(&self, alloc: Global) -> Result<EnumInfo, ListFault> {
        Ok(EnumInfo {
            name: self.name.copy(alloc)?,
            literals: self.literals.copy(alloc)?,
        })
    }
}

impl Copied for MetamodelInfo {
    fn copy(&self, alloc: Global) -> Result<MetamodelInfo, ListFault> {
        Ok(MetamodelInfo {
            name: self.name.copy(alloc)?,
            uri: copy_of_text(alloc, &self.uri)?,
            enums: self.enums.copy(alloc)?,
        })
    }
}

impl Copied for ClassInfo {
    fn copy(&self, alloc: Global) -> Result<ClassInfo, ListFault> {
        Ok(ClassInfo {
            metamodel: self.metamodel,
            name: self.name.copy(alloc)?,
            is_abstract: self.is_abstract,
            supers: self.supers.copy(alloc)?,
            own: self.own.copy(alloc)?,
        })
    }
}

impl Copied for FeatureInfo {
    fn copy(&self, alloc: Global) -> Result<FeatureInfo, ListFault> {
        Ok(FeatureInfo {
            owner: self.owner,
            name: self.name.copy(alloc)?,
            shape: self.shape,
            opposite: self.opposite,
        })
    }
}

impl Copied for Row {
    fn copy(&self, alloc: Global) -> Result<Row, ListFault> {
        Ok(Row {
            start: self.start,
            skipped: self.skipped,
            words: Seq::from_slice(alloc, self.words.as_slice())?,
        })
    }
}
