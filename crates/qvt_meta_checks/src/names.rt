ghost use Rattle.std.specs.Prelude.{◌≡◌, ℕ, None, List, [], map, IfOk, ◌++◌, ◌≤◌, length};
ghost use Rattle.qvt_metamodel.specs.Added.{place_in};
ghost use Rattle.qvt_metamodel.specs.Checks.{same_name, type_names};
ghost use Rattle.qvt_json.specs.Repeated.{repeated};
ghost use Rattle.qvt_metamodel.specs.Names.{primitive_names};

use crate::name_set::NameSet;
use qvt_base::copied::Copied;
use qvt_base::list_fault::ListFault;
use qvt_base::text::Text;
use qvt_metamodel::declared::{DeclaredClass, DeclaredFeature, MetaData};
use qvt_metamodel::info::EnumInfo;
use std::alloc::Global;

/// What has a name.
pub trait WithName {
    ghost name_of: { Self → List ℕ };

    fn name(&self) -> &Text
        ensures { result.now ≡ name_of self.now };
}

impl WithName for Text {
    ghost name_of = { λ t. t };

    fn name(&self) -> &Text {
        self
    }
}

impl WithName for DeclaredClass {
    ghost name_of = { λ c. c.name };

    fn name(&self) -> &Text {
        &self.name
    }
}

impl WithName for DeclaredFeature {
    ghost name_of = { λ f. f.name };

    fn name(&self) -> &Text {
        &self.name
    }
}

/// The names of the types that every metamodel has.
pub fn primitive_names(alloc: Global) -> Result<NameSet, ListFault>
    ensures { IfOk result (λ names. names ≡ primitive_names) }
{
    let mut names = NameSet::new(alloc);
    names.add(alloc, "Boolean")?;
    names.add(alloc, "Integer")?;
    names.add(alloc, "String")?;
    Ok(names)
}

/// The first of the names that is taken, or stands before.
pub fn repeated<T: WithName>(
    alloc: Global,
    mut taken: NameSet,
    items: &[T],
) -> Result<Option<Text>, ListFault>
    ensures { IfOk result (λ o. o ≡ repeated taken (map T.name_of items.now)) }
{
    for item in items {
        let name = item.name();
        if taken.contains(name) {
            return Ok(Some(name.copy(alloc)?));
        }
        taken.add(alloc, name.as_str())?;
    }
    Ok(None)
}

impl WithName for EnumInfo {
    ghost name_of = { λ e. e.name };

    fn name(&self) -> &Text {
        &self.name
    }
}

/// These names, and then those of the items, none of which is taken or stands twice.
pub fn names_with<T: WithName>(
    alloc: Global,
    mut names: NameSet,
    items: &[T],
) -> Result<NameSet, ListFault>
    requires { repeated names (map T.name_of items.now) ≡ None }
    ensures { IfOk result (λ all. all ≡ names ++ map T.name_of items.now) }
{
    for item in items {
        names.add(alloc, item.name().as_str())?;
    }
    Ok(names)
}

/// The names of all types: the primitive ones, the enumerations and the classes.
#[tactic(auto, using(crate::proofs::Passing::enums_differ, crate::proofs::Passing::classes_differ))]
pub fn type_names(alloc: Global, meta: &MetaData) -> Result<NameSet, ListFault>
    requires { same_name meta.now ≡ None }
    ensures { IfOk result (λ names. names ≡ type_names meta.now) }
{
    let types = names_with(alloc, primitive_names(alloc)?, meta.enums.as_slice())?;
    names_with(alloc, types, meta.classes.as_slice())
}

/// The names of these, no two of which are the same.
pub fn names_of<T: WithName>(alloc: Global, items: &[T]) -> Result<NameSet, ListFault>
    requires { repeated [] (map T.name_of items.now) ≡ None }
    ensures { IfOk result (λ names. names ≡ map T.name_of items.now) }
{
    names_with(alloc, NameSet::new(alloc), items)
}

/// The place of a name that is there.
pub fn place_in(names: &NameSet, name: &Text) -> usize
    ensures place { result ≡ place_in names.now name.now }
    ensures bound { result ≤ length names.now }
{
    match names.position(name) {
        Some(place) => place,
        None => 0,
    }
}
