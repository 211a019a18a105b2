//! Model types, the metamodels that they use, and the names of the intermediate classes.

ghost use Rattle.std.specs.Prelude.{◌≡◌, ◌++◌, [], ◌==◌, map, position, is_some, option_map, IfOk, OnOk};
ghost use Rattle.std.specs.Str.{bytes_eq};
ghost use Rattle.std.specs.List.{list_any};
ghost use Rattle.qvt_tree_types.specs.Module.{unit_view};
ghost use Rattle.qvt_types_paths.specs.ModelTypes as types;

use crate::name_index::NameIndex;
use crate::told::{RefusalList, tell_if};
use qvt_base::list_fault::ListFault;
use qvt_base::numbers::ClassNo;
use qvt_base::seq::Seq;
use qvt_metas::metas::Metas;
use qvt_tree_types::module::{ModelType, Unit};
use qvt_types_data::refusal::RefusalKind;
use std::alloc::Global;
use std::marker::Model;

/// The names by which types are known: those of model types, and those of intermediate classes.
pub struct TypeNames {
    model_types: NameIndex,
    metamodels: Seq<Option<u32>>,
    used: Seq<u32>,
    classes: NameIndex,
    element: u32,
}

impl Drop for TypeNames {
    fn drop(self) {
        let TypeNames {
            model_types,
            metamodels,
            used,
            classes,
            element,
        } = self;
    }
}

impl Model for TypeNames {
    ghost use Rattle.std.specs.Prelude.{◌+◌, ◌<◌, ◌^◌, length};
    ghost use Rattle.qvt_types_paths.specs.ModelTypes.{NamedTypes};

    ghost Value = { NamedTypes };

    ghost view = { λ t. record { model_types = t.model_types; metamodels = t.metamodels; used = t.used; classes = t.classes; element = t.element } };

    ghost invariant = { λ t. t.element + (1 + length t.classes) < 2 ^ 32 };
}

impl TypeNames {
    ghost use Rattle.qvt_types_paths.specs.Paths.{element_no, intermediate_no};

    /// The metamodel of the first model type of this name.
    pub fn metamodel(&self, name: &str) -> Option<u32>
        ensures { result ≡ types.model_type_metamodel self.now name.now }
    {
        let Some(place) = self.model_types.place(name) else {
            return None;
        };
        let at = place as usize;
        let metamodels = self.metamodels.as_slice();
        if at < metamodels.len() {
            metamodels[at]
        } else {
            None
        }
    }

    /// Whether there is a model type of this name.
    pub fn has_model_type(&self, name: &str) -> bool
        ensures { result ≡ is_some (position (bytes_eq name.now) self.now.model_types) }
    {
        self.model_types.place(name).is_some()
    }

    /// The used metamodels, each once.
    pub fn used(&self) -> &[u32]
        ensures { result.now ≡ self.now.used }
    {
        self.used.as_slice()
    }

    /// The class Element.
    pub fn element(&self) -> ClassNo
        ensures { result ≡ element_no self.now }
    {
        ClassNo(self.element)
    }

    /// The first intermediate class of this name.
    pub fn intermediate(&self, name: &str) -> Option<ClassNo>
        ensures { result ≡ option_map (intermediate_no self.now) (position (bytes_eq name.now) self.now.classes) }
    {
        match self.classes.place(name) {
            None => None,
            Some(place) => Some(ClassNo(self.element + 1 + place)),
        }
    }
}

/// The metamodel that a model type means.
fn meant(metas: &Metas, of: &ModelType) -> Option<u32>
    ensures { result ≡ types.meant metas.now of.now }
{
    metas.metamodel(of.uri.as_str())
}

/// Tells what is wrong with a model type after others of these names.
#[tactic(auto, unfolding(crate::specs::ModelTypes::model_type_told))]
fn tell_model_type(
    metas: &Metas,
    earlier: &NameIndex,
    of: &ModelType,
    log: &mut RefusalList,
) -> Result<(), ListFault>
    ensures { OnOk result (log.new ≡ log.old ++ types.model_type_told metas.now earlier.now of.now) }
{
    let unknown = meant(metas, of).is_none();
    let repeated = earlier.has(of.name.as_str());
    tell_if(log, unknown, RefusalKind::UnknownMetamodel, of.place)?;
    tell_if(log, repeated, RefusalKind::SameName, of.place)
}

/// Tells what is wrong with the model types: UnknownMetamodel and SameName, each at the model type.
pub fn tell_model_types(
    alloc: Global,
    metas: &Metas,
    model_types: &[ModelType],
    log: &mut RefusalList,
) -> Result<(), ListFault>
    ensures { OnOk result (log.new ≡ log.old ++ types.model_types_told metas.now [] model_types.now) }
{
    let mut earlier = NameIndex::new(alloc);
    for of in model_types {
        tell_model_type(metas, &earlier, of, log)?;
        earlier = earlier.with(alloc, of.name.as_str())?;
    }
    Ok(())
}

fn model_type_names(alloc: Global, model_types: &[ModelType]) -> Result<NameIndex, ListFault>
    ensures { IfOk result (λ names. names ≡ map (λ t. t.name) model_types.now) }
{
    let mut names = NameIndex::new(alloc);
    for of in model_types {
        names = names.with(alloc, of.name.as_str())?;
    }
    Ok(names)
}

fn metamodels_meant(
    alloc: Global,
    metas: &Metas,
    model_types: &[ModelType],
) -> Result<Seq<Option<u32>>, ListFault>
    ensures { IfOk result (λ s. s ≡ map (types.meant metas.now) model_types.now) }
{
    let mut metamodels = Seq::new(alloc);
    for of in model_types {
        metamodels.push(meant(metas, of))?;
    }
    Ok(metamodels)
}

/// Whether the number is there.
fn holds(numbers: &[u32], number: u32) -> bool
    ensures { result ≡ list_any (λ u. u == number) numbers.now }
{
    numbers.iter().any(|other| *other == number)
}

/// Puts the metamodel last, unless it is there.
fn use_with(used: &mut Seq<u32>, number: u32) -> Result<(), ListFault>
    ensures { OnOk result (used.new ≡ types.used_with used.old number) }
{
    if holds(used.as_slice(), number) {
        return Ok(());
    }
    used.push(number)
}

fn use_next(used: &mut Seq<u32>, metamodel: Option<u32>) -> Result<(), ListFault>
    ensures { OnOk result (used.new ≡ types.used_next used.old metamodel) }
{
    match metamodel {
        None => Ok(()),
        Some(number) => use_with(used, number),
    }
}

/// The metamodels of these, each once.
fn used(alloc: Global, metamodels: &[Option<u32>]) -> Result<Seq<u32>, ListFault>
    ensures { IfOk result (λ s. s ≡ types.used_from [] metamodels.now) }
{
    let mut used = Seq::new(alloc);
    for metamodel in metamodels {
        use_next(&mut used, *metamodel)?;
    }
    Ok(used)
}

/// The names with that of an intermediate class last.
pub fn with_class_name(alloc: Global, names: NameIndex, unit: &Unit) -> Result<NameIndex, ListFault>
    ensures { IfOk result (λ all. all ≡ names ++ types.class_name (unit_view unit.now)) }
{
    match unit {
        Unit::Class(class) => names.with(alloc, class.name.as_str()),
        Unit::Main(_, _) => Ok(names),
        Unit::Helper(_) => Ok(names),
        Unit::Constructor(_) => Ok(names),
        Unit::Mapping(_) => Ok(names),
    }
}

fn class_names(alloc: Global, units: &[Unit]) -> Result<NameIndex, ListFault>
    ensures { IfOk result (λ names. names ≡ types.class_names (map unit_view units.now)) }
{
    let mut names = NameIndex::new(alloc);
    for unit in units {
        names = with_class_name(alloc, names, unit)?;
    }
    Ok(names)
}

/// The names by which a transformation knows types. It is refused as out of memory where the numbers of the intermediate classes
/// do not fit 32 bits.
#[tactic(auto, unfolding(crate::specs::ModelTypes::type_names))]
pub fn type_names(
    alloc: Global,
    metas: &Metas,
    model_types: &[ModelType],
    units: &[Unit],
) -> Result<TypeNames, ListFault>
    ensures { IfOk result (λ t. t ≡ types.type_names metas.now model_types.now (map unit_view units.now)) }
{
    let metamodels = metamodels_meant(alloc, metas, model_types)?;
    let used = used(alloc, metamodels.as_slice())?;
    let model_types = model_type_names(alloc, model_types)?;
    let classes = class_names(alloc, units)?;
    let element = metas.class_count();
    if classes.count() >= u32::MAX - element {
        return Err(ListFault::NoMemory);
    }
    Ok(TypeNames {
        model_types,
        metamodels,
        used,
        classes,
        element,
    })
}
