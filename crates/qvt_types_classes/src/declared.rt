//! Intermediate classes as they are written.

ghost use Rattle.std.specs.Prelude.{◌≡◌, ◌++◌, map, IfOk, OnOk};
ghost use Rattle.std.specs.List.{flat_map};
ghost use Rattle.qvt_tree_types.specs.Module.{class_view, field_view, unit_view};
ghost use Rattle.qvt_types_classes.specs.Written as declared;

use crate::shapes::property_shape;
use qvt_base::copied::Copied;
use qvt_base::list_fault::ListFault;
use qvt_base::numbers::{ClassNo, Place};
use qvt_base::seq::Seq;
use qvt_base::text::Text;
use qvt_cycle::lists::Positions;
use qvt_metas::info::{FeatureShape, TypeKind};
use qvt_metas::metas::Metas;
use qvt_tree_types::module::{ClassDecl, Field, Unit};
use qvt_tree_types::types::PathTree;
use qvt_types_data::refusal::{RefusalKind, TypingRefusal};
use qvt_types_paths::model_types::TypeNames;
use qvt_types_paths::paths::path_class;
use std::alloc::Global;

/// A property of an intermediate class, and whether its type is known: where it is not, what it holds says nothing.
pub struct Property {
    pub name: Text,
    pub shape: FeatureShape,
    pub typed: bool,
    pub place: Place,
}

impl Drop for Property {
    fn drop(self) {
        let Property {
            name,
            shape,
            typed,
            place,
        } = self;
    }
}

impl Copied for Property {
    fn copy(&self, alloc: Global) -> Result<Property, ListFault> {
        Ok(Property {
            name: self.name.copy(alloc)?,
            shape: self.shape,
            typed: self.typed,
            place: self.place,
        })
    }
}

/// An intermediate class, with its superclasses by their places among the intermediate classes.
pub struct Declared {
    pub name: Text,
    pub supers: Positions,
    pub properties: Seq<Property>,
    pub place: Place,
}

impl Drop for Declared {
    fn drop(self) {
        let Declared {
            name,
            supers,
            properties,
            place,
        } = self;
    }
}

/// The place of an intermediate class. No other class is extended.
fn place_of(names: &TypeNames, class: Result<ClassNo, RefusalKind>) -> Result<u32, RefusalKind>
    ensures { result ≡ declared.place_of names.now class }
{
    match class {
        Ok(class) => {
            let element = names.element().0;
            if element < class.0 {
                Ok(class.0 - (element + 1))
            } else {
                Err(RefusalKind::UnknownType)
            }
        }
        Err(kind) => Err(kind),
    }
}

/// The place of the intermediate class that a path in `extends` names.
#[tactic(auto, unfolding(crate::specs::Written::super_place))]
pub fn super_place(metas: &Metas, names: &TypeNames, path: &PathTree) -> Result<u32, RefusalKind>
    ensures { result ≡ declared.super_place metas.now names.now path.now }
{
    place_of(names, path_class(metas, names, path.names.as_slice()))
}

/// Puts the place of a superclass last, if there is such a class.
fn add_super(supers: &mut Positions, place: Result<u32, RefusalKind>) -> Result<(), ListFault>
    ensures { OnOk result (supers.new ≡ supers.old ++ declared.list_of place) }
{
    match place {
        Ok(place) => supers.push(place),
        Err(_) => Ok(()),
    }
}

/// The superclasses of a class.
fn supers_of(
    alloc: Global,
    metas: &Metas,
    names: &TypeNames,
    paths: &[PathTree],
) -> Result<Positions, ListFault>
    ensures { IfOk result (λ s. s ≡ flat_map (λ path. declared.list_of (declared.super_place metas.now names.now path)) paths.now) }
{
    let mut supers = Seq::new(alloc);
    for path in paths {
        add_super(&mut supers, super_place(metas, names, path))?;
    }
    Ok(supers)
}

/// A shape that says nothing.
pub fn nowhere_shape() -> FeatureShape
    ensures { result ≡ nowhere_shape }
{
    FeatureShape {
        kind: TypeKind::Int,
        lower: 0,
        upper: None,
        ordered: false,
        unique: false,
        containment: false,
    }
}

ghost use Rattle.qvt_metas.specs.Metamodels.{nowhere_shape};

fn property_with(name: Text, place: Place, shape: Result<FeatureShape, TypingRefusal>) -> Property
    ensures { result ≡ declared.property name place shape }
{
    match shape {
        Ok(shape) => Property {
            name,
            shape,
            typed: true,
            place,
        },
        Err(_) => Property {
            name,
            shape: nowhere_shape(),
            typed: false,
            place,
        },
    }
}

fn property_of(
    alloc: Global,
    metas: &Metas,
    names: &TypeNames,
    field: &Field,
) -> Result<Property, ListFault>
    ensures { IfOk result (λ p. p ≡ declared.property_of metas.now names.now (field_view field.now)) }
{
    let shape = property_shape(alloc, metas, names, field)?;
    Ok(property_with(field.name.copy(alloc)?, field.place, shape))
}

fn properties_of(
    alloc: Global,
    metas: &Metas,
    names: &TypeNames,
    fields: &[Field],
) -> Result<Seq<Property>, ListFault>
    ensures { IfOk result (λ ps. ps ≡ map (declared.property_of metas.now names.now) (map field_view fields.now)) }
{
    let mut properties = Seq::new(alloc);
    for field in fields {
        properties.push(property_of(alloc, metas, names, field)?)?;
    }
    Ok(properties)
}

/// A class as it is written.
#[tactic(auto, unfolding(crate::specs::Written::declared))]
fn written_class(
    alloc: Global,
    metas: &Metas,
    names: &TypeNames,
    class: &ClassDecl,
) -> Result<Declared, ListFault>
    ensures { IfOk result (λ d. d ≡ declared.declared metas.now names.now (class_view class.now)) }
{
    let supers = supers_of(alloc, metas, names, class.supers.as_slice())?;
    let properties = properties_of(alloc, metas, names, class.features.as_slice())?;
    Ok(Declared {
        name: class.name.copy(alloc)?,
        supers,
        properties,
        place: class.place,
    })
}

/// Puts the class that the unit is last, if it is one.
fn add_declared(
    alloc: Global,
    metas: &Metas,
    names: &TypeNames,
    unit: &Unit,
    classes: &mut Seq<Declared>,
) -> Result<(), ListFault>
    ensures { OnOk result (classes.new ≡ classes.old ++ declared.declared_in metas.now names.now (unit_view unit.now)) }
{
    match unit {
        Unit::Class(class) => classes.push(written_class(alloc, metas, names, class)?),
        Unit::Main(_, _) => Ok(()),
        Unit::Helper(_) => Ok(()),
        Unit::Constructor(_) => Ok(()),
        Unit::Mapping(_) => Ok(()),
    }
}

/// The intermediate classes as they are written, in order.
pub fn all_declared(
    alloc: Global,
    metas: &Metas,
    names: &TypeNames,
    units: &[Unit],
) -> Result<Seq<Declared>, ListFault>
    ensures { IfOk result (λ ds. ds ≡ declared.all_declared metas.now names.now (map unit_view units.now)) }
{
    let mut classes = Seq::new(alloc);
    for unit in units {
        add_declared(alloc, metas, names, unit, &mut classes)?;
    }
    Ok(classes)
}
