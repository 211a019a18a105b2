//! The class Element and the classes that are declared beside metamodels, as numbered data.

ghost use Rattle.std.specs.Prelude.{◌≡◌, ◌+◌, ◌<◌, ◌^◌, ◌∷◌, ◌++◌, [], None, length, map, IfOk, OnOk, IsTrue};
ghost use Rattle.std.specs.List.{list_all};
ghost use Rattle.qvt_metamodel.specs.Extended.{unnamed, element_class, given_class, given_classes, given_feature, given_features, given_count, has_text, has_texts};

use qvt_base::copied::Copied;
use qvt_base::list_fault::ListFault;
use qvt_base::numbers::ClassNo;
use qvt_base::seq::Seq;
use qvt_base::text::Text;
use qvt_metamodel::given::{ClassData, FeatureData};
use qvt_metamodel::info::{ClassInfo, FeatureInfo, MetamodelInfo};
use qvt_metamodel::numbering::numbers_from;
use std::alloc::Global;

/// The list of the metamodel without a name.
pub fn one_unnamed(alloc: Global) -> Result<Vec<MetamodelInfo>, ListFault>
    ensures { IfOk result (λ v. v.items ≡ unnamed ∷ []) }
{
    let mut one = Seq::new(alloc);
    one.push(MetamodelInfo {
        name: Text::new(alloc),
        uri: None,
        enums: Seq::new(alloc),
    })?;
    Ok(one.into_vec())
}

fn element_class(alloc: Global, metamodel: u32) -> Result<ClassInfo, ListFault>
    ensures { IfOk result (λ k. k ≡ element_class metamodel) }
{
    Ok(ClassInfo {
        metamodel,
        name: Text::from_str(alloc, "Element")?,
        is_abstract: true,
        supers: Seq::new(alloc),
        own: Seq::new(alloc),
    })
}

fn given_class(
    alloc: Global,
    metamodel: u32,
    first: u32,
    class: &ClassData,
) -> Result<ClassInfo, ListFault>
    requires { first + length class.now.features < 2 ^ 32 }
    ensures { IfOk result (λ k. k ≡ given_class metamodel first class.now) }
{
    Ok(ClassInfo {
        metamodel,
        name: class.name.copy(alloc)?,
        is_abstract: false,
        supers: class.supers.copy(alloc)?,
        own: numbers_from(alloc, first, class.features.len())?,
    })
}

/// The class Element, and then the classes, whose features have the numbers from the first on.
pub fn given_classes(
    alloc: Global,
    metamodel: u32,
    start: u32,
    classes: &[ClassData],
) -> Result<Vec<ClassInfo>, ListFault>
    requires { start + given_count classes.now < 2 ^ 32 }
    ensures { IfOk result (λ v. v.items ≡ element_class metamodel ∷ given_classes metamodel start classes.now) }
{
    let mut infos = Seq::new(alloc);
    infos.push(element_class(alloc, metamodel)?)?;
    let mut first = start;
    for class in classes {
        infos.push(given_class(alloc, metamodel, first, class)?)?;
        first += class.features.len() as u32;
    }
    Ok(infos.into_vec())
}

fn given_feature(alloc: Global, owner: u32, feature: &FeatureData) -> Result<FeatureInfo, ListFault>
    ensures { IfOk result (λ f. f ≡ given_feature owner feature.now) }
{
    Ok(FeatureInfo {
        owner: ClassNo(owner),
        name: feature.name.copy(alloc)?,
        shape: feature.shape,
        opposite: None,
    })
}

/// Puts the features of one class last.
fn add_features(
    alloc: Global,
    infos: &mut Seq<FeatureInfo>,
    owner: u32,
    features: &[FeatureData],
) -> Result<(), ListFault>
    ensures { OnOk result (infos.new ≡ infos.old ++ map (given_feature owner) features.now) }
{
    for feature in features {
        infos.push(given_feature(alloc, owner, feature)?)?;
    }
    Ok(())
}

/// The features of the classes, of which the first has this number.
pub fn given_features(
    alloc: Global,
    start: u32,
    classes: &[ClassData],
) -> Result<Vec<FeatureInfo>, ListFault>
    requires { start + length classes.now < 2 ^ 32 }
    ensures { IfOk result (λ v. v.items ≡ given_features start classes.now) }
{
    let mut infos = Seq::new(alloc);
    let mut owner = start;
    for class in classes {
        add_features(alloc, &mut infos, owner, class.features.as_slice())?;
        owner += 1;
    }
    Ok(infos.into_vec())
}

/// The name of a feature is a text.
fn feature_has_text(feature: &FeatureData)
    ensures { IsTrue (has_text feature.now) }
{
    let _name = feature.name.as_str();
}

fn features_have_texts(features: &[FeatureData])
    ensures { IsTrue (list_all has_text features.now) }
{
    for feature in features {
        feature_has_text(feature);
    }
}

fn class_has_texts(class: &ClassData)
    ensures { IsTrue (has_texts class.now) }
{
    let _name = class.name.as_str();
    features_have_texts(class.features.as_slice());
}

/// All names are texts.
pub fn have_texts(classes: &[ClassData])
    ensures { IsTrue (list_all has_texts classes.now) }
{
    for class in classes {
        class_has_texts(class);
    }
}
