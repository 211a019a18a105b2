//! Classes that come after no metamodels, each told in a line as `NAME/SUPERCLASSES/FEATURES`: the
//! superclasses are numbers, and a feature is `NAME:TYPE`, with a star where it has no upper bound,
//! `1` in the place of the colon where it has a lower bound, and `+` where it is a containment.

use qvt_base::lists::ClassNoList;
use qvt_base::numbers::{ClassNo, FeatureNo};
use qvt_base::seq::Seq;
use qvt_base::text::Text;
use qvt_meta::given::{ClassData, ClassDataList, FeatureData, FeatureDataList};
use qvt_meta::info::{FeatureShape, TypeKind};
use qvt_meta_given::given::are_given;
use qvt_metas::metas::Metas;
use std::alloc::Global;
use std::test::Fail;

/// A type is Boolean, Integer, String, the first enumeration, or the class of a number.
fn kind_of(name: &str) -> Result<TypeKind, Fail> {
    match name {
        "Boolean" => Ok(TypeKind::Bool),
        "Integer" => Ok(TypeKind::Int),
        "String" => Ok(TypeKind::Str),
        "Enumeration" => Ok(TypeKind::Enum(0, 0)),
        _ => Ok(TypeKind::Class(ClassNo(name.parse::<u32>()?))),
    }
}

fn shape(kind: TypeKind, lower: u32, upper: Option<u32>, containment: bool) -> FeatureShape {
    FeatureShape {
        kind,
        lower,
        upper,
        ordered: false,
        unique: true,
        containment,
    }
}

/// The name, the sign and the type of a feature.
fn parts_of(word: &str) -> Option<(&str, char, &str)> {
    for sign in [':', '+', '1'] {
        if let Some((name, kind)) = word.split_once(sign) {
            return Some((name, sign, kind));
        }
    }
    None
}

fn read_feature(alloc: Global, word: &str) -> Result<FeatureData, Fail> {
    let (name, sign, kind) = parts_of(word).ok_or("a feature")?;
    let (kind, upper) = match kind.strip_suffix('*') {
        Some(kind) => (kind, None),
        None => (kind, Some(1)),
    };
    let lower = if sign == '1' { 1 } else { 0 };
    Ok(FeatureData {
        name: Text::from_str(alloc, name)?,
        shape: shape(kind_of(kind)?, lower, upper, sign == '+'),
    })
}

fn read_features(alloc: Global, words: &str) -> Result<FeatureDataList, Fail> {
    let mut features = Seq::new(alloc);
    for word in words.split_whitespace() {
        features.push(read_feature(alloc, word)?)?;
    }
    Ok(features)
}

fn supers_of(alloc: Global, words: &str) -> Result<ClassNoList, Fail> {
    let mut supers = Seq::new(alloc);
    for word in words.split_whitespace() {
        supers.push(ClassNo(word.parse::<u32>()?))?;
    }
    Ok(supers)
}

fn read_class(alloc: Global, line: &str) -> Result<ClassData, Fail> {
    let (name, rest) = line.split_once('/').ok_or("a class")?;
    let (supers, features) = rest.split_once('/').ok_or("superclasses")?;
    Ok(ClassData {
        name: Text::from_str(alloc, name)?,
        supers: supers_of(alloc, supers)?,
        features: read_features(alloc, features)?,
    })
}

fn read_classes(alloc: Global, lines: &str) -> Result<ClassDataList, Fail> {
    let mut classes = Seq::new(alloc);
    for line in lines.lines() {
        classes.push(read_class(alloc, line)?)?;
    }
    Ok(classes)
}

/// Classes, and whether they can come. Element has the number 0, and the first of them 1.
const CASES: [(&str, bool); 20] = [
    ("", true),
    ("A//", true),
    ("A//name:String\nB/1/size:Integer*", true),
    ("A/2/name:String\nB//size:Integer*", true),
    ("A//b:Boolean e:0 a:1 c:2*\nB//", true),
    ("A//x:Integer\nB//x:Integer", true),
    ("A//x:Integer\nB/1/\nC/1/\nD/2 3/y:4", true),
    ("A//x:Integer x:String", false),
    ("A//x:Integer\nB/1/x:String", false),
    ("A//x:Integer\nB//x:Integer\nC/1 2/", false),
    ("A/1/", false),
    ("A/2/\nB/1/", false),
    ("A//\nB/3/\nC/2/", false),
    ("A/0/", false),
    ("A//\nB/3/", false),
    ("A//c:2", false),
    ("A//e:Enumeration", false),
    ("A//a+1", false),
    ("A//a:1\nB//b+1*", false),
    ("A//n1Integer", false),
];

#[test]
fn conditions_of_given_classes(rt: HostRuntime) -> Result<(), Fail> {
    let alloc = rt.alloc();
    let metas = Metas::new(alloc);
    for (lines, expected) in &CASES {
        let classes = read_classes(alloc, lines)?;
        let given = are_given(alloc, &metas, &classes)?;
        assert!(rt; given == *expected, "{lines:?}");
    }
    Ok(())
}

/// The metamodels of these classes alone, with Element before them.
fn extended(alloc: Global, lines: &str) -> Result<Metas, Fail> {
    let metas = Metas::new(alloc);
    let classes = read_classes(alloc, lines)?;
    if !are_given(alloc, &metas, &classes)? {
        return Err(Fail::new("classes that can not come"));
    }
    match metas.extended(&classes) {
        Ok(all) => Ok(all),
        Err(_) => Err(Fail::new("no memory for the classes")),
    }
}

/// Whether there is one metamodel, without a name, and its classes have these names.
fn has_classes(all: &Metas, names: &[&str]) -> bool {
    if all.metamodel_count() != 1 || all.metamodel_name(0) != "" {
        return false;
    }
    for (class, name) in (0u32..).zip(names) {
        let class = ClassNo(class);
        if all.class(0, name) != Some(class) || all.class_name(class) != *name {
            return false;
        }
    }
    all.class_count() as usize == names.len()
}

/// Whether each first class descends from the second exactly where it is told.
fn descend(all: &Metas, descent: &[(u32, u32, bool)]) -> bool {
    for (sub, sup, expected) in descent {
        if all.descends(ClassNo(*sub), ClassNo(*sup)) != *expected {
            return false;
        }
    }
    true
}

/// Whether the class has these features, in this order.
fn has_features(all: &Metas, class: ClassNo, features: &[(&str, u32)]) -> bool {
    for (place, (name, number)) in features.iter().enumerate() {
        let feature = FeatureNo(*number);
        if all.features(class).get(place) != Some(&feature)
            || all.feature(class, name) != Some(feature)
            || all.place(class, feature) != Some(place)
            || all.feature_name(feature) != *name
        {
            return false;
        }
    }
    all.features(class).len() == features.len()
}

#[test]
fn element_comes_alone(rt: HostRuntime) -> Result<(), Fail> {
    let all = extended(rt.alloc(), "")?;
    assert!(rt; has_classes(&all, &["Element"]));
    assert!(rt; all.is_abstract(ClassNo(0)));
    assert!(rt; has_features(&all, ClassNo(0), &[]));
    assert!(rt; descend(&all, &[(7, 0, true)]));
    Ok(())
}

const TWO_CLASSES: &str = "Named//name:String\nSized/1/size:Integer*";

const DESCENT: [(u32, u32, bool); 9] = [
    (0, 0, true),
    (1, 1, true),
    (2, 2, true),
    (1, 0, true),
    (2, 0, true),
    (2, 1, true),
    (1, 2, false),
    (0, 1, false),
    (0, 2, false),
];

#[test]
fn given_classes_are_looked_up(rt: HostRuntime) -> Result<(), Fail> {
    let all = extended(rt.alloc(), TWO_CLASSES)?;
    assert!(rt; has_classes(&all, &["Element", "Named", "Sized"]));
    assert!(rt; all.class(0, "name").is_none());
    assert!(rt; !all.is_abstract(ClassNo(2)));
    assert!(rt; descend(&all, &DESCENT));
    Ok(())
}

/// Whether the first class has the first feature alone, and the second both.
fn has_their_features(all: &Metas) -> bool {
    let (named, sized) = (ClassNo(1), ClassNo(2));
    has_features(all, ClassNo(0), &[])
        && has_features(all, named, &[("name", 0)])
        && has_features(all, sized, &[("name", 0), ("size", 1)])
        && all.feature(named, "size").is_none()
        && all.place(named, FeatureNo(1)).is_none()
}

#[test]
fn features_of_given_classes_are_looked_up(rt: HostRuntime) -> Result<(), Fail> {
    let all = extended(rt.alloc(), TWO_CLASSES)?;
    let (name, size) = (FeatureNo(0), FeatureNo(1));
    assert!(rt; has_their_features(&all));
    assert!(rt; all.shape(name) == shape(TypeKind::Str, 0, Some(1), false));
    assert!(rt; all.shape(size) == shape(TypeKind::Int, 0, None, false));
    assert!(rt; all.opposite(size).is_none());
    Ok(())
}
