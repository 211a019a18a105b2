//! The parts of a list of metamodels with their numbers after those of another.

ghost use Rattle.std.specs.Prelude.{◌≡◌, ◌+◌, ◌<◌, ◌^◌, map, option_map, IfOk};
ghost use Rattle.std.specs.List.{AllByRecursion};
ghost use Rattle.qvt_metamodel.specs.Joined.{class_on, feature_on, kind_on, class_info_on, feature_info_on, row_on, ClassesFit, FeaturesFit, KindFits, OppositeFits, ClassFits, FeatureFits};
ghost use Rattle.qvt_metas.specs.Held.{capped_on};

use qvt_base::copied::Copied;
use qvt_base::list_fault::ListFault;
use qvt_base::lists::{ClassNoList, FeatureNoList};
use qvt_base::numbers::{ClassNo, FeatureNo};
use qvt_base::seq::Seq;
use qvt_metamodel::begin::Begin;
use qvt_metamodel::info::{ClassInfo, FeatureInfo, FeatureShape, TypeKind};
use qvt_metamodel::row::Row;
use std::alloc::Global;

fn classes_on(alloc: Global, begin: Begin, classes: &[ClassNo]) -> Result<ClassNoList, ListFault>
    requires { ClassesFit begin classes.now }
    ensures { IfOk result (λ s. s ≡ map (class_on begin) classes.now) }
{
    let mut numbers = Seq::with_room(alloc, classes.len())?;
    for class in classes {
        numbers.push(ClassNo(begin.class + class.0))?;
    }
    Ok(numbers)
}

fn features_on(
    alloc: Global,
    begin: Begin,
    features: &[FeatureNo],
) -> Result<FeatureNoList, ListFault>
    requires { FeaturesFit begin features.now }
    ensures { IfOk result (λ s. s ≡ map (feature_on begin) features.now) }
{
    let mut numbers = Seq::with_room(alloc, features.len())?;
    for feature in features {
        numbers.push(FeatureNo(begin.feature + feature.0))?;
    }
    Ok(numbers)
}

#[tactic(auto, unfolding(qvt_metamodel::specs::Joined::class_info_on))]
fn class_info_on(alloc: Global, begin: Begin, class: &ClassInfo) -> Result<ClassInfo, ListFault>
    requires { ClassFits begin class.now }
    ensures { IfOk result (λ k. k ≡ class_info_on begin class.now) }
{
    Ok(ClassInfo {
        metamodel: begin.metamodel + class.metamodel,
        name: class.name.copy(alloc)?,
        is_abstract: class.is_abstract,
        supers: classes_on(alloc, begin, class.supers.as_slice())?,
        own: features_on(alloc, begin, class.own.as_slice())?,
    })
}

/// The classes, with numbers that go on from these.
pub fn class_infos_on(
    alloc: Global,
    begin: Begin,
    classes: &[ClassInfo],
) -> Result<Vec<ClassInfo>, ListFault>
    requires { AllByRecursion (ClassFits begin) classes.now }
    ensures { IfOk result (λ v. v.items ≡ map (class_info_on begin) classes.now) }
{
    let mut infos = Seq::with_room(alloc, classes.len())?;
    for class in classes {
        infos.push(class_info_on(alloc, begin, class)?)?;
    }
    Ok(infos.into_vec())
}

fn kind_on(begin: Begin, kind: TypeKind) -> TypeKind
    requires { KindFits begin kind }
    ensures { result ≡ kind_on begin kind }
{
    match kind {
        TypeKind::Bool => TypeKind::Bool,
        TypeKind::Int => TypeKind::Int,
        TypeKind::Str => TypeKind::Str,
        TypeKind::Enum(metamodel, enumeration) => {
            TypeKind::Enum(begin.metamodel + metamodel, enumeration)
        }
        TypeKind::Class(class) => TypeKind::Class(ClassNo(begin.class + class.0)),
    }
}

fn opposite_on(begin: Begin, opposite: Option<FeatureNo>) -> Option<FeatureNo>
    requires { OppositeFits begin opposite }
    ensures { result ≡ option_map (feature_on begin) opposite }
{
    match opposite {
        None => None,
        Some(feature) => Some(FeatureNo(begin.feature + feature.0)),
    }
}

#[tactic(auto, unfolding(qvt_metamodel::specs::Joined::feature_info_on))]
fn feature_info_on(
    alloc: Global,
    begin: Begin,
    feature: &FeatureInfo,
) -> Result<FeatureInfo, ListFault>
    requires { FeatureFits begin feature.now }
    ensures { IfOk result (λ f. f ≡ feature_info_on begin feature.now) }
{
    let shape = feature.shape;
    Ok(FeatureInfo {
        owner: ClassNo(begin.class + feature.owner.0),
        name: feature.name.copy(alloc)?,
        shape: FeatureShape {
            kind: kind_on(begin, shape.kind),
            lower: shape.lower,
            upper: shape.upper,
            ordered: shape.ordered,
            unique: shape.unique,
            containment: shape.containment,
        },
        opposite: opposite_on(begin, feature.opposite),
    })
}

/// The features, with numbers that go on from these.
pub fn feature_infos_on(
    alloc: Global,
    begin: Begin,
    features: &[FeatureInfo],
) -> Result<Vec<FeatureInfo>, ListFault>
    requires { AllByRecursion (FeatureFits begin) features.now }
    ensures { IfOk result (λ v. v.items ≡ map (feature_info_on begin) features.now) }
{
    let mut infos = Seq::with_room(alloc, features.len())?;
    for feature in features {
        infos.push(feature_info_on(alloc, begin, feature)?)?;
    }
    Ok(infos.into_vec())
}

fn capped_on(begin: Begin, feature: FeatureNo) -> FeatureNo
    ensures { result ≡ capped_on begin feature }
{
    FeatureNo(begin.feature.saturating_add(feature.0))
}

fn line_on(alloc: Global, begin: Begin, line: &[FeatureNo]) -> Result<FeatureNoList, ListFault>
    ensures { IfOk result (λ s. s ≡ map (capped_on begin) line.now) }
{
    let mut numbers = Seq::with_room(alloc, line.len())?;
    for feature in line {
        numbers.push(capped_on(begin, *feature))?;
    }
    Ok(numbers)
}

/// The lines of features, with numbers that go on from these. A line may end in numbers that no list
/// has, so they are not known to fit.
pub fn lines_on(
    alloc: Global,
    begin: Begin,
    lines: &[FeatureNoList],
) -> Result<Vec<FeatureNoList>, ListFault>
    ensures { IfOk result (λ v. v.items ≡ map (map (capped_on begin)) lines.now) }
{
    let mut all = Seq::with_room(alloc, lines.len())?;
    for line in lines {
        all.push(line_on(alloc, begin, line.as_slice())?)?;
    }
    Ok(all.into_vec())
}

fn row_on(alloc: Global, begin: Begin, row: &Row) -> Result<Row, ListFault>
    requires { begin.class + row.now.start < 2 ^ 32 }
    ensures { IfOk result (λ r. r ≡ row_on begin row.now) }
{
    Ok(Row {
        start: begin.class + row.start,
        skipped: row.skipped,
        words: Seq::from_slice(alloc, row.words.as_slice())?,
    })
}

/// The rows, with numbers that go on from these.
pub fn rows_on(alloc: Global, begin: Begin, rows: &[Row]) -> Result<Vec<Row>, ListFault>
    requires { AllByRecursion (λ r. begin.class + r.start < 2 ^ 32) rows.now }
    ensures { IfOk result (λ v. v.items ≡ map (row_on begin) rows.now) }
{
    let mut all = Seq::with_room(alloc, rows.len())?;
    for row in rows {
        all.push(row_on(alloc, begin, row)?)?;
    }
    Ok(all.into_vec())
}

/// The ranks, above those of as many classes.
pub fn ranks_on(alloc: Global, begin: Begin, ranks: &[u32]) -> Result<Vec<u32>, ListFault>
    requires { AllByRecursion (λ r. begin.class + r < 2 ^ 32) ranks.now }
    ensures { IfOk result (λ v. v.items ≡ map (λ r. begin.class + r) ranks.now) }
{
    let mut all = Seq::with_room(alloc, ranks.len())?;
    for rank in ranks {
        all.push(begin.class + *rank)?;
    }
    Ok(all.into_vec())
}
