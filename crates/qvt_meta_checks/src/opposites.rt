//! The check of containments and opposites.

ghost use Rattle.std.specs.Prelude.{◌≡◌, ◌||◌, List, Some, not, is_some, slice_index_or, IfOk};
ghost use Rattle.std.specs.List.{list_any};
ghost use Rattle.std.specs.Str.{bytes_eq};
ghost use Rattle.qvt_metamodel.specs.MetaData.{class_names};
ghost use Rattle.qvt_metamodel.specs.Checks.{is_one_at_most, type_features, is_contained, has_no_class, may_repeat, is_undeclared, is_own_opposite, are_both_containments, has_many_containers, is_bad_opposite, bad_opposite};
ghost use Rattle.qvt_meta_checks.specs.Ends.{is_end, same_end, no_ends, may_not_be_contained, AreAllEnds};

use crate::checks::{FeatureTest, first_fault};
use crate::ends::{Ends, OppositeEnd, all_ends};
use crate::name_set::NameSet;
use crate::names::place_in;
use qvt_base::copied::Copied;
use qvt_base::list_fault::ListFault;
use qvt_base::text::Text;
use qvt_metamodel::declared::{DeclaredClass, DeclaredFeature, MetaData};
use std::alloc::Global;

fn is_one_at_most(upper: Option<u32>) -> bool
    ensures { result ≡ is_one_at_most upper }
{
    match upper {
        None => false,
        Some(upper) => upper == 1,
    }
}

/// Whether the feature may not be contained by its opposite: it is a containment, or its upper bound
/// is not 1.
fn may_not_be_contained(feature: &DeclaredFeature) -> bool
    ensures { result ≡ may_not_be_contained feature.now }
{
    feature.containment || !is_one_at_most(feature.upper)
}

ghost use Rattle.std.specs.Prelude.{◌&&◌};

/// A containment or an opposite that may not be.
#[derive(Drop)]
struct OppositeTest<'a> {
    meta: &'a MetaData,
    classes: &'a NameSet,
    ends: &'a [Ends],
    ghost names: { classes.now ≡ class_names meta.now },
    ghost ends_are: { AreAllEnds meta.now.classes ends.now },
}

impl<'a> OppositeTest<'a> {
    /// Whether the class that is the feature's type declares this end.
    #[tactic(auto, using(crate::proofs::Paired::declared_there))]
    fn is_declared(&self, feature: &DeclaredFeature, end: &OppositeEnd) -> bool
        ensures { result ≡ list_any (is_end end.now) (type_features self.now.meta.now feature.now) }
    {
        let place = place_in(self.classes, &feature.kind);
        holds_at(self.ends, place, end)
    }

    /// Whether it declares it as a containment, and the feature may not be contained by it.
    #[tactic(auto, using(crate::proofs::Paired::contained_there))]
    fn is_contained(&self, feature: &DeclaredFeature, end: &OppositeEnd) -> bool
        ensures { result ≡ (may_not_be_contained feature.now && list_any (λ g. g.containment && is_end end.now g) (type_features self.now.meta.now feature.now)) }
    {
        let place = place_in(self.classes, &feature.kind);
        may_not_be_contained(feature) && contains_at(self.ends, place, end)
    }

    /// Whether the feature has a type or a uniqueness that no containment and no end may have.
    fn is_misplaced(&self, feature: &DeclaredFeature) -> bool
        ensures { result ≡ (has_no_class self.now.meta.now feature.now || may_repeat feature.now) }
    {
        (feature.containment || feature.opposite.is_some())
            && (!self.classes.contains(&feature.kind) || !feature.unique)
    }

    /// Whether the feature and the one of this name are no two ends of one pair.
    fn is_unpaired(
        &self,
        alloc: Global,
        class: &DeclaredClass,
        feature: &DeclaredFeature,
        opposite: &Text,
    ) -> Result<bool, ListFault>
        requires { feature.now.opposite ≡ Some opposite.now }
        ensures { IfOk result (λ b. b ≡ (is_undeclared self.now.meta.now class.now feature.now || is_own_opposite class.now feature.now || are_both_containments self.now.meta.now class.now feature.now || has_many_containers self.now.meta.now class.now feature.now)) }
    {
        let end = OppositeEnd {
            name: opposite.copy(alloc)?,
            kind: class.name.copy(alloc)?,
            opposite: feature.name.copy(alloc)?,
        };
        let declared = self.is_declared(feature, &end);
        let contained = self.is_contained(feature, &end);
        let itself = is_itself(class, feature, opposite);
        Ok(is_bad(declared, contained, itself))
    }
}

/// Whether the class at a place declares the end.
fn holds_at(ends: &[Ends], place: usize, end: &OppositeEnd) -> bool
    ensures { result ≡ list_any (same_end end.now) (slice_index_or ends.now place no_ends).all }
{
    if place < ends.len() {
        ends[place].all.holds(end)
    } else {
        false
    }
}

/// Whether it declares it as a containment.
fn contains_at(ends: &[Ends], place: usize, end: &OppositeEnd) -> bool
    ensures { result ≡ list_any (same_end end.now) (slice_index_or ends.now place no_ends).containers }
{
    if place < ends.len() {
        ends[place].containers.holds(end)
    } else {
        false
    }
}

/// Whether the feature is its own opposite.
fn is_itself(class: &DeclaredClass, feature: &DeclaredFeature, opposite: &Text) -> bool
    ensures { result ≡ (bytes_eq feature.now.kind class.now.name && bytes_eq feature.now.name opposite.now) }
{
    feature.kind.as_str() == class.name.as_str() && feature.name.as_str() == opposite.as_str()
}

fn is_bad(declared: bool, contained: bool, itself: bool) -> bool
    ensures { result ≡ (not declared || contained || itself) }
{
    !declared || contained || itself
}

impl<'a> FeatureTest for OppositeTest<'a> {
    ghost fails = { λ t k f. is_bad_opposite t.meta.now k f };

    #[tactic(auto, using(crate::proofs::Paired::alone, crate::proofs::Paired::misplaced, crate::proofs::Paired::placed))]
    fn fails(
        &self,
        alloc: Global,
        class: &DeclaredClass,
        feature: &DeclaredFeature,
    ) -> Result<bool, ListFault> {
        if self.is_misplaced(feature) {
            return Ok(true);
        }
        match &feature.opposite {
            None => Ok(false),
            Some(opposite) => self.is_unpaired(alloc, class, feature, opposite),
        }
    }
}

/// The class and the feature that BadOpposite tells.
#[tactic(auto, unfolding(qvt_metamodel::specs::Checks::bad_opposite), using(crate::proofs::Paired::same_ends))]
pub fn bad_opposite(
    alloc: Global,
    classes: &NameSet,
    meta: &MetaData,
) -> Result<Option<(Text, Text)>, ListFault>
    requires { classes.now ≡ class_names meta.now }
    ensures { IfOk result (λ o. o ≡ bad_opposite meta.now) }
{
    let ends = all_ends(alloc, meta.classes.as_slice())?;
    let test = OppositeTest {
        meta,
        classes,
        ends: ends.as_slice(),
    };
    first_fault(alloc, &test, meta.classes.as_slice())
}
