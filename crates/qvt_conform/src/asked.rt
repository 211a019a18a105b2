//! The features of classes that ask for an item.

ghost use Rattle.std.specs.Prelude.{◌≡◌, IfOk, IsTrue};
ghost use Rattle.qvt_metas.specs.Metamodels.{features_of};
ghost use Rattle.qvt_conform.specs.Asked.{asking, HasAsked, HaveAsked, AreMet};

use indexmap::IndexMap;
use qvt_base::list_fault::ListFault;
use qvt_base::lists::FeatureNoList;
use qvt_base::numbers::{ClassNo, FeatureNo};
use qvt_base::seq::Seq;
use qvt_metas::metas::Metas;
use qvt_model::data::SlotData;
use std::alloc::Global;
use std::marker::Model;

/// The features that ask for an item, in their order.
fn asking(alloc: Global, metas: &Metas, features: &[FeatureNo]) -> Result<FeatureNoList, ListFault>
    ensures { IfOk result (λ asked. asked ≡ asking metas.now features.now) }
{
    let mut asked = Seq::new(alloc);
    for feature in features {
        if metas.shape(*feature).lower > 0 {
            asked.push(*feature)?;
        }
    }
    Ok(asked)
}

/// The features that ask for an item, in byte order of their names, in which the slots of an object stand too.
#[tactic(auto, using(crate::proofs::Asks::asked_reordered))]
fn asking_by_name(
    alloc: Global,
    metas: &Metas,
    features: &[FeatureNo],
) -> Result<FeatureNoList, ListFault>
    ensures { IfOk result (HasAsked metas.now features.now) }
{
    let mut asked = asking(alloc, metas, features)?.into_vec();
    asked.sort_unstable_by(|a, b| metas.feature_name(*a).cmp(&metas.feature_name(*b)));
    Ok(Seq::from_vec(asked))
}

/// Whether each of the features has a slot, where both are in one order. Where they are not, it may say that one has none.
#[tactic(auto, using(crate::proofs::Asks::none_yet, crate::proofs::Asks::next_met, crate::proofs::Asks::all_met))]
fn have_slots(asked: &[FeatureNo], slots: &[SlotData]) -> bool
    ensures { IsTrue result → HaveAsked asked.now slots.now }
{
    let mut met = 0;
    for slot in slots {
        if met < asked.len() && asked[met].0 == slot.feature.0 {
            met += 1;
        }
    }
    met == asked.len()
}

/// Of each class the features that ask for an item, listed when the first object of it is met.
pub struct Asked<'a> {
    metas: &'a Metas,
    lists: IndexMap<u32, FeatureNoList>,
}

impl Drop for Asked<'_> {
    fn drop(self) {
        let Asked { metas, lists } = self;
    }
}

impl<'a> Model for Asked<'a> {
    ghost use Rattle.qvt_metas.specs.Metamodels.{Metamodels};
    ghost use Rattle.qvt_conform.specs.Asked.{AreListed};

    ghost Value = { Metamodels };

    ghost view = { λ a. a.metas.now };

    ghost invariant = { λ a. AreListed a.metas.now a.lists };
}

impl<'a> Asked<'a> {
    /// No class is met yet. It takes no memory.
    #[tactic(auto, using(crate::proofs::Asks::nothing_listed))]
    pub fn new(alloc: Global, metas: &'a Metas) -> Asked<'a>
        ensures { result ≡ metas.now }
    {
        Asked {
            metas,
            lists: IndexMap::new(alloc),
        }
    }

    /// Lists the features of a class, if it was not met before.
    #[tactic(auto, using(crate::proofs::Asks::one_listed))]
    pub fn meet(&mut self, alloc: Global, class: ClassNo) -> Result<(), ListFault>
        ensures { self.new ≡ self.old }
    {
        if self.lists.contains_key(&class.0) {
            return Ok(());
        }
        let asked = asking_by_name(alloc, self.metas, self.metas.features(class))?;
        match self.lists.insert(class.0, asked) {
            Ok(_) => Ok(()),
            Err(_) => Err(ListFault::NoMemory),
        }
    }

    /// Whether each feature of a class that was met that asks for an item has one of these slots, which stand in byte order
    /// of the names.
    #[tactic(auto, using(crate::proofs::Asks::class_met))]
    pub fn are_met(&self, class: ClassNo, slots: &[SlotData]) -> bool
        ensures { IsTrue result → AreMet self.now (features_of self.now class.0) slots.now }
    {
        match self.lists.get(&class.0) {
            Some(asked) => have_slots(asked.as_slice(), slots),
            None => false,
        }
    }
}
