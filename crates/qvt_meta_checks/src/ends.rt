//! The ends of opposites that classes declare, looked up by hash.

ghost use Rattle.std.specs.Prelude.{◌≡◌, ℕ, [], ◌||◌, IfOk, OnOk};
ghost use Rattle.std.specs.List.{list_any};

use indexmap::IndexSet;
use qvt_base::copied::Copied;
use qvt_base::list_fault::ListFault;
use qvt_base::seq::Seq;
use qvt_base::text::Text;
use qvt_metamodel::declared::{DeclaredClass, DeclaredFeature};
use std::alloc::Global;
use std::marker::Model;

/// An end of a pair of opposites: its name, the name of its type, and the name of the other end.
#[derive(PartialEq, Eq, Hash)]
pub struct OppositeEnd {
    pub name: Text,
    pub kind: Text,
    pub opposite: Text,
}

impl Drop for OppositeEnd {
    fn drop(self) {
        let OppositeEnd {
            name,
            kind,
            opposite,
        } = self;
    }
}

/// Ends, looked up by hash.
pub struct EndSet {
    ends: IndexSet<OppositeEnd>,
}

impl Drop for EndSet {
    fn drop(self) {
        let EndSet { ends } = self;
    }
}

impl Model for EndSet {
    ghost use Rattle.std.specs.Prelude.{List};
    ghost use Rattle.qvt_meta_checks.specs.declared.ends.OppositeEnd.{OppositeEnd};

    ghost Value = { List OppositeEnd };

    ghost view = { λ s. s.ends.keys };
}

impl EndSet {
    ghost use Rattle.qvt_meta_checks.specs.declared.ends.OppositeEnd.{OppositeEnd};
    ghost use Rattle.qvt_meta_checks.specs.Ends.{same_end, JoinedEnd, AreEnds};

    /// None yet. It takes no memory.
    fn new(alloc: Global) -> EndSet
        ensures { result ≡ [] }
    {
        EndSet {
            ends: IndexSet::new(alloc),
        }
    }

    /// Whether the end is one of these.
    pub fn holds(&self, end: &OppositeEnd) -> bool
        ensures { result ≡ list_any (same_end end.now) self.now }
    {
        self.ends.contains(end)
    }

    fn add(&mut self, end: OppositeEnd) -> Result<(), ListFault>
        ensures { OnOk result ((e : OppositeEnd) → list_any (same_end e) self.new ≡ (list_any (same_end e) self.old || same_end e end)) }
    {
        let Ok(_) = self.ends.insert(end) else {
            return Err(ListFault::NoMemory);
        };
        Ok(())
    }

    /// Puts the end there that the feature is.
    #[tactic(auto, using(crate::proofs::Paired::none_joined, crate::proofs::Paired::one_joined))]
    fn add_feature(&mut self, alloc: Global, feature: &DeclaredFeature) -> Result<(), ListFault>
        ensures { OnOk result (JoinedEnd false self.old feature.now self.new) }
    {
        match &feature.opposite {
            None => Ok(()),
            Some(opposite) => self.add(OppositeEnd {
                name: feature.name.copy(alloc)?,
                kind: feature.kind.copy(alloc)?,
                opposite: opposite.copy(alloc)?,
            }),
        }
    }

    ghost use Rattle.std.specs.Prelude.{false};

    /// The same, where `only` is true of containments alone.
    #[tactic(auto, using(crate::proofs::Paired::uncounted, crate::proofs::Paired::counted))]
    fn add_counted(
        &mut self,
        alloc: Global,
        only: bool,
        feature: &DeclaredFeature,
    ) -> Result<(), ListFault>
        ensures { OnOk result (JoinedEnd only self.old feature.now self.new) }
    {
        if only && !feature.containment {
            return Ok(());
        }
        self.add_feature(alloc, feature)
    }

    /// The ends that these features are; where `only` is true, those that are containments.
    fn of(alloc: Global, only: bool, features: &[DeclaredFeature]) -> Result<EndSet, ListFault>
        ensures { IfOk result (AreEnds only features.now) }
    {
        let mut ends = EndSet::new(alloc);
        for feature in features {
            ends.add_counted(alloc, only, feature)?;
        }
        Ok(ends)
    }
}

/// The ends that a class declares, and those of them that are containments.
#[derive(Drop)]
pub struct Ends {
    pub all: EndSet,
    pub containers: EndSet,
}

#[tactic(auto, using(crate::proofs::Paired::both_ends))]
fn ends_of(alloc: Global, class: &DeclaredClass) -> Result<Ends, ListFault>
    ensures { IfOk result (AreEndsOf class.now.features) }
{
    let features = class.features.as_slice();
    Ok(Ends {
        all: EndSet::of(alloc, false, features)?,
        containers: EndSet::of(alloc, true, features)?,
    })
}

ghost use Rattle.qvt_meta_checks.specs.Ends.{AreEndsOf, AreAllEnds};

/// The ends that each class declares.
pub fn all_ends(alloc: Global, classes: &[DeclaredClass]) -> Result<Seq<Ends>, ListFault>
    ensures { IfOk result (AreAllEnds classes.now) }
{
    let mut all = Seq::new(alloc);
    for class in 0..classes.len() {
        all.push(ends_of(alloc, &classes[class])?)?;
    }
    Ok(all)
}
