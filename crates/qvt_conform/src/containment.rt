//! The containment of a model: what each object contains, how often each is contained, and which are inside themselves.

ghost use Rattle.std.specs.Prelude.{◌≡◌, ◌<◌, length, IfOk};
ghost use Rattle.qvt_conform.specs.declared.fault.ConformFault.TheVariants.{NoMemory};
ghost use Rattle.qvt_conform.specs.Conformance.{containment_fault};
ghost use Rattle.qvt_conform.specs.Containment.{contents};
ghost use Rattle.qvt_conform.specs.Results.{TellsFault};

use crate::contents::contents;
use crate::fault::ConformFault;
use qvt_base::copied::Copied;
use qvt_base::list_fault::ListFault;
use qvt_base::seq::Seq;
use qvt_cycle::counts::{count_lists, zeros};
use qvt_cycle::cycles::Cycles;
use qvt_cycle::lists::Positions;
use qvt_metas::metas::Metas;
use qvt_model::data::ObjectData;
use std::alloc::Global;

pub struct Containment {
    contents: Seq<Positions>,
    counts: Vec<u32>,
    cycles: Cycles,
}

impl Drop for Containment {
    fn drop(self) {
        let Containment {
            contents,
            counts,
            cycles,
        } = self;
    }
}

impl Containment {
    ghost use Rattle.qvt_conform.specs.Contained.{IsContainment};

    /// The containment of a model.
    pub fn of(
        alloc: Global,
        metas: &Metas,
        objects: &[ObjectData],
    ) -> Result<Containment, ListFault>
        ensures { IfOk result (IsContainment (contents metas.now objects.now)) }
    {
        let contents = contents(alloc, metas, objects)?;
        let mut counts = zeros(alloc, contents.as_slice())?;
        count_lists(&mut counts, contents.as_slice());
        let cycles = Cycles::new(alloc, contents.as_slice())?;
        Ok(Containment {
            contents,
            counts,
            cycles,
        })
    }

    /// Whether the object stands in containment slots more than once.
    #[tactic(auto, using(crate::proofs::Twice::counts_long, crate::proofs::Twice::counts_above))]
    fn is_twice(&self, place: u32) -> bool
        requires containment { IsContainment self.now.contents self.now }
        requires there { place < length self.now.contents }
        ensures { result ≡ nat_lt 1 (how_often_in self.now.contents place) }
    {
        self.counts[place as usize] > 1
    }

    ghost use Rattle.std.specs.Prelude.{nat_lt};
    ghost use Rattle.qvt_cycle.specs.Successors.{how_often_in};

    /// The fault of an object's containment.
    #[tactic(auto, unfolding(crate::specs::Conformance::containment_fault))]
    pub fn fault(&self, alloc: Global, place: u32, object: &ObjectData) -> Result<(), ConformFault>
        requires containment { IsContainment self.now.contents self.now }
        requires there { place < length self.now.contents }
        ensures { TellsFault NoMemory result (containment_fault self.now.contents place object.now) }
    {
        if self.is_twice(place) {
            return Err(ConformFault::TwoContainers(object.id.copy(alloc)?));
        }
        if self
            .cycles
            .is_on_cycle(alloc, self.contents.as_slice(), place)?
        {
            return Err(ConformFault::ContainmentCycle(object.id.copy(alloc)?));
        }
        Ok(())
    }
}
