//! Costs.

ghost use Rattle.std.specs.Prelude.{◌≡◌, ◌+◌, min, nat_lt, OnOk, OnErr};

use qvt_base::list_fault::ListFault;
use qvt_base::seq::Seq;
use std::alloc::Global;
use std::marker::Model;

/// A number of units that contracts see as the number, however large it is.
pub struct Cost {
    low: u64,
    /// One for each time that `low` passed the greatest number of 64 bits.
    laps: Seq<u8>,
}

impl Drop for Cost {
    fn drop(self) {
        let Cost { low, laps } = self;
    }
}

impl Model for Cost {
    ghost use Rattle.std.specs.Prelude.{ℕ, ◌+◌, ◌*◌, ◌^◌, length};

    ghost Value = { ℕ };

    ghost view = { λ c. c.low + length c.laps * 2 ^ 64 };
}

impl Cost {
    /// No units. It takes no memory.
    pub fn new(alloc: Global) -> Cost
        ensures { result ≡ 0 }
    {
        Cost {
            low: 0,
            laps: Seq::new(alloc),
        }
    }

    /// So many units more. A refused call changes nothing.
    pub fn add(&mut self, units: u64) -> Result<(), ListFault>
        ensures ok { OnOk result (self.new ≡ self.old + units) }
        ensures err { OnErr result (self.new ≡ self.old) }
    {
        let (low, passes) = self.low.overflowing_add(units);
        if passes {
            self.laps.push(0)?;
        }
        self.low = low;
        Ok(())
    }

    /// Whether so many units more are above the limit.
    pub fn passes(&self, units: u64, limit: u64) -> bool
        ensures { result ≡ nat_lt limit (self.now + units) }
    {
        if !self.laps.is_empty() {
            return true;
        }
        match self.low.checked_add(units) {
            None => true,
            Some(sum) => limit < sum,
        }
    }

    /// The number, or the greatest one of 64 bits where it is above that.
    pub fn told(&self) -> u64
        ensures { result ≡ min self.now u64.MAX }
    {
        let low = self.low;
        if self.laps.is_empty() { low } else { u64::MAX }
    }
}
