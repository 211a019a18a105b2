//! Costs that are held to the fuel.

ghost use Rattle.std.specs.Prelude.{◌≡◌, ◌+◌, nat_lt, ℕ, IfOk};
ghost use Rattle.qvt_exec_answers.specs.Room.{IsSum, told};

use qvt_base::list_fault::ListFault;
use qvt_exec_state::cost::Cost;

/// What was spent so far, and the fuel.
#[derive(Clone, Copy)]
pub struct Room<'c> {
    pub spent: &'c Cost,
    pub fuel: u64,
}

impl Room<'_> {
    /// Whether so many units more are above the fuel.
    pub fn passes(&self, units: u64) -> bool
        ensures { result ≡ nat_lt self.now.fuel (self.now.spent.now + units) }
    {
        self.spent.passes(units, self.fuel)
    }

    /// The sum of two costs, if it is within the fuel, where a cost beyond 64 bits is told as the greatest number
    /// of 64 bits. No fuel but that number has room for such a sum; there it is told as want of memory.
    pub fn sum(&self, cost: u64, more: u64) -> Result<Option<u64>, ListFault>
        ensures { (n : ℕ) → more ≡ told n → IfOk result (IsSum self.now.fuel self.now.spent.now (cost + n)) }
    {
        let sum = cost.saturating_add(more);
        if self.passes(sum) {
            return Ok(None);
        }
        if sum == u64::MAX {
            return Err(ListFault::NoMemory);
        }
        Ok(Some(sum))
    }
}
