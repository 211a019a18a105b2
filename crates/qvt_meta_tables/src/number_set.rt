ghost use Rattle.std.specs.Prelude.{◌≡◌, ◌<◌, ℕ, false, ◌==◌, ◌||◌, length, slice_index_or, OnErr, OnOk};
ghost use Rattle.qvt_meta_tables.specs.NumberSets.{has_number};

use qvt_base::list_fault::ListFault;
use qvt_base::seq::Seq;
use std::alloc::Global;
use std::marker::Model;

/// A set of numbers that is emptied at once: a number is there where it has the mark of this turn.
#[derive(Drop)]
pub struct MarkedNumbers {
    marks: Seq<u32>,
    turn: u32,
}

impl Model for MarkedNumbers {
    ghost use Rattle.std.specs.Prelude.{List, ℕ};
    ghost use Rattle.qvt_meta_tables.specs.NumberSets.{AreTurns};

    ghost Value = { List ℕ × ℕ };

    ghost view = { λ s. (s.marks, s.turn) };

    ghost invariant = { λ s. AreTurns s.marks s.turn };
}

impl MarkedNumbers {
    /// No numbers. It takes no memory.
    pub fn new(alloc: Global) -> MarkedNumbers
        ensures { (n : ℕ) → has_number result n ≡ false }
    {
        MarkedNumbers {
            marks: Seq::new(alloc),
            turn: 1,
        }
    }

    /// Whether the number is there.
    pub fn has(&self, number: u32) -> bool
        ensures { result ≡ has_number self.now number }
    {
        let at = number as usize;
        at < self.marks.len() && self.marks.as_slice()[at] == self.turn
    }

    /// Puts a number there. It takes memory for each number up to this one. A refused call takes no
    /// number away and puts none there.
    pub fn put(&mut self, number: u32) -> Result<(), ListFault>
        ensures ok { OnOk result ((n : ℕ) → has_number self.new n ≡ (has_number self.old n || (number == n))) }
        ensures err { OnErr result ((n : ℕ) → has_number self.new n ≡ has_number self.old n) }
    {
        if number as usize >= self.marks.len() {
            self.reach(number)?;
        }
        self.marks.set(number as usize, self.turn);
        Ok(())
    }

    /// Has a mark for each number up to this one.
    #[inline(never)]
    fn reach(&mut self, number: u32) -> Result<(), ListFault>
        ensures marks { OnOk result (number < length self.new.0) }
        ensures same { (n : ℕ) → slice_index_or self.new.0 n 0 ≡ slice_index_or self.old.0 n 0 }
        ensures turn { self.new.1 ≡ self.old.1 }
    {
        for at in self.marks.len()..number as usize + 1 {
            self.marks.push(0)?;
        }
        Ok(())
    }

    /// Takes all numbers away. It takes no memory.
    pub fn clear(&mut self)
        ensures { (n : ℕ) → has_number self.new n ≡ false }
    {
        if self.turn == u32::MAX {
            self.marks.truncate(0);
            self.turn = 0;
        }
        self.turn += 1;
    }
}
