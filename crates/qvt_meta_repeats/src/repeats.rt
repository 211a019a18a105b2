ghost use Rattle.std.specs.Prelude.{◌≡◌, [], map, position, slice_index_or, IfOk};
ghost use Rattle.qvt_metamodel.specs.Lists.{all_lists};
ghost use Rattle.qvt_meta_repeats.specs.Flags.{number_flags};

use crate::line_flags::{LineFlags, all_line_flags};
use qvt_base::list_fault::ListFault;
use qvt_metamodel::lists::FeatureLists;
use std::alloc::Global;
use std::marker::Model;

/// Which features of classes have a name that an earlier feature of their class has. It is told once
/// for all classes that go on from one another.
pub struct Repeats<'a> {
    lists: &'a FeatureLists,
    lines: Vec<LineFlags>,
}

impl Drop for Repeats<'_> {
    fn drop(self) {
        let Repeats { lists, lines } = self;
    }
}

impl<'a> Model for Repeats<'a> {
    ghost use Rattle.std.specs.Prelude.{List, Bool, map};
    ghost use Rattle.qvt_meta_repeats.specs.Flags.{front_flags, AreFlagged};

    ghost Value = { List (List Bool) };

    ghost view = { λ r. map (front_flags r.lines.items) r.lists.now.fronts };

    ghost invariant = { λ r. AreFlagged r.lists.now.lines r.lines.items };
}

impl<'a> Repeats<'a> {
    /// Those of these lists, by a number for the name of each feature.
    pub fn new(
        alloc: Global,
        numbers: &[u32],
        lists: &'a FeatureLists,
    ) -> Result<Repeats<'a>, ListFault>
        ensures { IfOk result (λ r. r ≡ map (number_flags numbers.now) (all_lists lists.now)) }
    {
        let lines = all_line_flags(alloc, numbers, lists)?;
        Ok(Repeats { lists, lines })
    }

    /// For each feature of a class whether an earlier one has its name.
    pub fn flags(&self, class: usize) -> &[bool]
        ensures { result.now ≡ slice_index_or self.now class [] }
    {
        match self.lists.front(class) {
            None => &[],
            Some(front) => {
                let (flags, _) = self.lines[front.line].flags().split_at(front.count);
                flags
            }
        }
    }

    /// The first place of a feature of a class whose name an earlier one has.
    pub fn first(&self, class: usize) -> Option<usize>
        ensures { result ≡ position (λ b. b) (slice_index_or self.now class []) }
    {
        let Some(front) = self.lists.front(class) else {
            return None;
        };
        self.lines[front.line].first_below(front.count)
    }
}
