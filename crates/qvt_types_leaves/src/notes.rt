//! Notes that are taken one after the other.

ghost use Rattle.std.specs.Prelude.{◌≡◌};
ghost use Rattle.qvt_types_laws.specs.Join.{next_note};

use qvt_base::seq::Seq;
use qvt_types_data::note::Note;
use std::marker::Model;

/// Notes that are taken from the first on. Contracts see the list of those that are left.
pub struct Notes {
    backwards: Vec<Note>,
}

impl Drop for Notes {
    fn drop(self) {
        let Notes { backwards } = self;
    }
}

impl Model for Notes {
    ghost use Rattle.std.specs.Coded.{codes};
    ghost use Rattle.std.specs.Prelude.{List, reverse};
    ghost use Rattle.qvt_types_data.specs.contracts.note.Note as note_row;
    ghost use Rattle.qvt_types_data.specs.declared.note.Note.{Note};

    ghost Value = { List Note };

    ghost coded = { Prim.hlevel (codes, note_row.the_row.coded) };

    ghost view = { λ n. reverse n.backwards.items };
}

impl Notes {
    pub fn new(notes: Seq<Note>) -> Notes
        ensures { result ≡ notes }
    {
        let mut backwards = notes.into_vec();
        backwards.reverse();
        Notes { backwards }
    }

    /// Takes the next note, a bare one where none is left.
    pub fn take(&mut self) -> Note
        ensures { next_note self.old ≡ (result, self.new) }
    {
        match self.backwards.pop() {
            None => Note::bare(),
            Some(note) => note,
        }
    }
}
