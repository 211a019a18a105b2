//! What is ruled of a node of the tree by the types of its parts.

ghost use Rattle.std.specs.Prelude.{◌≡◌};
ghost use Rattle.qvt_types_data.specs.Notes as notes;

use crate::note::{Note, Reading};
use crate::refusal::RefusalKind;
use crate::ty::Ty;
use qvt_base::numbers::ExprNo;
use qvt_base::text::Text;

/// How a node is read, and its type, if it has one.
pub struct Read {
    pub reading: Reading,
    pub source: Option<Text>,
    pub wrap: bool,
    pub collect: bool,
    pub answer: Option<Ty>,
}

impl Drop for Read {
    fn drop(self) {
        let Read {
            reading,
            source,
            wrap,
            collect,
            answer,
        } = self;
    }
}

impl Read {
    /// A reading without an implicit source, a wrap or an implicit collect.
    pub fn plain(reading: Reading, answer: Option<Ty>) -> Read
        ensures { result ≡ notes.plain reading answer }
    {
        Read {
            reading,
            source: None,
            wrap: false,
            collect: false,
            answer,
        }
    }

    /// The same reading, with or without a wrap.
    pub fn wrapped(self, wrap: bool) -> Read
        ensures { result ≡ notes.wrapped wrap self }
    {
        let Read {
            reading,
            source,
            wrap: _,
            collect,
            answer,
        } = self;
        Read {
            reading,
            source,
            wrap,
            collect,
            answer,
        }
    }

    /// The same reading for each item of a collection, with the type of all answers.
    pub fn for_each_item(self, all: Option<Ty>) -> Read
        ensures { result ≡ notes.for_each_item all self }
    {
        let Read {
            reading,
            source,
            wrap,
            collect: _,
            answer: _,
        } = self;
        Read {
            reading,
            source,
            wrap,
            collect: true,
            answer: all,
        }
    }

    /// The note of an expression.
    pub fn noted(self, number: ExprNo) -> Note
        ensures { result ≡ notes.noted number self }
    {
        let Read {
            reading,
            source,
            wrap,
            collect,
            answer,
        } = self;
        Note {
            reading,
            source,
            wrap,
            collect,
            number: Some(number),
            answer,
        }
    }

    /// The note of a node that is no expression, and its type.
    pub fn marked(self) -> (Note, Option<Ty>)
        ensures { result ≡ (notes.marked self, self.answer) }
    {
        let Read {
            reading,
            source,
            wrap,
            collect,
            answer,
        } = self;
        let note = Note {
            reading,
            source,
            wrap,
            collect,
            number: None,
            answer: None,
        };
        (note, answer)
    }

    /// The type alone.
    pub fn into_answer(self) -> Option<Ty>
        ensures { result ≡ self.answer }
    {
        let Read {
            reading: _,
            source: _,
            wrap: _,
            collect: _,
            answer,
        } = self;
        answer
    }
}

/// What is ruled of a node whose parts are judged.
pub enum Ruling {
    Holds(Read),
    Fails(RefusalKind),
    /// A part has no type: neither has the node, and nothing is told.
    Silent,
}

impl Drop for Ruling {
    fn drop(self) {
        match self {
            Ruling::Holds(read) => {}
            Ruling::Fails(kind) => {}
            Ruling::Silent => {}
        }
    }
}

impl Ruling {
    /// The refusal that it tells, if any, and how the node is read then.
    pub fn told(self) -> (Option<RefusalKind>, Read)
        ensures { result ≡ notes.told self }
    {
        match self {
            Ruling::Holds(read) => (None, read),
            Ruling::Fails(kind) => (Some(kind), Read::plain(Reading::Nothing, None)),
            Ruling::Silent => (None, Read::plain(Reading::Nothing, None)),
        }
    }

    /// The same ruling, with or without a wrap where it holds.
    pub fn wrapped(self, wrap: bool) -> Ruling
        ensures { result ≡ notes.ruled_wrapped wrap self }
    {
        match self {
            Ruling::Holds(read) => Ruling::Holds(read.wrapped(wrap)),
            Ruling::Fails(kind) => Ruling::Fails(kind),
            Ruling::Silent => Ruling::Silent,
        }
    }

    /// The same ruling for each item of a collection where it holds, with the type of all answers.
    pub fn for_each_item(self, all: Option<Ty>) -> Ruling
        ensures { result ≡ notes.ruled_for_each_item all self }
    {
        match self {
            Ruling::Holds(read) => Ruling::Holds(read.for_each_item(all)),
            Ruling::Fails(kind) => Ruling::Fails(kind),
            Ruling::Silent => Ruling::Silent,
        }
    }
}
