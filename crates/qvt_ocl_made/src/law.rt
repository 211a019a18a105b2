//! The laws of values as made. Each function does nothing: its contract is the law.

ghost use Rattle.qvt_ocl_made.specs.Law.{CollectionIsAsMade, MadeIsAsMade, AnswerIsAsMade};

/// A collection is as made exactly where its list is made of itself and its items are as made.
pub fn collection_is_as_made()
    ensures { CollectionIsAsMade }
{}

/// A collection that is made of items as made is as made. So `make` answers values as made.
pub fn made_is_as_made()
    ensures { MadeIsAsMade }
{}

/// What an operation gives of operands as made is as made.
pub fn answer_is_as_made()
    ensures { AnswerIsAsMade }
{}
