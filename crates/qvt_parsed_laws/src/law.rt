ghost use Rattle.qvt_parsed_laws.specs.Tree.{LiesInText};
ghost use Rattle.qvt_parsed_laws.specs.Written.{SimpleGoOn};
ghost use Rattle.qvt_parsed_laws.specs.Fault.{FaultIsFirst};

/// Its clause is the law of a transformation in its text: at most two nodes a byte, so that 32 bits
/// number them, names and texts that are those of tokens and no longer than the text, and places of
/// nodes that do not fall. It does nothing.
pub fn tree()
    ensures { LiesInText }
{}

/// Its clause is the law that the first tokens of a text, with tokens after them that say as little as
/// they can, are the tokens of some text. It does nothing.
pub fn written()
    ensures { SimpleGoOn }
{}

/// Its clause is the law of a syntax fault: its place is that of the first token such that no text of
/// the language has the same tokens up to and including it, or the end. It does nothing.
pub fn fault()
    ensures { FaultIsFirst }
{}
