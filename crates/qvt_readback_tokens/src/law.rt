ghost use Rattle.qvt_readback_tokens.specs.Law.{PrintedIsLexed};

/// Its clause is the law that the tokens of a printed text are those of its pieces, for each tree that is read from tokens
/// that texts can say. It does nothing.
pub fn printed_is_lexed()
    ensures { PrintedIsLexed }
{}
