use qvt_base::list_fault::ListFault;
use qvt_base::numbers::Place;
use qvt_lexer::token::LexFault;
use qvt_parser_tokens::text::TextFault;

/// Why a text is no transformation. Where several apply, it is the first of `Lex`, `TooDeep` and
/// `Syntax`.
#[derive(Clone, Copy, Debug, PartialEq, Eq)]
pub enum ParseFault {
    /// There was no memory.
    NoMemory,
    /// No token begins at a place of the text.
    Lex(LexFault),
    /// The first token that leaves more than 64 items open: brackets, and `if`s that begin no
    /// statement.
    TooDeep(Place),
    /// The first token such that no transformation has the same tokens up to and including it, or
    /// the end.
    Syntax(Place),
}

impl From<ListFault> for ParseFault {
    ghost use Rattle.std.specs.Prelude.{◌≡◌};
    ghost use Rattle.qvt_parsed.specs.declared.fault.ParseFault.TheVariants.{NoMemory};

    ghost from_gives = { λ _ e. e ≡ NoMemory };

    fn from(_: ListFault) -> ParseFault {
        ParseFault::NoMemory
    }
}

impl From<TextFault> for ParseFault {
    ghost use Rattle.std.specs.Prelude.{◌≡◌};
    ghost use Rattle.qvt_parsed.specs.Parsing.{fault_of};

    ghost from_gives = { λ f e. e ≡ fault_of f };

    fn from(fault: TextFault) -> ParseFault {
        match fault {
            TextFault::NoMemory => ParseFault::NoMemory,
            TextFault::Lex(fault) => ParseFault::Lex(fault),
        }
    }
}
