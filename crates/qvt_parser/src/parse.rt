ghost use Rattle.std.specs.Prelude.{◌≡◌, ◌≢◌, ◌+◌, ◌<◌, ◌^◌, length, Ok, Err, IfOk, IfErr};
ghost use Rattle.qvt_tree_types.specs.Module.{ModuleTerm, module_view};
ghost use Rattle.qvt_language.specs.Tokens.{toks_of};
ghost use Rattle.qvt_language.specs.Module.{with_end};
ghost use Rattle.qvt_language.specs.Readers.{nowhere};
ghost use Rattle.qvt_language_rows.specs.Language.{Reads};
ghost use Rattle.qvt_parsed.specs.Parsing.{IsTransformation, IsFaultOf, IsReadAs};
ghost use Rattle.qvt_parsed.specs.Parsed.{parsed};
ghost use Rattle.qvt_parsed.specs.declared.fault.ParseFault.TheVariants as faults;

use qvt_base::numbers::Place;
use qvt_language::token::SyntaxToken;
use qvt_language_rows::law::answers;
use qvt_parsed::fault::ParseFault;
use qvt_parsed::law::parsing;
use qvt_parser_grammar::cursor::{ParseError, Parser};
use qvt_parser_tokens::depth::deep;
use qvt_parser_tokens::text::{read, strings};
use qvt_parser_units::units::transformation;
use qvt_tree_types::module::Module;
use std::alloc::Global;

/// The transformation of these tokens, after which `end` stands. They are not too deep.
fn read_tokens<'a>(
    alloc: Global,
    tokens: &'a [SyntaxToken<'a>],
    end: Place,
) -> Result<Module, ParseFault>
    ensures read { IsReadAs (toks_of tokens.entry.now) end result }
    ensures one { IfOk result (λ m. (other : ModuleTerm) → Reads (toks_of tokens.entry.now) other → other ≡ with_end nowhere (module_view m)) }
{
    answers();
    let room = tokens.len();
    let mut parser = Parser::new(alloc, tokens);
    match transformation(&mut parser, room) {
        Ok(mut module) => {
            if parser.is_empty() {
                module.end = end;
                Ok(module)
            } else {
                Err(ParseFault::Syntax(parser.place_or(end)))
            }
        }
        Err(ParseError::NoMemory) => Err(ParseFault::NoMemory),
        Err(ParseError::Syntax) => Err(ParseFault::Syntax(parser.place_or(end))),
    }
}

/// The transformation that the text is, or its first fault.
fn parse_text(alloc: Global, text: &str) -> Result<Module, ParseFault>
    requires { length text.now + 1 < 2 ^ 32 }
    ensures tree { IfOk result (λ m. IsTransformation text.now (module_view m)) }
    ensures one { IfOk result (λ m. (other : ModuleTerm) → IsTransformation text.now other → other ≡ module_view m) }
    ensures fault { IfErr result (IsFaultOf text.now) }
    ensures no_tree { IfErr result (λ fault. fault ≢ faults.NoMemory → (other : ModuleTerm) → IsTransformation text.now other → ⊥) }
{
    let strings = strings(alloc, text)?;
    let lexed = read(alloc, text, strings.as_slice())?;
    match deep(alloc, lexed.tokens.as_slice()) {
        Ok(None) => read_tokens(alloc, lexed.tokens.as_slice(), lexed.end),
        Ok(Some(place)) => Err(ParseFault::TooDeep(place)),
        Err(_) => Err(ParseFault::NoMemory),
    }
}

/// The transformation that the text is (QVT 1.3, 8.4), with each place in the text. The text has
/// fewer than 2^32 - 1 bytes.
pub fn parse(alloc: Global, text: &str) -> Result<Module, ParseFault>
    requires { length text.now + 1 < 2 ^ 32 }
    ensures parsed { IfOk result (λ m. parsed text.now ≡ Ok (module_view m)) }
    ensures refused { IfErr result (λ fault. fault ≢ faults.NoMemory → parsed text.now ≡ Err fault) }
    ensures tree { IfOk result (λ m. IsTransformation text.now (module_view m)) }
    ensures one { IfOk result (λ m. (other : ModuleTerm) → IsTransformation text.now other → other ≡ module_view m) }
    ensures fault { IfErr result (IsFaultOf text.now) }
    ensures no_tree { IfErr result (λ fault. fault ≢ faults.NoMemory → (other : ModuleTerm) → IsTransformation text.now other → ⊥) }
{
    parsing();
    parse_text(alloc, text)
}
