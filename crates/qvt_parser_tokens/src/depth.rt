ghost use Rattle.std.specs.Prelude.{◌≡◌, ◌∷◌, reverse, IfOk, OnOk};
ghost use Rattle.qvt_language.specs.Tokens.{toks_of};
ghost use Rattle.qvt_parser_tokens.specs.Depth as depth;

use qvt_base::list_fault::ListFault;
use qvt_base::numbers::Place;
use qvt_base::seq::Seq;
use qvt_language::class::Class;
use qvt_language::token::SyntaxToken;
use std::alloc::Global;

/// What stands open at a place.
#[derive(Clone, Copy, Debug, PartialEq, Eq)]
pub enum Open {
    Bracket,
    Conditional,
}

/// How many items may be open inside each other.
const MOST_OPEN: usize = 64;

/// Takes items away through the last bracket.
#[tactic(auto, using(crate::proofs::Depths::last_first))]
fn close(items: &mut Seq<Open>)
    ensures { reverse items.new ≡ depth.closed (reverse items.old) }
{
    while let Some(Open::Conditional) = items.pop() {}
}

/// Takes the last item away if it is a conditional.
#[tactic(auto, using(crate::proofs::Depths::last_first))]
fn end(items: &mut Seq<Open>)
    ensures { reverse items.new ≡ depth.ended (reverse items.old) }
{
    let count = items.len();
    if count > 0 && items.as_slice()[count - 1] == Open::Conditional {
        items.pop();
    }
}

/// Whether an `if` after a token of the class begins a statement.
fn begins_statement(class: Class) -> bool
    ensures { result ≡ depth.begins_statement class }
{
    match class {
        Class::OpenBrace => true,
        Class::CloseBrace => true,
        Class::Semicolon => true,
        _ => false,
    }
}

/// Puts an item after the others.
#[tactic(auto, using(crate::proofs::Depths::last_first))]
fn add(items: &mut Seq<Open>, item: Open) -> Result<(), ListFault>
    ensures { OnOk result (reverse items.new ≡ item ∷ reverse items.old) }
{
    items.push(item)
}

/// What is open after one more token, where `fresh` tells that a statement may begin with it.
fn step(items: &mut Seq<Open>, fresh: bool, class: Class) -> Result<(), ListFault>
    ensures { OnOk result (reverse items.new ≡ depth.after fresh (reverse items.old) class) }
{
    match class {
        Class::OpenRound => add(items, Open::Bracket),
        Class::OpenBrace => add(items, Open::Bracket),
        Class::CloseRound => {
            close(items);
            Ok(())
        }
        Class::CloseBrace => {
            close(items);
            Ok(())
        }
        Class::EndifWord => {
            end(items);
            Ok(())
        }
        Class::IfWord => {
            if fresh {
                return Ok(());
            }
            add(items, Open::Conditional)
        }
        _ => Ok(()),
    }
}

/// The place of the first token that leaves more items open than may be.
pub fn deep(alloc: Global, tokens: &[SyntaxToken<'_>]) -> Result<Option<Place>, ListFault>
    ensures { IfOk result (λ place. place ≡ depth.deep (toks_of tokens.now)) }
{
    let mut items = Seq::new(alloc);
    let mut fresh = false;
    for token in tokens {
        step(&mut items, fresh, token.class)?;
        if items.len() > MOST_OPEN {
            return Ok(Some(token.place));
        }
        fresh = begins_statement(token.class);
    }
    Ok(None)
}
