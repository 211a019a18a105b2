//! The text of a transformation, from a file's bytes to its tree.

ghost use Rattle.std.specs.Prelude.{◌≤◌, ◌+◌, ◌<◌, ◌^◌, length};
ghost use Rattle.qvt_tree_types.specs.Module.{module_view};
ghost use Rattle.qvt_parsed.specs.Parsed.{parsed};
ghost use Rattle.qvt_work.specs.Source.{tree_in};
ghost use Rattle.qvt_outcome.specs.Steps.{GivesOrStops, IfFaultOf, IsFaultWith, StopsBy, or_refused};

use qvt_base::text::Text;
use qvt_outcome::fetch::refused;
use qvt_outcome::refusal::Refusal;
use qvt_outcome::stop::Stop;
use qvt_parsed::fault::ParseFault;
use qvt_parser::parse::parse;
use qvt_tree_types::module::Module;
use std::alloc::Global;
use std::str;

/// The refusal of a text.
fn parse_stop(alloc: Global, name: &Text, why: ParseFault) -> Stop
    ensures stop { StopsBy ParseFault.NoMemory Refusal.Parse name.now why result }
    ensures no_reads { IsFaultWith result (λ file. ⊥) }
{
    match why {
        ParseFault::NoMemory => Stop::NoMemory,
        why => refused(alloc, name, Refusal::Parse(why)),
    }
}

/// The tree of a text.
fn tree_of(alloc: Global, name: &Text, text: &str) -> Result<Module, Stop>
    requires { length text.now + 1 < 2 ^ 32 }
    ensures no_reads { IfFaultOf result (λ file. ⊥) }
    ensures gives { GivesOrStops module_view result (or_refused Refusal.Parse name.now (parsed text.now)) }
{
    match parse(alloc, text) {
        Err(why) => Err(parse_stop(alloc, name, why)),
        Ok(tree) => Ok(tree),
    }
}

/// The tree of a file's bytes, which are within the limit of a text.
#[tactic(auto, unfolding(qvt_work::specs::Source::tree_in))]
pub fn tree_in(alloc: Global, name: &Text, bytes: &[u8]) -> Result<Module, Stop>
    requires { length bytes.now ≤ 262144 }
    ensures no_reads { IfFaultOf result (λ file. ⊥) }
    ensures gives { GivesOrStops module_view result (tree_in name.now bytes.now) }
{
    match str::from_utf8(bytes) {
        Err(_) => Err(refused(alloc, name, Refusal::Utf8)),
        Ok(text) => tree_of(alloc, name, text),
    }
}
