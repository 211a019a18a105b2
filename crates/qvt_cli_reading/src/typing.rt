//! The types of a text.

ghost use Rattle.std.specs.Prelude.{◌≡◌, None, MatchOption};
ghost use Rattle.qvt_tree_types.specs.Module.{module_view};
ghost use Rattle.qvt_types.specs.Program.{program_view};
ghost use Rattle.qvt_outcome.specs.Steps.{GivesOrStops, IfFaultOf, IsFaultWith, RefusedOrNoMemory};
ghost use Rattle.qvt_cli_reading.specs.Typing.{refusal_in};
ghost use Rattle.qvt_work.specs.Typing.{typed_in};

use qvt_base::text::Text;
use qvt_metas::metas::Metas;
use qvt_outcome::fetch::refused;
use qvt_outcome::refusal::Refusal;
use qvt_outcome::stop::Stop;
use qvt_tree_types::module::Module;
use qvt_types::accepting::accept;
use qvt_types::fault::TypingFault;
use qvt_types::program::Program;
use qvt_types_data::refusal::{RefusalKind, TypingRefusal};
use std::alloc::Global;

/// The refusal that a fault tells, none where there was no memory.
fn refusal_in(fault: TypingFault) -> Option<TypingRefusal>
    ensures { result ≡ refusal_in fault }
{
    let (kind, place) = match fault {
        TypingFault::NoMemory => return None,
        TypingFault::UnknownMetamodel(place) => (RefusalKind::UnknownMetamodel, place),
        TypingFault::UnknownName(place) => (RefusalKind::UnknownName, place),
        TypingFault::UnknownType(place) => (RefusalKind::UnknownType, place),
        TypingFault::SameName(place) => (RefusalKind::SameName, place),
        TypingFault::Ambiguous(place) => (RefusalKind::Ambiguous, place),
        TypingFault::WrongType(place) => (RefusalKind::WrongType, place),
        TypingFault::WrongCount(place) => (RefusalKind::WrongCount, place),
        TypingFault::NotPure(place) => (RefusalKind::NotPure, place),
        TypingFault::LatePlace(place) => (RefusalKind::LatePlace, place),
        TypingFault::NotPlain(place) => (RefusalKind::NotPlain, place),
        TypingFault::ReuseCycle(place) => (RefusalKind::ReuseCycle, place),
        TypingFault::BadReuse(place) => (RefusalKind::BadReuse, place),
        TypingFault::BadOverride(place) => (RefusalKind::BadOverride, place),
        TypingFault::BadContext(place) => (RefusalKind::BadContext, place),
        TypingFault::BadTarget(place) => (RefusalKind::BadTarget, place),
        TypingFault::BadReturn(place) => (RefusalKind::BadReturn, place),
        TypingFault::BadExtent(place) => (RefusalKind::BadExtent, place),
        TypingFault::AbstractClass(place) => (RefusalKind::AbstractClass, place),
        TypingFault::ResultPlace(place) => (RefusalKind::ResultPlace, place),
        TypingFault::BadDisjunct(place) => (RefusalKind::BadDisjunct, place),
        TypingFault::ModelUse(place) => (RefusalKind::ModelUse, place),
        TypingFault::NoMain(place) => (RefusalKind::NoMain, place),
    };
    Some(TypingRefusal { kind, place })
}

/// The refusal of a text by the types of its parts.
fn typing_stop(alloc: Global, name: &Text, fault: TypingFault) -> Stop
    ensures stop { MatchOption (refusal_in fault) (result ≡ Stop.NoMemory) (λ why. RefusedOrNoMemory name.now (Refusal.Typing why) result) }
    ensures no_reads { IsFaultWith result (λ file. ⊥) }
{
    match refusal_in(fault) {
        None => Stop::NoMemory,
        Some(why) => refused(alloc, name, Refusal::Typing(why)),
    }
}

/// The program of a tree over the metamodels.
#[tactic(auto, unfolding(qvt_work::specs::Typing::typed_in))]
pub fn typed_in(alloc: Global, metas: &Metas, file: &Text, tree: &Module) -> Result<Program, Stop>
    requires { metas.now.element ≡ None }
    ensures no_reads { IfFaultOf result (λ file. ⊥) }
    ensures gives { GivesOrStops program_view result (typed_in metas.now file.now (module_view tree.now)) }
{
    match accept(alloc, tree, metas) {
        Ok(program) => Ok(program),
        Err(fault) => Err(typing_stop(alloc, file, fault)),
    }
}
