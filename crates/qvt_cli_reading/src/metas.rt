//! The metamodels of files, in order.

ghost use Rattle.std.specs.Prelude.{◌≡◌, ◌≢◌, ◌<◌, [], None, IfOk, OnOk, length};
ghost use Rattle.qvt_outcome.specs.Follows.{Follows};
ghost use Rattle.qvt_outcome.specs.Steps.{GivesOrStops, IfFaultOf, IsFaultWith, StopsBy, or_refused};
ghost use Rattle.qvt_work.specs.Metas.{with_metamodel, metas_in, metamodel_read, metamodels_read};
ghost use Rattle.qvt_program_inputs.specs.Law.{AreAllNamed};

use qvt_base::outside::Files;
use qvt_base::text::Text;
use qvt_meta::law::meta_has_name;
use qvt_meta::meta::{Meta, read_meta};
use qvt_metas::fault::{MetaFault, MetasFault};
use qvt_metas::metas::Metas;
use qvt_outcome::fetch::{fetch, refused};
use qvt_outcome::refusal::Refusal;
use qvt_outcome::stop::Stop;
use std::alloc::Global;

/// The refusal of a metamodel's file.
fn meta_stop(alloc: Global, name: &Text, why: MetaFault) -> Stop
    ensures stop { StopsBy MetaFault.NoMemory Refusal.Metamodel name.now why result }
    ensures no_reads { IsFaultWith result (λ file. ⊥) }
{
    match &why {
        MetaFault::NoMemory => Stop::NoMemory,
        _ => refused(alloc, name, Refusal::Metamodel(why)),
    }
}

/// The refusal of a metamodel that does not go with those before it.
fn metas_stop(alloc: Global, name: &Text, why: MetasFault) -> Stop
    ensures stop { StopsBy MetasFault.NoMemory Refusal.Metamodels name.now why result }
    ensures no_reads { IsFaultWith result (λ file. ⊥) }
{
    match &why {
        MetasFault::NoMemory => Stop::NoMemory,
        _ => refused(alloc, name, Refusal::Metamodels(why)),
    }
}

/// Adds the metamodel of a file. That its numbers do not fit, as no files within their limits have
/// it, is want of memory.
fn add_metamodel(alloc: Global, metas: &mut Metas, name: &Text, meta: Meta) -> Result<(), Stop>
    ensures no_reads { IfFaultOf result (λ file. ⊥) }
    ensures gives { GivesOrStops (λ _. metas.new) result (or_refused Refusal.Metamodels name.now (with_metamodel metas.old meta)) }
    ensures some { OnOk result (0 < length metas.new.metamodels) }
    ensures element { OnOk result (metas.new.element ≡ metas.old.element) }
    ensures named { meta.name ≢ [] → AreAllNamed metas.old → OnOk result (AreAllNamed metas.new) }
{
    if !metas.has_room(&meta) {
        return Err(Stop::NoMemory);
    }
    match metas.add(meta) {
        Err(why) => Err(metas_stop(alloc, name, why)),
        Ok(()) => Ok(()),
    }
}

/// Adds the metamodel of a file's bytes.
#[tactic(auto, unfolding(qvt_work::specs::Metas::metas_in))]
fn add_bytes(alloc: Global, metas: &mut Metas, name: &Text, bytes: &[u8]) -> Result<(), Stop>
    ensures no_reads { IfFaultOf result (λ file. ⊥) }
    ensures gives { GivesOrStops (λ _. metas.new) result (metas_in metas.old name.now bytes.now) }
    ensures some { OnOk result (0 < length metas.new.metamodels) }
    ensures element { OnOk result (metas.new.element ≡ metas.old.element) }
    ensures named { AreAllNamed metas.old → OnOk result (AreAllNamed metas.new) }
{
    meta_has_name();
    match read_meta(alloc, bytes) {
        Err(why) => Err(meta_stop(alloc, name, why)),
        Ok(meta) => add_metamodel(alloc, metas, name, meta),
    }
}

/// Reads a metamodel, and adds it.
pub fn read_metamodel<F: Files>(
    alloc: Global,
    files: &mut F,
    metas: &mut Metas,
    name: &Text,
) -> Result<(), Stop>
    ensures follows { Follows (λ _. metas.new) (metamodel_read metas.old name.now) (F.seen files.old) result (F.seen files.new) }
    ensures some { OnOk result (0 < length metas.new.metamodels) }
    ensures element { OnOk result (metas.new.element ≡ metas.old.element) }
    ensures named { AreAllNamed metas.old → OnOk result (AreAllNamed metas.new) }
{
    match fetch(alloc, files, name, 1_048_576) {
        Err(stop) => Err(stop),
        Ok(bytes) => add_bytes(alloc, metas, name, bytes.as_slice()),
    }
}

/// Reads the metamodels of these files, in order.
pub fn read_metamodels<F: Files>(
    alloc: Global,
    files: &mut F,
    names: &[Text],
) -> Result<Metas, Stop>
    ensures follows { Follows (λ metas. metas) (metamodels_read names.now) (F.seen files.old) result (F.seen files.new) }
    ensures element { IfOk result (λ metas. metas.element ≡ None) }
    ensures named { IfOk result (λ metas. AreAllNamed metas) }
{
    let mut metas = Metas::new(alloc);
    for name in names {
        match read_metamodel(alloc, files, &mut metas, name) {
            Err(stop) => return Err(stop),
            Ok(()) => {}
        }
    }
    Ok(metas)
}
