//! The store in which a run of a program begins.

ghost use Rattle.std.specs.Prelude.{◌≡◌, IfErr, IfOk};
ghost use Rattle.qvt_store.specs.Contents.{AreNamed};
ghost use Rattle.qvt_store.specs.Sound.{Sound};
ghost use Rattle.qvt_types_program.specs.Extents.{extents};
ghost use Rattle.qvt_types_program.specs.Program.{program_view};
ghost use Rattle.qvt_outcome.specs.Follows.{Follows};
ghost use Rattle.qvt_inputs.specs.Inputs.{IsLoaded};
ghost use Rattle.qvt_program_inputs.specs.Start.{start_of, program_inputs, CanLoad};

use qvt_base::outside::Files;
use qvt_inputs::inputs::read_inputs;
use qvt_inputs::loaded::Loaded;
use qvt_job::job::JobModel;
use qvt_outcome::stop::Stop;
use qvt_store::store::Store;
use qvt_types_program::extents::extents;
use qvt_types_program::program::Program;
use std::alloc::Global;

/// The store of a program without objects.
pub fn start_of(alloc: Global, program: &Program) -> Result<Store, Stop>
    requires { AreNamed (program_view program.now).heads.metas (extents (program_view program.now)) }
    ensures store { IfOk result (λ store. store ≡ start_of (program_view program.now)) }
    ensures sound { IfOk result Sound }
    ensures memory { IfErr result (λ stop. stop ≡ Stop.NoMemory) }
{
    let extents = extents(alloc, program)?;
    match Store::new(alloc, program.metas(), &extents) {
        Ok(store) => Ok(store),
        Err(_) => Err(Stop::NoMemory),
    }
}

/// The store of a program with the inputs of a job, read in order and loaded each into the extent of its model parameter.
pub fn read_program_inputs<F: Files>(
    alloc: Global,
    files: &mut F,
    program: &Program,
    inputs: &[JobModel],
) -> Result<Loaded, Stop>
    requires { CanLoad (program_view program.now) inputs.now }
    ensures follows { Follows (λ l. l) (program_inputs (program_view program.now) inputs.now) (F.seen files.old) result (F.seen files.new) }
    ensures loaded { IfOk result (λ l. IsLoaded (start_of (program_view program.now)) l) }
{
    match start_of(alloc, program) {
        Err(stop) => Err(stop),
        Ok(store) => read_inputs(alloc, files, store, inputs),
    }
}
