//! The command `check`: whether the model of a file conforms to the metamodel of another.

ghost use Rattle.std.specs.Prelude.{◌≡◌, ◌<◌, [], IfOk, IfErr, length};
ghost use Rattle.qvt_work.specs.Check.{after_metamodel, check_of};
ghost use Rattle.qvt_outcome.specs.Outcome.{done, conforms_line};
ghost use Rattle.qvt_outcome.specs.Plans.{outcome_of, HaveFaultLines};
ghost use Rattle.qvt_outcome.specs.Follows.{Follows};

use crate::metas::read_metamodel;
use qvt_base::outside::Files;
use qvt_base::seq::Seq;
use qvt_base::text::Text;
use qvt_inputs::conforming::read_conforming;
use qvt_metas::metas::Metas;
use qvt_outcome::plan::Plan;
use qvt_outcome::report::conforms_line;
use qvt_outcome::stop::Stop;
use std::alloc::Global;

/// The plan of a model that conforms.
fn plan_of(alloc: Global, objects: usize) -> Result<Plan, Stop>
    ensures plan { IfOk result (λ p. outcome_of p ≡ done [] (conforms_line objects)) }
    ensures ready { IfOk result (λ p. HaveFaultLines p.outputs) }
    ensures memory { IfErr result (λ stop. stop ≡ Stop.NoMemory) }
{
    match conforms_line(alloc, objects) {
        Err(_) => Err(Stop::NoMemory),
        Ok(line) => Ok(Plan {
            outputs: Seq::new(alloc),
            line,
        }),
    }
}

/// Reads the model, and checks it.
fn check_model<F: Files>(
    alloc: Global,
    files: &mut F,
    model: &Text,
    metas: &Metas,
) -> Result<Plan, Stop>
    requires one { 0 < length metas.now.metamodels }
    ensures follows { Follows outcome_of (after_metamodel model.now metas.now) (F.seen files.old) result (F.seen files.new) }
    ensures ready { IfOk result (λ p. HaveFaultLines p.outputs) }
{
    match read_conforming(alloc, files, metas, 0, 0, model) {
        Err(stop) => Err(stop),
        Ok(read) => plan_of(alloc, read.objects.len()),
    }
}

/// Reads a metamodel and a model, and tells whether the model conforms.
pub fn perform_check<F: Files>(
    alloc: Global,
    files: &mut F,
    metamodel: &Text,
    model: &Text,
) -> Result<Plan, Stop>
    ensures follows { Follows outcome_of (check_of metamodel.now model.now) (F.seen files.old) result (F.seen files.new) }
    ensures ready { IfOk result (λ p. HaveFaultLines p.outputs) }
{
    let mut metas = Metas::new(alloc);
    match read_metamodel(alloc, files, &mut metas, metamodel) {
        Err(stop) => Err(stop),
        Ok(()) => check_model(alloc, files, model, &metas),
    }
}
