//! Each function does nothing: its contract is the law.

ghost use Rattle.qvt_program_inputs.specs.Law.{JobCanLoad};

use qvt_job::laws::{inputs_are_apart, parameters_have_names};
use qvt_program_laws::laws::models_are_declared;

/// The inputs of a job whose models are those of a transformation can be loaded for its program.
pub fn job_can_load()
    ensures { JobCanLoad }
{
    models_are_declared();
    inputs_are_apart();
    parameters_have_names();
}
