//! Each function does nothing: its contract is the law.

ghost use Rattle.qvt_job.specs.Names.{ModelsHaveNames};
ghost use Rattle.qvt_job.specs.Served.{InputsAreApart, ParametersHaveNames};

/// Each model of a job that is read has a name.
pub fn models_have_names()
    ensures { ModelsHaveNames }
{}

/// The inputs of a job that fits parameters are each for one of them, and no two for one.
pub fn inputs_are_apart()
    ensures { InputsAreApart }
{}

/// The parameters that a job of named models fits have names.
pub fn parameters_have_names()
    ensures { ParametersHaveNames }
{}
