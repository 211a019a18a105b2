//! The laws of the inputs of a run. Each function does nothing: its contract is the law.

ghost use Rattle.qvt_run_laws.specs.Inputs.{MainKeepsInputs, RunsKeepInputs};

/// `main` changes no object of a model of direction in, in whatever state it ends (QVT 1.3, 8.2.1.5).
pub fn main_keeps_inputs()
    ensures { MainKeepsInputs }
{}

/// Neither does a run that has ended well, with its late entries carried out.
pub fn runs_keep_inputs()
    ensures { RunsKeepInputs }
{}
