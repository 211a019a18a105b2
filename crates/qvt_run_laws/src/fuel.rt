//! The laws of the fuel. Each function does nothing: its contract is the law.

ghost use Rattle.qvt_meaning.specs.Laws.{ExactCost};
ghost use Rattle.qvt_run_laws.specs.Fuel.{CostIsTold, DoneIsExact, FuelIsExact, MainIsExact, TurnsAreNoBound};

/// A run ends out of fuel with exactly the fuels that its cost is above, and with every other fuel it ends the same.
pub fn fuel_is_exact()
    ensures { FuelIsExact }
{}

/// The cost of a run that has ended well is the one that it tells.
pub fn cost_is_told()
    ensures { CostIsTold }
{}

/// What a run that has ended well leaves, with every fuel.
pub fn done_is_exact()
    ensures { DoneIsExact }
{}

/// The cost as fuel is enough, and one unit less is not.
pub fn exact_cost()
    ensures { ExactCost }
{}

/// `main` comes to the same state with every fuel that its cost is not above.
pub fn main_is_exact()
    ensures { MainIsExact }
{}

/// How many turns a loop may have at most tells nothing, where it may have as many as there is fuel.
pub fn turns_are_no_bound()
    ensures { TurnsAreNoBound }
{}
