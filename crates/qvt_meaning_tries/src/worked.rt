//! Each function does nothing: its contract is what the definitions come to.

ghost use Rattle.qvt_meaning_tries.specs.Worked.{AnObject, EnoughFuel, TooLittleFuel, Overflows, DividesByZero, StopsAtFalse, NoTurn, NoEnd, AMapping, ALateResolve, ALateCost, ADotOnNull};

/// An object whose attribute is set costs four, and four units of fuel are enough.
pub fn an_object_costs_four()
    ensures made { AnObject }
    ensures enough { EnoughFuel }
    ensures less { TooLittleFuel }
{}

/// An invalid value is a fault where it is assigned, at the place of its cause.
pub fn invalid_values_are_faults()
    ensures sign { Overflows }
    ensures step { DividesByZero }
{}

/// After false the right side of `and` is neither evaluated nor charged.
pub fn and_stops_at_false()
    ensures { StopsAtFalse }
{}

/// A loop costs its statement and each test of its condition.
pub fn turns_are_counted()
    ensures none { NoTurn }
    ensures endless { NoEnd }
{}

/// A mapping writes its record, and its population runs on its context.
pub fn a_mapping_is_recorded()
    ensures { AMapping }
{}

/// A late resolve reads what a later statement has written, and its entry costs one.
pub fn a_late_resolve_reads_the_end()
    ensures slot { ALateResolve }
    ensures cost { ALateCost }
{}

/// On a null collection behind a dot an invalid argument decides.
pub fn an_invalid_argument_decides()
    ensures { ADotOnNull }
{}
