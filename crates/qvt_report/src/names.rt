//! The names of faults.

ghost use Rattle.std.specs.Prelude.{◌≡◌, ◌++◌, codes};
ghost use Rattle.qvt_meaning_report.specs.Lines as lines;

use qvt_run_data::fault::RunFault;
use qvt_value::value::Reason;

/// The name of the fault of an invalid value.
fn invalid_name(reason: Reason) -> &'static str
    ensures { result.now ≡ codes "InvalidValue " ++ lines.reason_name reason }
{
    match reason {
        Reason::Overflow => "InvalidValue Overflow",
        Reason::ZeroDivide => "InvalidValue ZeroDivide",
        Reason::BadIndex => "InvalidValue BadIndex",
        Reason::CastFailed => "InvalidValue CastFailed",
        Reason::NullSource => "InvalidValue NullSource",
        Reason::NullValue => "InvalidValue NullValue",
        Reason::EmptySource => "InvalidValue EmptySource",
        Reason::BadNumber => "InvalidValue BadNumber",
        Reason::TooLarge => "InvalidValue TooLarge",
    }
}

/// The name of a fault; of a value that is invalid with its reason.
pub fn fault_name(fault: RunFault) -> &'static str
    ensures { result.now ≡ lines.fault_name fault }
{
    match fault {
        RunFault::InvalidValue(reason) => invalid_name(reason),
        RunFault::WhenFailed => "WhenFailed",
        RunFault::MappingCycle => "MappingCycle",
        RunFault::NoResult => "NoResult",
        RunFault::TooMany => "TooMany",
        RunFault::ContainmentCycle => "ContainmentCycle",
        RunFault::CrossModel => "CrossModel",
        RunFault::ReadOnly => "ReadOnly",
        RunFault::CallDepth => "CallDepth",
        RunFault::TooManyObjects => "TooManyObjects",
        RunFault::TypeFault => "TypeFault",
    }
}
