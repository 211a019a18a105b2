//! The words of late entries.

ghost use Rattle.std.specs.Prelude.{◌≡◌, false, true, is_some};
ghost use Rattle.qvt_meaning_report.specs.TraceText as report;
ghost use Rattle.qvt_trace_text.specs.Words.{form_word, op_word};

use qvt_run_data::request::Request;
use qvt_store::op::SetOp;
use qvt_value::value::Kind;

pub fn kind_name(kind: Kind) -> &'static str
    ensures { result.now ≡ report.kind_name kind }
{
    match kind {
        Kind::Set => "Set",
        Kind::Bag => "Bag",
        Kind::Sequence => "Sequence",
        Kind::OrderedSet => "OrderedSet",
    }
}

/// The word of a resolve that is of any mappings.
fn plain_word(inverse: bool, one: bool) -> &'static str
    ensures { result.now ≡ form_word inverse one false }
{
    match (inverse, one) {
        (false, false) => "resolve",
        (false, true) => "resolveone",
        (true, false) => "invresolve",
        (true, true) => "invresolveone",
    }
}

/// The word of a resolve that is of the records of some mappings.
fn word_in(inverse: bool, one: bool) -> &'static str
    ensures { result.now ≡ form_word inverse one true }
{
    match (inverse, one) {
        (false, false) => "resolveIn",
        (false, true) => "resolveoneIn",
        (true, false) => "invresolveIn",
        (true, true) => "invresolveoneIn",
    }
}

/// The resolve word of a request.
pub fn form_name(request: &Request, one: bool) -> &'static str
    ensures { result.now ≡ form_word request.now.inverse one (is_some request.now.within) }
{
    match &request.within {
        None => plain_word(request.inverse, one),
        Some(_) => word_in(request.inverse, one),
    }
}

/// The sign of an assignment.
pub fn op_name(op: SetOp) -> &'static str
    ensures { result.now ≡ op_word op }
{
    match op {
        SetOp::Put => ":=",
        SetOp::Add => "+=",
    }
}
