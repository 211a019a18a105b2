ghost use Rattle.std.specs.Prelude.{◌≡◌, ◌⊎◌, MatchBool, IfOk, string_bytes};
ghost use Rattle.qvt_outcome.specs.Outcome.{refusal_text, refused_line, read_fault_line, write_fault_line, no_memory_line, conforms_line};
ghost use Rattle.qvt_lines.specs.Lines.{out_of_fuel_line, low_line};
ghost use Rattle.qvt_outcome.specs.Steps.{stop_line, stop_status};
ghost use Rattle.qvt_outcome.specs.Reported.{IsWhole, IsCut, Reports};

use crate::refusal::Refusal;
use crate::refusal_text::{
    conform_text, job_text, metamodel_text, metamodels_text, model_fault_text, parse_text,
    typing_text, with_one,
};
use crate::status::Status;
use crate::stop::Stop;
use qvt_base::copied::Copied;
use qvt_base::lists::Bytes;
use qvt_base::outside::{Sink, SinkAnswer};
use qvt_base::seq::Seq;
use qvt_base::text::Text;
use std::alloc::{AllocError, Global};

/// Sends the whole text, piece by piece. False where the sink failed.
fn send<S: Sink>(out: &mut S, text: &[u8]) -> bool
    ensures { MatchBool result (IsWhole text.now (S.seen out.old) (S.seen out.new)) (IsCut text.now (S.seen out.old) (S.seen out.new)) }
{
    let mut at = 0usize;
    while at < text.len() {
        match out.write(&text[at..]) {
            SinkAnswer::Taken(count) => at += count,
            SinkAnswer::Failed => return false,
        }
    }
    true
}

/// Sends a text, and answers this status; WriteFault where the sink failed.
pub fn report<S: Sink>(out: &mut S, text: &[u8], status: Status) -> Status
    ensures { Reports text.now status (S.seen out.old) (S.seen out.new) result }
{
    if send(out, text) {
        status
    } else {
        Status::WriteFault
    }
}

fn bytes_of(text: String) -> Bytes
    ensures { result ≡ string_bytes text }
{
    Seq::from_vec(text.into_bytes())
}

/// The line that a file could not be written.
pub fn write_fault_line(alloc: Global, file: &str) -> Result<Bytes, AllocError>
    ensures { IfOk result (λ line. line ≡ write_fault_line file.now) }
{
    Ok(bytes_of(format!(in alloc; "cannot write: {file}\n")?))
}

/// The line that a file could not be read.
pub fn read_fault_line(alloc: Global, file: &str) -> Result<Bytes, AllocError>
    ensures { IfOk result (λ line. line ≡ read_fault_line file.now) }
{
    Ok(bytes_of(format!(in alloc; "cannot read: {file}\n")?))
}

/// The line that the cost would pass the fuel.
pub fn out_of_fuel_line(alloc: Global, fuel: u64) -> Result<Bytes, AllocError>
    ensures { IfOk result (λ line. line ≡ out_of_fuel_line fuel) }
{
    Ok(bytes_of(format!(in alloc; "out of fuel: {fuel}\n")?))
}

/// A refusal's name and detail.
fn refusal_text(alloc: Global, why: &Refusal) -> Result<String, AllocError>
    ensures { IfOk result (λ text. string_bytes text ≡ refusal_text why.now) }
{
    match why {
        Refusal::Missing => String::from_str(alloc, "Missing"),
        Refusal::TooLarge => String::from_str(alloc, "TooLarge"),
        Refusal::Job(why) => job_text(alloc, why),
        Refusal::Metamodel(why) => metamodel_text(alloc, why),
        Refusal::Metamodels(why) => metamodels_text(alloc, why),
        Refusal::Model(why) => model_fault_text(alloc, why),
        Refusal::TooManyObjects => String::from_str(alloc, "TooManyObjects"),
        Refusal::Conform(why) => conform_text(alloc, why),
        Refusal::Utf8 => String::from_str(alloc, "Utf8"),
        Refusal::Parse(why) => parse_text(alloc, why),
        Refusal::Typing(why) => typing_text(alloc, *why),
        Refusal::JobModels(model) => with_one(alloc, "JobModels", model),
    }
}

/// The line that an object has too few items for a feature.
fn low_line(alloc: Global, model: &Text, id: &Text, feature: &Text) -> Result<Bytes, AllocError>
    ensures { IfOk result (λ line. line ≡ low_line model.now id.now feature.now) }
{
    let model = model.as_str();
    let id = id.as_str();
    let feature = feature.as_str();
    Ok(bytes_of(format!(in alloc; "low: {model}:{id} {feature}\n")?))
}

/// The line of a model that conforms.
pub fn conforms_line(alloc: Global, objects: usize) -> Result<Bytes, AllocError>
    ensures { IfOk result (λ line. line ≡ conforms_line objects) }
{
    Ok(bytes_of(format!(in alloc; "conforms: {objects} objects\n")?))
}

/// The line of a refusal: the file, the refusal's name and its detail.
pub fn refused_line(alloc: Global, file: &str, why: &Refusal) -> Result<Bytes, AllocError>
    ensures { IfOk result (λ line. line ≡ refused_line file.now why.now) }
{
    let text = refusal_text(alloc, why)?;
    Ok(bytes_of(format!(in alloc; "refused: {file}: {text}\n")?))
}

/// The line of a fault.
fn fault_line(alloc: Global, line: &Bytes) -> Result<Bytes, AllocError>
    ensures { IfOk result (λ copy. copy ≡ line.now) }
{
    match line.copy(alloc) {
        Ok(line) => Ok(line),
        Err(_) => Err(AllocError),
    }
}

/// The line and the status of an early end.
fn line_of(alloc: Global, stop: &Stop) -> Result<(Bytes, Status), AllocError>
    ensures { IfOk result (λ x. (x.0 ≡ stop_line stop.now) × (x.1 ≡ stop_status stop.now)) }
{
    match stop {
        Stop::Refused(file, why) => Ok((refused_line(alloc, file.as_str(), why)?, Status::Refused)),
        Stop::Fault(line) => Ok((fault_line(alloc, line)?, Status::Fault)),
        Stop::OutOfFuel(fuel) => Ok((out_of_fuel_line(alloc, *fuel)?, Status::OutOfFuel)),
        Stop::Low(model, id, feature) => Ok((low_line(alloc, model, id, feature)?, Status::Low)),
        Stop::ReadFault(file) => Ok((read_fault_line(alloc, file.as_str())?, Status::ReadFault)),
        Stop::NoMemory => Err(AllocError),
    }
}

/// Tells of an early end, or that there was no memory for it.
pub fn finish<S: Sink>(alloc: Global, out: &mut S, stop: &Stop) -> Status
    ensures { Reports (stop_line stop.now) (stop_status stop.now) (S.seen out.old) (S.seen out.new) result
        ⊎ Reports no_memory_line Status.NoMemory (S.seen out.old) (S.seen out.new) result }
{
    match line_of(alloc, stop) {
        Ok((line, status)) => report(out, line.as_slice(), status),
        Err(_) => report(out, b"no memory\n", Status::NoMemory),
    }
}
