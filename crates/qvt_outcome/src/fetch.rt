ghost use Rattle.std.specs.Prelude.{◌≤◌, length, IfOk};
ghost use Rattle.qvt_outcome.specs.Chain.{read_step};
ghost use Rattle.qvt_outcome.specs.Follows.{Follows};
ghost use Rattle.qvt_outcome.specs.Steps.{IsFaultWith, RefusedOrNoMemory, ReadFaultOrNoMemory};

use crate::refusal::Refusal;
use crate::stop::Stop;
use qvt_base::copied::Copied;
use qvt_base::lists::Bytes;
use qvt_base::outside::{Files, ReadAnswer};
use qvt_base::text::Text;
use std::alloc::Global;

/// The refusal of a file.
pub fn refused(alloc: Global, file: &Text, why: Refusal) -> Stop
    ensures refused { RefusedOrNoMemory file.now why result }
    ensures no_reads { IsFaultWith result (λ file. ⊥) }
{
    match file.copy(alloc) {
        Ok(file) => Stop::Refused(file, why),
        Err(_) => Stop::NoMemory,
    }
}

/// The failure of a read.
fn read_fault(alloc: Global, file: &Text) -> Stop
    ensures { ReadFaultOrNoMemory file.now result }
{
    match file.copy(alloc) {
        Ok(file) => Stop::ReadFault(file),
        Err(_) => Stop::NoMemory,
    }
}

/// Reads a file within its limit.
pub fn fetch<F: Files>(alloc: Global, files: &mut F, name: &Text, limit: u32) -> Result<Bytes, Stop>
    ensures follows { Follows (λ bytes. bytes) (read_step name.now limit) (F.seen files.old) result (F.seen files.new) }
    ensures within { IfOk result (λ bytes. length bytes ≤ limit) }
{
    match files.read(alloc, name.as_str(), limit) {
        ReadAnswer::Found(bytes) => Ok(bytes),
        ReadAnswer::Missing => Err(refused(alloc, name, Refusal::Missing)),
        ReadAnswer::TooLarge => Err(refused(alloc, name, Refusal::TooLarge)),
        ReadAnswer::Failed => Err(read_fault(alloc, name)),
        ReadAnswer::NoMemory => Err(Stop::NoMemory),
    }
}
