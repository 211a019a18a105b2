//! A file that is to be written.

ghost use Rattle.std.specs.Prelude.{◌≡◌, IfOk};
ghost use Rattle.qvt_outcome.specs.Outcome.{write_fault_line};
ghost use Rattle.qvt_outcome.specs.Plans.{file_of};

use qvt_base::copied::Copied;
use qvt_base::list_fault::ListFault;
use qvt_base::lists::Bytes;
use qvt_base::text::Text;
use qvt_outcome::plan::Output;
use qvt_outcome::report::write_fault_line;
use std::alloc::Global;

/// A file with its bytes, and the line that tells of its failure.
pub fn output_of(alloc: Global, file: &Text, bytes: Bytes) -> Result<Output, ListFault>
    ensures file { IfOk result (λ o. file_of o ≡ (file.now, bytes)) }
    ensures ready { IfOk result (λ o. o.fault_line ≡ write_fault_line o.file) }
{
    let Ok(fault_line) = write_fault_line(alloc, file.as_str()) else {
        return Err(ListFault::NoMemory);
    };
    Ok(Output {
        file: file.copy(alloc)?,
        bytes,
        fault_line,
    })
}
