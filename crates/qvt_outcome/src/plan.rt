ghost use Rattle.std.specs.Prelude.{IfSome, IfNone};
ghost use Rattle.qvt_outcome.specs.Plans.{files_in, HaveFaultLines, AllWritten, StoppedAt, CarriedOut};
ghost use Rattle.qvt_outcome.specs.Reported.{outside};

use crate::report::report;
use crate::status::Status;
use qvt_base::lists::Bytes;
use qvt_base::outside::{Files, Sink, WriteAnswer};
use qvt_base::seq::Seq;
use qvt_base::text::Text;

/// A file that is to be written, with its bytes and the line that tells of its failure.
#[derive(Drop)]
pub struct Output {
    pub file: Text,
    pub bytes: Bytes,
    pub fault_line: Bytes,
}

/// All that a command writes: its files in order, then a line. Every byte is made before the first
/// write.
pub struct Plan {
    pub outputs: Seq<Output>,
    pub line: Bytes,
}

impl Drop for Plan {
    fn drop(self) {
        let Plan { outputs, line } = self;
    }
}

/// Writes the files in order, up to the first that fails, whose place is told.
fn write_all<F: Files>(files: &mut F, outputs: &[Output]) -> Option<usize>
    ensures written { IfNone result (AllWritten (files_in outputs.now) (F.seen files.old) (F.seen files.new)) }
    ensures stopped { IfSome result (λ k. StoppedAt (files_in outputs.now) k (F.seen files.old) (F.seen files.new)) }
{
    for (i, output) in outputs.iter().enumerate() {
        match files.write(output.file.as_str(), output.bytes.as_slice()) {
            WriteAnswer::Written => {}
            WriteAnswer::Failed => return Some(i),
        }
    }
    None
}

/// Writes the files, and then the line; where a file fails, its line alone.
pub fn carry_out<F: Files, S: Sink>(files: &mut F, out: &mut S, plan: &Plan) -> Status
    requires { HaveFaultLines plan.now.outputs }
    ensures { CarriedOut plan.now (outside (F.seen files.old) (S.seen out.old)) (outside (F.seen files.new) (S.seen out.new)) result }
{
    match write_all(files, plan.outputs.as_slice()) {
        None => report(out, plan.line.as_slice(), Status::Done),
        Some(k) => {
            let output = &plan.outputs.as_slice()[k];
            report(out, output.fault_line.as_slice(), Status::WriteFault)
        }
    }
}
