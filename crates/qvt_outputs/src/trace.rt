//! The file of the trace of a run.

ghost use Rattle.std.specs.Prelude.{◌++◌, ◌≡◌, OnOk};
ghost use Rattle.qvt_meaning.specs.Run.{FinishedRun};
ghost use Rattle.qvt_meaning_report.specs.TraceText.{trace_text};
ghost use Rattle.qvt_outcome.specs.Plans.{HaveFaultLines, files_in};
ghost use Rattle.qvt_types_program.specs.Program.{program_view};
ghost use Rattle.qvt_outputs.specs.Left.{trace_files};
ghost use Rattle.qvt_outputs.specs.RunEnd.{IsEnd};

use crate::output::output_of;
use crate::run_end::RunEnd;
use qvt_base::list_fault::ListFault;
use qvt_base::seq::Seq;
use qvt_base::text::Text;
use qvt_model::id_table::IdTable;
use qvt_outcome::plan::Output;
use qvt_trace_text::trace::write_trace;
use qvt_types_program::program::Program;
use std::alloc::Global;

/// Puts the trace last, where a file is wanted for it.
pub fn put_trace(
    alloc: Global,
    outputs: &mut Seq<Output>,
    file: &Option<Text>,
    program: &Program,
    ids: &IdTable,
    end: &RunEnd<'_>,
) -> Result<(), ListFault>
    ensures files { OnOk result ((f : FinishedRun) → IsEnd f end.now → files_in outputs.new ≡ files_in outputs.old ++ trace_files file.now (trace_text (program_view program.now) ids.now f)) }
    ensures ready { OnOk result (HaveFaultLines outputs.old → HaveFaultLines outputs.new) }
{
    let Some(file) = file else {
        return Ok(());
    };
    let bytes = write_trace(alloc, program, ids, end.store, end.records, end.entries)?;
    let output = output_of(alloc, file, bytes)?;
    outputs.push(output)
}
