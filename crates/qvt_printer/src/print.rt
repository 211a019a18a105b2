ghost use Rattle.std.specs.Prelude.{◌≡◌, IfOk};
ghost use Rattle.qvt_tree_types.specs.Module.{module_view};
ghost use Rattle.qvt_printer.specs.PrintText.{print_text};

use crate::pieces::Pieces;
use qvt_base::list_fault::ListFault;
use qvt_base::text::Text;
use qvt_printer_layout::layout::laid_out;
use qvt_tree_types::module::Module;
use std::alloc::Global;

/// Why no text is given.
#[derive(Clone, Copy, Debug, PartialEq, Eq)]
pub enum PrintFault {
    /// There was no memory.
    NoMemory,
}

impl From<ListFault> for PrintFault {
    ghost use Rattle.std.specs.Prelude.{⊤};

    ghost from_gives = { λ _ _. ⊤ };

    fn from(_: ListFault) -> PrintFault {
        PrintFault::NoMemory
    }
}

/// The one printed text of a transformation (QVT 1.3, 8.4). Of a transformation that was read it is
/// read as one of the same shape, but where a value statement or an assignment begins with a
/// conditional, or the text is too deep: the law `printed_reads_back` of `qvt_readback_law` has the
/// exact words.
#[tactic(auto, unfolding(crate::specs::PrintText::print_text))]
pub fn print(alloc: Global, transformation: &Module) -> Result<Text, PrintFault>
    ensures { IfOk result (λ text. text ≡ print_text (module_view transformation.now)) }
{
    let mut pieces = Pieces::new(alloc);
    pieces.transformation(transformation)?;
    let text = laid_out(alloc, pieces.as_slice())?;
    Ok(text)
}
