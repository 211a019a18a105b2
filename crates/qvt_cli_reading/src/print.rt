//! The command that prints a text in its one printed form.

ghost use Rattle.std.specs.Prelude.{◌≡◌, [], IfOk, IfErr};
ghost use Rattle.qvt_tree_types.specs.Module.{module_view};
ghost use Rattle.qvt_printer.specs.PrintText.{print_text};
ghost use Rattle.qvt_outcome.specs.Outcome.{done};
ghost use Rattle.qvt_outcome.specs.Plans.{outcome_of, HaveFaultLines};
ghost use Rattle.qvt_work.specs.Printing.{tree_read, print_of};
ghost use Rattle.qvt_outcome.specs.Follows.{Follows};

use crate::source::tree_in;
use qvt_base::outside::Files;
use qvt_base::seq::Seq;
use qvt_base::text::Text;
use qvt_outcome::fetch::fetch;
use qvt_outcome::plan::Plan;
use qvt_outcome::stop::Stop;
use qvt_printer::print::print;
use qvt_tree_types::module::Module;
use std::alloc::Global;

/// Reads the text.
fn read_tree<F: Files>(alloc: Global, files: &mut F, name: &Text) -> Result<Module, Stop>
    ensures { Follows module_view (tree_read name.now) (F.seen files.old) result (F.seen files.new) }
{
    match fetch(alloc, files, name, 262_144) {
        Err(stop) => Err(stop),
        Ok(bytes) => tree_in(alloc, name, bytes.as_slice()),
    }
}

/// The plan of a printed text.
fn plan_of(alloc: Global, tree: &Module) -> Result<Plan, Stop>
    ensures plan { IfOk result (λ p. outcome_of p ≡ done [] (print_text (module_view tree.now))) }
    ensures ready { IfOk result (λ p. HaveFaultLines p.outputs) }
    ensures memory { IfErr result (λ stop. stop ≡ Stop.NoMemory) }
{
    let Ok(text) = print(alloc, tree) else {
        return Err(Stop::NoMemory);
    };
    match Seq::from_slice(alloc, text.as_str().as_bytes()) {
        Err(_) => Err(Stop::NoMemory),
        Ok(line) => Ok(Plan {
            outputs: Seq::new(alloc),
            line,
        }),
    }
}

/// Reads a text, and prints it.
pub fn perform_print<F: Files>(alloc: Global, files: &mut F, name: &Text) -> Result<Plan, Stop>
    ensures follows { Follows outcome_of (print_of name.now) (F.seen files.old) result (F.seen files.new) }
    ensures ready { IfOk result (λ p. HaveFaultLines p.outputs) }
{
    match read_tree(alloc, files, name) {
        Err(stop) => Err(stop),
        Ok(tree) => plan_of(alloc, &tree),
    }
}
