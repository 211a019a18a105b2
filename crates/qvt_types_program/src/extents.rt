//! The extents of a run of a program.

ghost use Rattle.std.specs.Prelude.{◌≡◌, IfOk};
ghost use Rattle.qvt_types_program.specs.Extents as extents_of;
ghost use Rattle.qvt_types_program.specs.Program.{program_view};

use crate::known::known;
use crate::program::Program;
use qvt_base::list_fault::ListFault;
use qvt_base::seq::Seq;
use qvt_base::text::Text;
use qvt_slots::extent::{Extent, ExtentList};
use qvt_types_paths::models::{ModelRow, Models};
use std::alloc::Global;

fn row_at(rows: &[ModelRow], place: usize) -> ModelRow
    ensures { result ≡ extents_of.row_at rows.now place }
{
    if place < rows.len() {
        rows[place]
    } else {
        ModelRow {
            written: false,
            metamodel: None,
        }
    }
}

fn model_extent(alloc: Global, name: &str, row: ModelRow) -> Result<Extent, ListFault>
    ensures { IfOk result (λ e. e ≡ extents_of.model_extent name.now row) }
{
    Ok(Extent {
        name: Text::from_str(alloc, name)?,
        metamodel: known(row.metamodel),
        writable: row.written,
    })
}

fn model_extents(alloc: Global, models: &Models) -> Result<ExtentList, ListFault>
    ensures { IfOk result (λ es. es ≡ extents_of.extents_from models.now.rows 0 models.now.names) }
{
    let rows = models.rows.as_slice();
    let names = models.names.names();
    let mut extents = Seq::new(alloc);
    for (place, name) in names.iter().enumerate() {
        extents.push(model_extent(alloc, name.as_str(), row_at(rows, place))?)?;
    }
    Ok(extents)
}

/// The extents of a run: one for each model, and after them that of the instances of intermediate classes.
pub fn extents(alloc: Global, program: &Program) -> Result<ExtentList, ListFault>
    ensures { IfOk result (λ es. es ≡ extents_of.extents (program_view program.now)) }
{
    let mut extents = model_extents(alloc, program.model_table())?;
    extents.push(Extent {
        name: Text::new(alloc),
        metamodel: program.metas().metamodel_count().saturating_sub(1),
        writable: true,
    })?;
    Ok(extents)
}
