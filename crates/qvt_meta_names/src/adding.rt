ghost use Rattle.std.specs.Prelude.{◌≡◌, ℕ, List, Some, None, if◌then◌else◌, OnOk};
ghost use Rattle.std.specs.Option.{option_or};
ghost use Rattle.std.specs.Str.{bytes_eq};
ghost use Rattle.std.specs.Map.{lookup};

use crate::name_table::NameTable;
use qvt_base::list_fault::ListFault;
use qvt_base::text::Text;
use std::alloc::Global;

/// Puts a name last, unless it is there.
pub(crate) fn add_text(
    alloc: Global,
    table: &mut NameTable,
    text: &Text,
    number: u32,
) -> Result<(), ListFault>
    ensures { OnOk result ((name : List ℕ) → lookup (bytes_eq name) table.new ≡ option_or (lookup (bytes_eq name) table.old) (if bytes_eq name text.now then Some number else None)) }
{
    if table.find(text.as_str()).is_some() {
        return Ok(());
    }
    table.add(alloc, text.as_str(), number)?;
    Ok(())
}
