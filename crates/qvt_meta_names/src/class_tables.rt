ghost use Rattle.std.specs.Prelude.{◌≡◌, ◌<◌, ◌==◌, ◌&&◌, ℕ, List, Some, None, length, position, if◌then◌else◌, slice_index_or, [], IfOk, OnOk};
ghost use Rattle.std.specs.Option.{option_or};
ghost use Rattle.std.specs.Str.{bytes_eq};
ghost use Rattle.std.specs.Map.{lookup};

use crate::adding::add_text;
use crate::name_table::NameTable;
use qvt_base::list_fault::ListFault;
use qvt_base::seq::Seq;
use qvt_metamodel::info::ClassInfo;
use std::alloc::Global;

/// Puts a class of the metamodel last, unless one of its name is there.
fn add_class(
    alloc: Global,
    table: &mut NameTable,
    metamodel: u32,
    class: &ClassInfo,
    number: u32,
) -> Result<(), ListFault>
    ensures { OnOk result ((name : List ℕ) → lookup (bytes_eq name) table.new ≡ option_or (lookup (bytes_eq name) table.old) (if (class.now.metamodel == metamodel) && bytes_eq name class.now.name then Some number else None)) }
{
    if class.metamodel != metamodel {
        return Ok(());
    }
    add_text(alloc, table, &class.name, number)?;
    Ok(())
}

/// The classes of the metamodel by name, of several of one name the first.
fn class_table(
    alloc: Global,
    metamodel: u32,
    classes: &[ClassInfo],
    count: u32,
) -> Result<NameTable, ListFault>
    requires { length classes.now ≡ count }
    ensures { IfOk result (λ t. (name : List ℕ) → lookup (bytes_eq name) t ≡ position (λ c. (c.metamodel == metamodel) && bytes_eq name c.name) classes.now) }
{
    let mut table = NameTable::new(alloc);
    for number in 0..count {
        add_class(
            alloc,
            &mut table,
            metamodel,
            &classes[number as usize],
            number,
        )?;
    }
    Ok(table)
}

/// The classes of each of as many metamodels by name.
pub fn class_tables(
    alloc: Global,
    metamodels: u32,
    classes: &[ClassInfo],
    count: u32,
) -> Result<Vec<NameTable>, ListFault>
    requires { length classes.now ≡ count }
    ensures each { IfOk result (λ v. length v.items ≡ metamodels) }
    ensures names { IfOk result (λ v. (k : ℕ) → k < metamodels → (name : List ℕ) → lookup (bytes_eq name) (slice_index_or v.items k []) ≡ position (λ c. (c.metamodel == k) && bytes_eq name c.name) classes.now) }
{
    let mut tables = Seq::new(alloc);
    for metamodel in 0..metamodels {
        tables.push(class_table(alloc, metamodel, classes, count)?)?;
    }
    Ok(tables.into_vec())
}
