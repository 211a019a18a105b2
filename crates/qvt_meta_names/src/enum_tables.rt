ghost use Rattle.std.specs.Prelude.{◌≡◌, ◌<◌, ◌^◌, ℕ, List, length, position, slice_index_or, [], IfOk};
ghost use Rattle.std.specs.Str.{bytes_eq};
ghost use Rattle.std.specs.Map.{lookup};
ghost use Rattle.qvt_metamodel.specs.Named.{nowhere_enumeration};
ghost use Rattle.qvt_meta_names.specs.Enumerated.{AreFew, AreEachFew, IsTabled, AreTabled};

use crate::adding::add_text;
use crate::name_table::NameTable;
use qvt_base::list_fault::ListFault;
use qvt_base::seq::Seq;
use qvt_base::text::Text;
use qvt_metamodel::info::{EnumInfo, MetamodelInfo};
use std::alloc::Global;

/// The enumerations of a metamodel by name, and the literals of each by name.
pub struct EnumTable {
    pub enumerations: NameTable,
    pub literals: Seq<NameTable>,
}

impl Drop for EnumTable {
    fn drop(self) {
        let EnumTable {
            enumerations,
            literals,
        } = self;
    }
}

/// The places of literals by name, of several of one name the first.
fn literal_table(alloc: Global, literals: &[Text], count: u32) -> Result<NameTable, ListFault>
    requires { length literals.now ≡ count }
    ensures { IfOk result (λ t. (name : List ℕ) → lookup (bytes_eq name) t ≡ position (bytes_eq name) literals.now) }
{
    let mut table = NameTable::new(alloc);
    for number in 0..count {
        add_text(alloc, &mut table, &literals[number as usize], number)?;
    }
    Ok(table)
}

/// The places of enumerations by name, of several of one name the first.
fn enumeration_table(alloc: Global, enums: &[EnumInfo], count: u32) -> Result<NameTable, ListFault>
    requires { length enums.now ≡ count }
    ensures { IfOk result (λ t. (name : List ℕ) → lookup (bytes_eq name) t ≡ position (λ e. bytes_eq name e.name) enums.now) }
{
    let mut table = NameTable::new(alloc);
    for number in 0..count {
        add_text(alloc, &mut table, &enums[number as usize].name, number)?;
    }
    Ok(table)
}

/// The literals of each enumeration by name.
fn literal_tables(alloc: Global, enums: &[EnumInfo]) -> Result<Seq<NameTable>, ListFault>
    requires { (e : ℕ) → length (slice_index_or enums.now e nowhere_enumeration).literals < 2 ^ 32 }
    ensures each { IfOk result (λ v. length v ≡ length enums.now) }
    ensures literals { IfOk result (λ v. (e : ℕ) → e < length enums.now → (name : List ℕ) → lookup (bytes_eq name) (slice_index_or v e []) ≡ position (bytes_eq name) (slice_index_or enums.now e nowhere_enumeration).literals) }
{
    let mut tables = Seq::new(alloc);
    for place in 0..enums.len() {
        let literals = enums[place].literals.as_slice();
        tables.push(literal_table(alloc, literals, literals.len() as u32)?)?;
    }
    Ok(tables)
}

/// The enumerations of a metamodel by name, with their literals.
fn enum_table(alloc: Global, enums: &[EnumInfo]) -> Result<EnumTable, ListFault>
    requires { AreFew enums.now }
    ensures { IfOk result (λ t. IsTabled enums.now t) }
{
    let enumerations = enumeration_table(alloc, enums, enums.len() as u32)?;
    let literals = literal_tables(alloc, enums)?;
    Ok(EnumTable {
        enumerations,
        literals,
    })
}

/// The enumerations of each metamodel by name, with their literals.
pub fn enum_tables(alloc: Global, metamodels: &[MetamodelInfo]) -> Result<Vec<EnumTable>, ListFault>
    requires { AreEachFew metamodels.now }
    ensures { IfOk result (λ v. AreTabled metamodels.now v.items) }
{
    let mut tables = Seq::new(alloc);
    for place in 0..metamodels.len() {
        tables.push(enum_table(alloc, metamodels[place].enums.as_slice())?)?;
    }
    Ok(tables.into_vec())
}
