ghost use Rattle.std.specs.Prelude.{◌≡◌, ◌≢◌, ◌<◌, [], None, Some, length, IfOk};
ghost use Rattle.qvt_json.specs.Steps.{GivesStated};
ghost use Rattle.qvt_metas.specs.Added.{declared_at, first_begin, names_of, class_infos};
ghost use Rattle.qvt_metamodel.specs.Checked.{Passes};
ghost use Rattle.qvt_metamodel.specs.Checks.{same_name, unknown_type, inheritance_cycle};
ghost use Rattle.qvt_metamodel.specs.MetaData.{class_names};
ghost use Rattle.qvt_meta.specs.MetaOf.{checked, meta_of};
ghost use Rattle.qvt_meta.specs.Numbers.{AreNumbers};
ghost use Rattle.qvt_metamodel.specs.Lists.{all_lists};
ghost use Rattle.qvt_metas.specs.Tables.{of_classes, AreTables};
ghost use Rattle.qvt_metas.specs.Search.{IsAcyclic};

use crate::adding::{Numbers, numbers_of};
use crate::same_feature::same_feature;
use qvt_base::copied::Copied;
use qvt_base::list_fault::ListFault;
use qvt_base::text::Text;
use qvt_json::shape::shape_fault;
use qvt_json::value::read_value;
use qvt_meta_checks::checks::{bad_bounds, same_name, unknown_type};
use qvt_meta_checks::name_set::NameSet;
use qvt_meta_checks::names::{names_of, type_names};
use qvt_meta_checks::opposites::bad_opposite;
use qvt_meta_checks::texts::have_texts;
use qvt_meta_read::forms::MetaForm;
use qvt_meta_read::reading::meta_data;
use qvt_meta_tables::cycle::first_cycle;
use qvt_meta_tables::tables::{Tables, tables_of};
use qvt_metamodel::declared::{DeclaredClass, MetaData};
use qvt_metas::fault::MetaFault;
use qvt_metas::info::ClassInfo;
pub use qvt_metas::meta::Meta;
use qvt_metas::numbered::Numbered;
use std::alloc::Global;

/// A metamodel whose data passed every check, from its numbered parts.
fn made(meta: MetaData, numbers: Numbers, tables: Tables) -> Meta
    requires passes { Passes meta }
    requires named { meta.name ≢ [] }
    requires numbers { AreNumbers meta numbers }
    requires tables { AreTables (of_classes numbers.classes.items) (all_lists tables.lists) tables.rows.items tables.ranks.items }
    ensures { result ≡ meta }
{
    have_texts(&meta);
    let Numbers {
        metamodels,
        classes,
        features,
    } = numbers;
    let alone = Numbered::from_parts(metamodels, classes, features, tables);
    Meta::from_parts(meta, alone)
}

fn class_name(classes: &[DeclaredClass], class: usize) -> &Text
    requires { class < length classes.now }
    ensures { result.now ≡ (declared_at classes.now class).name }
{
    &classes[class].name
}

/// The name of the first class that is above itself.
fn inheritance_cycle(
    alloc: Global,
    meta: &MetaData,
    classes: &[ClassInfo],
    count: u32,
) -> Result<Option<Text>, ListFault>
    requires count { length classes.now ≡ count }
    requires classes { classes.now ≡ class_infos first_begin (names_of meta.now.classes) 0 meta.now.classes }
    ensures cycle { IfOk result (λ o. o ≡ inheritance_cycle meta.now) }
    ensures acyclic { IfOk result (λ o. o ≡ None → IsAcyclic classes.now) }
{
    match first_cycle(alloc, classes, count)? {
        Some(class) => {
            let name = class_name(meta.classes.as_slice(), class as usize);
            Ok(Some(name.copy(alloc)?))
        }
        None => Ok(None),
    }
}

/// A metamodel whose names, types and classes passed the checks, or the first check of its features
/// that fails.
#[tactic(auto, unfolding(crate::specs::MetaOf::checked))]
fn features_checked(
    alloc: Global,
    meta: MetaData,
    names: &NameSet,
    numbers: Numbers,
    tables: Tables,
) -> Result<Meta, MetaFault>
    requires named { meta.name ≢ [] }
    requires names { names.now ≡ class_names meta }
    requires same_name { same_name meta ≡ None }
    requires unknown_type { unknown_type meta ≡ None }
    requires cycle { inheritance_cycle meta ≡ None }
    requires numbers { AreNumbers meta numbers }
    requires tables { AreTables (of_classes numbers.classes.items) (all_lists tables.lists) tables.rows.items tables.ranks.items }
    ensures { GivesStated MetaFault.NoMemory (λ read. read) result (checked meta) }
{
    if let Some((class, feature)) = bad_bounds(alloc, &meta)? {
        return Err(MetaFault::BadBounds(class, feature));
    }
    if let Some((class, feature)) = bad_opposite(alloc, names, &meta)? {
        return Err(MetaFault::BadOpposite(class, feature));
    }
    if let Some((class, name)) = same_feature(alloc, &meta, &numbers, &tables.lists)? {
        return Err(MetaFault::SameFeature(class, name));
    }
    Ok(made(meta, numbers, tables))
}

/// How many features the lists of the classes of a metamodel may take from superclasses where they do
/// not go on in the list of one: one for each byte that its file may have. A metamodel with more is
/// refused as out of memory, since they grow with the classes times what each inherits.
const MOST_LISTED: usize = 1 << 20;

/// The same after the checks of names and types.
#[tactic(auto, unfolding(crate::specs::MetaOf::checked))]
fn classes_checked(alloc: Global, meta: MetaData, names: &NameSet) -> Result<Meta, MetaFault>
    requires named { meta.name ≢ [] }
    requires names { names.now ≡ class_names meta }
    requires same_name { same_name meta ≡ None }
    requires unknown_type { unknown_type meta ≡ None }
    ensures { GivesStated MetaFault.NoMemory (λ read. read) result (checked meta) }
{
    let numbers = numbers_of(alloc, &meta)?;
    let count = numbers.classes.len() as u32;
    if let Some(class) = inheritance_cycle(alloc, &meta, numbers.classes.as_slice(), count)? {
        return Err(MetaFault::InheritanceCycle(class));
    }
    let tables = tables_of(alloc, numbers.classes.as_slice(), count, MOST_LISTED)?;
    features_checked(alloc, meta, names, numbers, tables)
}

/// The same after the check of names.
#[tactic(auto, unfolding(crate::specs::MetaOf::checked))]
fn types_checked(alloc: Global, meta: MetaData) -> Result<Meta, MetaFault>
    requires named { meta.name ≢ [] }
    requires same_name { same_name meta ≡ None }
    ensures { GivesStated MetaFault.NoMemory (λ read. read) result (checked meta) }
{
    let names = names_of(alloc, meta.classes.as_slice())?;
    let types = type_names(alloc, &meta)?;
    if let Some((class, name)) = unknown_type(alloc, &names, &types, &meta)? {
        return Err(MetaFault::UnknownType(class, name));
    }
    classes_checked(alloc, meta, &names)
}

/// A metamodel of this data, or the first check that fails.
#[tactic(auto, unfolding(crate::specs::MetaOf::checked))]
fn checked(alloc: Global, meta: MetaData) -> Result<Meta, MetaFault>
    requires { meta.name ≢ [] }
    ensures { GivesStated MetaFault.NoMemory (λ read. read) result (checked meta) }
{
    if let Some(name) = same_name(alloc, &meta)? {
        return Err(MetaFault::SameName(name));
    }
    types_checked(alloc, meta)
}

/// The metamodel of a file, or the first refusal: the file has no JSON value, the value is not of
/// the form of a metamodel, or the first check that fails (EMOF 12.5).
#[tactic(auto, unfolding(crate::specs::MetaOf::meta_of))]
pub fn read_meta(alloc: Global, bytes: &[u8]) -> Result<Meta, MetaFault>
    ensures { GivesStated MetaFault.NoMemory (λ read. read) result (meta_of bytes.now) }
{
    let Some(value) = read_value(alloc, bytes)? else {
        return Err(MetaFault::Json);
    };
    if let Some(path) = shape_fault(alloc, &MetaForm {}, &value)? {
        return Err(MetaFault::Shape(path));
    }
    checked(alloc, meta_data(alloc, &value)?)
}
