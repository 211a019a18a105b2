//! Numbers that stand for the names of properties, and the names that repeat an earlier one.

ghost use Rattle.std.specs.Prelude.{◌≡◌, map, IfOk};
ghost use Rattle.qvt_metas.specs.Added.{place_in};
ghost use Rattle.qvt_metamodel.specs.Lists.{all_lists};
ghost use Rattle.qvt_meta_repeats.specs.Flags.{name_flags};
ghost use Rattle.qvt_types_classes.specs.Keys as names;

use crate::declared::Property;
use qvt_base::list_fault::ListFault;
use qvt_base::seq::Seq;
use qvt_meta_repeats::repeats::Repeats;
use qvt_metamodel::lists::FeatureLists;
use qvt_types_paths::name_index::NameIndex;
use std::alloc::Global;

/// The empty name, and then those of the properties.
fn known_names(alloc: Global, properties: &[Property]) -> Result<NameIndex, ListFault>
    ensures { IfOk result (λ all. all ≡ names.known properties.now) }
{
    let mut known = NameIndex::new(alloc).with(alloc, "")?;
    for property in properties {
        known = known.with(alloc, property.name.as_str())?;
    }
    Ok(known)
}

/// The number that stands for a name, 0 where the name is not known.
fn key_in(known: &NameIndex, name: &str) -> u32
    ensures { result ≡ place_in known.now name.now }
{
    match known.place(name) {
        Some(place) => place,
        None => 0,
    }
}

fn keys_of(alloc: Global, known: &NameIndex, properties: &[Property]) -> Result<Seq<u32>, ListFault>
    ensures { IfOk result (λ keys. keys ≡ map (λ p. place_in known.now p.name) properties.now) }
{
    let mut keys = Seq::new(alloc);
    for property in properties {
        keys.push(key_in(known, property.name.as_str()))?;
    }
    Ok(keys)
}

/// For each property the number that stands for its name: two of one name have one number.
fn name_keys(alloc: Global, properties: &[Property]) -> Result<Seq<u32>, ListFault>
    ensures { IfOk result (λ keys. keys ≡ names.keys_of properties.now) }
{
    let known = known_names(alloc, properties)?;
    keys_of(alloc, &known, properties)
}

/// Which properties of classes have a name that an earlier one of the class has.
pub fn name_repeats<'a>(
    alloc: Global,
    all: &[Property],
    lists: &'a FeatureLists,
) -> Result<Repeats<'a>, ListFault>
    ensures { IfOk result (λ r. r ≡ map (λ list. name_flags (names.names_at all.now list)) (all_lists lists.now)) }
{
    let keys = name_keys(alloc, all)?;
    let repeats = Repeats::new(alloc, keys.as_slice(), lists)?;
    Ok(repeats)
}
