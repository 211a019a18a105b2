//! Properties of one name, and intermediate classes as they are read.

ghost use Rattle.std.specs.Prelude.{◌≡◌, ◌<◌, ◌+◌, ◌++◌, ◌∷◌, ℕ, List, [], drop, length, map, take, is_some, position, slice_index_or, if◌then◌else◌, IfOk, OnOk};
ghost use Rattle.std.specs.Str.{bytes_eq};
ghost use Rattle.qvt_metamodel.specs.Names.{repeated};
ghost use Rattle.qvt_metamodel.specs.Lists.{all_lists};
ghost use Rattle.qvt_meta_repeats.specs.Flags.{name_flags, repeat_flags};
ghost use Rattle.qvt_types_classes.specs.declared.declared.Declared.{Declared};
ghost use Rattle.qvt_types_classes.specs.Inherited as inherited;
ghost use Rattle.qvt_types_classes.specs.Keys as keys;

use crate::declared::{Declared, Property};
use crate::keyed::name_repeats;
use crate::numbered::properties_at;
use qvt_base::copied::Copied;
use qvt_base::list_fault::ListFault;
use qvt_base::numbers::FeatureNo;
use qvt_base::seq::Seq;
use qvt_metamodel::lists::FeatureLists;
use qvt_types_data::refusal::RefusalKind;
use qvt_types_paths::name_index::NameIndex;
use qvt_types_paths::told::{RefusalList, tell_if};
use std::alloc::Global;

/// Whether two of the inherited features have one name, where the first feature that has the name of an
/// earlier one stands here.
fn inherits_twice(first: Option<usize>, inherited: usize) -> bool
    ensures { (names : List (List ℕ)) → first ≡ position (λ b. b) (name_flags names) → result ≡ is_some (repeated [] (take inherited names)) }
{
    match first {
        None => false,
        Some(place) => place < inherited,
    }
}

/// Tells each property that has a flag: SameName, at the property.
fn tell_own(flags: &[bool], properties: &[Property], log: &mut RefusalList) -> Result<(), ListFault>
    requires { length flags.now ≡ length properties.now }
    ensures { OnOk result ((names : List (List ℕ)) → flags.now ≡ repeat_flags bytes_eq names (inherited.names_of properties.now) → log.new ≡ log.old ++ inherited.own_told names properties.now) }
{
    for (place, property) in properties.iter().enumerate() {
        tell_if(log, flags[place], RefusalKind::SameName, property.place)?;
    }
    Ok(())
}

/// How many features are inherited, and the flags of the class's own, of which there are so many.
fn parted(flags: &[bool], own: usize) -> (usize, &[bool])
    ensures inherited { result.0 ≡ length flags.now - own }
    ensures own { result.1.now ≡ drop (length flags.now - own) flags.now }
{
    let inherited = flags.len().saturating_sub(own);
    let (_, own) = flags.split_at(inherited);
    (inherited, own)
}

ghost use Rattle.std.specs.Prelude.{◌-◌};

/// Whether no two of the properties have one name.
pub fn are_apart(alloc: Global, properties: &[Property]) -> Result<bool, ListFault>
    ensures { IfOk result (λ b. b ≡ inherited.are_apart properties.now) }
{
    let mut earlier = NameIndex::new(alloc);
    for property in properties {
        if earlier.has(property.name.as_str()) {
            return Ok(false);
        }
        earlier = earlier.with(alloc, property.name.as_str())?;
    }
    Ok(true)
}

/// The first property of each name.
fn firsts(alloc: Global, properties: &[Property]) -> Result<Seq<Property>, ListFault>
    ensures { IfOk result (λ ps. ps ≡ inherited.firsts [] properties.now) }
{
    let mut earlier = NameIndex::new(alloc);
    let mut kept = Seq::new(alloc);
    for property in properties {
        if !earlier.has(property.name.as_str()) {
            kept.push(property.copy(alloc)?)?;
            earlier = earlier.with(alloc, property.name.as_str())?;
        }
    }
    Ok(kept)
}

/// Puts a property last, unless it has a flag.
fn add_unflagged(
    alloc: Global,
    kept: &mut Seq<Property>,
    flag: bool,
    property: &Property,
) -> Result<(), ListFault>
    ensures { OnOk result (kept.new ≡ kept.old ++ (if flag then [] else property.now ∷ [])) }
{
    if flag {
        return Ok(());
    }
    kept.push(property.copy(alloc)?)
}

/// The properties that have no flag.
fn unflagged(
    alloc: Global,
    flags: &[bool],
    properties: &[Property],
) -> Result<Seq<Property>, ListFault>
    requires { length flags.now ≡ length properties.now }
    ensures { IfOk result (λ ps. (names : List (List ℕ)) → flags.now ≡ repeat_flags bytes_eq names (inherited.names_of properties.now) → ps ≡ inherited.firsts names properties.now) }
{
    let mut kept = Seq::new(alloc);
    for (place, property) in properties.iter().enumerate() {
        add_unflagged(alloc, &mut kept, flags[place], property)?;
    }
    Ok(kept)
}

/// How many properties all classes together may get as their own because two that they inherit have one name. A text with more is
/// refused as out of memory: the copies grow with the classes times what each inherits, and nothing of such a text is run.
const MOST_COPIES: usize = 1 << 17;

/// Takes so many copies, where so many are left.
fn take_copies(left: &mut usize, count: usize) -> Result<(), ListFault>
    ensures { OnOk result (left.new + count ≡ left.old) }
{
    let Some(rest) = left.checked_sub(count) else {
        return Err(ListFault::NoMemory);
    };
    *left = rest;
    Ok(())
}

/// The class as its name is read, where two properties that it inherits have one name.
fn read_apart(
    alloc: Global,
    all: &[Property],
    list: &[FeatureNo],
    class: &Declared,
    copies: &mut usize,
) -> Result<Declared, ListFault>
    ensures { IfOk result (λ d. d ≡ record { name = class.now.name; supers = []; properties = inherited.firsts [] (map (inherited.property_at all.now) list.now); place = class.now.place }) }
{
    take_copies(copies, list.len())?;
    let properties = properties_at(alloc, all, list)?;
    Ok(Declared {
        name: class.name.copy(alloc)?,
        supers: Seq::new(alloc),
        properties: firsts(alloc, properties.as_slice())?,
        place: class.place,
    })
}

/// The class as its name is read: of properties of one name it has the first. It tells them: at the class where both are inherited,
/// else at its own. Where no two of the inherited have one name, only its own are looked at.
fn read_class(
    alloc: Global,
    all: &[Property],
    list: &[FeatureNo],
    flags: &[bool],
    first: Option<usize>,
    class: &Declared,
    copies: &mut usize,
    log: &mut RefusalList,
) -> Result<Declared, ListFault>
    requires own { inherited.IsOwnLast all.now list.now class.now }
    requires flags { flags.now ≡ name_flags (keys.names_at all.now list.now) }
    requires first { first ≡ position (λ b. b) (name_flags (keys.names_at all.now list.now)) }
    ensures read { IfOk result (λ d. d ≡ inherited.read_class (map (inherited.property_at all.now) list.now) class.now) }
    ensures told { OnOk result (log.new ≡ log.old ++ inherited.same_told (map (inherited.property_at all.now) list.now) class.now) }
{
    let (inherited, own) = parted(flags, class.properties.len());
    let twice = inherits_twice(first, inherited);
    tell_if(log, twice, RefusalKind::SameName, class.place)?;
    tell_own(own, class.properties.as_slice(), log)?;
    if twice {
        let read = read_apart(alloc, all, list, class, copies)?;
        return Ok(read);
    }
    Ok(Declared {
        name: class.name.copy(alloc)?,
        supers: class.supers.copy(alloc)?,
        properties: unflagged(alloc, own, class.properties.as_slice())?,
        place: class.place,
    })
}

/// All classes as they are read, by the properties of all and the numbers of those of each, and what is told of their properties of
/// one name. The last properties of a class are its own.
pub fn read_all(
    alloc: Global,
    all: &[Property],
    lists: &FeatureLists,
    classes: &[Declared],
    log: &mut RefusalList,
) -> Result<Seq<Declared>, ListFault>
    requires { (i : ℕ) (d : Declared) → i < length classes.now → inherited.IsOwnLast all.now (slice_index_or (all_lists lists.now) i []) (slice_index_or classes.now i d) }
    ensures read { IfOk result (λ ds. ds ≡ inherited.read_from all.now (all_lists lists.now) 0 classes.now) }
    ensures told { OnOk result (log.new ≡ log.old ++ inherited.same_told_from all.now (all_lists lists.now) 0 classes.now) }
{
    let repeats = name_repeats(alloc, all, lists)?;
    let mut copies = MOST_COPIES;
    let mut read = Seq::new(alloc);
    for (place, class) in classes.iter().enumerate() {
        let list = lists.at(place);
        let flags = repeats.flags(place);
        let first = repeats.first(place);
        read.push(read_class(alloc, all, list, flags, first, class, &mut copies, log)?)?;
    }
    Ok(read)
}
