//! The metamodels that the tests stand on, and types that are written as words.

use qvt_base::numbers::ClassNo;
use qvt_base::seq::Seq;
use qvt_meta::meta::read_meta;
use qvt_metas::metas::Metas;
use qvt_tree_types::words::CollKind;
use qvt_types_data::boxed::Boxed;
use qvt_types_data::ty::Ty;
use std::alloc::Global;
use std::test::Fail;

/// Shapes: a class without objects, two below it, and one below these two; what holds shapes; and a color.
const SHAPES: &str = "{\"classes\":[\
    {\"abstract\":true,\"features\":[{\"lower\":1,\"name\":\"name\",\"type\":\"String\"}],\"name\":\"Shape\"},\
    {\"features\":[{\"name\":\"radius\",\"type\":\"Integer\"}],\"name\":\"Circle\",\"supers\":[\"Shape\"]},\
    {\"features\":[{\"name\":\"side\",\"type\":\"Integer\"}],\"name\":\"Square\",\"supers\":[\"Shape\"]},\
    {\"name\":\"Both\",\"supers\":[\"Circle\",\"Square\"]},\
    {\"features\":[\
    {\"containment\":true,\"name\":\"shapes\",\"ordered\":true,\"type\":\"Shape\",\"upper\":\"*\"},\
    {\"name\":\"color\",\"type\":\"Color\"},\
    {\"name\":\"tags\",\"type\":\"String\",\"unique\":false,\"upper\":\"*\"},\
    {\"name\":\"next\",\"type\":\"Box\"}],\"name\":\"Box\"}],\
    \"enums\":[{\"literals\":[\"red\",\"green\"],\"name\":\"Color\"}],\
    \"name\":\"M\"}";

/// Circles of another metamodel.
const CIRCLES: &str = "{\"classes\":[\
    {\"features\":[{\"name\":\"area\",\"type\":\"Integer\"}],\"name\":\"Circle\"},\
    {\"name\":\"Node\"}],\
    \"name\":\"N\",\"uri\":\"http://n\"}";

fn with(metas: Metas, alloc: Global, text: &str) -> Result<Metas, Fail> {
    let Ok(meta) = read_meta(alloc, text.as_bytes()) else {
        return Err(Fail::new("a metamodel that is refused"));
    };
    if !metas.has_room(&meta) {
        return Err(Fail::new("no room for the metamodel"));
    }
    let mut metas = metas;
    match metas.add(meta) {
        Ok(()) => Ok(metas),
        Err(_) => Err(Fail::new("no memory for the metamodel")),
    }
}

/// The two metamodels: M has the classes 0 to 4, N the classes 5 and 6.
pub fn metas(alloc: Global) -> Result<Metas, Fail> {
    let metas = Metas::new(alloc);
    let metas = with(metas, alloc, SHAPES)?;
    with(metas, alloc, CIRCLES)
}

fn kind_named(word: &str) -> Result<CollKind, Fail> {
    match word {
        "Set" => Ok(CollKind::Set),
        "Bag" => Ok(CollKind::Bag),
        "Sequence" => Ok(CollKind::Sequence),
        "OrderedSet" => Ok(CollKind::OrderedSet),
        _ => Err(Fail::new("a kind")),
    }
}

fn base_named(metas: &Metas, word: &str) -> Result<Ty, Fail> {
    match word {
        "Void" => Ok(Ty::Void),
        "Boolean" => Ok(Ty::Boolean),
        "Integer" => Ok(Ty::Integer),
        "String" => Ok(Ty::Str),
        "Color" => Ok(Ty::Enum(0, 0)),
        "N::Circle" => Ok(Ty::Class(ClassNo(5))),
        _ => {
            let class = metas.class(0, word).ok_or("a class")?;
            Ok(Ty::Class(class))
        }
    }
}

/// A type that is written from the inside to the outside, as `Integer Set Bag`; `-` stands for none.
pub fn type_of(alloc: Global, metas: &Metas, words: &str) -> Result<Option<Ty>, Fail> {
    let mut words = words.split_whitespace();
    let first = words.next().ok_or("a type")?;
    if first == "-" {
        return Ok(None);
    }
    let mut t = base_named(metas, first)?;
    for word in words {
        let kind = kind_named(word)?;
        t = Ty::Coll(kind, Boxed::new(alloc, t)?);
    }
    Ok(Some(t))
}

pub fn known(alloc: Global, metas: &Metas, words: &str) -> Result<Ty, Fail> {
    match type_of(alloc, metas, words)? {
        Some(t) => Ok(t),
        None => Err(Fail::new("a type that is not known")),
    }
}

/// Types behind commas, of which some may be `-`.
pub fn parts_of(alloc: Global, metas: &Metas, words: &str) -> Result<Seq<Option<Ty>>, Fail> {
    let mut types = Seq::new(alloc);
    for part in words.split(',') {
        if !part.is_empty() {
            types.push(type_of(alloc, metas, part)?)?;
        }
    }
    Ok(types)
}

/// Types behind commas.
pub fn types_of(alloc: Global, metas: &Metas, words: &str) -> Result<Seq<Ty>, Fail> {
    let mut types = Seq::new(alloc);
    for part in words.split(',') {
        if !part.is_empty() {
            types.push(known(alloc, metas, part)?)?;
        }
    }
    Ok(types)
}

/// The same, or none where `-` stands.
pub fn arguments(alloc: Global, metas: &Metas, words: &str) -> Result<Option<Seq<Ty>>, Fail> {
    if words == "-" {
        return Ok(None);
    }
    let types = types_of(alloc, metas, words)?;
    Ok(Some(types))
}

/// What stands before the first bar of a line, and behind it.
pub fn before(line: &str) -> Result<(&str, &str), Fail> {
    match line.split_once(" | ") {
        Some(parts) => Ok(parts),
        None => Err(Fail::new("a line without a bar")),
    }
}
