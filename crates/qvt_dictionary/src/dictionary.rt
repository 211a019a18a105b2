//! What a model is read by: metamodels, with the literals of the model's own looked up by hash.

ghost use Rattle.std.specs.Prelude.{◌≡◌, [], ◌<◌, IfOk};
ghost use Rattle.qvt_metas.specs.Metamodels.{Metamodels};
ghost use Rattle.qvt_metas.specs.Named.{enumeration_at, literal_named};
ghost use Rattle.qvt_dictionary.specs.Literals.{AreLiterals, EachIsFirst};

use crate::texts::TextSet;
use qvt_base::list_fault::ListFault;
use qvt_base::seq::Seq;
use qvt_base::text::Text;
use qvt_metas::metas::Metas;
use std::alloc::Global;
use std::marker::Model;

/// Texts of which no two are equal, as a set.
fn set_of(alloc: Global, texts: &[Text]) -> Result<TextSet, ListFault>
    requires { EachIsFirst texts.now }
    ensures { IfOk result (λ set. set ≡ texts.now) }
{
    let mut set = TextSet::new(alloc);
    for text in texts {
        set.add(alloc, text.as_str())?;
    }
    Ok(set)
}

/// The literals of an enumeration, as a set.
fn literals_of(
    alloc: Global,
    metas: &Metas,
    metamodel: u32,
    enumeration: u32,
) -> Result<TextSet, ListFault>
    ensures { IfOk result (λ set. set ≡ (enumeration_at metas.now metamodel enumeration).literals) }
{
    metas.are_well_formed();
    let set = set_of(alloc, metas.literals(metamodel, enumeration))?;
    Ok(set)
}

/// The literals of each enumeration of a metamodel, as sets.
fn all_literals(alloc: Global, metas: &Metas, metamodel: u32) -> Result<Seq<TextSet>, ListFault>
    ensures { IfOk result (AreLiterals metas.now metamodel) }
{
    let count = metas.enumerations(metamodel).len() as u32;
    let mut sets = Seq::new(alloc);
    for enumeration in 0..count {
        sets.push(literals_of(alloc, metas, metamodel, enumeration)?)?;
    }
    Ok(sets)
}

/// Metamodels, and the literals of each enumeration of one of them, looked up by hash.
pub struct Dictionary<'a> {
    metas: &'a Metas,
    metamodel: u32,
    literals: Seq<TextSet>,
}

impl Drop for Dictionary<'_> {
    fn drop(self) {
        let Dictionary {
            metas,
            metamodel,
            literals,
        } = self;
    }
}

impl<'a> Model for Dictionary<'a> {
    ghost Value = { Metamodels };

    ghost view = { λ d. d.metas.now };

    ghost invariant = { λ d. AreLiterals d.metas.now d.metamodel d.literals };
}

impl<'a> Dictionary<'a> {
    /// That of a model of this metamodel.
    pub fn of(alloc: Global, metas: &'a Metas, metamodel: u32) -> Result<Dictionary<'a>, ListFault>
        ensures { IfOk result (λ d. d ≡ metas.now) }
    {
        let literals = all_literals(alloc, metas, metamodel)?;
        Ok(Dictionary {
            metas,
            metamodel,
            literals,
        })
    }

    /// The metamodels.
    pub fn metas(&self) -> &Metas
        ensures { result.now ≡ self.now }
    {
        self.metas
    }

    /// The literal of this name. The enumerations of the model's metamodel alone are looked up by hash, since its features have
    /// no others.
    pub fn literal(&self, metamodel: u32, enumeration: u32, name: &str) -> Option<u32>
        ensures { result ≡ literal_named self.now metamodel enumeration name.now }
    {
        let at = enumeration as usize;
        if metamodel != self.metamodel || at >= self.literals.len() {
            return self.metas.literal(metamodel, enumeration, name);
        }
        self.metas.are_well_formed();
        match self.literals.as_slice()[at].position(name) {
            Some(place) => Some(place as u32),
            None => None,
        }
    }
}
