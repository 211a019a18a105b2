//! Names that are no variables.

use super::ground::{metas, type_of};
use super::shown::ruling_shown;
use qvt_base::seq::Seq;
use qvt_base::text::Text;
use qvt_metas::metas::Metas;
use qvt_types_data::variable::{Variable, VariableSort};
use qvt_types_names::sources::{by_sources, model_or};
use std::alloc::Global;
use std::test::Fail;

/// Implicit sources, each as its name and its type behind a colon; the nearest stands last.
fn sources(alloc: Global, metas: &Metas, words: &str) -> Result<Seq<Variable>, Fail> {
    let mut sources = Seq::new(alloc);
    for word in words.split_whitespace() {
        let (name, t) = word.split_once(':').ok_or("a source")?;
        sources.push(Variable {
            name: Text::from_str(alloc, name)?,
            sort: VariableSort::Implicit,
            ty: type_of(alloc, metas, t)?,
        })?;
    }
    Ok(sources)
}

const SOURCES: [(&str, &str, &str); 6] = [
    ("self:Box", "next", "self.next: Box"),
    ("self:Box x:Circle", "next", "self.next: Box"),
    ("self:Square x:Circle", "name", "x.name: String"),
    ("self:Box x:-", "next", "silent"),
    ("self:Box x:Integer", "radius", "UnknownName"),
    ("", "next", "UnknownName"),
];

#[test]
fn properties_of_implicit_sources(rt: HostRuntime) -> Result<(), Fail> {
    let alloc = rt.alloc();
    let metas = metas(alloc)?;
    let first = metas.feature_infos().len() as u32;
    for (words, name, expected) in &SOURCES {
        let sources = sources(alloc, &metas, words)?;
        let ruling = by_sources(alloc, &metas, first, &[], name, sources.as_slice())?;
        let shown = ruling_shown(alloc, &metas, &ruling)?;
        assert!(rt; shown.as_str() == *expected, "{words} {expected}");
    }
    Ok(())
}

/// From the feature `name` on none has a known type.
const MODELS: [(Option<u32>, bool, &str); 3] = [
    (Some(1), true, "model 1: -"),
    (Some(1), false, "ModelUse"),
    (None, false, "x.name: -"),
];

#[test]
fn names_of_models(rt: HostRuntime) -> Result<(), Fail> {
    let alloc = rt.alloc();
    let metas = metas(alloc)?;
    let sources = sources(alloc, &metas, "x:Circle")?;
    for (model, is_source, expected) in &MODELS {
        let among = sources.as_slice();
        let ruling = model_or(
            alloc,
            &metas,
            0,
            &[false],
            *is_source,
            among,
            "name",
            *model,
        )?;
        let shown = ruling_shown(alloc, &metas, &ruling)?;
        assert!(rt; shown.as_str() == *expected, "{expected}");
    }
    Ok(())
}
