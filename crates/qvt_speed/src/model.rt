//! Reads `m.json`, a metamodel, and `d.json`, one of its models. Its word tells what is done with the model: `json` reads its
//! value and writes it, `read` reads the model alone, `check` looks for its faults too, `write` loads it and writes it, `again`
//! reads, loads and writes what was written once more. What is written is told, by `again` only where it is the same.
//! `bench/model.sh` times it.

use crate::files::file_bytes;
use crate::metas::{metas_of, one_model};
use crate::words::word;
use qvt_base::lists::Bytes;
use qvt_base::outside::Files;
use qvt_base::seq::Seq;
use qvt_checks::conditions::are_named;
use qvt_json::value::read_value;
use qvt_loading::loading::{empty_store, load_text, read_faultless, written_text};
use qvt_metas::metas::Metas;
use qvt_model::id_table::IdTable;
use qvt_model::read::read_model;
use std::alloc::Global;

const MOST_BYTES: u32 = 16_777_216;

/// The text of the file's value.
fn value_written(alloc: Global, bytes: &[u8]) -> Option<Bytes> {
    let value = read_value(alloc, bytes).ok()??;
    let text = value.to_vec(alloc).ok()?;
    Some(Bytes::from_vec(text))
}

/// The text of the file's model, loaded.
fn model_written(alloc: Global, metas: &Metas, bytes: &[u8]) -> Option<Bytes> {
    let extents = one_model(alloc)?;
    if !are_named(metas, &extents) {
        return None;
    }
    let mut store = empty_store(alloc, metas, &extents)?;
    let mut ids = IdTable::new(alloc);
    if !load_text(alloc, &mut store, &mut ids, bytes, 0, 0) {
        return None;
    }
    written_text(alloc, &store, 0)
}

/// The text of the file's model, if it is read as a model that is written so.
fn written_again(alloc: Global, metas: &Metas, bytes: &[u8]) -> Option<Bytes> {
    let text = model_written(alloc, metas, bytes)?;
    let again = model_written(alloc, metas, text.as_slice())?;
    if text.as_slice() != again.as_slice() {
        return None;
    }
    Some(again)
}

/// What is told of a model's file, None where it is refused.
fn answer(alloc: Global, form: &str, metas: &Metas, bytes: &[u8]) -> Option<Bytes> {
    if metas.metamodel_count() == 0 {
        return None;
    }
    match form {
        "json" => value_written(alloc, bytes),
        "read" => {
            read_model(alloc, bytes, metas, 0).ok()?;
            Some(Seq::new(alloc))
        }
        "check" => {
            read_faultless(alloc, bytes, metas, 0)?;
            Some(Seq::new(alloc))
        }
        "write" => model_written(alloc, metas, bytes),
        _ => written_again(alloc, metas, bytes),
    }
}

pub fn run<F: Files>(alloc: Global, words: &[&str], files: &mut F, out: &mut Bytes) -> Option<()> {
    let metamodel = file_bytes(alloc, files, "m.json", MOST_BYTES)?;
    let metas = metas_of(alloc, metamodel.as_slice())?;
    let model = file_bytes(alloc, files, "d.json", MOST_BYTES)?;
    let text = answer(alloc, word(words, 1), &metas, model.as_slice())?;
    out.extend(text.as_slice()).ok()
}
