//! Reads `m.json`: with the word `json` its JSON value alone, with any other words the metamodel that it is.
//! `bench/meta.sh` times it.

use crate::files::file_bytes;
use crate::words::word;
use qvt_base::outside::Files;
use qvt_json::value::read_value;
use qvt_meta::meta::read_meta;
use std::alloc::Global;

const MOST_BYTES: u32 = 1_048_576;

fn is_read(alloc: Global, bytes: &[u8], form: &str) -> bool {
    match form {
        "json" => match read_value(alloc, bytes) {
            Ok(value) => value.is_some(),
            Err(_) => false,
        },
        _ => read_meta(alloc, bytes).is_ok(),
    }
}

pub fn run<F: Files>(alloc: Global, words: &[&str], files: &mut F) -> Option<()> {
    let bytes = file_bytes(alloc, files, "m.json", MOST_BYTES)?;
    if !is_read(alloc, bytes.as_slice(), word(words, 1)) {
        return None;
    }
    Some(())
}
