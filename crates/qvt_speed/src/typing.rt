//! Reads `m.json` and `t.qvto`: with the word `parse` the metamodel and the transformation, with any other words it types the
//! transformation too. With the word `time` it tells how many microseconds it took to read the transformation, from the text
//! at hand to the tree, and to type it, from the tree to the program. `bench/typing.sh` times it.

ghost use Rattle.std.specs.Prelude.{◌+◌, ◌<◌, ◌^◌, ◌≡◌, None, length};

use crate::files::file_bytes;
use crate::metas::metas_of;
use crate::words::word;
use qvt_base::lists::Bytes;
use qvt_base::outside::Files;
use qvt_metas::metas::Metas;
use qvt_parser::parse::parse;
use qvt_types::accepting::accept;
use std::alloc::Global;
use std::rt::Clock;
use std::time::Instant;

const MOST_BYTES: u32 = 1_048_576;

/// Whether the text is a transformation.
fn is_parsed(alloc: Global, text: &str) -> bool
    requires { length text.now + 1 < 2 ^ 32 }
{
    parse(alloc, text).is_ok()
}

/// Whether the text is a transformation that is accepted.
fn is_accepted(alloc: Global, text: &str, metas: &Metas) -> bool
    requires short { length text.now + 1 < 2 ^ 32 }
    requires element { metas.now.element ≡ None }
{
    match parse(alloc, text) {
        Ok(module) => accept(alloc, &module, metas).is_ok(),
        Err(_) => false,
    }
}

/// How many microseconds it took to read the transformation, and how many to accept it.
fn taken<R: Clock>(rt: &R, alloc: Global, text: &str, metas: &Metas) -> Option<(u128, u128)>
    requires short { length text.now + 1 < 2 ^ 32 }
    requires element { metas.now.element ≡ None }
{
    let reading = Instant::now(rt).ok()?;
    let module = parse(alloc, text).ok()?;
    let read = reading.elapsed(rt).ok()?;
    let typing = Instant::now(rt).ok()?;
    let program = accept(alloc, &module, metas);
    let typed = typing.elapsed(rt).ok()?;
    if program.is_err() {
        return None;
    }
    Some((read.as_micros(), typed.as_micros()))
}

/// Tells how many microseconds it took to read the transformation, and how many to accept it.
fn timed<R: Clock>(rt: &R, alloc: Global, text: &str, metas: &Metas, out: &mut Bytes) -> Option<()>
    requires short { length text.now + 1 < 2 ^ 32 }
    requires element { metas.now.element ≡ None }
{
    let (read, typed) = taken(rt, alloc, text, metas)?;
    let line = format!(in alloc; "{read} {typed}\n").ok()?;
    out.extend(line.as_bytes()).ok()
}

/// Whether what the form asks of the text is done.
fn is_done(alloc: Global, form: &str, text: &str, metas: &Metas) -> bool
    requires short { length text.now + 1 < 2 ^ 32 }
    requires element { metas.now.element ≡ None }
{
    match form {
        "parse" => is_parsed(alloc, text),
        _ => is_accepted(alloc, text, metas),
    }
}

pub fn run<R: Clock, F: Files>(
    rt: &R,
    alloc: Global,
    words: &[&str],
    files: &mut F,
    out: &mut Bytes,
) -> Option<()> {
    let meta = file_bytes(alloc, files, "m.json", MOST_BYTES)?;
    let bytes = file_bytes(alloc, files, "t.qvto", MOST_BYTES)?;
    let metas = metas_of(alloc, meta.as_slice())?;
    match str::from_utf8(bytes.as_slice()) {
        Ok(text) if text.len() < 1_000_000 => match word(words, 1) {
            "time" => timed(rt, alloc, text, &metas, out),
            form if is_done(alloc, form, text, &metas) => Some(()),
            _ => None,
        },
        _ => None,
    }
}
