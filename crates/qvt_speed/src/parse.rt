//! Reads `t.qvto`: with the word `bytes` its bytes alone, with the word `tokens` the tokens too, with the word `print` the
//! transformation that it is, which is then printed, with any other words the transformation. With the word `time` it tells
//! how many microseconds the reading of the transformation took, from the bytes at hand to the tree. `bench/parse.sh` times
//! it.

ghost use Rattle.std.specs.Prelude.{◌+◌, ◌<◌, ◌^◌, length};

use crate::files::file_bytes;
use crate::words::word;
use qvt_base::lists::Bytes;
use qvt_base::outside::Files;
use qvt_lexer::lexer::Lexer;
use qvt_lexer::token::TokenKind;
use qvt_parser::parse::parse;
use qvt_printer::print::print;
use std::alloc::Global;
use std::rt::Clock;
use std::time::Instant;

const MOST_BYTES: u32 = 262_144;

/// Whether the text is tokens to its end.
fn is_lexed(text: &str) -> bool
    requires { length text.now + 1 < 2 ^ 32 }
{
    let mut lexer = Lexer::new(text);
    for _token in 0..=text.len() {
        match lexer.next() {
            Ok(token) => {
                if token.kind == TokenKind::End {
                    return true;
                }
            }
            Err(_) => return false,
        }
    }
    false
}

/// Whether the text is a transformation.
fn is_parsed(alloc: Global, text: &str) -> bool
    requires { length text.now + 1 < 2 ^ 32 }
{
    parse(alloc, text).is_ok()
}

/// Whether the text is a transformation, and its printed text is made.
fn is_printed(alloc: Global, text: &str) -> bool
    requires { length text.now + 1 < 2 ^ 32 }
{
    match parse(alloc, text) {
        Ok(transformation) => print(alloc, &transformation).is_ok(),
        Err(_) => false,
    }
}

/// Whether what the form asks of the text is done.
fn is_done(alloc: Global, form: &str, text: &str) -> bool
    requires { length text.now + 1 < 2 ^ 32 }
{
    match form {
        "bytes" => true,
        "tokens" => is_lexed(text),
        "print" => is_printed(alloc, text),
        _ => is_parsed(alloc, text),
    }
}

/// How many microseconds it took to tell that the text is a transformation.
fn taken<R: Clock>(rt: &R, alloc: Global, text: &str) -> Option<u128>
    requires { length text.now + 1 < 2 ^ 32 }
{
    let begin = Instant::now(rt).ok()?;
    let is_good = is_parsed(alloc, text);
    let took = begin.elapsed(rt).ok()?;
    if !is_good {
        return None;
    }
    Some(took.as_micros())
}

/// Tells how many microseconds it took to read the transformation.
fn timed<R: Clock>(rt: &R, alloc: Global, text: &str, out: &mut Bytes) -> Option<()>
    requires { length text.now + 1 < 2 ^ 32 }
{
    let took = taken(rt, alloc, text)?;
    let line = format!(in alloc; "{took}\n").ok()?;
    out.extend(line.as_bytes()).ok()
}

pub fn run<R: Clock, F: Files>(
    rt: &R,
    alloc: Global,
    words: &[&str],
    files: &mut F,
    out: &mut Bytes,
) -> Option<()> {
    let bytes = file_bytes(alloc, files, "t.qvto", MOST_BYTES)?;
    match str::from_utf8(bytes.as_slice()) {
        Ok(text) if text.len() < 1_000_000 => match word(words, 1) {
            "time" => timed(rt, alloc, text, out),
            form if is_done(alloc, form, text) => Some(()),
            _ => None,
        },
        _ => None,
    }
}
