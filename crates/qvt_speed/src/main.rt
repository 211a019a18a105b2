//! Families of calls that are timed, or go as deep as may be. The first word names the family: `meta`, `store`, `model`,
//! `parse`, `typing`, `operations`, `value-depth` or `parse-depth`; the words after it are the family's own, and the files that it
//! reads are those of the working folder. Without words it does what each line of standard input says, until one fails.
#![tactic(auto)]

mod files;
mod forms;
mod items;
mod meta;
mod metas;
mod model;
mod operations;
mod parse;
mod parse_depth;
mod store;
mod typing;
mod value_depth;
mod watch;
mod words;

use qvt_base::lists::Bytes;
use qvt_base::outside::Files;
use qvt_base::real::DirFiles;
use qvt_base::seq::Seq;
use std::alloc::Global;
use std::env;
use std::io::{self, Write};
use std::process::ExitCode;
use std::rt::{Clock, Env};
use std::time::CpuClock;
use words::{parted, word};

/// Does what the words say. What is told stands in `out`, also where it fails.
fn perform<R: Clock + CpuClock, F: Files>(
    rt: &R,
    alloc: Global,
    words: &[&str],
    files: &mut F,
    out: &mut Bytes,
) -> Option<()> {
    match word(words, 0) {
        "meta" => meta::run(alloc, words, files),
        "store" => store::run(alloc, words, out),
        "model" => model::run(alloc, words, files, out),
        "parse" => parse::run(rt, alloc, words, files, out),
        "typing" => typing::run(rt, alloc, words, files, out),
        "operations" => operations::run(rt, alloc, words, out),
        "value-depth" => value_depth::run(alloc, out),
        "parse-depth" => parse_depth::run(alloc, out),
        _ => None,
    }
}

fn push_word(line: &mut String, word: &str) -> Option<()> {
    if !line.is_empty() {
        line.push(' ').ok()?;
    }
    line.push_str(word).ok()
}

/// The words after the program's name, in one line.
fn line_of_words(rt: &(impl Env + AllocGlobal)) -> Option<String> {
    let mut line = String::new(rt.alloc());
    for word in env::args(rt).ok()?.skip(1) {
        push_word(&mut line, word.as_str())?;
    }
    Some(line)
}

/// Does what a line says, and prints what is told.
fn line_done(rt: HostRuntime, line: &str) -> Option<()> {
    let alloc = rt.alloc();
    let words = parted(alloc, line)?;
    let mut files = DirFiles::new(rt);
    let mut out = Seq::new(alloc);
    let done = perform(&rt, alloc, words.as_slice(), &mut files, &mut out);
    io::writer(&rt).write_all(out.as_slice()).ok()?;
    done
}

/// Does what each line of standard input says, until one fails.
fn lines_done(rt: HostRuntime) -> Option<()> {
    let text = io::read_to_string(rt.alloc(), rt.reader()).ok()?;
    for line in text.lines() {
        line_done(rt, line)?;
    }
    Some(())
}

fn main(rt: HostRuntime) -> ExitCode {
    let done = match line_of_words(&rt) {
        None => None,
        Some(line) if line.is_empty() => lines_done(rt),
        Some(line) => line_done(rt, line.as_str()),
    };
    match done {
        Some(()) => ExitCode::from(0),
        None => ExitCode::from(1),
    }
}
