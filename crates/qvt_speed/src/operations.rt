//! Applies an operation so many times to a collection of so many items, or to a text of so many characters. Its words are the
//! form, the items (`numbers`, `texts` or `rising` numbers; of a text `letters` or `digits`), the kind (`set`, `bag`, `sequence`
//! or `ordered`) and the two numbers. The forms `copy` and `sort` are plain loops over a vector of the same values, `copy` in the
//! order that they have in the collection, `chars` is one over the text. After the words `onto`, `made` and `made-onto` come an
//! operation's words: each answer is handed over to the next call, the source is known to be as made, or both. After the word
//! `time` come the words of any of these: it tells how many microseconds of the processor each call took. `bench/operations.sh`
//! asks it.

ghost use Rattle.std.specs.Prelude.{All, IfSome};
ghost use Rattle.qvt_value.specs.Items.{stands_for};
ghost use Rattle.qvt_ocl_made.specs.AsMade.{IsAsMade};

use crate::forms::{
    Taking, Work, collection, collection_arguments, on_collections, on_texts, text, text_arguments,
    work_of,
};
use crate::items::{items, long_text};
use crate::watch::{now, tell};
use crate::words::word;
use qvt_base::lists::Bytes;
use qvt_base::numbers::Place;
use qvt_base::seq::Seq;
use qvt_ocl::apply::{apply, apply_made_lent, apply_made_owned, apply_owned};
use qvt_ocl_made::as_made::{are_as_made, is_as_made};
use qvt_ocl_words::op::Op;
use qvt_value::copy::copies;
use qvt_value::items::Items;
use qvt_value::value::{Value, Values};
use std::alloc::Global;
use std::time::CpuClock;

const HERE: Place = Place {
    line: 1,
    column: 1,
    offset: 0,
};

/// Makes the calls of an operation on a source.
fn called<R: CpuClock>(
    rt: &R,
    alloc: Global,
    op: Op,
    source: &Value,
    args: &[Value],
    times: u32,
    told: &mut Bytes,
) -> Option<()> {
    for _time in 0..times {
        let begin = now(rt)?;
        apply(alloc, op, HERE, source, args).ok()?;
        tell(rt, alloc, begin, told)?;
    }
    Some(())
}

fn on_collection<R: CpuClock>(
    rt: &R,
    alloc: Global,
    op: Op,
    taking: Taking,
    work: &Work,
    told: &mut Bytes,
) -> Option<()> {
    let source = collection(alloc, work)?;
    let args = collection_arguments(alloc, taking, work)?;
    called(rt, alloc, op, &source, args.as_slice(), work.times, told)
}

fn on_text<R: CpuClock>(
    rt: &R,
    alloc: Global,
    op: Op,
    taking: Taking,
    work: &Work,
    told: &mut Bytes,
) -> Option<()> {
    let source = text(alloc, work)?;
    let args = text_arguments(alloc, taking, work)?;
    called(rt, alloc, op, &source, args.as_slice(), work.times, told)
}

/// Makes the calls of an operation, each on the answer of the call before it.
fn onto_collection<R: CpuClock>(
    rt: &R,
    alloc: Global,
    op: Op,
    taking: Taking,
    work: &Work,
    told: &mut Bytes,
) -> Option<()> {
    let args = collection_arguments(alloc, taking, work)?;
    let mut answer = collection(alloc, work)?;
    for _time in 0..work.times {
        let begin = now(rt)?;
        answer = apply_owned(alloc, op, HERE, answer, args.as_slice()).ok()?;
        tell(rt, alloc, begin, told)?;
    }
    Some(())
}

fn called_made<R: CpuClock>(
    rt: &R,
    alloc: Global,
    op: Op,
    source: &Items<'_>,
    args: &[Value],
    times: u32,
    told: &mut Bytes,
) -> Option<()>
    requires { IsAsMade (stands_for source.now) }
{
    for _time in 0..times {
        let begin = now(rt)?;
        apply_made_lent(alloc, op, HERE, source, args).ok()?;
        tell(rt, alloc, begin, told)?;
    }
    Some(())
}

/// Makes the calls of an operation on a source that is as made.
fn on_made<R: CpuClock>(
    rt: &R,
    alloc: Global,
    op: Op,
    taking: Taking,
    work: &Work,
    told: &mut Bytes,
) -> Option<()> {
    let source = collection(alloc, work)?;
    let args = collection_arguments(alloc, taking, work)?;
    if !is_as_made(alloc, &source).ok()? {
        return None;
    }
    match &source {
        Value::Coll(kind, items) => {
            let lent = Items::Lent(*kind, items.as_slice());
            called_made(rt, alloc, op, &lent, args.as_slice(), work.times, told)
        }
        _ => None,
    }
}

/// The collection, where it is as made.
fn collection_made(alloc: Global, work: &Work) -> Option<Value>
    ensures { IfSome result (λ value. IsAsMade value) }
{
    let value = collection(alloc, work)?;
    if is_as_made(alloc, &value).ok()? {
        Some(value)
    } else {
        None
    }
}

/// Makes a call on a source that is as made, of arguments that are.
fn one_onto_made<R: CpuClock>(
    rt: &R,
    alloc: Global,
    op: Op,
    source: Value,
    args: &[Value],
    told: &mut Bytes,
) -> Option<Value>
    requires source { IsAsMade source }
    requires args { All IsAsMade args.now }
    ensures { IfSome result (λ answer. IsAsMade answer) }
{
    let begin = now(rt)?;
    let answer = apply_made_owned(alloc, op, HERE, source, args).ok()?;
    tell(rt, alloc, begin, told)?;
    Some(answer)
}

/// Makes the calls of an operation on a source that is as made, each on the answer of the call before it.
fn onto_made<R: CpuClock>(
    rt: &R,
    alloc: Global,
    op: Op,
    taking: Taking,
    work: &Work,
    told: &mut Bytes,
) -> Option<()> {
    let args = collection_arguments(alloc, taking, work)?;
    let mut answer = collection_made(alloc, work)?;
    if !are_as_made(alloc, args.as_slice()).ok()? {
        return None;
    }
    for _time in 0..work.times {
        answer = one_onto_made(rt, alloc, op, answer, args.as_slice(), told)?;
    }
    Some(())
}

fn copied<R: CpuClock>(rt: &R, alloc: Global, work: &Work, told: &mut Bytes) -> Option<()> {
    let Ok((_, items)) = collection(alloc, work)?.into_items() else {
        return None;
    };
    for _time in 0..work.times {
        let begin = now(rt)?;
        copies(alloc, items.as_slice()).ok()?;
        tell(rt, alloc, begin, told)?;
    }
    Some(())
}

fn sorted_copy(alloc: Global, items: &[Value]) -> Option<()> {
    let mut sorted = copies(alloc, items).ok()?;
    sorted.sort();
    Some(())
}

fn sorted<R: CpuClock>(rt: &R, alloc: Global, work: &Work, told: &mut Bytes) -> Option<()> {
    let items = items(alloc, work.data, 0, work.n)?;
    for _time in 0..work.times {
        let begin = now(rt)?;
        sorted_copy(alloc, items.as_slice())?;
        tell(rt, alloc, begin, told)?;
    }
    Some(())
}

fn sum_of_characters(text: &str) -> u64 {
    let mut sum: u64 = 0;
    for c in text.chars() {
        sum = sum.wrapping_add(u64::from(u32::from(c)));
    }
    sum
}

fn summed<R: CpuClock>(rt: &R, alloc: Global, work: &Work, told: &mut Bytes) -> Option<u64> {
    let text = long_text(alloc, work.data, work.n)?;
    let mut all: u64 = 0;
    for _time in 0..work.times {
        let begin = now(rt)?;
        all = all.wrapping_add(sum_of_characters(text.as_str()));
        tell(rt, alloc, begin, told)?;
    }
    Some(all)
}

/// Does an operation's form.
fn applied<R: CpuClock>(
    rt: &R,
    alloc: Global,
    form: &str,
    work: &Work,
    told: &mut Bytes,
) -> Option<()> {
    if let Some((op, taking)) = on_texts(form) {
        return on_text(rt, alloc, op, taking, work, told);
    }
    let (op, taking) = on_collections(form)?;
    on_collection(rt, alloc, op, taking, work, told)
}

fn done<R: CpuClock>(
    rt: &R,
    alloc: Global,
    form: &str,
    work: &Work,
    told: &mut Bytes,
) -> Option<()> {
    match form {
        "copy" => copied(rt, alloc, work, told),
        "sort" => sorted(rt, alloc, work, told),
        "chars" => match summed(rt, alloc, work, told)? {
            // the sum is looked at, so that its loop is not left out
            u64::MAX => None,
            _ => Some(()),
        },
        _ => applied(rt, alloc, form, work, told),
    }
}

/// Does what the words after `onto`, `made` or `made-onto` say.
fn done_so<R: CpuClock>(
    rt: &R,
    alloc: Global,
    how: &str,
    words: &[&str],
    told: &mut Bytes,
) -> Option<()> {
    let work = work_of(words)?;
    let (op, taking) = on_collections(word(words, 1))?;
    match how {
        "onto" => onto_collection(rt, alloc, op, taking, &work, told),
        "made" => on_made(rt, alloc, op, taking, &work, told),
        _ => onto_made(rt, alloc, op, taking, &work, told),
    }
}

/// Does what the words say, and tells how long each call took.
fn performed<R: CpuClock>(rt: &R, alloc: Global, words: &[&str], told: &mut Bytes) -> Option<()> {
    match word(words, 1) {
        "onto" | "made" | "made-onto" => {
            done_so(rt, alloc, word(words, 1), words.get(1..)?, told)
        }
        form => done(rt, alloc, form, &work_of(words)?, told),
    }
}

/// Writes what was told, or that all was done.
fn write_told(is_timed: bool, told: &[u8], out: &mut Bytes) -> Option<()> {
    if is_timed {
        out.extend(told).ok()
    } else {
        out.extend(b"done\n").ok()
    }
}

/// Does what the words say. Where it is timed, what was told comes out, else that it was done.
fn run_so<R: CpuClock>(
    rt: &R,
    alloc: Global,
    is_timed: bool,
    words: &[&str],
    out: &mut Bytes,
) -> Option<()> {
    let mut told = Seq::new(alloc);
    if performed(rt, alloc, words, &mut told).is_none() {
        return out.extend(b"not done\n").ok();
    }
    write_told(is_timed, told.as_slice(), out)
}

pub fn run<R: CpuClock>(rt: &R, alloc: Global, words: &[&str], out: &mut Bytes) -> Option<()> {
    if word(words, 1) == "time" {
        return run_so(rt, alloc, true, words.get(1..)?, out);
    }
    run_so(rt, alloc, false, words, out)
}
