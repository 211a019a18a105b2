//! Many calls of the top call over the files of the working folder. Each line of standard input is a command line; or
//! `status` and a command line, whose status is told too, by its number; or `show` and a name, and what is then told is
//! what the file of this name holds; or `blanks`, a name and a number, and a file of this name and of so many blanks is made;
//! or `front`, two names and a number, and the second file is made of so many bytes with which the first begins;
//! or `objects`, a name and a number, and a model of so many objects of class `B` is made, whose ids are their numbers from 1;
//! or `edit`, two names and a text ` => ` another, and the second file is made of the first with the other text in the place
//! of the one where that stands first, and the change is told; or `sweep`, two names and a number, and so many times, with
//! each fuel from 0 on, the second file is made of the first with the fuel in the place of the word `FUEL`, and run as a job;
//! or `script` and a name. A script is such lines, and files: its pieces are parted by empty lines, and of a piece of several
//! lines a file is made. The first line of this is its name, and after a blank a title, which is told; the others are what
//! the file holds. What is told is compared with what has to be told.
#![tactic(auto)]

#[cfg(test)]
mod tests;

use qvt_base::list_fault::ListFault;
use qvt_base::lists::WordList;
use qvt_base::outside::{Files, Sink, WriteAnswer};
use qvt_base::real::{DirFiles, StdSink};
use qvt_base::seq::Seq;
use qvt_base::text::Text;
use qvt_cli::top::qvto;
use qvt_outcome::status::Status;
use std::alloc::Global;
use std::fs;
use std::io::{self, BufRead, BufReader};

/// The words of a line, parted by blanks.
fn words_of(alloc: Global, line: &str) -> Result<WordList, ListFault> {
    let mut words = Seq::new(alloc);
    for word in line.split(' ') {
        words.push(Text::from_str(alloc, word)?)?;
    }
    Ok(words)
}

/// Makes the call of a command line.
fn call<F: Files, S: Sink>(
    alloc: Global,
    line: &str,
    files: &mut F,
    out: &mut S,
) -> Result<Status, ListFault> {
    let words = words_of(alloc, line)?;
    Ok(qvto(alloc, &words, files, out))
}

/// Tells what the file of this name holds.
fn show(rt: &(impl std::rt::Files + Print + Alloc), name: &str) -> io::Result<()> {
    match fs::read_to_string(rt, name) {
        Ok(text) => print!(rt; "{text}"),
        Err(_) => println!(rt; "no file"),
    }
}

/// Makes a file of blanks, of this name and so many.
fn make_blank<F: Files>(alloc: Global, asked: &str, files: &mut F) -> Option<WriteAnswer> {
    let (name, count) = asked.split_once(' ')?;
    let count = count.parse::<usize>().ok()?;
    let piece = [b' '; 1024];
    let mut blanks = Seq::from_slice(alloc, &piece[..count % 1024]).ok()?;
    for _piece in 0..count / 1024 {
        blanks.extend(&piece).ok()?;
    }
    Some(files.write(name, blanks.as_slice()))
}

/// Makes a file of the first bytes of another one, so many.
fn make_front<F: Files>(rt: HostRuntime, asked: &str, files: &mut F) -> Option<WriteAnswer> {
    let (from, rest) = asked.split_once(' ')?;
    let (name, count) = rest.split_once(' ')?;
    let count = count.parse::<usize>().ok()?;
    let text = fs::read_to_string(&rt, from).ok()?;
    let front = text.as_str().as_bytes().get(..count)?;
    Some(files.write(name, front))
}

/// Makes a model of so many objects without slots.
fn make_objects<F: Files>(rt: HostRuntime, asked: &str, files: &mut F) -> Option<WriteAnswer> {
    let (name, count) = asked.split_once(' ')?;
    let count = count.parse::<u32>().ok()?;
    let mut model = Text::from_str(rt.alloc(), "{\"objects\":[").ok()?;
    for number in 0..count {
        let comma = if number == 0 { "" } else { "," };
        let id = u64::from(number) + 1;
        let object = format!(in rt.alloc(); "{comma}{{\"class\":\"B\",\"id\":\"{id}\"}}").ok()?;
        model.push_str(object.as_str()).ok()?;
    }
    model.push_str("]}").ok()?;
    Some(files.write(name, model.as_str().as_bytes()))
}

/// Makes a file of another one: what stands there for a text, where that stands first, is another text.
fn make_edited<F: Files>(rt: HostRuntime, asked: &str, files: &mut F) -> Option<WriteAnswer> {
    let (from, rest) = asked.split_once(' ')?;
    let (name, change) = rest.split_once(' ')?;
    let (old, new) = change.split_once(" => ")?;
    let text = fs::read_to_string(&rt, from).ok()?;
    let (front, back) = text.as_str().split_once(old)?;
    println!(rt; "{change}").ok()?;
    let edited = format!(in rt.alloc(); "{front}{new}{back}").ok()?;
    Some(files.write(name, edited.as_bytes()))
}

/// Runs a job with each fuel from 0 on, so many times: the job is what a file holds with the fuel in the place of `FUEL`.
fn sweep<F: Files, S: Sink>(
    rt: HostRuntime,
    asked: &str,
    files: &mut F,
    out: &mut S,
) -> Option<WriteAnswer> {
    let (from, rest) = asked.split_once(' ')?;
    let (name, count) = rest.split_once(' ')?;
    let count = count.parse::<u32>().ok()?;
    let text = fs::read_to_string(&rt, from).ok()?;
    let (front, back) = text.as_str().split_once("FUEL")?;
    let line = format!(in rt.alloc(); "run {name}").ok()?;
    for fuel in 0..count {
        let job = format!(in rt.alloc(); "{front}{fuel}{back}").ok()?;
        match files.write(name, job.as_bytes()) {
            WriteAnswer::Written => {}
            WriteAnswer::Failed => return Some(WriteAnswer::Failed),
        }
        call(rt.alloc(), line.as_str(), files, out).ok()?;
    }
    Some(WriteAnswer::Written)
}

/// Tells where a file that was asked for was not made.
fn tell_made(rt: HostRuntime, answer: Option<WriteAnswer>) -> io::Result<()> {
    match answer {
        Some(WriteAnswer::Written) => Ok(()),
        _ => println!(rt; "no file is made"),
    }
}

/// Does what a line asks for.
fn perform<F: Files, S: Sink>(
    rt: HostRuntime,
    line: &str,
    files: &mut F,
    out: &mut S,
) -> io::Result<()> {
    if let Some(name) = line.strip_prefix("show ") {
        return show(&rt, name);
    }
    if let Some(asked) = line.strip_prefix("blanks ") {
        return tell_made(rt, make_blank(rt.alloc(), asked, files));
    }
    if let Some(asked) = line.strip_prefix("edit ") {
        return tell_made(rt, make_edited(rt, asked, files));
    }
    if let Some(asked) = line.strip_prefix("front ") {
        return tell_made(rt, make_front(rt, asked, files));
    }
    if let Some(asked) = line.strip_prefix("objects ") {
        return tell_made(rt, make_objects(rt, asked, files));
    }
    if let Some(asked) = line.strip_prefix("sweep ") {
        return tell_made(rt, sweep(rt, asked, files, out));
    }
    let asked = line.strip_prefix("status ");
    let Ok(status) = call(rt.alloc(), asked.unwrap_or(line), files, out) else {
        return println!(rt; "no memory for the words");
    };
    if asked.is_some() {
        let number = status.number();
        println!(rt; "status {number}")?;
    }
    Ok(())
}

/// Makes the file of a piece of a script, and tells its title.
fn make_titled<F: Files>(rt: HostRuntime, line: &str, held: &str, files: &mut F) -> io::Result<()> {
    let (name, title) = match line.split_once(' ') {
        Some(parts) => parts,
        None => (line, ""),
    };
    if !title.is_empty() {
        println!(rt; "{title}")?;
    }
    tell_made(rt, Some(files.write(name, held.as_bytes())))
}

/// Does what the pieces of a script ask for.
fn follow<F: Files, S: Sink>(
    rt: HostRuntime,
    name: &str,
    files: &mut F,
    out: &mut S,
) -> io::Result<()> {
    let script = fs::read_to_string(&rt, name)?;
    for piece in script.as_str().split("\n\n") {
        match piece.split_once('\n') {
            Some((line, "")) => perform(rt, line, files, out)?,
            Some((line, held)) => make_titled(rt, line, held, files)?,
            None => perform(rt, piece, files, out)?,
        }
    }
    Ok(())
}

fn main(rt: HostRuntime) -> io::Result<()> {
    let mut files = DirFiles::new(rt);
    let mut out = StdSink::new(rt);
    for line in BufReader::new(rt.alloc(), rt.reader())?.lines(rt.alloc()) {
        let line = line?;
        match line.as_str().strip_prefix("script ") {
            Some(name) => follow(rt, name, &mut files, &mut out)?,
            None => perform(rt, line.as_str(), &mut files, &mut out)?,
        }
    }
    Ok(())
}
