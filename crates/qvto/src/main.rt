//! The program: its words, the working folder and standard output are handed to the top call.
#![tactic(auto)]

use qvt_base::lists::WordList;
use qvt_base::real::{DirFiles, StdSink};
use qvt_base::seq::Seq;
use qvt_base::text::Text;
use qvt_cli::top::qvto;
use std::env;
use std::io::ErrorKind;
use std::process::ExitCode;
use std::rt::Env;

/// The words after the program's name, none where some word is no text. None where there is no
/// memory for them.
fn words_of(rt: &(impl Env + AllocGlobal)) -> Option<WordList> {
    let mut words = Seq::new(rt.alloc());
    let given = match env::args(rt) {
        Ok(given) => given,
        Err(e) if e.kind() == ErrorKind::OutOfMemory => return None,
        Err(_) => return Some(words),
    };
    for word in given.skip(1) {
        words.push(Text::from_string(word)).ok()?;
    }
    Some(words)
}

fn main(rt: HostRuntime) -> ExitCode {
    let alloc = rt.alloc();
    let Some(words) = words_of(&rt) else {
        return ExitCode::from(8);
    };
    let mut files = DirFiles::new(rt);
    let mut out = StdSink::new(rt);
    ExitCode::from(qvto(alloc, &words, &mut files, &mut out).number())
}
