//! Applies operations to operands, a call a line of standard input: `[OPERATION, SOURCE, ARGUMENTS, ANSWER]`. The source is lent;
//! a small one is also lent as items, and handed over, and both again where it is as made. It prints each line with another answer,
//! and then how many are answered as they say.
//!
//! Values are written in JSON: null, true, 3, "text", `{"set":[1,2]}`, and so `bag`, `sequence` and `ordered`; `{"object":3}`,
//! `{"literal":3}`, `{"invalid":"Overflow"}` at the call's place or, with `"at":3`, at another; `{"numbers":3}` is the Sequence
//! of 1 to 3, `{"item":"a","times":3}` that of a text so often, with `"as":"set"` another kind of these, and `{"text":"ab","times":3}`
//! a text repeated. The answer `{"fault":"TypeFault"}` is that of no row.
#![tactic(auto)]

mod cases;
mod values;

use cases::{Outcome, judged};
use std::io::{self, BufRead, BufReader};

fn main(rt: HostRuntime) -> io::Result<()> {
    let alloc = rt.alloc();
    let mut right: u64 = 0;
    for line in BufReader::new(alloc, rt.reader())?.lines(alloc) {
        let line = line?;
        match judged(alloc, &line) {
            Outcome::Right => right = right.wrapping_add(1),
            Outcome::Other => println!(rt; "answered otherwise: {line}")?,
            Outcome::Unread => println!(rt; "no case: {line}")?,
        }
    }
    println!(rt; "{right} calls are answered as they should be")
}
