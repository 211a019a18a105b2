//! Parses the deepest texts that are read, 64 items open inside each other, and drops their trees: a
//! walk down such a text needs less than the 8 MiB that a machine's stack has. With one item more each
//! is too deep.

ghost use Rattle.std.specs.Prelude.{◌+◌, ◌<◌};

use qvt_base::list_fault::ListFault;
use qvt_base::lists::Bytes;
use qvt_base::text::Text;
use qvt_parsed::fault::ParseFault;
use qvt_parser::parse::parse;
use std::alloc::Global;

/// What stands before, in and after openings inside each other, of which so many are read.
#[derive(Clone, Copy)]
struct Nest {
    name: &'static str,
    front: &'static str,
    open: &'static str,
    middle: &'static str,
    close: &'static str,
    end: &'static str,
    most: u32,
}

const NESTS: [Nest; 30] = [
    Nest {
        name: "brackets",
        front: "query q() : A = ",
        open: "(",
        middle: "1",
        close: ")",
        end: ";",
        most: 64,
    },
    Nest {
        name: "brackets after operators",
        front: "query q() : A = ",
        open: "a implies b xor c or d and e = f < g + h * - (",
        middle: "1",
        close: ")",
        end: ";",
        most: 64,
    },
    Nest {
        name: "brackets in an object",
        front: "main() { object C { a := ",
        open: "(",
        middle: "1",
        close: ")",
        end: "; }; }",
        most: 62,
    },
    Nest {
        name: "objects",
        front: "main() { x := ",
        open: "object A { x := - ",
        middle: "1",
        close: " }",
        end: "; }",
        most: 63,
    },
    Nest {
        name: "objects after operators",
        front: "main() { x := ",
        open: "object A { x := a implies b xor c or d and e = f < g + h * - ",
        middle: "1",
        close: " }",
        end: "; }",
        most: 63,
    },
    Nest {
        name: "news",
        front: "main() { x := ",
        open: "new A::B@m(b, ",
        middle: "1",
        close: ")",
        end: "; }",
        most: 63,
    },
    Nest {
        name: "calls",
        front: "query q() : A = ",
        open: "a->b(x | not c + d.e(",
        middle: "1",
        close: "))",
        end: ";",
        most: 32,
    },
    Nest {
        name: "mapping calls",
        front: "query q() : A = ",
        open: "a.b->xmap c(d, - ",
        middle: "1",
        close: ")",
        end: ";",
        most: 64,
    },
    Nest {
        name: "accumulators",
        front: "query q() : A = ",
        open: "a->iterate(x : A; y : B = ",
        middle: "1",
        close: " | c)",
        end: ";",
        most: 64,
    },
    Nest {
        name: "resolves",
        front: "query q() : A = ",
        open: "a.late resolveIn(A::b, x : A | ",
        middle: "c",
        close: ")",
        end: ";",
        most: 64,
    },
    Nest {
        name: "collections",
        front: "query q() : A = ",
        open: "Set{a, b .. ",
        middle: "1",
        close: "}",
        end: ";",
        most: 64,
    },
    Nest {
        name: "conditionals",
        front: "query q() : A = ",
        open: "if a then b else ",
        middle: "c",
        close: " endif",
        end: ";",
        most: 64,
    },
    Nest {
        name: "conditions",
        front: "query q() : A = ",
        open: "if ",
        middle: "a",
        close: " then b else c endif",
        end: ";",
        most: 64,
    },
    Nest {
        name: "types",
        front: "query q() : ",
        open: "Set(",
        middle: "A",
        close: ")",
        end: " = 1;",
        most: 64,
    },
    Nest {
        name: "loops",
        front: "main() { ",
        open: "a->forEach(x | b) { while (c) { if (d) { ",
        middle: "e;",
        close: " } } }",
        end: " }",
        most: 21,
    },
    Nest {
        name: "arms",
        front: "main() { ",
        open: "if (a) { b; } elif (c) { d; } else { ",
        middle: "e;",
        close: " }",
        end: " }",
        most: 63,
    },
    Nest {
        name: "calls after operators",
        front: "query q() : A = ",
        open: "a implies b xor c or d and e = f < g + h * - a->b(x | ",
        middle: "1",
        close: ")",
        end: ";",
        most: 64,
    },
    Nest {
        name: "accumulators after operators",
        front: "query q() : A = ",
        open: "a implies b xor c or d and e = f < g + h * - a->iterate(x : A; y : B = ",
        middle: "1",
        close: " | c)",
        end: ";",
        most: 64,
    },
    Nest {
        name: "resolves after operators",
        front: "query q() : A = ",
        open: "a implies b xor c or d and e = f < g + h * - a.late resolveIn(A::b, x : A | ",
        middle: "1",
        close: ")",
        end: ";",
        most: 64,
    },
    Nest {
        name: "collections after operators",
        front: "query q() : A = ",
        open: "a implies b xor c or d and e = f < g + h * - Set{a, b .. ",
        middle: "1",
        close: "}",
        end: ";",
        most: 64,
    },
    Nest {
        name: "conditionals after operators",
        front: "query q() : A = ",
        open: "a implies b xor c or d and e = f < g + h * - if a then b else ",
        middle: "1",
        close: " endif",
        end: ";",
        most: 64,
    },
    Nest {
        name: "objects in front",
        front: "main() { ",
        open: "object A { ",
        middle: "1",
        close: " }",
        end: " }",
        most: 63,
    },
    Nest {
        name: "objects in front after operators",
        front: "main() { ",
        open: "a implies b xor c or d and e = f < g + h * - object A { ",
        middle: "1",
        close: " }",
        end: " }",
        most: 63,
    },
    Nest {
        name: "objects in arms",
        front: "main() { ",
        open: "if (a) { x := object B { ",
        middle: "1",
        close: " } }",
        end: " }",
        most: 31,
    },
    Nest {
        name: "returned objects",
        front: "main() { ",
        open: "return object B { ",
        middle: "1",
        close: " }",
        end: " }",
        most: 63,
    },
    Nest {
        name: "loops over conditionals",
        front: "main() { ",
        open: "if a then b else c endif->forEach(x) { ",
        middle: "1",
        close: " }",
        end: " }",
        most: 63,
    },
    Nest {
        name: "objects in conditions",
        front: "main() { ",
        open: "if (object A { ",
        middle: "1",
        close: " }) { }",
        end: " }",
        most: 31,
    },
    Nest {
        name: "objects in conditions after operators",
        front: "main() { ",
        open: "if a implies b xor c or d and e = f < g + h * - object A { ",
        middle: "1",
        close: " } then b else c endif->forEach(x) { }",
        end: " }",
        most: 63,
    },
    Nest {
        name: "objects in a first value after operators",
        front: "main() { ",
        open: "if a then a implies b xor c or d and e = f < g + h * - object A { ",
        middle: "1",
        close: " } else c endif->forEach(x) { }",
        end: " }",
        most: 63,
    },
    Nest {
        name: "objects in a second value after operators",
        front: "main() { ",
        open: "if a then b else a implies b xor c or d and e = f < g + h * - object A { ",
        middle: "1",
        close: " } endif->forEach(x) { }",
        end: " }",
        most: 63,
    },
];

fn push_times(text: &mut Text, piece: &str, times: u32) -> Result<(), ListFault> {
    for _time in 0..times {
        text.push_str(piece)?;
    }
    Ok(())
}

/// A transformation with so many openings inside each other.
fn nested(alloc: Global, nest: &Nest, count: u32) -> Result<Text, ListFault> {
    let pieces = [
        ("transformation T(in m : M); ", 1),
        (nest.front, 1),
        (nest.open, count),
        (nest.middle, 1),
        (nest.close, count),
        (nest.end, 1),
    ];
    let mut text = Text::new(alloc);
    for (piece, times) in &pieces {
        push_times(&mut text, piece, *times)?;
    }
    Ok(text)
}

fn answer(alloc: Global, nest: &Nest, count: u32) -> &'static str {
    match nested(alloc, nest, count) {
        Ok(text) if text.len() < 1_000_000 => match parse(alloc, text.as_str()) {
            Ok(_) => "read",
            Err(ParseFault::TooDeep(_)) => "too deep",
            Err(ParseFault::NoMemory) => "no memory",
            Err(_) => "refused",
        },
        _ => "no text",
    }
}

/// Tells what is said of the deepest text that is read, and of one deeper.
fn tell(alloc: Global, nest: &Nest, out: &mut Bytes) -> Option<()> {
    let deepest = answer(alloc, nest, nest.most);
    let deeper = answer(alloc, nest, nest.most.saturating_add(1));
    let line = format!(in alloc; "{}: {deepest}, {deeper}\n", nest.name).ok()?;
    out.extend(line.as_bytes()).ok()
}

pub fn run(alloc: Global, out: &mut Bytes) -> Option<()> {
    for nest in &NESTS {
        tell(alloc, nest, out)?;
    }
    Some(())
}
