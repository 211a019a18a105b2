//! What the call tells, and what it leaves, where a read, a write or the sink fails. The sink takes at most three bytes at
//! once.

use super::call;
use qvt_base::mem_files::MemFiles;
use qvt_base::mem_sink::MemSink;
use qvt_base::seq::Seq;
use qvt_outcome::status::Status;
use std::alloc::Global;

const FILES: [(&str, &str); 14] = [
    (
        "job.json",
        "{\"fuel\":100,\"inputs\":[],\"metamodels\":[\"m.json\"],\"outputs\":[{\"file\":\"o.json\",\"model\":\"t\"}],\"text\":\"t.qvto\"}",
    ),
    (
        "jobs.json",
        "{\"fuel\":100,\"inputs\":[],\"metamodels\":[\"n.json\",\"m.json\"],\"outputs\":[{\"file\":\"o.json\",\"model\":\"t\"}],\"text\":\"t.qvto\"}",
    ),
    ("n.json", "{\"classes\":[],\"name\":\"N\"}"),
    (
        "m.json",
        "{\"classes\":[{\"features\":[{\"name\":\"b\",\"type\":\"Integer\"},{\"name\":\"a\",\"type\":\"Integer\"}],\"name\":\"C\"}],\"name\":\"M\"}",
    ),
    (
        "t.qvto",
        "modeltype MT uses 'M';\ntransformation T(out t : MT);\nmain() { object C { a := 7; }; }",
    ),
    (
        "all.json",
        "{\"fuel\":100,\"inputs\":[],\"metamodels\":[\"m.json\"],\"outputs\":[{\"file\":\"o.json\",\"model\":\"t\"},{\"file\":\"p.json\",\"model\":\"w\"}],\"text\":\"two.qvto\",\"trace\":\"tr.json\"}",
    ),
    (
        "two.qvto",
        "modeltype MT uses 'M';\ntransformation T(out t : MT, out w : MT);\nmain() { object C { a := 7; }; object C@w { b := 8; }; }",
    ),
    (
        "wrong.json",
        "{\"fuel\":100,\"inputs\":[],\"metamodels\":[\"m.json\"],\"outputs\":[{\"file\":\"o.json\",\"model\":\"t\"}],\"text\":\"wrong.qvto\"}",
    ),
    (
        "wrong.qvto",
        "modeltype MT uses 'M';\ntransformation T(out t : MT);\nmain() { var v := 1.div(0); }",
    ),
    (
        "taking.json",
        "{\"fuel\":100,\"inputs\":[{\"file\":\"x.json\",\"model\":\"s\"}],\"metamodels\":[\"m.json\"],\"outputs\":[{\"file\":\"o.json\",\"model\":\"t\"}],\"text\":\"taking.qvto\"}",
    ),
    (
        "taking.qvto",
        "modeltype MT uses 'M';\ntransformation T(in s : MT, out t : MT);\nmain() { object C { a := 7; }; }",
    ),
    ("x.json", "{\"objects\":[]}"),
    ("p.json", BEFORE),
    ("tr.json", BEFORE),
];

/// What a file holds before the call.
const BEFORE: &str = "as before";

const DONE: &str = "done: 1 objects, 0 records, 0 late, cost 4\n";

const MODEL: &str = "{\"objects\":[{\"class\":\"C\",\"id\":\"o1\",\"slots\":{\"a\":7}}]}\n";

/// The files, of which the call of this number is to fail.
fn files_of(alloc: Global, failing: u64) -> Option<MemFiles> {
    let mut files = MemFiles::new(alloc, Seq::from_slice(alloc, &[failing]).ok()?);
    for (name, text) in &FILES {
        files.hold(name, text.as_bytes()).ok()?;
    }
    Some(files)
}

const ONE: &str = "run job.json";

/// A run with two metamodels.
const TWO: &str = "run jobs.json";

/// A run with an input.
const TAKING: &str = "run taking.json";

/// A run that ends with a fault.
const WRONG: &str = "run wrong.json";

const FAULT: &str = "fault: wrong.qvto: InvalidValue ZeroDivide at 3:21\n";

/// The command; what is to fail, the number of a call over the files and the number of a write to the sink (0 for none);
/// and then the status, what the sink got, and what the output holds.
type Case = (&'static str, u64, u64, Status, &'static str, &'static str);

const CASES: [Case; 21] = [
    (ONE, 0, 0, Status::Done, DONE, MODEL),
    (ONE, 2, 0, Status::ReadFault, "cannot read: m.json\n", ""),
    (ONE, 4, 0, Status::WriteFault, "cannot write: o.json\n", ""),
    (ONE, 0, 1, Status::WriteFault, "", MODEL),
    (ONE, 0, 2, Status::WriteFault, "don", MODEL),
    (TWO, 0, 0, Status::Done, DONE, MODEL),
    (TWO, 2, 0, Status::ReadFault, "cannot read: n.json\n", ""),
    (TWO, 3, 0, Status::ReadFault, "cannot read: m.json\n", ""),
    (TWO, 4, 0, Status::ReadFault, "cannot read: t.qvto\n", ""),
    (TAKING, 0, 0, Status::Done, DONE, MODEL),
    (TAKING, 4, 0, Status::ReadFault, "cannot read: x.json\n", ""),
    (
        TAKING,
        5,
        0,
        Status::WriteFault,
        "cannot write: o.json\n",
        "",
    ),
    (WRONG, 0, 0, Status::Fault, FAULT, ""),
    (WRONG, 0, 1, Status::WriteFault, "", ""),
    (WRONG, 0, 3, Status::WriteFault, "fault:", ""),
    ("run gone.json", 0, 1, Status::WriteFault, "", ""),
    ("run", 0, 2, Status::WriteFault, "usa", ""),
    ("check m.json t.json", 0, 1, Status::WriteFault, "", ""),
    (
        "check m.json x.json",
        1,
        0,
        Status::ReadFault,
        "cannot read: m.json\n",
        "",
    ),
    (
        "check m.json x.json",
        2,
        0,
        Status::ReadFault,
        "cannot read: x.json\n",
        "",
    ),
    ("print t.qvto", 0, 2, Status::WriteFault, "mod", ""),
];

fn is_as_told(alloc: Global, case: &Case) -> Option<bool> {
    let (command, failing, lost, expected, line, model) = case;
    let mut files = files_of(alloc, *failing)?;
    let mut out = MemSink::new(alloc, Seq::from_slice(alloc, &[*lost]).ok()?, 3);
    let status = call(alloc, command, &mut files, &mut out).ok()?;
    let held = files.held("o.json").unwrap_or(b"");
    Some(status == *expected && out.bytes() == line.as_bytes() && held == model.as_bytes())
}

/// A run with two outputs and a trace, over three reads and three writes: what is to fail, as above; and then the status,
/// what the sink got, and what the first output, the second and the trace hold. Where the write of a file failed, this may
/// hold anything, which is told by a star.
type Whole = (u64, u64, Status, &'static str, [&'static str; 3]);

const OTHER: &str = "{\"objects\":[{\"class\":\"C\",\"id\":\"o1\",\"slots\":{\"b\":8}}]}\n";

const TRACE: &str = "{\"late\":[],\"records\":[]}\n";

const BOTH: &str = "done: 2 objects, 0 records, 0 late, cost 8\n";

const WHOLE: [Whole; 11] = [
    (0, 0, Status::Done, BOTH, [MODEL, OTHER, TRACE]),
    (
        1,
        0,
        Status::ReadFault,
        "cannot read: all.json\n",
        ["", BEFORE, BEFORE],
    ),
    (
        2,
        0,
        Status::ReadFault,
        "cannot read: m.json\n",
        ["", BEFORE, BEFORE],
    ),
    (
        3,
        0,
        Status::ReadFault,
        "cannot read: two.qvto\n",
        ["", BEFORE, BEFORE],
    ),
    (
        4,
        0,
        Status::WriteFault,
        "cannot write: o.json\n",
        ["*", BEFORE, BEFORE],
    ),
    (
        5,
        0,
        Status::WriteFault,
        "cannot write: p.json\n",
        [MODEL, "*", BEFORE],
    ),
    (
        6,
        0,
        Status::WriteFault,
        "cannot write: tr.json\n",
        [MODEL, OTHER, "*"],
    ),
    (0, 1, Status::WriteFault, "", [MODEL, OTHER, TRACE]),
    (0, 4, Status::WriteFault, "done: 2 o", [MODEL, OTHER, TRACE]),
    (5, 1, Status::WriteFault, "", [MODEL, "*", BEFORE]),
    (2, 2, Status::WriteFault, "can", ["", BEFORE, BEFORE]),
];

fn holds(files: &MemFiles, name: &str, wanted: &str) -> bool {
    wanted == "*" || files.held(name).unwrap_or(b"") == wanted.as_bytes()
}

fn is_whole_as_told(alloc: Global, case: &Whole) -> Option<bool> {
    let (failing, lost, expected, line, [first, second, trace]) = case;
    let mut files = files_of(alloc, *failing)?;
    let mut out = MemSink::new(alloc, Seq::from_slice(alloc, &[*lost]).ok()?, 3);
    let status = call(alloc, "run all.json", &mut files, &mut out).ok()?;
    let is_told = status == *expected && out.bytes() == line.as_bytes();
    let are_outputs = holds(&files, "o.json", first) && holds(&files, "p.json", second);
    Some(is_told && are_outputs && holds(&files, "tr.json", trace))
}

#[test]
fn what_fails_outside_is_told(rt: HostRuntime) {
    for case in &CASES {
        assert!(rt; is_as_told(rt.alloc(), case) == Some(true), "{case:?}");
    }
}

#[test]
fn earlier_files_are_whole_and_later_ones_untouched(rt: HostRuntime) {
    for case in &WHOLE {
        assert!(rt;
            is_whole_as_told(rt.alloc(), case) == Some(true),
            "{case:?}"
        );
    }
}
