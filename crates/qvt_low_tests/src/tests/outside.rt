//! Files and sinks, in memory and real.

use qvt_base::list_fault::ListFault;
use qvt_base::lists::Bytes;
use qvt_base::mem_files::MemFiles;
use qvt_base::mem_sink::MemSink;
use qvt_base::outside::{Files, ReadAnswer, Sink, SinkAnswer, WriteAnswer};
use qvt_base::real::{DirFiles, StdSink};
use qvt_base::seq::Seq;
use std::alloc::Global;
use std::fs;
use std::test::Fail;

/// The bytes that are found, or the name of the answer.
fn told(answer: &ReadAnswer) -> &[u8] {
    match answer {
        ReadAnswer::Found(bytes) => bytes.as_slice(),
        ReadAnswer::Missing => b"Missing",
        ReadAnswer::TooLarge => b"TooLarge",
        ReadAnswer::Failed => b"Failed",
        ReadAnswer::NoMemory => b"NoMemory",
    }
}

/// Whether the reads of these names within these limits give this.
fn are_read<F: Files>(alloc: Global, files: &mut F, reads: &[(&str, u32, &str)]) -> bool {
    for (name, limit, expected) in reads {
        let answer = files.read(alloc, name, *limit);
        if told(&answer) != expected.as_bytes() {
            return false;
        }
    }
    true
}

/// The file `a` holds `one`, and the third and the fifth call are to fail.
fn failing_files(alloc: Global) -> Option<MemFiles> {
    let failing = Seq::from_slice(alloc, &[3, 5]).ok()?;
    let mut files = MemFiles::new(alloc, failing);
    files.hold("a", b"one").ok()?;
    Some(files)
}

/// Whether a write of `two` to `a` answers this, and `a` then holds these bytes.
fn is_written(files: &mut MemFiles, expected: WriteAnswer, held: &[u8]) -> bool {
    files.write("a", b"two") == expected && files.held("a") == Some(held)
}

fn are_as_told(alloc: Global) -> Option<bool> {
    let mut files = failing_files(alloc)?;
    let reads = [
        ("a", 2, "TooLarge"),
        ("b", 2, "Missing"),
        ("a", 3, "Failed"),
        ("a", 3, "one"),
    ];
    let holds = are_read(alloc, &mut files, &reads)
        && is_written(&mut files, WriteAnswer::Failed, b"one")
        && is_written(&mut files, WriteAnswer::Written, b"two")
        && files.held("b").is_none();
    Some(holds)
}

#[test]
fn files_in_memory_fail_where_they_are_told_to(rt: HostRuntime) {
    assert!(rt; are_as_told(rt.alloc()) == Some(true));
}

fn takes_two_bytes(alloc: Global) -> Result<bool, ListFault> {
    let mut sink = MemSink::new(alloc, Seq::from_slice(alloc, &[2])?, 2);
    Ok(
        sink.write(b"abc") == SinkAnswer::Taken(2)
            && sink.write(b"c") == SinkAnswer::Failed
            && sink.write(b"c") == SinkAnswer::Taken(1)
            && sink.bytes() == b"abc".as_slice(),
    )
}

#[test]
fn a_sink_in_memory_takes_so_many_bytes(rt: HostRuntime) {
    assert!(rt; takes_two_bytes(rt.alloc()) == Ok(true));
}

#[test]
fn the_working_folder_is_read_within_the_limit(rt: HostRuntime) {
    let alloc = rt.alloc();
    assert!(rt; fs::create_dir(&rt, "folder").is_ok());
    let mut files = DirFiles::new(rt);
    assert!(rt; files.write("a", b"four") == WriteAnswer::Written);
    let reads = [
        ("a", 4, "four"),
        ("a", 3, "TooLarge"),
        ("b", 4, "Missing"),
        ("folder", 4, "Failed"),
    ];
    assert!(rt; are_read(alloc, &mut files, &reads));
}

/// So many bytes. Those of any two pieces of a few thousand differ.
fn differing(alloc: Global, count: u32) -> Option<Bytes> {
    let mut bytes = Seq::new(alloc);
    for number in 0..count {
        let scattered = number.wrapping_mul(2_654_435_761);
        bytes.push(scattered.to_be_bytes()[0]).ok()?;
    }
    Some(bytes)
}

/// A file longer than what is read at once is read whole, and is too large by one byte.
#[test]
fn a_long_file_is_read_whole(rt: HostRuntime) -> Result<(), Fail> {
    let alloc = rt.alloc();
    let bytes = differing(alloc, 10_000).ok_or("no memory")?;
    let mut files = DirFiles::new(rt);
    assert!(rt; files.write("long", bytes.as_slice()) == WriteAnswer::Written);
    assert!(rt; told(&files.read(alloc, "long", 10_000)) == bytes.as_slice());
    assert!(rt; told(&files.read(alloc, "long", 9_999)) == b"TooLarge".as_slice());
    Ok(())
}

#[test]
fn standard_output_takes_a_piece(rt: HostRuntime) {
    let mut sink = StdSink::new(rt);
    assert!(rt; sink.write(b"seen\n") == SinkAnswer::Taken(5));
}
