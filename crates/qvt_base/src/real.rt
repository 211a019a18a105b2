//! The real outside: the working folder and standard output. They tell nothing of what they hold;
//! the calls of the system in them are the trusted edge.
ghost use Rattle.std.specs.Prelude.{◌≡◌};
ghost use Rattle.qvt_base.specs.Outside.{IsWithin, ReadsRest, IsPart, part_of};
ghost use Rattle.std.specs.Io.KnownBytes.{Appends};

use crate::lists::Bytes;
use crate::outside::{Files, ReadAnswer, Sink, SinkAnswer, WriteAnswer};
use crate::seq::Seq;
use std::alloc::Global;
use std::fs::File;
use std::io::{ErrorKind, Read, Write};
use std::marker::Model;
use std::rt;

/// The files of the working folder.
#[derive(Drop)]
pub struct DirFiles<R: rt::Files + Drop> {
    rt: R,
    read_faults: u64,
    write_faults: u64,
}

/// Standard output.
#[derive(Drop)]
pub struct StdSink<R: Print + Drop> {
    rt: R,
    faults: u64,
}

/// Reads to the end, or to one byte past the limit.
fn read_open<F: Read>(alloc: Global, file: &mut F, limit: usize) -> ReadAnswer
    ensures within { IsWithin limit result }
    ensures rest { ReadsRest (F.remaining file.old) limit result }
{
    let mut found: Bytes = Seq::new(alloc);
    let mut piece = [0u8; 4096];
    for _ in 0..u64::MAX {
        let Ok(count) = file.read(&mut piece) else {
            return ReadAnswer::Failed;
        };
        if count == 0 {
            return ReadAnswer::Found(found);
        }
        if count > limit - found.len() {
            return ReadAnswer::TooLarge;
        }
        let Ok(()) = found.extend(&piece[..count]) else {
            return ReadAnswer::NoMemory;
        };
    }
    ReadAnswer::Failed
}

/// Opens and reads.
fn read_named<R: rt::Files>(rt: &R, alloc: Global, name: &str, limit: u32) -> ReadAnswer
    ensures { IsWithin limit result }
{
    match File::open(rt, name) {
        Ok(file) => {
            let mut file = file;
            read_open(alloc, &mut file, limit as usize)
        }
        Err(e) if e.kind() == ErrorKind::NotFound => ReadAnswer::Missing,
        Err(_) => ReadAnswer::Failed,
    }
}

impl<R: rt::Files + Drop> Model for DirFiles<R> {
    ghost use Rattle.qvt_base.specs.Real.{FaultCounts};

    ghost Value = { FaultCounts };

    ghost view = { λ f. record { reads = f.read_faults; writes = f.write_faults } };
}

impl<R: rt::Files + Drop> DirFiles<R> {
    /// The working folder, with no faults.
    pub fn new(rt: R) -> DirFiles<R>
        ensures { result ≡ record { reads = 0; writes = 0 } }
    {
        DirFiles {
            rt,
            read_faults: 0,
            write_faults: 0,
        }
    }
}

impl<R: rt::Files + Drop> Files for DirFiles<R> {
    ghost use Rattle.qvt_base.specs.Real.{folder_seen};

    ghost seen = { folder_seen };

    fn read(&mut self, alloc: Global, name: &str, limit: u32) -> ReadAnswer {
        let answer = read_named(&self.rt, alloc, name, limit);
        if let ReadAnswer::Failed = answer {
            self.read_faults = self.read_faults.saturating_add(1);
            return ReadAnswer::Failed;
        }
        answer
    }

    fn write(&mut self, name: &str, bytes: &[u8]) -> WriteAnswer {
        match std::fs::write(&self.rt, name, bytes) {
            Ok(()) => WriteAnswer::Written,
            Err(_) => {
                self.write_faults = self.write_faults.saturating_add(1);
                WriteAnswer::Failed
            }
        }
    }
}

/// Writes a front of the piece; a writer that takes nothing of a piece that is not empty has failed.
fn put<W: Write>(to: &mut W, piece: &[u8]) -> SinkAnswer
    ensures part { IsPart piece.now result }
    ensures taken { Appends (W.contents to.old) (W.contents to.new) (part_of piece.now result) }
{
    match to.write(piece) {
        Ok(count) if 0 < count || piece.is_empty() => SinkAnswer::Taken(count),
        _ => SinkAnswer::Failed,
    }
}

impl<R: Print + Drop> Model for StdSink<R> {
    ghost use Rattle.std.specs.Prelude.{ℕ};

    ghost Value = { ℕ };

    ghost view = { λ s. s.faults };
}

impl<R: Print + Drop> StdSink<R> {
    /// Standard output, with no faults.
    pub fn new(rt: R) -> StdSink<R>
        ensures { result ≡ 0 }
    {
        StdSink { rt, faults: 0 }
    }
}

impl<R: Print + Drop> Sink for StdSink<R> {
    ghost use Rattle.qvt_base.specs.Real.{output_seen};

    ghost seen = { output_seen };

    fn write(&mut self, piece: &[u8]) -> SinkAnswer {
        let mut standard = std::io::writer(&self.rt);
        let answer = put(&mut standard, piece);
        if let SinkAnswer::Failed = answer {
            self.faults = self.faults.saturating_add(1);
        }
        answer
    }
}
