ghost use Rattle.std.specs.Prelude.{◌≡◌, ◌≢◌, OnOk, OnErr, Some, [], ◌∷◌};
ghost use Rattle.std.specs.Option.{option_copied};
ghost use Rattle.std.specs.FinMap as map;
ghost use Rattle.qvt_base.specs.Outside.{AnswersRead, IsWithin, failed_after, ReadCause, IsRead, IsWritten, WriteCause, IfWriteFailed};
ghost use Rattle.qvt_base.specs.MemFiles.{pairs, held_of, held_in, files_seen, IsUnread, after_call, is_to_fail, FailsAsListed, FailsWhereListed};

use crate::copied::Copied;
use crate::lists::{Bytes, CallList, NameList};
use crate::outside::{Files, ReadAnswer, WriteAnswer};
use crate::seq::Seq;
use crate::text::Text;
use std::alloc::Global;
use std::collections::VecDeque;
use std::marker::Model;

/// Why a file in memory could not be made.
#[derive(Clone, Copy, Debug, PartialEq, Eq)]
pub enum FilesFault {
    NoMemory,
}

/// A name and the bytes that it holds.
#[derive(Debug, Drop)]
pub struct HeldFile {
    name: Text,
    bytes: Bytes,
}

/// Files in memory: they tell their bytes and the names of their failed reads, and calls whose
/// numbers (from 1, reads and writes counted together) stand in a list fail.
#[derive(Debug, Drop)]
pub struct MemFiles {
    /// The newest write first.
    log: VecDeque<HeldFile>,
    failing: CallList,
    calls: u64,
    failed: NameList,
    read_faults: u64,
    write_faults: u64,
}

impl Model for MemFiles {
    ghost use Rattle.qvt_base.specs.MemFiles.{FilesInMemory, pairs};

    ghost Value = { FilesInMemory };

    ghost view = { λ f. record { log = pairs f.log.items; failing = f.failing; calls = f.calls; failed = f.failed; read_faults = f.read_faults; write_faults = f.write_faults } };
}

/// The newest bytes under the name.
fn find<'a>(log: &'a VecDeque<HeldFile>, name: &str) -> Option<&'a Bytes>
    ensures { option_copied result ≡ map.get (held_of (pairs log.now.items)) name.now }
{
    for entry in log {
        if entry.name.as_str() == name {
            return Some(&entry.bytes);
        }
    }
    None
}

/// Puts a write in front.
fn put(
    alloc: Global,
    log: &mut VecDeque<HeldFile>,
    name: &str,
    bytes: &[u8],
) -> Result<(), FilesFault>
    ensures ok { OnOk result (pairs log.new.items ≡ (name.now, bytes.now) ∷ pairs log.old.items) }
    ensures err { OnErr result (log.new.items ≡ log.old.items) }
{
    let Ok(name) = Text::from_str(alloc, name) else {
        return Err(FilesFault::NoMemory);
    };
    let Ok(bytes) = Seq::from_slice(alloc, bytes) else {
        return Err(FilesFault::NoMemory);
    };
    let Ok(()) = log.push_front(HeldFile { name, bytes }) else {
        return Err(FilesFault::NoMemory);
    };
    Ok(())
}

impl MemFiles {
    /// No files, no faults. The calls of these numbers are to fail, the first call being 1.
    pub fn new(alloc: Global, failing: CallList) -> MemFiles
        ensures { result ≡ record { log = []; failing = failing; calls = 0; failed = []; read_faults = 0; write_faults = 0 } }
    {
        MemFiles {
            log: VecDeque::new(alloc),
            failing,
            calls: 0,
            failed: Seq::new(alloc),
            read_faults: 0,
            write_faults: 0,
        }
    }

    /// Makes the name hold these bytes. This is no counted call.
    pub fn hold(&mut self, name: &str, bytes: &[u8]) -> Result<(), FilesFault>
        ensures ok { OnOk result (self.new ≡ record self.old { log = (name.now, bytes.now) ∷ self.old.log }) }
        ensures err { OnErr result (self.new ≡ self.old) }
    {
        let alloc = *self.log.allocator();
        put(alloc, &mut self.log, name, bytes)
    }

    /// The bytes under the name, None exactly where it is not held. It takes no memory.
    pub fn held(&self, name: &str) -> Option<&[u8]>
        ensures { option_copied result ≡ map.get (held_in self.now) name.now }
    {
        match find(&self.log, name) {
            Some(bytes) => Some(bytes.as_slice()),
            None => None,
        }
    }

    /// Counts a call, and tells whether it is to fail.
    fn is_failing(&mut self) -> bool
        ensures answer { result ≡ is_to_fail self.old }
        ensures after { self.new ≡ after_call self.old }
    {
        self.calls = self.calls.saturating_add(1);
        let calls = self.calls;
        self.failing.as_slice().contains(&calls)
    }

    /// A write that failed.
    fn fail_write(&mut self) -> WriteAnswer
        ensures after { self.new ≡ record self.old { write_faults = self.new.write_faults } }
        ensures cause { WriteCause self.old.write_faults self.new.write_faults result }
        ensures failed { result ≡ WriteAnswer.Failed }
    {
        self.write_faults = self.write_faults.saturating_add(1);
        WriteAnswer::Failed
    }

    /// A read that failed, whose name is kept.
    fn fail_read(&mut self, alloc: Global, name: &str) -> ReadAnswer
        ensures held { self.new.log ≡ self.old.log }
        ensures failed { Some self.new.failed ≡ failed_after (Some self.old.failed) name.now result }
        ensures cause { ReadCause self.old.read_faults self.new.read_faults result }
        ensures writes { self.new.write_faults ≡ self.old.write_faults }
        ensures calls { self.new.calls ≡ self.old.calls }
        ensures failing { self.new.failing ≡ self.old.failing }
        ensures answer { IsUnread result }
    {
        let Ok(name) = Text::from_str(alloc, name) else {
            return ReadAnswer::NoMemory;
        };
        let Ok(()) = self.failed.push(name) else {
            return ReadAnswer::NoMemory;
        };
        self.read_faults = self.read_faults.saturating_add(1);
        ReadAnswer::Failed
    }
}

/// What stands under the name, copied.
fn read_from(alloc: Global, log: &VecDeque<HeldFile>, name: &str, limit: u32) -> ReadAnswer
    ensures answer { AnswersRead (Some (held_of (pairs log.now.items))) name.now limit result }
    ensures within { IsWithin limit result }
    ensures never_failed { result ≢ ReadAnswer.Failed }
{
    let Some(bytes) = find(log, name) else {
        return ReadAnswer::Missing;
    };
    if bytes.len() > limit as usize {
        return ReadAnswer::TooLarge;
    }
    match bytes.copy(alloc) {
        Ok(bytes) => ReadAnswer::Found(bytes),
        Err(_) => ReadAnswer::NoMemory,
    }
}

impl Files for MemFiles {
    ghost seen = { files_seen };

    /// It fails exactly where the number of the call is listed; where there is no memory for the
    /// name of a failed read, the answer is NoMemory.
    fn read(&mut self, alloc: Global, name: &str, limit: u32) -> ReadAnswer
        ensures read { IsRead (files_seen self.old) name.now limit result (files_seen self.new) }
        ensures listed { FailsAsListed (is_to_fail self.old) result }
        ensures calls { self.new.calls ≡ (after_call self.old).calls }
        ensures failing { self.new.failing ≡ self.old.failing }
    {
        if self.is_failing() {
            return self.fail_read(alloc, name);
        }
        read_from(alloc, &self.log, name, limit)
    }

    /// It fails where the number of the call is listed, and where there is no memory for the bytes.
    fn write(&mut self, name: &str, bytes: &[u8]) -> WriteAnswer
        ensures written { IsWritten (files_seen self.old) name.now bytes.now result (files_seen self.new) }
        ensures kept { IfWriteFailed result (self.new.log ≡ self.old.log) }
        ensures listed { FailsWhereListed (is_to_fail self.old) result }
        ensures calls { self.new.calls ≡ (after_call self.old).calls }
        ensures failing { self.new.failing ≡ self.old.failing }
    {
        if self.is_failing() {
            return self.fail_write();
        }
        let alloc = *self.log.allocator();
        match put(alloc, &mut self.log, name, bytes) {
            Ok(()) => WriteAnswer::Written,
            Err(_) => self.fail_write(),
        }
    }
}
