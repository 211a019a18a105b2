ghost use Rattle.qvt_base.specs.Outside.{FilesSeen, IsRead, IsWritten, SinkSeen, IsSent};

use crate::lists::Bytes;
use std::alloc::Global;

/// What a read answers.
#[derive(Debug, Drop)]
pub enum ReadAnswer {
    Found(Bytes),
    /// The name is not held.
    Missing,
    /// The name has more bytes than the limit.
    TooLarge,
    /// The read failed, and the count of read faults rose.
    Failed,
    NoMemory,
}

/// What a write answers.
#[derive(Clone, Copy, Debug, PartialEq, Eq)]
pub enum WriteAnswer {
    Written,
    /// The write failed, and the count of write faults rose. The name may hold anything.
    Failed,
}

/// What a write to a sink answers.
#[derive(Clone, Copy, Debug, PartialEq, Eq)]
pub enum SinkAnswer {
    /// How many bytes of the piece were taken, from its front.
    Taken(usize),
    /// Nothing was taken, and the count of faults rose.
    Failed,
}

/// Files by name. What they hold and the names of the reads that failed are told optionally; the two
/// counts of faults never fall and stop at the greatest `u64`.
pub trait Files {
    ghost seen: { Self → FilesSeen };

    /// Reads a whole file of at most `limit` bytes.
    fn read(&mut self, alloc: Global, name: &str, limit: u32) -> ReadAnswer
        ensures { IsRead (seen self.old) name.now limit result (seen self.new) };

    /// Makes a file hold these bytes.
    fn write(&mut self, name: &str, bytes: &[u8]) -> WriteAnswer
        ensures { IsWritten (seen self.old) name.now bytes.now result (seen self.new) };
}

/// Where reports and printed text go. The bytes written are told optionally.
pub trait Sink {
    ghost seen: { Self → SinkSeen };

    /// Takes a front of the piece: at least a byte where it is not empty.
    fn write(&mut self, piece: &[u8]) -> SinkAnswer
        ensures { IsSent (seen self.old) piece.now result (seen self.new) };
}
