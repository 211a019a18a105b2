ghost use Rattle.std.specs.Prelude.{◌≡◌, ◌<◌, []};
ghost use Rattle.qvt_base.specs.Outside.{SinkCause, IsSent};

use crate::lists::{Bytes, CallList};
use crate::outside::{Sink, SinkAnswer};
use crate::seq::Seq;
use std::alloc::Global;
use std::marker::Model;

/// A sink in memory: it tells its bytes, takes at most so many in a call, and calls whose numbers
/// (the first being 1) stand in a list fail.
#[derive(Debug, Drop)]
pub struct MemSink {
    bytes: Bytes,
    failing: CallList,
    calls: u64,
    most: usize,
    faults: u64,
    ghost takes_some: { 0 < most },
}

impl Model for MemSink {
    ghost use Rattle.qvt_base.specs.MemSink.{SinkInMemory};

    ghost Value = { SinkInMemory };

    ghost view = { λ s. record { bytes = s.bytes; failing = s.failing; calls = s.calls; most = s.most; faults = s.faults } };
}

impl MemSink {
    ghost use Rattle.qvt_base.specs.MemSink.{is_to_fail, after_call};

    /// No bytes, no faults. The calls of these numbers are to fail.
    pub fn new(alloc: Global, failing: CallList, most: usize) -> MemSink
        requires { 0 < most }
        ensures { result ≡ record { bytes = []; failing = failing; calls = 0; most = most; faults = 0 } }
    {
        MemSink {
            bytes: Seq::new(alloc),
            failing,
            calls: 0,
            most,
            faults: 0,
        }
    }

    /// The bytes written. It takes no memory.
    pub fn bytes(&self) -> &[u8]
        ensures { result.now ≡ self.now.bytes }
    {
        self.bytes.as_slice()
    }

    /// Counts a call, and tells whether it is to fail.
    fn is_failing(&mut self) -> bool
        ensures answer { result ≡ is_to_fail self.old }
        ensures after { self.new ≡ after_call self.old }
    {
        self.calls = self.calls.saturating_add(1);
        let calls = self.calls;
        self.failing.as_slice().contains(&calls)
    }

    /// A write that failed.
    fn fail(&mut self) -> SinkAnswer
        ensures after { self.new ≡ record self.old { faults = self.new.faults } }
        ensures cause { SinkCause self.old.faults self.new.faults result }
        ensures failed { result ≡ SinkAnswer.Failed }
    {
        self.faults = self.faults.saturating_add(1);
        SinkAnswer::Failed
    }
}

impl Sink for MemSink {
    ghost use Rattle.qvt_base.specs.MemSink.{sink_seen, is_to_fail, after_call, SinkFailsWhereListed, TakesMost};

    ghost seen = { sink_seen };

    /// It fails where the number of the call is listed, and where there is no memory for the bytes;
    /// otherwise it takes as many as it may in one call.
    fn write(&mut self, piece: &[u8]) -> SinkAnswer
        ensures sent { IsSent (sink_seen self.old) piece.now result (sink_seen self.new) }
        ensures listed { SinkFailsWhereListed (is_to_fail self.old) result }
        ensures most { TakesMost self.old.most piece.now result }
        ensures calls { self.new.calls ≡ (after_call self.old).calls }
        ensures failing { self.new.failing ≡ self.old.failing }
        ensures limit { self.new.most ≡ self.old.most }
    {
        if self.is_failing() {
            return self.fail();
        }
        let count = piece.len().min(self.most);
        match self.bytes.extend(&piece[..count]) {
            Ok(()) => SinkAnswer::Taken(count),
            Err(_) => self.fail(),
        }
    }
}
