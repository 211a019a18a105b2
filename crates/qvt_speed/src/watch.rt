//! How long calls take, in time of the processor.

use qvt_base::lists::Bytes;
use std::alloc::Global;
use std::time::{CpuClock, Duration};

/// The time that the program has taken.
pub fn now<R: CpuClock>(rt: &R) -> Option<Duration> {
    rt.process_cpu_time().ok()
}

/// Tells in a line how many microseconds it took since then.
pub fn tell<R: CpuClock>(rt: &R, alloc: Global, begin: Duration, told: &mut Bytes) -> Option<()> {
    let took = now(rt)?.saturating_sub(begin).as_micros();
    let line = format!(in alloc; "{took}\n").ok()?;
    told.extend(line.as_bytes()).ok()
}
