//! Times.

use std::rt::Clock;
use std::time::Instant;

/// The present moment, none where the clock can't be read.
pub(crate) fn now<R: Clock>(rt: &R) -> Option<Instant> {
    Instant::now(rt).ok()
}

/// The nanoseconds since a moment. Where the clock can't be read they are the most that there are, so that rates are 0.
pub(crate) fn since<R: Clock>(rt: &R, start: Option<Instant>) -> u64 {
    let Some(start) = start else {
        return u64::MAX;
    };
    match start.elapsed(rt) {
        Ok(time) => u64::try_from(time.as_nanos()).unwrap_or(u64::MAX),
        Err(_) => u64::MAX,
    }
}
