//! A commit one of whose writes fails, and what a crash then leaves of it.

use crate::subject::{Subject, begun};
use lsm_device::Refusal;
use std::alloc::Global;
use std::process::Abort;

/// A store in which the second write of a commit of two sectors failed. That write pends, or was never made.
fn stopped<R: Abort>(rt: &R, alloc: Global, kept: bool) -> Subject {
    let mut store = begun(rt, alloc);
    store.fail(1, kept);
    let failed = store.put(rt, &[0x61], &[0x31; 600]);
    let refused = store.put(rt, &[0x62], &[0x32]);
    assert!(rt; failed == Err(Refusal::Io) && refused == Err(Refusal::Stopped));
    store
}

#[test]
fn a_batch_whose_last_write_failed_stands_if_that_write_was_kept(rt: HostRuntime) {
    for (kept, batches) in [(false, 0), (true, 1)] {
        let store = stopped(&rt, rt.alloc(), kept);
        assert!(rt; store.stands_still() == (true, false), "{kept}");
        let mut store = store.crashed(&rt, &[true, true]);
        assert!(rt; store.has_just(&rt, batches), "{kept}");
    }
}
