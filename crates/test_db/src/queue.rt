//! A queue whose calls tell the prover nothing, so that it has nothing to carry from one line of a test to the next.

use corwaphi::{Db, MemDevice, Options, Refusal, format};
use example_work_queue::Queue;
use std::process::Abort;

/// A queue on a device in memory.
pub(crate) struct Subject {
    queue: Queue<MemDevice>,
}

// One call at each exit of a test.
impl Drop for Subject {
    fn drop(self) {
        let Subject { queue: _ } = self;
    }
}

/// An empty queue on a device of 8,192 sectors, with log regions of 128.
pub(crate) fn begun<R: AllocGlobal + Abort>(rt: &R) -> Subject {
    let device = MemDevice::new(rt.alloc(), 8_192).expect(rt, "a device");
    match format(rt.alloc(), device, 128) {
        Ok(device) => opened(rt, device),
        Err((refusal, _)) => rt.panic(refusal.name()),
    }
}

fn opened<R: AllocGlobal + Abort>(rt: &R, device: MemDevice) -> Subject {
    match Db::on(rt, device, Options::default()) {
        Ok(db) => Subject {
            queue: Queue::on(rt.alloc(), db),
        },
        Err(refused) => rt.panic(refused.refusal.name()),
    }
}

impl Subject {
    pub(crate) fn add(&mut self, task: &[u8]) -> Result<u64, Refusal> {
        self.queue.add(task)
    }

    /// Whether the next claim answers this task.
    pub(crate) fn claims<R: Abort>(&mut self, rt: &R, number: u64, task: &[u8]) -> bool {
        match self.queue.claim().expect(rt, "a claim") {
            Some((its_number, its_task)) => its_number == number && its_task.as_slice() == task,
            None => false,
        }
    }

    /// Whether no task waits.
    pub(crate) fn claims_none<R: Abort>(&mut self, rt: &R) -> bool {
        self.queue.claim().expect(rt, "a claim").is_none()
    }

    pub(crate) fn finishes<R: Abort>(&mut self, rt: &R, number: u64) -> bool {
        self.queue.finish(number).expect(rt, "a finish")
    }

    pub(crate) fn sync<R: Abort>(&mut self, rt: &R) {
        self.queue.sync().expect(rt, "a sync");
    }

    /// The queue after a crash that drops all that was not synced.
    pub(crate) fn crashed<R: AllocGlobal + Abort>(self, rt: &R) -> Subject {
        let Subject { queue } = self;
        opened(rt, queue.into_db().into_device().crash(&[]))
    }
}
