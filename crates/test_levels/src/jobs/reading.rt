//! A merge whose data blocks are read.

use crate::jobs::subject::{By, Subject, gathered};
use lsm_device::Refusal;
use std::process::Abort;

/// Whether a step is refused with Io where a read of it fails, after so many, and is made then: so many sectors are read, and so many
/// blocks are left.
fn goes_on_after(subject: &mut Subject, reads: u64, sectors: u64, left: usize) -> bool {
    subject.fail_after(reads);
    let is_refused = subject.read() == Err(Refusal::Io);
    let before = subject.reads();
    is_refused && subject.read() == Ok(left) && subject.reads().wrapping_sub(before) == sectors
}

/// Three runs and a table below them have fourteen blocks, of which a step reads eight, of eight sectors each.
#[test]
fn three_runs_are_read_in_two_steps(rt: HostRuntime) {
    let input = gathered(&rt, rt.alloc());
    const CASES: &[(u64, u64)] = &[(0, 0), (7, 8), (8, 24), (63, 47)];
    for &(first, second) in CASES {
        let mut subject = Subject::new(&rt, rt.alloc());
        let is_read = goes_on_after(&mut subject, first, 64, 6)
            && goes_on_after(&mut subject, second, 48, 0);
        assert!(rt; is_read && subject.has_input(&input), "{first} {second}");
    }
}

/// A block that is none, or the one before it again, is refused, and the job goes on once it is there.
#[test]
fn bad_blocks(rt: HostRuntime) {
    let mut subject = Subject::new(&rt, rt.alloc());
    const CASES: &[(By, Result<usize, Refusal>)] = &[
        (By::Zeros, Err(Refusal::BadTable)),
        (By::First, Err(Refusal::BadTable)),
        (By::Itself, Ok(6)),
    ];
    for &(by, answer) in CASES {
        subject.spoil(&rt, by);
        assert!(rt; subject.read() == answer);
    }
}
