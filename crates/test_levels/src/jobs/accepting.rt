//! Results that are divided at keys.

use crate::jobs::subject::Subject;
use lsm_device::Refusal;

/// Seven entries are kept, of the keys 0x10 to 0x16. Each takes a data block, and each table three blocks more.
#[test]
fn a_result_is_accepted_wherever_it_is_divided(rt: HostRuntime) {
    const CASES: &[(&[u8], (u64, u32))] = &[
        (&[], (7, 90)),
        (&[0x13], (8, 87)),
        (&[0x10, 0x16], (8, 87)),
        (&[0x11, 0x12, 0x15], (10, 81)),
        (&[0x15, 0x11], (8, 87)),
    ];
    for &(keys, answer) in CASES {
        let mut subject = Subject::new(&rt, rt.alloc());
        assert!(rt; subject.read() == Ok(6) && subject.read() == Ok(0));
        assert!(rt; subject.accept(&rt, keys) == Ok(answer), "{keys:?}");
    }
}

/// A job whose blocks are not read yet has no input.
#[test]
fn a_job_that_is_not_read_accepts_nothing(rt: HostRuntime) {
    let mut subject = Subject::new(&rt, rt.alloc());
    assert!(rt; subject.accept(&rt, &[0x13]) == Err(Refusal::WrongState));
}
