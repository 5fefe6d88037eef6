//! What a crash leaves.

use crate::queue::begun;

#[test]
fn what_was_synced_is_there(rt: HostRuntime) {
    let mut queue = begun(&rt);
    let first = queue.add(b"sweep");
    let second = queue.add(b"wash");
    let claimed = queue.claims(&rt, 1, b"sweep");
    queue.sync(&rt);
    let third = queue.add(b"cook");
    let finished = queue.finishes(&rt, 1);
    assert!(rt; first == Ok(1) && second == Ok(2) && third == Ok(3) && claimed && finished);
    let mut queue = queue.crashed(&rt);
    assert!(rt; queue.claims(&rt, 2, b"wash") && queue.claims_none(&rt));
    assert!(rt; queue.finishes(&rt, 1) && queue.add(b"cook") == Ok(3));
}
