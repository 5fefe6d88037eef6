//! Each call once.

use crate::subject::begun;
use lsm_device::Refusal;

#[test]
fn what_is_put_is_got(rt: HostRuntime) {
    let mut db = begun(&rt);
    let put = db.put(b"apple", b"red");
    let both = db.put_and_delete(&rt, b"pear", b"green", b"apple");
    assert!(rt; put == Ok(1) && both == Ok(2));
    assert!(rt; db.has(&rt, b"apple", None) && db.has(&rt, b"pear", Some(b"green")));
}

#[test]
fn what_is_deleted_is_gone(rt: HostRuntime) {
    let mut db = begun(&rt);
    let put = db.put(b"apple", b"red");
    let deleted = db.delete(b"apple");
    assert!(rt; put == Ok(1) && deleted == Ok(2) && db.has(&rt, b"apple", None));
}

#[test]
fn keys_and_values_have_limits(rt: HostRuntime) {
    let mut db = begun(&rt);
    let no_key = db.put(b"", b"red");
    let long = db.put(b"apple", &[0; 2_049]);
    assert!(rt; no_key == Err(Refusal::BadKey) && long == Err(Refusal::BadValue));
    assert!(rt; db.delete(&[1; 256]) == Err(Refusal::BadKey) && db.counts(&rt) == (0, 0));
}

#[test]
fn a_guarded_batch_needs_its_guards(rt: HostRuntime) {
    let mut db = begun(&rt);
    let first = db.put_if(&rt, b"apple", None, b"red");
    let second = db.put_if(&rt, b"apple", None, b"green");
    let third = db.put_if(&rt, b"apple", Some(b"red"), b"ripe");
    assert!(rt; first == Ok(1) && second == Err(Refusal::GuardFailed(0)) && third == Ok(2));
    assert!(rt; db.has(&rt, b"apple", Some(b"ripe")));
}

#[test]
fn a_snapshot_keeps_its_map(rt: HostRuntime) {
    let mut db = begun(&rt);
    let put = db.put(b"apple", b"red");
    let then = db.snapshot(&rt);
    let deleted = db.delete(b"apple");
    assert!(rt; put == Ok(1) && deleted == Ok(2) && db.had(&rt, then, b"apple", Some(b"red")));
    assert!(rt; db.release(then) == Ok(()) && db.release(then) == Err(Refusal::NoSuchSnapshot));
}

#[test]
fn a_sync_is_of_batches_that_are_there(rt: HostRuntime) {
    let mut db = begun(&rt);
    let put = db.put(b"apple", b"red");
    assert!(rt; put == Ok(1) && db.sync_to(1) == Ok(()));
    assert!(rt; db.sync_to(2) == Err(Refusal::NoSuchBatch) && db.sync() == Ok(()));
}
