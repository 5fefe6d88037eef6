//! Writes that wait for their commit.

use crate::subject::{Subject, begun, opened};
use corwaphi::{BufferedDb, Device, MemDevice, Refusal};
use std::process::Abort;

/// A store with what waits.
struct Buffer {
    buffered: BufferedDb<MemDevice>,
}

// One call at each exit of a test, in the place of all that a store is made of.
impl Drop for Buffer {
    fn drop(self) {
        let Buffer { buffered: _ } = self;
    }
}

fn empty_buffer<R: AllocGlobal + Abort>(rt: &R) -> Buffer {
    Buffer {
        buffered: BufferedDb::on(begun(rt).into_db()),
    }
}

impl Buffer {
    fn put(&mut self, key: &[u8], value: &[u8]) -> Result<(), Refusal> {
        self.buffered.put(key, value)
    }

    fn delete(&mut self, key: &[u8]) -> Result<(), Refusal> {
        self.buffered.delete(key)
    }

    fn commit(&mut self) -> Result<u64, Refusal> {
        self.buffered.commit()
    }

    fn sync(&mut self) -> Result<(), Refusal> {
        self.buffered.sync()
    }

    fn has<R: Abort>(&mut self, rt: &R, key: &[u8], wanted: Option<&[u8]>) -> bool {
        let found = self.buffered.get(key).expect(rt, "a value");
        match (&found, wanted) {
            (Some(found), Some(wanted)) => found.as_slice() == wanted,
            (None, None) => true,
            _ => false,
        }
    }

    /// The store as a crash leaves it that keeps no write but those that were synced.
    fn crashed<R: AllocGlobal + Abort>(self, rt: &R) -> Subject<MemDevice> {
        let Buffer { buffered } = self;
        let (db, _) = buffered.into_parts();
        opened(rt, db.into_device().crash(&[]))
    }
}

#[test]
fn what_waits_is_read(rt: HostRuntime) {
    let mut buffer = empty_buffer(&rt);
    let put = buffer.put(b"apple", b"red");
    let again = buffer.put(b"apple", b"green");
    let deleted = buffer.delete(b"pear");
    assert!(rt; put == Ok(()) && again == Ok(()) && deleted == Ok(()));
    assert!(rt; buffer.has(&rt, b"apple", Some(b"green")) && buffer.has(&rt, b"pear", None));
}

#[test]
fn what_waits_is_one_batch(rt: HostRuntime) {
    let mut buffer = empty_buffer(&rt);
    let put = buffer.put(b"apple", b"red");
    let other = buffer.put(b"pear", b"green");
    assert!(rt; put == Ok(()) && other == Ok(()));
    assert!(rt; buffer.commit() == Ok(1) && buffer.commit() == Ok(1));
    assert!(rt;
        buffer.has(&rt, b"apple", Some(b"red")) && buffer.has(&rt, b"pear", Some(b"green"))
    );
}

#[test]
fn a_sync_keeps_what_waits(rt: HostRuntime) {
    let mut buffer = empty_buffer(&rt);
    let put = buffer.put(b"apple", b"red");
    let synced = buffer.sync();
    let lost = buffer.put(b"pear", b"green");
    assert!(rt; put == Ok(()) && synced == Ok(()) && lost == Ok(()));
    let mut db = buffer.crashed(&rt);
    assert!(rt; db.has(&rt, b"apple", Some(b"red")) && db.has(&rt, b"pear", None));
}

// 16,384 bytes of text are 17 such puts, and a few more make another batch.
#[test]
fn a_full_buffer_is_committed(rt: HostRuntime) {
    let mut buffer = empty_buffer(&rt);
    for number in 0..20_u8 {
        let put = buffer.put(&[number], &[number; 1_000]);
        assert!(rt; put == Ok(()));
    }
    assert!(rt;
        buffer.has(&rt, &[0], Some(&[0; 1_000])) && buffer.has(&rt, &[19], Some(&[19; 1_000]))
    );
    assert!(rt; buffer.commit() == Ok(2));
}

#[test]
fn a_refused_write_does_not_wait(rt: HostRuntime) {
    let mut buffer = empty_buffer(&rt);
    let no_key = buffer.put(b"", b"red");
    let long = buffer.put(b"apple", &[0; 2_049]);
    let no_delete = buffer.delete(&[1; 256]);
    assert!(rt;
        no_key == Err(Refusal::BadKey)
            && long == Err(Refusal::BadValue)
            && no_delete == Err(Refusal::BadKey)
    );
    assert!(rt; buffer.commit() == Ok(0));
}
