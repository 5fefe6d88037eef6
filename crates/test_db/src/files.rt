//! Stores in files.

use crate::subject::Subject;
use corwaphi::{Db, OpenDbError, Options};
use lsm_device::{FileDevice, OpenError, Refusal};
use std::fs::{File, Files};
use std::process::Abort;

/// A small store.
const SMALL: Options = Options {
    cache: 256,
    sectors: 8_192,
    log_sectors: 128,
};

/// The store in a file, which is made where it is not there.
fn there<R: Files<File = File> + AllocGlobal + Abort>(rt: &R, path: &str) -> Subject<FileDevice> {
    match Db::open_or_create(rt, path, SMALL) {
        Ok(db) => Subject::of(rt.alloc(), db),
        Err(_) => rt.panic("a store"),
    }
}

/// Puts a row into the store of a file, syncs it, and lets it go.
fn put<R: Files<File = File> + AllocGlobal + Abort>(
    rt: &R,
    path: &str,
    key: &[u8],
    value: &[u8],
) -> Result<u64, Refusal> {
    let mut db = there(rt, path);
    let number = db.put(key, value)?;
    db.sync()?;
    Ok(number)
}

#[test]
fn what_is_synced_is_there_again(rt: HostRuntime) {
    let first = put(&rt, "again.img", b"apple", b"red");
    let second = put(&rt, "again.img", b"pear", b"green");
    assert!(rt; first == Ok(1) && second == Ok(2));
    let mut db = there(&rt, "again.img");
    assert!(rt; db.has(&rt, b"apple", Some(b"red")) && db.has(&rt, b"pear", Some(b"green")));
}

#[test]
fn a_new_store_is_in_the_place_of_the_old_one(rt: HostRuntime) {
    let first = put(&rt, "new.img", b"apple", b"red");
    let made = Db::create(&rt, "new.img", SMALL).is_ok();
    let mut db = there(&rt, "new.img");
    assert!(rt; first == Ok(1) && made && db.has(&rt, b"apple", None));
}

#[test]
fn a_refused_opening_tells_its_cause(rt: HostRuntime) {
    let none = Db::open(&rt, "none.img", SMALL);
    assert!(rt; matches!(&none, Err(OpenDbError::File(OpenError::Failed(_)))));
    let large = Options {
        sectors: 100,
        ..SMALL
    };
    let refused = Db::create(&rt, "large.img", large);
    assert!(rt; matches!(&refused, Err(OpenDbError::Store(Refusal::BadGeometry))));
}
