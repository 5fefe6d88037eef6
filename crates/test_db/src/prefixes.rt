//! Rows whose keys begin with a prefix.

use crate::subject::{Subject, begun};
use lsm_device::{MemDevice, Refusal};
use std::process::Abort;

/// A store of seven rows, with keys that are prefixes of others, and with the greatest byte in keys.
fn with_keys<R: AllocGlobal + Abort>(rt: &R) -> Subject<MemDevice> {
    const KEYS: &[&[u8]] = &[
        b"a",
        b"ab",
        &[0x61, 0x62, 255],
        b"ac",
        &[255],
        &[255, 1],
        &[255, 255, 3],
    ];
    let mut db = begun(rt);
    for &key in KEYS {
        db.put(key, b"value").expect(rt, "a batch");
    }
    db
}

fn count(db: &mut Subject<MemDevice>, prefix: &[u8]) -> Result<u8, Refusal> {
    let mut count = 0_u8;
    for row in db.rows_with_prefix(prefix)? {
        if !row?.key.starts_with(prefix) {
            return Err(Refusal::BadKey);
        }
        count = count.wrapping_add(1);
    }
    Ok(count)
}

#[test]
fn a_prefix_has_its_rows_alone(rt: HostRuntime) {
    let mut db = with_keys(&rt);
    assert!(rt; count(&mut db, b"") == Ok(7) && count(&mut db, b"a") == Ok(4));
    assert!(rt; count(&mut db, b"ab") == Ok(2) && count(&mut db, &[0x61, 0x62, 255]) == Ok(1));
    assert!(rt; count(&mut db, b"b") == Ok(0) && count(&mut db, b"abc") == Ok(0));
}

#[test]
fn a_prefix_of_the_greatest_byte_ends_with_the_map(rt: HostRuntime) {
    let mut db = with_keys(&rt);
    assert!(rt; count(&mut db, &[255]) == Ok(3) && count(&mut db, &[255, 255]) == Ok(1));
    assert!(rt; count(&mut db, &[255, 255, 255]) == Ok(0));
}
