//! Openings on devices that are refused, and what is made of the device then.

use crate::subject::opened;
use corwaphi::{Db, OpenDbError, OpenOnError, Options, format};
use lsm_device::{MemDevice, Refusal};
use std::process::Abort;

// Opens what a device holds, and tells how many batches that are.
fn count_on<R: AllocGlobal>(rt: &R, device: MemDevice) -> Result<u64, Refusal> {
    let db = Db::on(rt, device, Options::default())?;
    Ok(db.batch_count())
}

fn count_or_why<R: AllocGlobal>(rt: &R, device: MemDevice) -> Result<u64, OpenDbError> {
    let db = Db::on(rt, device, Options::default())?;
    Ok(db.batch_count())
}

// Makes a device an empty store, and tells whether that takes a put.
fn takes_a_put<R: AllocGlobal + Abort>(rt: &R, device: MemDevice) -> bool {
    match format(rt.alloc(), device, 128) {
        Ok(device) => opened(rt, device).put(b"key", b"value") == Ok(1),
        Err(_) => false,
    }
}

#[test]
fn a_refused_opening_hands_the_device_back(rt: HostRuntime) {
    let device = MemDevice::new(rt.alloc(), 8_192).expect(&rt, "a device");
    match Db::on(&rt, device, Options::default()) {
        Ok(_) => rt.panic("a device of zeros is a store"),
        Err(OpenOnError { refusal, device }) => {
            assert!(rt; refusal == Refusal::NotAStore && takes_a_put(&rt, device));
        }
    }
}

#[test]
fn a_question_mark_takes_the_refusal(rt: HostRuntime) {
    let device = MemDevice::new(rt.alloc(), 8_192).expect(&rt, "a device");
    assert!(rt; count_on(&rt, device) == Err(Refusal::NotAStore));
    let device = MemDevice::new(rt.alloc(), 8_192).expect(&rt, "a device");
    let refused = matches!(
        count_or_why(&rt, device),
        Err(OpenDbError::Store(Refusal::NotAStore))
    );
    assert!(rt; refused);
}
