//! What the tests begin with, and how they read replies.

use lsm_device::{MemDevice, Refusal};
use lsm_lives::{Life, Reply, lives};
use lsm_open::format;
use std::alloc::{Allocator, Global};
use std::process::Abort;
use std::thread::Threads;

/// The sectors of the device, and of a log region.
pub const SECTORS: u32 = 8_192;

pub const LOG_SECTORS: u16 = 128;

/// A formatted device.
pub fn formatted<R: Abort>(rt: &R, alloc: Global) -> MemDevice {
    let device = MemDevice::new(alloc, SECTORS).expect(rt, "a device");
    match format(alloc, device, LOG_SECTORS) {
        Ok(device) => device,
        Err((refusal, _)) => rt.panic(refusal.name()),
    }
}

/// The replies of each life, and the device that the last one left.
pub type Led<A = Global> = (Vec<Vec<Reply<A>, A>, A>, MemDevice);

/// Leads lives on a device. It tells the prover nothing, so that it has nothing to carry through a test.
pub fn led<R: Threads + Sync, A: Allocator + Clone + Send + Sync>(
    rt: &R,
    alloc: A,
    device: MemDevice,
    given: &[Life<A>],
) -> Result<Led<A>, (Refusal, MemDevice)> {
    match lives(rt, alloc, device, given) {
        Ok(led) => Ok(led),
        Err(refused) => Err(refused),
    }
}

/// The device that lives leave, where just these replies come of them.
pub fn left_by<R: Threads + Sync + Abort>(
    rt: &R,
    alloc: Global,
    device: MemDevice,
    given: &[Life],
    wanted: &[&[PlainReply]],
) -> MemDevice {
    match led(rt, alloc, device, given) {
        Ok((replies, device)) => {
            assert!(rt; are(&replies, wanted), "other replies");
            device
        }
        Err((refusal, _)) => rt.panic(refusal.name()),
    }
}

/// A reply that can be compared. A value is told by its only byte.
#[derive(Clone, Copy, PartialEq, Eq)]
pub enum PlainReply {
    Number(u64),
    Done,
    Byte(u8),
    Refused(Refusal),
    /// Any other.
    Other,
}

fn reading_of<A: Allocator>(reply: &Reply<A>) -> PlainReply {
    match reply {
        Reply::Number(n) => PlainReply::Number(*n),
        Reply::Done => PlainReply::Done,
        Reply::Value(Some(value)) => match value.as_slice() {
            [byte] => PlainReply::Byte(*byte),
            _ => PlainReply::Other,
        },
        Reply::Refused(refusal) => PlainReply::Refused(*refusal),
        _ => PlainReply::Other,
    }
}

/// Whether just these replies came of each life.
pub fn are<A: Allocator>(lives: &[Vec<Reply<A>, A>], wanted: &[&[PlainReply]]) -> bool {
    let mut all = lives.len() == wanted.len();
    for (replies, wanted) in lives.iter().zip(wanted) {
        all = all && replies.len() == wanted.len();
        for (reply, wanted) in replies.iter().zip(*wanted) {
            all = all && reading_of(reply) == *wanted;
        }
    }
    all
}
