//! Lives that tables tell, and how their replies are read.

use corwaphi::{At, Batch, Guard, Op, Refusal};
use corwaphi_lives::{DbCall, DbLife, lives_of_db};
use lsm_lives::Reply;
use std::process::Abort;

/// A call, with keys and values of a byte each.
#[derive(Clone, Copy)]
pub enum ShortCall {
    Put(u8, u8),
    Delete(u8),
    /// Puts a value where the key has none.
    PutNew(u8, u8),
    Get(u8),
    /// Asks for the value at a snapshot.
    GetAt(u64, u8),
    /// Asks for all rows.
    Rows,
    Sync,
    SyncTo(u64),
    Snapshot,
    Release(u64),
    Compact,
}

fn batch_of<R: AllocGlobal + Abort>(rt: &R, key: u8, value: u8) -> Batch {
    let op = Op::put(rt.alloc(), &[key], &[value]).expect(rt, "an operation");
    Batch::new(rt.alloc(), op).expect(rt, "a batch")
}

fn deleting<R: AllocGlobal + Abort>(rt: &R, key: u8) -> Batch {
    let op = Op::delete(rt.alloc(), &[key]).expect(rt, "an operation");
    Batch::new(rt.alloc(), op).expect(rt, "a batch")
}

fn absent<R: AllocGlobal + Abort>(rt: &R, key: u8) -> Vec<Guard> {
    let guard = Guard::absent(rt.alloc(), &[key]).expect(rt, "a guard");
    let mut guards = Vec::new(rt.alloc());
    guards.push(guard).expect(rt, "guards");
    guards
}

fn bytes<R: AllocGlobal + Abort>(rt: &R, given: &[u8]) -> Vec<u8> {
    Vec::from_slice(rt.alloc(), given).expect(rt, "bytes")
}

fn call_of<R: AllocGlobal + Abort>(rt: &R, short: ShortCall) -> DbCall {
    match short {
        ShortCall::Put(key, value) => DbCall::Write(batch_of(rt, key, value)),
        ShortCall::Delete(key) => DbCall::Write(deleting(rt, key)),
        ShortCall::PutNew(key, value) => DbCall::WriteIf(absent(rt, key), batch_of(rt, key, value)),
        ShortCall::Get(key) => DbCall::Get(At::Now, bytes(rt, &[key])),
        ShortCall::GetAt(snapshot, key) => DbCall::Get(At::Snap(snapshot), bytes(rt, &[key])),
        ShortCall::Rows => DbCall::Page {
            at: At::Now,
            from: bytes(rt, &[]),
            to: None,
            limit: 64,
        },
        ShortCall::Sync => DbCall::Sync,
        ShortCall::SyncTo(number) => DbCall::SyncTo(number),
        ShortCall::Snapshot => DbCall::Snapshot,
        ShortCall::Release(number) => DbCall::Release(number),
        ShortCall::Compact => DbCall::Compact,
    }
}

/// A life.
pub fn life<R: AllocGlobal + Abort>(
    rt: &R,
    fuse: Option<u64>,
    short_calls: &[ShortCall],
    mask: &[bool],
) -> DbLife {
    let mut calls = Vec::new(rt.alloc());
    for short in short_calls {
        calls.push(call_of(rt, *short)).expect(rt, "calls");
    }
    DbLife {
        fuse,
        calls,
        mask: Vec::from_slice(rt.alloc(), mask).expect(rt, "a mask"),
    }
}

/// A reply that can be compared. A value is told by its only byte, and rows by their count.
#[derive(Clone, Copy, PartialEq, Eq)]
pub enum ShortReply {
    Number(u64),
    Done,
    Byte(u8),
    Nothing,
    Rows(usize),
    Refused(Refusal),
    /// Any other.
    Other,
}

fn reading_of(reply: &Reply) -> ShortReply {
    match reply {
        Reply::Number(n) => ShortReply::Number(*n),
        Reply::Done => ShortReply::Done,
        Reply::Value(Some(value)) => match value.as_slice() {
            [byte] => ShortReply::Byte(*byte),
            _ => ShortReply::Other,
        },
        Reply::Value(None) => ShortReply::Nothing,
        Reply::Page(page) => ShortReply::Rows(page.rows().count()),
        Reply::Refused(refusal) => ShortReply::Refused(*refusal),
        _ => ShortReply::Other,
    }
}

fn are(lives: &[Vec<Reply>], wanted: &[&[ShortReply]]) -> bool {
    let mut all = lives.len() == wanted.len();
    for (replies, wanted) in lives.iter().zip(wanted) {
        all = all && replies.len() == wanted.len();
        for (reply, wanted) in replies.iter().zip(*wanted) {
            all = all && reading_of(reply) == *wanted;
        }
    }
    all
}

/// Whether just these replies come of lives on a device of 8,192 sectors, with log regions of 128.
pub fn are_told<R: AllocGlobal + Abort>(
    rt: &R,
    given: &[DbLife],
    wanted: &[&[ShortReply]],
) -> bool {
    match lives_of_db(rt, 8_192, 128, given) {
        Ok((replies, _device)) => are(&replies, wanted),
        Err(refusal) => rt.panic(refusal.name()),
    }
}
