//! Small inputs.

use crate::input::{entry, input_of};
use lsm_codec::Entry;
use lsm_merge::Input;
use std::alloc::Allocator;
use std::process::Abort;

/// A version of a key of one byte: the key, the number, and the value's byte, or none.
pub type Row = (u8, u64, Option<u8>);

/// One version each of eight keys, which are the letters from a to h.
pub const ROW_A: Row = (0x61, 1, Some(1));

pub const ROW_B: Row = (0x62, 1, Some(2));

pub const ROW_C: Row = (0x63, 1, Some(3));

pub const ROW_D: Row = (0x64, 1, Some(4));

pub const ROW_E: Row = (0x65, 1, Some(5));

pub const ROW_F: Row = (0x66, 1, Some(6));

pub const ROW_G: Row = (0x67, 1, Some(7));

pub const ROW_H: Row = (0x68, 1, Some(8));

/// All of them.
pub const EIGHT: [Row; 8] = [ROW_A, ROW_B, ROW_C, ROW_D, ROW_E, ROW_F, ROW_G, ROW_H];

/// A delete of a key.
pub const NEWER: [Row; 1] = [(0x61, 9, None)];

/// An older put of it.
pub const OLDER: [Row; 1] = [(0x61, 4, Some(0x31))];

/// The entry of this version.
fn entry_of<R: Abort, A: Allocator + Copy>(rt: &R, alloc: A, row: &Row) -> Entry<A> {
    let (key, number, value) = row;
    let made = match value {
        Some(value) => entry(alloc, &[*key], *number, Some(&[*value])),
        None => entry(alloc, &[*key], *number, None),
    };
    made.expect(rt, "memory").expect(rt, "an entry")
}

/// The run of these versions.
fn run_of<R: Abort, A: Allocator + Copy>(rt: &R, alloc: A, rows: &[Row]) -> Vec<Entry<A>, A> {
    let mut run = Vec::new(alloc);
    for row in rows {
        run.push(entry_of(rt, alloc, row)).expect(rt, "memory");
    }
    run
}

/// The input of these runs, the newer first.
pub fn input<R: Abort, A: Allocator + Copy>(
    rt: &R,
    alloc: A,
    runs: &[&[Row]],
    cuts: &[u64],
    bottom: bool,
) -> Input<A> {
    let mut all = Vec::new(alloc);
    for rows in runs {
        all.push(run_of(rt, alloc, rows)).expect(rt, "memory");
    }
    let cuts = Vec::from_slice(alloc, cuts).expect(rt, "memory");
    input_of(all, cuts, bottom).expect(rt, "an input")
}
