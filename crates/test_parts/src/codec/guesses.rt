//! The numbers by which a search guesses a place.

use crate::codec::texts::bytes_of;
use lsm_codec::{Index, common_prefix, head_of};
use std::alloc::Global;
use std::process::Abort;

/// Two keys, and how many bytes they begin with alike.
const PREFIXES: &[(&[u8], &[u8], usize)] = &[
    (b"", b"", 0),
    (b"", b"a", 0),
    (b"b", b"a", 0),
    (b"ab", b"abc", 2),
    (b"abd", b"abc", 2),
    (b"abc", b"abc", 3),
];

#[test]
fn bytes_that_two_keys_begin_with(rt: HostRuntime) {
    for &(key, other, bytes) in PREFIXES {
        assert!(rt; common_prefix(key, other) == bytes);
    }
}

/// A key, how many of its bytes are passed, and the number of the next eight.
const HEADS: &[(&[u8], usize, u64)] = &[
    (b"", 0, 0),
    (b"a", 0, 0x6100_0000_0000_0000),
    (b"a", 1, 0),
    (b"a", 2, 0),
    (b"abcdefgh", 0, 0x6162_6364_6566_6768),
    (b"abcdefghij", 1, 0x6263_6465_6667_6869),
    (b"abcdefghij", 5, 0x6667_6869_6a00_0000),
];

#[test]
fn eight_bytes_of_a_key_as_a_number(rt: HostRuntime) {
    for &(key, past, number) in HEADS {
        assert!(rt; head_of(key, past) == number);
    }
}

/// The index of three blocks that end with version 1 of `row:0001`, `row:0003` and `row:0005`.
const ROWS: &str = concat!(
    "08726f773a303030310000000000000001",
    "08726f773a303030330000000000000001",
    "08726f773a303030350000000000000001",
);

fn index_of_rows<R: Abort>(rt: &R, alloc: Global) -> Index {
    let block = bytes_of::<4_096>(ROWS).expect(rt, "a block");
    let index = Index::decode(alloc, 3, &block).expect(rt, "memory");
    index.expect(rt, "an index")
}

/// A key, and how many of the blocks end before it.
const PLACES: &[(&[u8], usize)] = &[
    (b"row:", 0),
    (b"row:0000", 0),
    (b"row:0001", 0),
    (b"row:00011", 1),
    (b"row:0002", 1),
    (b"row:0003", 1),
    (b"row:0004", 2),
    (b"row:0006", 3),
];

#[test]
fn an_index_guesses_where_a_key_is(rt: HostRuntime) {
    let index = index_of_rows(&rt, rt.alloc());
    for &(key, place) in PLACES {
        assert!(rt; index.guess(key) == place);
    }
}
