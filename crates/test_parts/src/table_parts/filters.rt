//! The bits of keys, and which keys are perhaps in a filter.

use lsm_filter::{FILTER_BYTES, Filter, KeyHash};
use std::alloc::Global;
use std::process::Abort;

fn set_bits(block: &mut [u8], bits: &[u32]) {
    for &bit in bits {
        if let Some(byte) = block.get_mut((bit / 8) as usize) {
            *byte |= 1u8.checked_shl(bit % 8).unwrap_or(0);
        }
    }
}

/// The block with just these bits, each counted from the low end of its byte.
fn block_of(bits: &[u32]) -> [u8; FILTER_BYTES] {
    let mut block = [0; FILTER_BYTES];
    set_bits(&mut block, bits);
    block
}

/// Whether the filter of one key has just those bits, built at once, with the key put in twice, or read from its block.
fn is_spelled<R: Abort>(rt: &R, alloc: Global, key: &[u8], bits: &[u32]) -> bool {
    let block = block_of(bits);
    let built = Filter::build(alloc, &[key]).expect(rt, "memory");
    let mut grown = Filter::new(alloc).expect(rt, "memory");
    grown.insert(key);
    grown.insert(key);
    let read = Filter::from_block(alloc, &block).expect(rt, "memory");
    built.block() == block.as_slice()
        && grown.block() == block.as_slice()
        && read.block() == block.as_slice()
        && read.perhaps(key)
        && read.perhaps_hashed(KeyHash::of(key))
}

/// The bits that a hash gives.
fn probes(hash: u64) -> [u32; 7] {
    let step = (hash >> 32) | 1;
    let mut bits = [0; 7];
    let mut at = hash % (1 << 32);
    for bit in &mut bits {
        *bit = (at % 32_768) as u32;
        at = at.wrapping_add(step);
    }
    bits
}

const BITS_OF_A: [u32; 7] = [27_788, 18_649, 9_510, 371, 24_000, 14_861, 5_722];

const BITS_OF_C: [u32; 7] = [28_658, 20_031, 11_404, 2_777, 26_918, 18_291, 9_664];

#[test]
fn a_key_has_the_seven_bits_of_its_hash(rt: HostRuntime) {
    const HASHES: &[(&[u8], u64)] = &[
        (b"", 0xcbf2_9ce4_8422_2325),
        (b"a", 0xaf63_dc4c_8601_ec8c),
        (b"b", 0xaf63_df4c_8601_f1a5),
    ];
    for &(key, hash) in HASHES {
        assert!(rt; is_spelled(&rt, rt.alloc(), key, &probes(hash)));
    }
    assert!(rt; is_spelled(&rt, rt.alloc(), b"a", &BITS_OF_A));
    assert!(rt; is_spelled(&rt, rt.alloc(), b"c", &BITS_OF_C));
    assert!(rt; probes(0xaf63_df4c_8601_f1a5)[0] == 29_093);
}

#[test]
fn the_bytes_of_one_key(rt: HostRuntime) {
    const BYTES: &[(usize, u8)] = &[
        (46, 0x08),
        (715, 0x04),
        (1188, 0x40),
        (1857, 0x20),
        (2331, 0x02),
        (3000, 0x01),
        (3473, 0x10),
    ];
    let block = block_of(&BITS_OF_A);
    for (at, byte) in BYTES {
        assert!(rt; block.get(*at) == Some(byte));
    }
}

/// Whether a filter says this of a key, asked by the key and by its hash.
fn answers(filter: &Filter, key: &[u8], there: bool) -> bool {
    filter.perhaps(key) == there && filter.perhaps_hashed(KeyHash::of(key)) == there
}

#[test]
fn a_filter_of_two_keys(rt: HostRuntime) {
    let filter = Filter::build(rt.alloc(), &[b"a".as_slice(), b"c"]).expect(&rt, "memory");
    for (key, there) in [(b"a", true), (b"b", false), (b"c", true)] {
        assert!(rt; answers(&filter, key, there));
    }
}
