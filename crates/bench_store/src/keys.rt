//! Keys, values and batches.

use lsm_codec::{Batch, Guard, Op};
use lsm_device::Refusal;
use std::alloc::Global;

/// The key of a number. Other numbers have other keys, and the keys of numbers in order are in an order that looks random.
pub(crate) fn key_of(number: u32) -> [u8; 16] {
    let spread = number.wrapping_mul(2_654_435_761);
    let [a, b, c, d] = spread.to_be_bytes();
    [
        b'b', b'e', b'n', b'c', b'h', b':', b'k', b'e', b'y', b':', b'0', b'0', a, b, c, d,
    ]
}

/// The value of a key that is put in a round: the key, and then the number of the round in each byte.
pub(crate) fn value_of(key: &[u8; 16], round: u8) -> [u8; 100] {
    let mut value = [round; 100];
    value[..16].copy_from_slice(key);
    value
}

/// A batch that puts the values of `count` numbers, at least one.
pub(crate) fn batch_of(alloc: Global, first: u32, count: u32, round: u8) -> Result<Batch, Refusal> {
    let key = key_of(first);
    let mut batch = Batch::new(alloc, Op::put(alloc, &key, &value_of(&key, round))?)?;
    for place in 1..count {
        let key = key_of(first.wrapping_add(place));
        batch.put(&key, &value_of(&key, round))?;
    }
    Ok(batch)
}

/// A batch that deletes every second one of `count` numbers, beginning with the first.
pub(crate) fn thinning_of(alloc: Global, first: u32, count: u32) -> Result<Batch, Refusal> {
    let mut batch = Batch::new(alloc, Op::delete(alloc, &key_of(first))?)?;
    for place in 1..count.div_ceil(2) {
        batch.delete(&key_of(first.wrapping_add(place.wrapping_mul(2))))?;
    }
    Ok(batch)
}

/// A guard that the key of a number has the value of a round.
pub(crate) fn guards_of(alloc: Global, number: u32, round: u8) -> Result<Vec<Guard>, Refusal> {
    let key = key_of(number);
    let mut guards = Vec::with_capacity(alloc, 1)?;
    guards.push(Guard::holds(alloc, &key, &value_of(&key, round))?)?;
    Ok(guards)
}
