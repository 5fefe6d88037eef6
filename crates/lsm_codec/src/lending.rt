//! Readers that take no memory: each lends a value out of the front of the bytes, and gives it with the bytes after it.

ghost use Rattle.std.specs.Prelude.{◌≡◌, ◌≤◌, ◌^◌, length, IfSome};
ghost use Rattle.lsm_codec.specs.Keys.{IsKey, IsValue};
ghost use Rattle.lsm_codec.specs.Reading.{Lends, number_at, bytes_at};
ghost use Rattle.lsm_codec.specs.BatchText.{key_at, value_at};
ghost use Rattle.lsm_codec.specs.Entries.{are_zeros, batch_number_at};

use crate::greatest::LAST_NUMBER;
use byteorder::{BigEndian, ByteOrder};

pub(crate) fn u8_at(bytes: &[u8]) -> Option<(u8, &[u8])>
    ensures { Lends (λ x. (x.0, x.1.now)) result (number_at 1 bytes.now) }
{
    if bytes.is_empty() {
        return None;
    }
    Some((bytes[0], &bytes[1..]))
}

pub(crate) fn u16_at(bytes: &[u8]) -> Option<(u16, &[u8])>
    ensures { Lends (λ x. (x.0, x.1.now)) result (number_at 2 bytes.now) }
{
    if bytes.len() < 2 {
        return None;
    }
    Some((BigEndian::read_u16(bytes), &bytes[2..]))
}

pub(crate) fn bytes_at(bytes: &[u8], size: usize) -> Option<(&[u8], &[u8])>
    ensures read { Lends (λ x. (x.0.now, x.1.now)) result (bytes_at size bytes.now) }
    ensures len { IfSome result (λ x. length x.0.now ≡ size) }
{
    if bytes.len() < size {
        return None;
    }
    Some(bytes.split_at(size))
}

#[tactic(auto, unfolding(crate::specs::BatchText::key_at))]
pub(crate) fn key_at(bytes: &[u8]) -> Option<(&[u8], &[u8])>
    ensures read { Lends (λ x. (x.0.now, x.1.now)) result (key_at bytes.now) }
    ensures fits { IfSome result (λ x. IsKey x.0.now) }
{
    let (length, rest) = u8_at(bytes)?;
    let (key, rest) = bytes_at(rest, length as usize)?;
    if key.is_empty() {
        return None;
    }
    Some((key, rest))
}

#[tactic(auto, unfolding(crate::specs::BatchText::value_at))]
pub(crate) fn value_at(bytes: &[u8]) -> Option<(&[u8], &[u8])>
    ensures read { Lends (λ x. (x.0.now, x.1.now)) result (value_at bytes.now) }
    ensures fits { IfSome result (λ x. IsValue x.0.now) }
{
    let (length, rest) = u16_at(bytes)?;
    let (value, rest) = bytes_at(rest, length as usize)?;
    if value.len() > 2_048 {
        return None;
    }
    Some((value, rest))
}

/// A number that a batch can have.
pub(crate) fn batch_number_at(bytes: &[u8]) -> Option<(u64, &[u8])>
    ensures read { Lends (λ x. (x.0, x.1.now)) result (batch_number_at bytes.now) }
    ensures low { IfSome result (λ x. 1 ≤ x.0) }
    ensures high { IfSome result (λ x. x.0 ≤ 2 ^ 63) }
{
    if bytes.len() < 8 {
        return None;
    }
    let number = BigEndian::read_u64(bytes);
    if !(1..=LAST_NUMBER).contains(&number) {
        return None;
    }
    Some((number, &bytes[8..]))
}

/// Whether each byte is zero.
pub fn is_zero(bytes: &[u8]) -> bool
    ensures { result ≡ are_zeros bytes.now }
{
    bytes.iter().all(|byte| *byte == 0)
}
