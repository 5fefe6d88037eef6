//! Eight bytes of a key as a number, by which a search guesses a place before it looks at keys.

use byteorder::{BigEndian, ByteOrder};

/// How many bytes two keys begin with alike.
pub fn common_prefix(key: &[u8], other: &[u8]) -> usize {
    let shorter = key.len().min(other.len());
    for i in 0..shorter {
        if key[i] != other[i] {
            return i;
        }
    }
    shorter
}

/// The eight bytes of a key behind its first `past` ones as a number, of which the first byte is the highest; bytes that the key doesn't
/// have count as 0. Of keys that begin with the same `past` bytes, one with a lower number comes before one with a higher. No clause says
/// so: a search that guesses by these numbers looks at the keys before it answers.
pub fn head_of(key: &[u8], past: usize) -> u64 {
    let rest = &key[past.min(key.len())..];
    if rest.len() >= 8 {
        return BigEndian::read_u64(rest);
    }
    let mut bytes = [0; 8];
    bytes[..rest.len()].copy_from_slice(rest);
    BigEndian::read_u64(&bytes)
}
