//! Texts in hex.

use hex::decode_to_slice;

/// So many bytes: those of the hex text, and then zeros.
pub fn bytes_of<const N: usize>(text: &str) -> Option<[u8; N]> {
    let mut bytes = [0; N];
    let end = text.len() / 2;
    let whole = &mut bytes[..];
    if end > N || decode_to_slice(text, &mut whole[..end]).is_err() {
        return None;
    }
    Some(bytes)
}

/// Whether the bytes, at most 4,096 of them, are those of the hex text, and then zeros.
pub fn are(bytes: &[u8], text: &str) -> bool {
    let Some(wanted) = bytes_of::<4_096>(text) else {
        return false;
    };
    let size = bytes.len();
    text.len() / 2 <= size && size <= 4_096 && bytes == &wanted[..size]
}

/// The bytes with the lowest bit of one changed.
pub fn flipped<const N: usize>(bytes: &[u8; N], at: usize) -> [u8; N] {
    let mut bytes = *bytes;
    if at < N {
        bytes[at] ^= 1;
    }
    bytes
}
