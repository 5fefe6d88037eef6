//! A version of a key, by reference.

/// A version of a key: what the batch of this number made of it, a value, or none where it deleted the key.
#[derive(Clone, Copy, Debug)]
pub struct VersionRef<'a> {
    pub key: &'a [u8],
    pub number: u64,
    pub value: Option<&'a [u8]>,
}
