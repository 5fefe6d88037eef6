//! What an operation or an entry does with its key, as a byte.

/// It puts a value.
pub(crate) const PUT: u8 = 1;

/// It deletes the key.
pub(crate) const DELETE: u8 = 2;
