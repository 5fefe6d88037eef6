//! How far numbers go.

/// The greatest number that a generation, a log epoch, a batch, a table or a snapshot may have. The least is 1.
pub const LAST_NUMBER: u64 = 1 << 63;
