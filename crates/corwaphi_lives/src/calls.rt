// Calls of a `Db`, and its lives, as values.

use corwaphi::{At, Batch, Guard};

/// A call of a `Db`.
#[derive(Drop)]
pub enum DbCall {
    /// Adds a batch.
    Write(Batch),
    /// Adds a batch where each of these guards is true of the present map.
    WriteIf(Vec<Guard>, Batch),
    /// Makes all batches durable.
    Sync,
    /// Makes the batches up to this sequence number durable.
    SyncTo(u64),
    /// Asks for the value of a key.
    Get(At, Vec<u8>),
    /// Asks for the first `limit` rows from the key `from` on, up to the key `to` where one is given.
    Page {
        at: At,
        from: Vec<u8>,
        to: Option<Vec<u8>>,
        limit: u64,
    },
    /// Takes a snapshot of the present map.
    Snapshot,
    /// Forgets the snapshot of this number.
    Release(u64),
    /// Brings all tables into the last level.
    Compact,
}

/// A life of a `Db` on a device, from an opening to a crash.
#[derive(Drop)]
pub struct DbLife {
    /// How many writes and syncs answer Ok before each later one faults. With none the device is taken as it is.
    pub fuse: Option<u64>,
    /// What is asked of the `Db`.
    pub calls: Vec<DbCall>,
    /// Which of the pending writes the crash keeps. A place that is missing is false.
    pub mask: Vec<bool>,
}
