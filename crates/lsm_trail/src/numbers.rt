// The numbers of a history.

/// The numbers of a history: its calls, the batches of the store after them, and how many of these are synced.
#[derive(Clone, Copy, Debug, PartialEq, Eq)]
pub struct Numbers {
    pub calls: u64,
    pub batches: u64,
    pub synced: u64,
}
