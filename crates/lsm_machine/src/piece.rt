// A piece of work that a slot of jobs waits for.

/// What a slot of a store's jobs waits for.
#[derive(Clone, Copy, Debug, PartialEq, Eq)]
pub enum Piece {
    /// The slot is free, and a job comes next: it is to be taken.
    Take,
    /// Data blocks of this job's tables are to be read.
    Read(u64),
    /// A result is to be built of this job's input, and accepted.
    Build(u64),
    /// Outputs of this job are to be written.
    Write(u64),
    /// This job's outputs, which are written, are to be installed.
    Install(u64),
}
