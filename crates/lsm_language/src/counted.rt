//! What a number in a reply counts.

ghost use Rattle.std.specs.Prelude.{◌≡◌};
ghost use Rattle.lsm_lives.specs.Calls.{call_of};
ghost use Rattle.lsm_language.specs.Replies.{counted_by, counted_word};

use lsm_lives::Call;

/// What a number in a reply counts.
#[derive(Clone, Copy)]
pub enum Counted {
    /// The batches of a store that was opened.
    Opened,
    /// The batches so far, the last of which was added now.
    Batch,
    /// The snapshots so far.
    Snapshot,
    /// The free sectors of the open log.
    Room,
    /// The blocks that a job has left to read, or to write.
    Left,
}

/// What a number counts in the reply to a call.
pub fn counted_in(call: &Call) -> Counted
    ensures { result ≡ counted_by (call_of call.now) }
{
    match call {
        Call::Commit(_) | Call::CommitIf(_, _) => Counted::Batch,
        Call::Snapshot => Counted::Snapshot,
        _ => Counted::Room,
    }
}

/// The word before a number.
pub fn word_of(counted: Counted) -> &'static str
    ensures { result.now ≡ counted_word counted }
{
    match counted {
        Counted::Opened => "open",
        Counted::Batch => "batch",
        Counted::Snapshot => "snapshot",
        Counted::Room => "room",
        Counted::Left => "left",
    }
}
