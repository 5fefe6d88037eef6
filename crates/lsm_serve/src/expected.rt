//! What is expected in a line.

ghost use Rattle.std.specs.Prelude.{◌≡◌};
ghost use Rattle.lsm_serve.specs.Mistakes.{form_of, part_of};

/// What was expected at a place of a line that can't be read.
#[derive(Clone, Copy)]
pub enum Expected {
    /// A text.
    Text,
    /// A first word that is served.
    Name,
    /// No word after the first.
    Alone,
    /// The words of a `commit`.
    Commit,
    /// The words of an `if`.
    If,
    /// The words of a `get`.
    Get,
    /// The words of a `scan`.
    Scan,
    /// The words of a `syncto`.
    SyncTo,
    /// The words of a `release`.
    Release,
    /// An operation.
    Operation,
    /// A guard.
    Guard,
    /// The bytes of a key.
    Key,
    /// The bytes of a value.
    Value,
    /// The bytes where a scan begins.
    From,
    /// Where a scan ends.
    To,
    /// A number.
    Number,
    /// A snapshot.
    Snapshot,
}

/// What a message says after what stands for bytes.
const BYTES: &str = "\": expected hex, two digits a byte, or empty for no bytes";

impl Expected {
    /// What is said before what stands there: the part of the line where it was expected.
    pub fn part(self) -> &'static str
        ensures { result.now ≡ part_of self }
    {
        match self {
            Expected::Name => "the first word is \"",
            Expected::Operation => "OP is \"",
            Expected::Guard => "GUARD is \"",
            Expected::Key => "KEY is \"",
            Expected::Value => "VALUE is \"",
            Expected::From => "FROM is \"",
            Expected::To => "TO is \"",
            Expected::Number => "the number is \"",
            Expected::Snapshot => "the snapshot is \"",
            _ => "the line is \"",
        }
    }

    /// What the message says after it: what was expected there.
    pub fn form(self) -> &'static str
        ensures { result.now ≡ form_of self }
    {
        match self {
            Expected::Text => "\": expected UTF-8",
            Expected::Name => {
                "\": expected commit, if, sync, syncto, get, scan, snapshot, release, room, stat, compact"
            }
            Expected::Alone => "\": expected its first word alone",
            Expected::Commit => "\": expected commit OP .., with one OP at least",
            Expected::If => "\": expected if GUARD .. then OP .., with one OP at least",
            Expected::Get => "\": expected get KEY, or get KEY @S",
            Expected::Scan => "\": expected scan FROM TO LIMIT, or scan FROM TO LIMIT @S",
            Expected::SyncTo => "\": expected syncto N",
            Expected::Release => "\": expected release N",
            Expected::Operation => "\": expected +KEY=VALUE or -KEY",
            Expected::Guard => "\": expected ?KEY=VALUE or !KEY",
            Expected::Key | Expected::Value | Expected::From => BYTES,
            Expected::To => "\": expected hex, two digits a byte, or empty for no bytes, or end",
            Expected::Number => "\": expected a decimal number below 2^64",
            Expected::Snapshot => "\": expected @ and the number of a snapshot",
        }
    }
}
