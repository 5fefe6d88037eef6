//! What the program answers.

ghost use Rattle.std.specs.Prelude.{◌≡◌};
ghost use Rattle.lsmctl.specs.Answers.{Hands};

use lsm_device::FileDevice;
use lsm_explore::Explored;
use lsm_store::Store;
use lsm_upkeep::Lack;
use std::fmt;

/// What a subcommand prints, as lines.
#[derive(Drop)]
pub enum Output {
    /// A store was made, with this number of data blocks.
    Formatted(u32),
    /// A batch of this number was committed and synced.
    Batch(u64),
    /// The key has the value that this word says.
    Value(String),
    /// The key has no value.
    Absent,
    /// A line for each row, for each step, or for each count, or one with a store's numbers.
    Lines(String),
    /// A line with the numbers of a store that is not compacted to the end, and what it lacks.
    Halfway(String, Lack),
    /// This number of rows was loaded.
    Loaded(u64),
    /// All rows were printed before.
    Dumped,
    /// All lines were answered before.
    Served,
    /// A line with what a check found wrong.
    Found(String),
    /// What an exploration counted.
    Explored(Explored),
    /// Clients counted together, and the counter is the number of accepted commits, or is not.
    Tally(bool),
}

/// What a subcommand answers: what is printed, and the file that the calls were made on, if there is one.
#[derive(Drop)]
pub struct Answer {
    pub output: Output,
    pub file: Option<FileDevice>,
}

impl Answer {
    // The answer of a store in a file, which is closed by it.
    pub(crate) fn of_store(output: Output, store: Store<FileDevice>) -> Answer
        ensures output { result.output ≡ output }
        ensures hands { Hands result.file store.device }
    {
        Answer {
            output,
            file: Some(store.into_device()),
        }
    }
}

impl fmt::Display for Output {
    ghost use Rattle.std.specs.Prelude.{Some};
    ghost use Rattle.lsmctl.specs.Answers.{output_lines};

    ghost output = { λ output. Some (output_lines output) };

    fn fmt<W: fmt::Write>(&self, f: &mut fmt::Formatter<W>) -> fmt::Result {
        match self {
            Output::Formatted(blocks) => writeln!(f, "formatted blocks {blocks}"),
            Output::Batch(number) => writeln!(f, "batch {number}"),
            Output::Value(word) => writeln!(f, "value {word}"),
            Output::Absent => writeln!(f, "absent"),
            Output::Lines(text) | Output::Halfway(text, _) => write!(f, "{text}"),
            Output::Loaded(rows) => writeln!(f, "loaded {rows}"),
            Output::Dumped | Output::Served => Ok(()),
            Output::Found(text) => write!(f, "{text}"),
            Output::Explored(explored) => {
                let Explored {
                    first,
                    second,
                    skipped,
                    wrong,
                } = explored;
                writeln!(
                    f,
                    "first {first} second {second} skipped {skipped} wrong {wrong}"
                )
            }
            Output::Tally(true) => writeln!(f, "tally ok"),
            Output::Tally(false) => writeln!(f, "tally bad"),
        }
    }
}

impl fmt::Display for Answer {
    ghost use Rattle.std.specs.Prelude.{Some};
    ghost use Rattle.lsmctl.specs.Answers.{lines_of};

    ghost output = { λ answer. Some (lines_of answer) };

    fn fmt<W: fmt::Write>(&self, f: &mut fmt::Formatter<W>) -> fmt::Result {
        write!(f, "{}", self.output)
    }
}
