//! A plain machine, which answers as a store should: an ordered map with copied snapshots, a log, tables and jobs. It looks at all
//! that it has for each answer, and rests on nothing of a store but the types of its replies. Keys have one byte, and a value is a byte
//! and a length, so that a test writes a batch in a word.
//!
//! | item | what it is |
//! |---|---|
//! | [`Step`], [`Change`] | what is done with a store, and what a batch does |
//! | [`Answer`], [`TablesTold`] | what is answered, and what is told of the tables of all levels |
//! | [`Machine`] | makes steps, and tells which batches a crash may leave |

mod batches;
mod choosing;
mod keeping;
mod machine;
mod pieces;
mod step;
mod table;
mod turns;
mod working;

pub use machine::{LOG_SECTORS, Machine};
pub use step::{
    Answer, Change, Condition, Division, Operation, RowsTold, Step, TableTold, TablesTold, Value,
    told,
};
pub use turns::PARTS;
