//! Stores of [`corwaphi::Db`] on devices in memory, fed with random streams and compared with a plain list of the rows that they are to
//! have: until they are full, rescued by deletes, and fed again. Calls of a device fail, and crashes come after them.
//!
//! ```text
//! let mut tally = Tally::new(rt.alloc());
//! feed_all(rt, feeding, &mut tally);
//! ```
//!
//! Each store is told by its seed, which makes the same store in each run. Nothing is printed, and no memory but that of the runtime is
//! taken.
//!
//! | module | what is in it |
//! |---|---|
//! | `draws`, `stream` | random numbers, and streams of puts and deletes |
//! | `book`, `guards` | the rows that a store is to have, batches of deeds, and guards that are true of them, or aren't |
//! | `subject`, `opening`, `comparing` | a store with its book, how it is opened, and how the two are compared |
//! | `calls`, `asking`, `wrong` | other calls than commits of a stream, some of which are to be refused |
//! | `striking`, `pending`, `risking` | calls of a device that fail, and what a crash may leave |
//! | `feeding`, `tries` | what is led: random stores, and those that were once stuck |
//! | `tally`, `trouble` | what came of them |
#![tactic(auto)]

mod asking;
mod book;
mod calls;
mod comparing;
mod draws;
mod feeding;
mod guards;
mod opening;
mod pending;
mod risking;
mod stream;
mod striking;
mod subject;
mod tally;
mod tries;
mod trouble;
mod wrong;

pub use feeding::{Feeding, feed_all};
pub use tally::Tally;
pub use tries::try_all;
pub use trouble::Trouble;
