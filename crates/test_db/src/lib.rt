//! Tests of the library of one type, `corwaphi`: each call once with ample memory, and what no clause says, that there is room. And of what
//! stands on it: lives of a `Db`, and the queue of tasks with what a crash leaves of it.
//!
//! | module | what is in it |
//! |---|---|
//! | `subject` | a `Db` to be asked |
//! | `lives` | lives that tables tell, and their replies |
//! | `queue` | a queue that has begun |
//!
//! The others are tests.
#![tactic(auto)]

#[cfg(test)]
mod buffered;
#[cfg(test)]
mod calls;
#[cfg(test)]
mod files;
#[cfg(test)]
mod lives;
#[cfg(test)]
mod living;
#[cfg(test)]
mod openings;
#[cfg(test)]
mod options;
#[cfg(test)]
mod pages;
#[cfg(test)]
mod prefixes;
#[cfg(test)]
mod queue;
#[cfg(test)]
mod queue_crashes;
#[cfg(test)]
mod queue_tasks;
#[cfg(test)]
mod room;
#[cfg(test)]
mod rows;
#[cfg(test)]
mod subject;
