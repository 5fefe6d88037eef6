//! Steps that a store makes on a device in memory, each answer compared with that of a plain machine that makes them too. The calls
//! of a device and of a store in this crate tell the prover nothing, so that a caller is proved without their contracts.
//!
//! | module | what is in it |
//! |---|---|
//! | `lists` | lists of steps, written in a few words, or drawn |
//! | `disk`, `image`, `layout` | devices, what stands on them, and where the fields of that lie |
//! | `subject`, `tables`, `asking` | a store that answers steps, what is told of its tables, and steps as values that it replies to |
//! | `trouble` | how a store differs from the machine |
//! | `plain` | the plain machine |
//! | `playing`, `beginnings` | steps that both make, crashes after them, and the images that they leave |
#![tactic(auto)]

pub mod asking;
pub mod beginnings;
pub mod disk;
pub mod draws;
pub mod image;
pub mod layout;
pub mod lists;
pub mod plain;
pub mod playing;
pub mod subject;
mod tables;
pub mod trouble;
