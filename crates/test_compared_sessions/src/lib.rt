//! Sessions of a store, led deed by deed on a device in memory, each answer compared with that of a plain machine that is led too. A
//! call of the device may fail, or a growth be refused, and the judge knows what is to be answered then.
//!
//! | module | what is in it |
//! |---|---|
//! | `deeds` | what the clients of a session do |
//! | `judge` | what they are to be told, and what the trail is to have |
//! | `sitting` | leads a session |
#![tactic(auto)]

pub mod deeds;
mod entries;
pub mod judge;
mod session;
pub mod sitting;
