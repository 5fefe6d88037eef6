//! Every crash of a life of a store, and every crash of the opening after it.
//!
//! [`explore`] leads one life of some steps at every place where its device may stop, crashes it by every mask, opens what each crash
//! left, and compares its whole map with those that may be left. It keeps plain maps of its own for that.
//!
//! ```
//! let explored = explore(rt, alloc, 8_192, 128, &steps, true, &mut Silent)?;
//! let wrong = explored.wrong; // 0, as its contract says
//! ```
#![tactic(auto)]

mod expected;
mod exploring;
mod judging;
mod masks;
mod plain;

pub use exploring::{Explored, explore};
