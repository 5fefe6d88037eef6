//! A store that is served: lines are read as they come, and each is answered before the next one is read.
//!
//! ```
//! let mut lines = buffered(alloc, input)?;
//! serve(alloc, &mut store, &mut lines, output)?;
//! ```
#![tactic(auto)]

mod answer;
mod answering;
mod command;
mod committing;
mod expected;
mod finding;
mod law;
mod mistake;
mod reading;
mod serving;
mod tagging;

pub use answer::Answer;
pub use command::Wrong;
pub use expected::Expected;
pub use mistake::Mistake;
pub use serving::serve;

/// Laws of the definitions: functions without a body, whose clauses are theorems.
pub mod laws {
    pub use crate::law::answered_lines_go_on;
}
