//! What is asked of a store in words and scripts, and what it replies as lines of text.
#![tactic(auto)]

mod cause;
mod counted;
mod failure;
mod geometry;
mod guards;
mod input;
mod keyed;
mod line;
mod load;
mod number;
mod operations;
mod program_error;
mod reading;
mod refused;
mod reply;
mod request;
mod row;
mod script;
mod showing;
mod subcommand;
mod words;

pub use cause::{Cause, cause_text};
pub use counted::{Counted, counted_in};
pub use failure::{Failure, failure_text};
pub use geometry::Geometry;
pub use input::{buffered, script_text};
pub use line::{Kept, Line, read_line};
pub use load::Load;
pub use program_error::{ProgramError, Usage};
pub use reading::next_line;
pub use refused::refusal_text;
pub use reply::{push_next, push_number, push_refusal, push_reply, stat_text};
pub use request::Request;
pub use row::{MOST_ROW, read_row};
pub use showing::{beginning, shown};
pub use subcommand::Subcommand;
pub use words::{Unread, after};
