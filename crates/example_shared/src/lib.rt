//! A caller of shared stores: what it is told by the contracts alone.
#![tactic(auto)]

mod behind;
mod client;
mod counting;
mod rounds;
mod session;
mod sharing;
mod worker;
mod working;

pub use behind::call_behind;
pub use counting::raise;
pub use rounds::put_in_rounds;
pub use session::in_two_threads;
pub use sharing::{share, share_beside_a_worker};
pub use working::in_three_threads;
