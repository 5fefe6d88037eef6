//! The machine that a store is: calls, pieces of work and their replies, without a device.
//!
//! A state is an ordered map with its recovery points, log regions and snapshots; each call and each piece of work is answered as the
//! state decides, and leaves the next one. What a crash may leave of a state, and what is promised of the batches over any steps,
//! crashes and openings, are definitions and laws here. A store on a device is proved to be such a machine.
#![tactic(auto)]

mod asked;
mod law;
mod piece;

pub use asked::At;
pub use piece::Piece;

/// Laws of the definitions: functions without a body, whose clauses are theorems.
pub mod laws {
    pub use crate::law::{
        allowed_is_admitted, ample_steps_run, crash_keeps_a_beginning, crash_states_go_on,
        crashes_keep_beginnings, runs_join, stopped_refuses,
    };
}
