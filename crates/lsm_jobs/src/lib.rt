//! The jobs of a store, in four slots.
#![tactic(auto)]

mod accepting;
mod blocks;
mod ending;
mod gathering;
mod held;
mod installing;
mod law;
mod merge;
mod outputs;
mod placing;
mod reading;
mod runs;
mod slots;
mod sure;
mod taking;
mod turns;
mod writing;

pub use installing::Written;
pub use slots::Slots;
pub use taking::TakenJob;
pub use turns::{JobTurn, NextPiece};

/// Laws of the definitions: functions without a body, whose clauses are theorems.
pub mod laws {
    pub use crate::law::{
        outputs_may_be_installed, pieces_stay_in_outputs, slots_stay_apart, stored_tables_are_read,
    };
    pub use crate::sure::{merged_blocks_are_few, sure_room_is_found};
}
