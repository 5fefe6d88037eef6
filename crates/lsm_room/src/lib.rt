//! What a store has to know so that it never gets stuck: whether a batch may be taken, and which step comes next where room is scarce.
//!
//! A store that takes batches until no block is free can't make room any more, since each merge needs free blocks for what it
//! makes. So [`Standing::admits`] says whether a batch may be taken: what is in memory will find room, in a flush and in the last level,
//! and some blocks stay free, the [`Reserve`]. Where room is scarce, [`Standing::step_down`] advises a step: a merge that is sure to find room,
//! or one of the small steps that make it possible. A table is cut at the first key of one that it meets, or halved; or
//! one is rewritten elsewhere, so that free blocks become adjacent; or small neighbours are joined.
//!
//! A step that is advised by [`Advice::Take`] finds room, whatever entries its tables have, if no other job takes blocks before. That is a
//! clause, of small steps too ([`Standing::is_sure_at`]). [`Advice::Try`] is for small steps that only probably do: how long the index
//! of a rewritten table gets depends on keys that are only in its blocks.
//!
//! What the outputs of a merge take at most is computed from the numbers of its tables (`Outputs`), and whether that surely finds room from
//! the gaps between extents ([`Extents::surely_places`](lsm_extent::Extents::surely_places)).
#![tactic(auto)]

mod admission;
mod bounds;
mod cutting;
mod divided;
mod gaps;
mod joining;
mod moving;
mod standing;
mod stepping;
mod sure;

pub use admission::{InMemory, Reserve, flush_blocks, is_small};
pub use bounds::{Outputs, flush_outputs};
pub use standing::Standing;
pub use stepping::{Advice, Step};
