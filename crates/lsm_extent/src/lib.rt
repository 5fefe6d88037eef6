//! The extents of a data area: which of its blocks are handed out, and which are free.
#![tactic(auto)]

mod extent;
mod extents;
mod gaps;
pub mod laws;
mod room;

pub use extent::Extent;
pub use extents::Extents;
