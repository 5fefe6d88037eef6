//! Tables: how entries are divided among them, and where a key is found in one.
#![tactic(auto)]

mod counting;
mod decoding;
mod division;
mod edges;
mod entries;
mod entry_place;
mod entry_span;
mod filling;
mod image;
pub mod laws;
mod layout;
mod outline;
mod table;

pub use decoding::decode_data_block;
pub use division::images;
pub use entries::Entries;
pub use entry_place::EntryPlace;
pub use entry_span::EntrySpan;
pub use image::Image;
pub use table::Table;
