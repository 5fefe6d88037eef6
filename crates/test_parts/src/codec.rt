//! Tests of the formats.

pub mod batches;
mod guesses;
mod manifest_tables;
pub mod manifests;
mod sectors;
mod tables;
mod texts;
mod words;
