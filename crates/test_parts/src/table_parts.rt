//! Tests of what tables are made and read with: extents, filters, and the cache of blocks.

mod blocks;
mod cache;
mod extents;
mod filters;
