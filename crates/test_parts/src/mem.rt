//! Tests of the memory table.

mod pages;
mod sizes;
mod tables;
mod versions;
