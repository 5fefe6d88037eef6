//! Tests of tables.
#![tactic(auto)]

#[cfg(test)]
mod division;
pub mod input;
#[cfg(test)]
mod tables;
