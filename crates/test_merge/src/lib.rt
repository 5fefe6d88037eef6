//! Tests of merges, and inputs for them.
#![tactic(auto)]

pub mod budget;
#[cfg(test)]
mod cases;
#[cfg(test)]
mod divisions;
pub mod input;
#[cfg(test)]
mod many;
#[cfg(test)]
mod merges;
#[cfg(test)]
mod threads;
