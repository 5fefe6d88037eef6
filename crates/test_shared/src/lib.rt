//! Tests of stores that threads share.
//!
//! | module | what is in it |
//! |---|---|
//! | `setup` | stores, and what is left of sessions |
//! | `asks` | what clients do one after another, in a table |
//! | `parts` | what all clients do at the same time |
//! | `sessions` | leads a session |
//!
//! The others are tests.
#![tactic(auto)]

#[cfg(test)]
mod asks;
#[cfg(test)]
mod example;
#[cfg(test)]
mod flushes;
#[cfg(test)]
mod order;
#[cfg(test)]
mod parts;
#[cfg(test)]
mod policies;
#[cfg(test)]
mod sessions;
#[cfg(test)]
mod setup;
#[cfg(test)]
mod sizes;
#[cfg(test)]
mod stopping;
#[cfg(test)]
mod storms;
#[cfg(test)]
mod taking;
#[cfg(test)]
mod tallies;
#[cfg(test)]
mod threads;
#[cfg(test)]
mod working;
