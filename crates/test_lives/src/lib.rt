//! Tests of steps, lives and checks, and whole callers.
#![tactic(auto)]

mod checks;
#[cfg(test)]
mod exploring;
#[cfg(test)]
mod growth;
#[cfg(test)]
mod living;
#[cfg(test)]
mod setup;
#[cfg(test)]
mod steps;

pub use checks::check_after_lives;
