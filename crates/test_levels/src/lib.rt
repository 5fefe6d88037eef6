//! Tests of levels and of what goes on with them: what a policy advises, room, jobs, formats and openings.
#![tactic(auto)]

#[cfg(test)]
mod jobs;
#[cfg(test)]
mod levels;
#[cfg(test)]
mod recovery;
#[cfg(test)]
mod room;
pub mod slots;
#[cfg(test)]
mod tables;
