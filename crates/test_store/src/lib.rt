//! Tests of a store, of what scripts can't say: how many sectors a look-up reads, what a write that fails leaves, and that a store which is
//! let go leaves its file. And of the library that does whole jobs and goes over all rows (`lsm_upkeep`). What calls answer, jobs among
//! them, and what crashes leave is told by scripts (`tests/runs`); calls of the device that fail and growths that are refused are made by
//! `test_hostile`.
#![tactic(auto)]

#[cfg(test)]
mod example;
#[cfg(test)]
mod letting_go;
#[cfg(test)]
mod numbers;
#[cfg(test)]
mod reads;
#[cfg(test)]
mod rewriting;
#[cfg(test)]
mod stopping;
#[cfg(test)]
mod subject;
#[cfg(test)]
mod upkeep;
#[cfg(test)]
mod walking;
