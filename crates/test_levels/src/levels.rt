//! Tests of levels, and of what a policy advises for them.

mod picks;
mod policies;
mod rewrites;
mod rewriting;
