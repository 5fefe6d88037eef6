//! Tests of the root and of the log. What a store appends to a log, and what a crash leaves of it, is told by scripts
//! (`tests/runs.sh`).

mod installed;
mod quiet;
mod replays;
mod roots;
mod tables;
