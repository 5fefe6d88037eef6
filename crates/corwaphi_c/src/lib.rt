//! The store for programs in C, and by that in any other language: a static library of one export for each call.
//!
//! Each call is given the store's handle, the host's mapping of the file, and one that writes a journal, which the host makes on the file
//! before it tells anybody the answer ([`lsm_mapped`]). It puts the handle into the slot again, and returns a number: 0, the number of an
//! error (1 to 31), or 32 and above for any other answer. Nothing is kept of what a call was lent, no thread is started, and no call
//! waits. `clients/c` has a host, and the header of these exports.
#![tactic(auto)]

mod answers;
mod handle;
mod kept;
mod lasting;
mod laws;
mod making;
mod numbers;
mod parts;
mod pieces;
mod reading;
mod upkeep;
mod writing;
