// What a turn of a client comes to.

use lsm_lives::Reply;
use lsm_merge::Input;
use std::alloc::{Allocator, Global};
use std::sync::Arc;

/// What a turn of a client came to.
#[derive(Drop)]
pub enum Turn<A: Allocator = Global> {
    /// There is nothing to do for now.
    Idle,
    /// The piece of work that came next was done, with this reply.
    Did(Reply<A>),
    /// A result is to be built of a job's input, with no lock in the caller's hands, and then to be brought under this number.
    Merge {
        job: u64,
        result: u64,
        input: Arc<Input<A>, A>,
    },
}
