// How far a replay has come.
ghost use Rattle.std.specs.Prelude.{◌≡◌, ◌≤◌, ◌^◌, ◌+◌, vec_len};

use lsm_codec::Batch;
use std::alloc::Allocator;

/// The batches read so far, from the first on, and the parts that are read of the next one.
#[derive(Drop)]
pub(crate) struct ReadBatches<A: Allocator> {
    pub(crate) epoch: u64,
    pub(crate) first: u64,
    pub(crate) batches: Vec<Batch<A>, A>,
    pub(crate) number: u64,
    pub(crate) part: u16,
    pub(crate) parts: u16,
    pub(crate) text: Vec<u8, A>,
    ghost counted: { number ≡ first + vec_len batches },
    ghost in_range: { 1 ≤ vec_len batches → number ≤ 2 ^ 63 + 1 },
}
