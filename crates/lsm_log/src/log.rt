// A log of a region.
ghost use Rattle.std.specs.Prelude.{◌<◌, ◌≤◌, ◌^◌, ◌+◌};

/// An open log of a region of a device: which sectors it has, how many are used, and the numbers of its batches.
#[derive(Debug, Drop)]
pub struct Log {
    pub(crate) start: u32,
    pub(crate) sectors: u32,
    pub(crate) epoch: u64,
    pub(crate) first: u64,
    pub(crate) next: u64,
    pub(crate) used: u32,
    ghost reaches: { start + sectors < 2 ^ 32 },
    ghost in_region: { used ≤ sectors },
}
