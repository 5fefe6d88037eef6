// The numbers of a store.
ghost use Rattle.std.specs.Prelude.{◌≡◌};
ghost use Rattle.lsm_store.specs.Memory.{AreConsistent, state_of, work_of};
ghost use Rattle.lsm_machine.specs.State.{are_waiting, log_room};
ghost use Rattle.lsm_store.specs.Stats.{blocks_in_no_table, stat_answer};

use crate::install_checks::count_live;
use crate::memory::{Memory, Status};
use lsm_device::Refusal;
use std::alloc::Allocator;

/// The numbers of a store.
#[derive(Clone, Copy, Debug, PartialEq, Eq)]
pub struct Stat {
    /// The generation of the superblock that stands.
    pub generation: u64,
    /// How many batches there are.
    pub batches: u64,
    /// The free sectors of the open log, 0 where none is open.
    pub room: u32,
    /// Whether what the batches of closed logs made of their keys waits for a flush.
    pub waiting: bool,
    /// The runs of level 0.
    pub runs: usize,
    /// The tables of all levels.
    pub tables: usize,
    /// The blocks of the data area, of eight sectors each, that are in no table and in no output that a job has placed.
    pub free_blocks: u32,
}

impl<A: Allocator> Memory<A> {
    /// The free sectors of the open log.
    pub(crate) fn room(&self) -> u32
        requires kept { AreConsistent self.now }
        requires running { self.now.status ≡ Status.Running }
        ensures { result ≡ log_room (state_of self.now) }
    {
        match &self.regions.open_region {
            Some(open) => open.log.room(),
            None => 0,
        }
    }

    /// Whether closed regions hold batches that are in no table.
    pub(crate) fn is_waiting(&self) -> bool
        requires { AreConsistent self.now }
        ensures { result ≡ are_waiting (state_of self.now) }
    {
        !self.regions.closed.is_empty()
    }

    // How many blocks are in no table and in no placed output.
    fn free_blocks(&self) -> u32
        requires { AreConsistent self.now }
        ensures { result ≡ blocks_in_no_table (work_of self.now) }
    {
        self.extents.partition();
        self.extents.free_blocks()
    }

    /// The numbers of the store.
    pub(crate) fn stat(&self) -> Result<Stat, Refusal>
        requires { AreConsistent self.now }
        ensures { result ≡ stat_answer
            (record { state = state_of self.now; work = work_of self.now }) }
    {
        self.check_running()?;
        Ok(Stat {
            generation: self.regions.generation,
            batches: self.count,
            room: self.room(),
            waiting: self.is_waiting(),
            runs: self.levels.runs().len(),
            tables: count_live(&self.levels),
            free_blocks: self.free_blocks(),
        })
    }
}
