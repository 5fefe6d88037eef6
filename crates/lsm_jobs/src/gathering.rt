//! What a merge gathers while its data blocks are read.

ghost use Rattle.std.specs.Prelude.{◌≡◌, ◌⊎◌, ◌+◌, ◌≤◌, Err, length, map, min, IsTrue, IfOk, IfErr, OnOk, OnErr};
ghost use Rattle.std.specs.List.{AllByRecursion};
ghost use Rattle.std.specs.Arc.{arc_value};
ghost use Rattle.lsm_device.specs.declared.refusal.Refusal.TheVariants.{NoMemory, Io, BadTable};
ghost use Rattle.lsm_device.specs.Disk.{seen};
ghost use Rattle.lsm_device.specs.Medium.{disk};
ghost use Rattle.lsm_device.specs.Refusals.{faultless};
ghost use Rattle.lsm_merge.specs.Inputs.{AreRuns, IsCuts};
ghost use Rattle.lsm_levels.specs.Stored.{LiesWithin};
ghost use Rattle.lsm_jobs.specs.Gathering.{ReadSoFar, ReadsBlocks, ascending_runs, fronts, none_gathered, whole_input, blocks_left, IsNext, AllGoOn, IsGrown};
ghost use Rattle.lsm_jobs.specs.Reading.{ReadsOn};
ghost use Rattle.lsm_jobs.specs.declared.held.Work.TheVariants.{Reading};

use crate::blocks::data_blocks;
use crate::held::Work;
use crate::runs::{cut_back, empty_runs, lengths, read_runs};
use lsm_codec::Entry;
use lsm_device::{Device, Refusal};
use lsm_levels::PlacedTable;
use lsm_merge::Input;
use std::alloc::{AllocError, Allocator};
use std::marker::Model;
use std::sync::Arc;

/// How many data blocks a step reads at most.
const STEP_BLOCKS: usize = 8;

/// What was read so far of a merge: the entries of each run of its tables, in order, and how many data blocks that was; with the
/// cuts of its taking, and its bottom flag.
#[derive(Drop)]
pub(crate) struct Gathering<A: Allocator> {
    runs: Vec<Vec<Entry<A>, A>, A>,
    done: usize,
    cuts: Vec<u64, A>,
    bottom: bool,
}

impl<A: Allocator> Model for Gathering<A> {
    ghost use Rattle.lsm_merge.specs.Inputs.{AreRuns, IsCuts, items_of};
    ghost use Rattle.lsm_jobs.specs.Gathering.{ReadSoFar};

    ghost Value = { ReadSoFar };

    ghost view = { λ g. record { runs = items_of g.runs.items; done = g.done; cuts = g.cuts.items; bottom = g.bottom } };

    ghost invariant = { λ g. AreRuns (items_of g.runs.items) × IsCuts g.cuts.items };
}

impl<A: Allocator + Clone> Gathering<A> {
    /// Nothing is read yet of these tables.
    pub(crate) fn new(
        alloc: &A,
        tables: &[PlacedTable<A>],
        cuts: Vec<u64, A>,
        bottom: bool,
    ) -> Result<Gathering<A>, AllocError>
        requires { IsCuts cuts.items }
        ensures { IfOk result (λ g. g ≡ none_gathered tables.now cuts.items bottom) }
    {
        let runs = empty_runs(alloc, tables)?;
        Ok(Gathering {
            runs,
            done: 0,
            cuts,
            bottom,
        })
    }

    /// Reads the next data blocks of the tables, eight at most, and answers how many are left. Where it is refused, some of
    /// their entries may have been added.
    fn read<D: Device>(
        &mut self,
        alloc: &A,
        tables: &[PlacedTable<A>],
        area: u32,
        device: &mut D,
    ) -> Result<usize, Refusal>
        requires few { length tables.now ≤ 1024 }
        requires count { length self.old.runs ≡ length (ascending_runs tables.now) }
        requires within { AllByRecursion (LiesWithin (D.medium device.old).size area) tables.now }
        ensures next { OnOk result (IsNext tables.now self.old self.new) }
        ensures left { IfOk result (λ left. left ≡ blocks_left tables.now self.new) }
        ensures goes_on { IsTrue (D.medium device.old).lasting.tells → OnOk result
            (AllGoOn (seen (disk (D.medium device.old))) area tables.now self.old self.new) }
        ensures bad { IsTrue (D.medium device.old).lasting.tells → result ≡ Err BadTable
            → (new : ReadSoFar)
            → AllGoOn (seen (disk (D.medium device.old))) area tables.now self.old new → ⊥ }
        ensures grown { IsGrown self.old self.new }
        ensures refused { IfErr result
            (λ refusal. (refusal ≡ Io) ⊎ ((refusal ≡ BadTable) ⊎ (refusal ≡ NoMemory))) }
        ensures device { ReadsBlocks (min 8 (blocks_left tables.now self.old)) (faultless result)
            (D.medium device.old) (D.medium device.new) }
    {
        let blocks = data_blocks(tables);
        let from = self.done;
        let to = blocks.min(from.saturating_add(STEP_BLOCKS));
        read_runs(alloc, &mut self.runs, tables, area, from, to, device)?;
        self.done = to;
        Ok(blocks - to)
    }
}

impl<A: Allocator + Clone> Gathering<A> {
    /// What a step takes before it reads: an allocator for the input, and how many entries each run has.
    fn room(&self, alloc: &A) -> Result<(A, Vec<usize, A>), AllocError>
        ensures lengths { IfOk result (λ room. room.1.items ≡ map length self.now.runs) }
        ensures ordered { AreRuns self.now.runs }
    {
        let runs = &self.runs;
        Ok((alloc.clone()?, lengths(alloc.clone()?, runs)?))
    }
}

impl<A: Allocator> Gathering<A> {
    /// Cuts each run back to these lengths, and the count of read blocks to `done`.
    fn take_back(&mut self, lengths: &[usize], done: usize)
        requires { length lengths.now ≡ length self.old.runs }
        ensures { self.new ≡ record {
          runs = fronts lengths.now self.old.runs;
          done = done;
          cuts = self.old.cuts;
          bottom = self.old.bottom;
        } }
    {
        cut_back(&mut self.runs, lengths);
        self.done = done;
    }

    /// The input that was read. Where memory is refused, what was read is handed back.
    fn freeze(self, alloc: A) -> Result<Arc<Input<A>, A>, Gathering<A>>
        ensures whole { IfOk result (λ input. arc_value input ≡ whole_input self) }
        ensures handed_back { IfErr result (λ g. g ≡ self) }
    {
        let Gathering {
            runs,
            done,
            cuts,
            bottom,
        } = self;
        match Arc::new(alloc, Input::new(runs, cuts, bottom)) {
            Ok(input) => Ok(input),
            Err(refused) => {
                let (runs, cuts, bottom) = refused.value.into_parts();
                Err(Gathering {
                    runs,
                    done,
                    cuts,
                    bottom,
                })
            }
        }
    }
}

impl<A: Allocator + Clone> Gathering<A> {
    /// Reads the next data blocks of the tables, eight at most, and answers how many are left; with none left the input is
    /// whole. Where it is refused, all is as it was.
    pub(crate) fn step<D: Device>(
        self,
        alloc: &A,
        tables: &[PlacedTable<A>],
        area: u32,
        device: &mut D,
    ) -> (Work<A>, Result<usize, Refusal>)
        requires few { length tables.now ≤ 1024 }
        requires count { length self.runs ≡ length (ascending_runs tables.now) }
        requires within { AllByRecursion (LiesWithin (D.medium device.old).size area) tables.now }
        ensures reads { IfOk result.1
            (λ left. ReadsOn area (D.medium device.old) tables.now left self result.0) }
        ensures bad { IsTrue (D.medium device.old).lasting.tells → result.1 ≡ Err BadTable
            → (new : ReadSoFar)
            → AllGoOn (seen (disk (D.medium device.old))) area tables.now self new → ⊥ }
        ensures ordered { AreRuns self.runs }
        ensures unchanged { OnErr result.1 (result.0 ≡ Reading self) }
        ensures refused { IfErr result.1
            (λ refusal. (refusal ≡ Io) ⊎ ((refusal ≡ BadTable) ⊎ (refusal ≡ NoMemory))) }
        ensures device { ReadsBlocks (min 8 (blocks_left tables.now self)) (faultless result.1)
            (D.medium device.old) (D.medium device.new) }
    {
        let mut gathering = self;
        let Ok((own, lengths)) = gathering.room(alloc) else {
            return (Work::Reading(gathering), Err(Refusal::NoMemory));
        };
        let done = gathering.done;
        match gathering.read(alloc, tables, area, device) {
            Ok(left) => {
                if left > 0 {
                    return (Work::Reading(gathering), Ok(left));
                }
                match gathering.freeze(own) {
                    Ok(input) => (Work::Frozen(input), Ok(left)),
                    Err(mut gathering) => {
                        gathering.take_back(&lengths, done);
                        (Work::Reading(gathering), Err(Refusal::NoMemory))
                    }
                }
            }
            Err(refusal) => {
                gathering.take_back(&lengths, done);
                (Work::Reading(gathering), Err(refusal))
            }
        }
    }
}
