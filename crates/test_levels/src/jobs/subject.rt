//! Tables on a device, and the job that merges them.

ghost use Rattle.std.specs.Prelude.{◌≡◌, ◌∷◌, []};

use crate::tables::add_run;
use lsm_codec::{Entry, Key};
use lsm_device::{Device, MemDevice, Refusal};
use lsm_extent::Extents;
use lsm_jobs::{Slots, TakenJob};
use lsm_levels::{Choice, Levels, PlacedTable, Run, is_run};
use lsm_merge::{Input, build_here};
use lsm_table::Image;
use std::alloc::Global;
use std::process::Abort;
use test_merge::input::{input_of, key};
use test_table::input::{entry, images_of};

/// Where the blocks of tables begin.
const AREA: u32 = 16;

/// The number of a table, the first of its keys, which have one byte each, and how many they are.
type Keys = (u32, u8, u8);

/// The runs of level 0, the oldest first: three that overlap, and one that is left.
const RUNS: [Keys; 4] = [(1, 0x10, 4), (2, 0x12, 3), (3, 0x11, 6), (4, 0x40, 1)];

/// The table of level 1: it meets the three runs behind the end of the oldest.
const LEVEL_1: Keys = (5, 0x15, 1);

/// Pushes entries of batch 1 with values of 2,048 bytes, so that each fills a block. All bytes of the values are the first key.
fn push_entries<R: Abort>(rt: &R, alloc: Global, made: &mut Vec<Entry>, (_, first, count): Keys) {
    for i in 0..count {
        let key = [first.wrapping_add(i)];
        let entry = entry(alloc, &key, Some(&[first; 2_048])).expect(rt, "memory");
        made.push(entry.expect(rt, "an entry")).expect(rt, "memory");
    }
}

/// The entries of a table.
fn entries<R: Abort>(rt: &R, alloc: Global, keys: Keys) -> Vec<Entry> {
    let mut made = Vec::new(alloc);
    push_entries(rt, alloc, &mut made, keys);
    made
}

/// The image of a table, alone.
fn images<R: Abort>(rt: &R, alloc: Global, keys: Keys) -> Vec<Image> {
    images_of(alloc, entries(rt, alloc, keys)).expect(rt, "memory")
}

/// The first block of a table's extent: they lie ten blocks apart.
fn first_block(number: u32) -> u32 {
    number.wrapping_mul(10)
}

/// Writes a block to its place in the data area.
fn write_block<R: Abort>(rt: &R, device: &mut MemDevice, place: u32, block: &[u8; 4_096]) {
    let sector = place.wrapping_mul(8).wrapping_add(AREA);
    assert!(rt; sector < 504 && device.sectors() == 512);
    device.write_run(sector, block).expect(rt, "a write");
}

/// The run of a table, whose blocks are written.
fn run_of<R: Abort>(rt: &R, alloc: Global, device: &mut MemDevice, keys: Keys) -> Run {
    let number = keys.0;
    let images = images(rt, alloc, keys);
    let image = images.first().expect(rt, "an image");
    let mut place = first_block(number);
    for at in 0..image.extent_blocks() {
        write_block(rt, device, place, &image.block(number as u64, at));
        place = place.wrapping_add(1);
    }
    let table = PlacedTable::of_image(alloc, image, number as u64, first_block(number));
    let mut tables = Vec::new(alloc);
    tables
        .push(table.expect(rt, "a table"))
        .expect(rt, "memory");
    assert!(rt; is_run(&tables));
    Run::from_tables(tables)
}

/// The levels of the tables, which are written.
fn levels<R: Abort>(rt: &R, alloc: Global, device: &mut MemDevice) -> Levels {
    let mut levels = Levels::new(alloc).expect(rt, "levels");
    for &keys in RUNS.as_slice() {
        let run = run_of(rt, alloc, device, keys);
        add_run(rt, &mut levels, run);
    }
    levels.set_level(1, run_of(rt, alloc, device, LEVEL_1));
    levels
}

/// The count 1 as the only cut.
fn cuts<R: Abort>(rt: &R, alloc: Global) -> Vec<u64>
    ensures { result.items ≡ 1 ∷ [] }
{
    let mut cuts = Vec::new(alloc);
    cuts.push(1).expect(rt, "memory");
    cuts
}

/// Keys of one byte each.
fn keys_of<R: Abort>(rt: &R, alloc: Global, bytes: &[u8]) -> Vec<Key> {
    let mut keys = Vec::new(alloc);
    for byte in bytes {
        let made = key(alloc, &[*byte]).expect(rt, "memory");
        keys.push(made.expect(rt, "a key")).expect(rt, "memory");
    }
    keys
}

/// What a block is overwritten with.
#[derive(Clone, Copy)]
pub(crate) enum By {
    First,
    Itself,
    Zeros,
}

/// A device, and the slots of a job that merges tables on it.
#[derive(Drop)]
pub(crate) struct Subject {
    alloc: Global,
    device: MemDevice,
    slots: Slots,
}

impl Subject {
    /// Job 1 is chosen: a merge of the three oldest runs.
    pub(crate) fn new<R: Abort>(rt: &R, alloc: Global) -> Subject {
        let mut device = MemDevice::new(alloc, 512).expect(rt, "a device");
        let mut slots = Slots::new(alloc).expect(rt, "slots");
        let levels = levels(rt, alloc, &mut device);
        let choice = Choice::OldestRuns { count: 3 };
        let taken = slots.take(&alloc, &levels, Some(choice), None, cuts(rt, alloc));
        let wanted = TakenJob {
            number: 1,
            level: Some(0),
        };
        assert!(rt; taken == Ok(Some(wanted)));
        Subject {
            alloc,
            device,
            slots,
        }
    }

    /// Reads the next blocks of the job.
    pub(crate) fn read(&mut self) -> Result<usize, Refusal> {
        if !self.slots.can_be_read(1, self.device.sectors(), AREA) {
            return Err(Refusal::BadGeometry);
        }
        self.slots.read(&self.alloc, 1, AREA, &mut self.device)
    }

    /// How many sectors have been read.
    pub(crate) fn reads(&self) -> u64 {
        self.device.reads()
    }

    /// The read that follows so many others fails.
    pub(crate) fn fail_after(&mut self, reads: u64) {
        self.device.fail(reads, false);
    }

    /// Writes to the second block that is read, the one behind the first of the newest run's table: that first block, the block
    /// itself, or zeros.
    pub(crate) fn spoil<R: Abort>(&mut self, rt: &R, by: By) {
        let images = images(rt, self.alloc, RUNS[2]);
        let image = images.first().expect(rt, "an image");
        let block = match by {
            By::First => image.block(3, 0),
            By::Itself => image.block(3, 1),
            By::Zeros => [0; 4_096],
        };
        write_block(rt, &mut self.device, first_block(3).wrapping_add(1), &block);
    }

    /// Accepts the result of the job, divided at these keys of one byte each, with tables that are numbered from 6 on. It answers
    /// the number behind them, and how many blocks of an area of 100 are free then.
    pub(crate) fn accept<R: Abort>(&mut self, rt: &R, keys: &[u8]) -> Result<(u64, u32), Refusal> {
        let input = self.slots.input(1)?;
        let built = build_here(self.alloc, input, keys_of(rt, self.alloc, keys))?;
        let mut area = Extents::new(self.alloc, 100);
        let next = self.slots.accept(&self.alloc, 1, &built, &mut area, 6)?;
        Ok((next, area.free_blocks()))
    }

    /// Whether the input of the job is this.
    pub(crate) fn has_input(&self, input: &Input) -> bool {
        match self.slots.input(1) {
            Ok(own) => own.is_same(input),
            Err(_) => false,
        }
    }
}

/// What the job gathers: each run, the newer first, and with the oldest the table behind it.
pub(crate) fn gathered<R: Abort>(rt: &R, alloc: Global) -> Input {
    let mut oldest = entries(rt, alloc, RUNS[0]);
    push_entries(rt, alloc, &mut oldest, LEVEL_1);
    let mut runs = Vec::new(alloc);
    runs.push(entries(rt, alloc, RUNS[2])).expect(rt, "memory");
    runs.push(entries(rt, alloc, RUNS[1])).expect(rt, "memory");
    runs.push(oldest).expect(rt, "memory");
    input_of(runs, cuts(rt, alloc), true).expect(rt, "an input")
}
