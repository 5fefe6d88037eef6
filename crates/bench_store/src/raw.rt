//! The raw calls of a file with which a workload is compared.

use crate::clock::{now, since};
use crate::measuring::Measured;
use crate::sizes::{BLOCK_BYTES, ROW_BYTES, SECTOR_BYTES, Sizes};
use crate::workloads::Work;
use lsm_device::{FileDevice, Refusal};
use std::alloc::Global;
use std::fs::{File, Files, OpenOptions};
use std::os::unix::fs::FileExt;
use std::rt::Clock;

/// A file that is as long as the store's.
pub(crate) struct Raw {
    file: File,
    bytes: u64,
    /// What is written, and where it is read to: as many bytes as one raw call takes at most.
    buffer: Vec<u8>,
}

impl Drop for Raw {
    fn drop(self) {
        let Raw {
            file: _,
            bytes: _,
            buffer: _,
        } = self;
    }
}

/// What is called a number of times.
#[derive(Clone, Copy)]
enum Call {
    Sync,
    /// A read of a sector, of one after another.
    ReadSector,
    /// A read of a block, of one after another.
    ReadBlock,
    /// A read of a block, at offsets that look random.
    ReadAnywhere,
    /// Writes of a number of sectors one by one, at growing offsets.
    Write(u32),
    /// And a sync after them.
    WriteSynced(u32),
}

/// Some calls, each a number of times, and all of them `times` times.
#[derive(Clone, Copy)]
struct Calls {
    calls: [(u32, Call); 3],
    times: u32,
}

/// No calls.
const NONE: (u32, Call) = (0, Call::Sync);

/// The calls to compare a workload with. Each root is a manifest and a superblock of one sector each, both synced.
fn calls_of(sizes: Sizes, work: Work, measured: Measured) -> Calls {
    let count = measured.operations;
    let written = measured.written;
    let rows = measured.wanted.wrapping_mul(ROW_BYTES);
    let calls = match work {
        Work::Commit(way) | Work::Keep { way, .. } => {
            let batches = count / way.puts.max(1);
            let sectors = written.logged / batches.max(1);
            let write = if way.synced {
                Call::WriteSynced(sectors)
            } else {
                Call::Write(sectors)
            };
            [(batches, write), NONE, NONE]
        }
        Work::Load { .. } => {
            let sectors = written
                .blocks
                .wrapping_mul(BLOCK_BYTES / SECTOR_BYTES)
                .wrapping_add(written.logged);
            [
                (1, Call::Write(sectors)),
                (written.roots.wrapping_mul(2), Call::WriteSynced(1)),
                NONE,
            ]
        }
        Work::Get(_) | Work::GetCold => [(count, Call::ReadAnywhere), NONE, NONE],
        Work::Scan => [(rows.div_ceil(BLOCK_BYTES), Call::ReadBlock), NONE, NONE],
        Work::Reopen => [
            (1, Call::Sync),
            (sizes.logged, Call::ReadSector),
            (2, Call::WriteSynced(1)),
        ],
        Work::Share(_) | Work::Fill(_) | Work::Beside { .. } => {
            [(count, Call::Write(1)), NONE, NONE]
        }
        Work::ShareSynced(_) => [(count, Call::WriteSynced(1)), NONE, NONE],
    };
    let times = match work {
        Work::Reopen => count,
        _ => 1,
    };
    Calls { calls, times }
}

/// The bytes of a block.
fn sevens(alloc: Global) -> Result<Vec<u8>, Refusal> {
    Ok(vec![in alloc; 7; BLOCK_BYTES as usize]?)
}

impl Raw {
    /// A new file of `sectors` sectors, written as the file of a store is.
    pub(crate) fn create<R: Files<File = File>>(
        rt: &R,
        alloc: Global,
        path: &str,
        sectors: u32,
    ) -> Result<Raw, Refusal> {
        let buffer = sevens(alloc)?;
        FileDevice::create(rt, path, sectors)?;
        match OpenOptions::new().read(true).write(true).open(rt, path) {
            Ok(file) => Ok(Raw {
                file,
                bytes: u64::from(sectors).wrapping_mul(u64::from(SECTOR_BYTES)),
                buffer,
            }),
            Err(_) => Err(Refusal::Io),
        }
    }

    /// The offset of a call of `bytes` bytes at a place.
    fn offset(&self, place: u32, bytes: u32) -> u64 {
        let places = self.bytes / u64::from(bytes.max(1));
        let place = u64::from(place) % places.max(1);
        place.wrapping_mul(u64::from(bytes))
    }

    /// Writes `sectors` sectors from a place on.
    fn write(&self, first: u32, sectors: u32) -> Result<(), Refusal> {
        let count = (SECTOR_BYTES as usize).min(self.buffer.len());
        for number in 0..sectors {
            let offset = self.offset(first.wrapping_add(number), SECTOR_BYTES);
            match self.file.write_at(&self.buffer[..count], offset) {
                Ok(written) if written == count => {}
                _ => return Err(Refusal::Io),
            }
        }
        Ok(())
    }

    fn sync(&self) -> Result<(), Refusal> {
        match self.file.sync_data() {
            Ok(()) => Ok(()),
            Err(_) => Err(Refusal::Io),
        }
    }

    fn read(&mut self, place: u32, bytes: u32) -> Result<(), Refusal> {
        let offset = self.offset(place, bytes);
        let count = (bytes as usize).min(self.buffer.len());
        match self.file.read_at(&mut self.buffer[..count], offset) {
            Ok(read) if read == count => Ok(()),
            _ => Err(Refusal::Io),
        }
    }

    /// Makes a call at its place in the order.
    fn make(&mut self, call: Call, place: u32) -> Result<(), Refusal> {
        match call {
            Call::Sync => self.sync(),
            Call::ReadSector => self.read(place, SECTOR_BYTES),
            Call::ReadBlock => self.read(place, BLOCK_BYTES),
            Call::ReadAnywhere => self.read(place.wrapping_mul(2_654_435_761), BLOCK_BYTES),
            Call::Write(sectors) => self.write(place.wrapping_mul(sectors), sectors),
            Call::WriteSynced(sectors) => {
                self.write(place.wrapping_mul(sectors), sectors)?;
                self.sync()
            }
        }
    }

    fn make_all(&mut self, calls: Calls) -> Result<(), Refusal> {
        for _ in 0..calls.times {
            for (count, call) in calls.calls {
                for place in 0..count {
                    self.make(call, place)?;
                }
            }
        }
        Ok(())
    }

    /// Makes the calls that a workload must make, and returns their nanoseconds.
    pub(crate) fn measure<R: Clock>(
        &mut self,
        rt: &R,
        sizes: Sizes,
        work: Work,
        measured: Measured,
    ) -> Result<u64, Refusal> {
        let calls = calls_of(sizes, work, measured);
        let start = now(rt);
        self.make_all(calls)?;
        Ok(since(rt, start))
    }
}
