//! The workloads, and the time that each takes.

use anyhow::Result;
use corwaphi::{BufferedDb, Db, FileDevice, OpenDbError, Options};
use std::fs::{File, Files};
use std::rt::Clock;
use std::time::Instant;

/// How much there is to do.
#[derive(Clone, Copy)]
pub(crate) struct Sizes {
    pub(crate) keys: u32,
    pub(crate) value_bytes: u32,
    pub(crate) log_sectors: u32,
}

/// The time of one workload, in nanoseconds.
#[derive(Clone, Copy)]
pub(crate) struct Timing {
    pub(crate) count: u64,
    pub(crate) time: u64,
    pub(crate) longest: u64,
}

impl Timing {
    fn none() -> Timing {
        Timing {
            count: 0,
            time: 0,
            longest: 0,
        }
    }

    /// How many a second there were.
    pub(crate) fn rate(self) -> u64 {
        let micros = self.time / 1_000;
        if micros == 0 {
            return 0;
        }
        self.count.saturating_mul(1_000_000) / micros
    }

    // One more, that took so long.
    fn add(&mut self, time: u64) {
        self.count = self.count.saturating_add(1);
        self.time = self.time.saturating_add(time);
        self.longest = self.longest.max(time);
    }
}

/// All workloads.
#[derive(Clone, Copy)]
pub(crate) struct AllTimings {
    pub(crate) fill: Timing,
    pub(crate) overwrite: Timing,
    pub(crate) buffered: Timing,
    pub(crate) gets: Timing,
    pub(crate) rows: Timing,
    pub(crate) right: u32,
    pub(crate) row_count: u32,
    pub(crate) tables: usize,
    pub(crate) free_blocks: u32,
}

// The nanoseconds since a moment; none where the clock can't be read.
fn since<R: Clock>(rt: &R, start: Option<Instant>) -> u64 {
    let Some(start) = start else {
        return 0;
    };
    match start.elapsed(rt) {
        Ok(time) => u64::try_from(time.as_nanos()).unwrap_or(u64::MAX),
        Err(_) => 0,
    }
}

// The key of a number: other numbers have other keys.
fn key_of(number: u32) -> [u8; 16] {
    let [a, b, c, d] = number.wrapping_mul(2_654_435_761).to_be_bytes();
    [
        b'b', b'e', b'n', b'c', b'h', b':', b'k', b'e', b'y', b':', b'0', b'0', a, b, c, d,
    ]
}

// Puts a value of one byte, again and again, under each key.
fn put_all<R: Clock>(
    rt: &R,
    db: &mut Db<FileDevice>,
    keys: u32,
    value: &mut [u8],
    byte: u8,
) -> Result<Timing> {
    value.fill(byte);
    let mut timing = Timing::none();
    for number in 0..keys {
        let start = Instant::now(rt).ok();
        db.put(&key_of(number), value)?;
        timing.add(since(rt, start));
    }
    Ok(timing)
}

// Puts the same values again, but has them wait for a commit of some 16 KiB.
fn put_buffered<R: Clock>(
    rt: &R,
    db: Db<FileDevice>,
    keys: u32,
    value: &[u8],
) -> Result<(Timing, Db<FileDevice>)> {
    let mut buffered = BufferedDb::on(db);
    let mut timing = Timing::none();
    for number in 0..keys {
        let start = Instant::now(rt).ok();
        buffered.put(&key_of(number), value)?;
        timing.add(since(rt, start));
    }
    buffered.commit()?;
    let (db, _) = buffered.into_parts();
    Ok((timing, db))
}

// Gets each key, and counts the values that are right.
fn get_all<R: Clock>(
    rt: &R,
    db: &mut Db<FileDevice>,
    keys: u32,
    value: &[u8],
) -> Result<(Timing, u32)> {
    let mut timing = Timing::none();
    let mut right = 0_u32;
    for number in 0..keys {
        let start = Instant::now(rt).ok();
        let found = db.get(&key_of(number))?;
        timing.add(since(rt, start));
        if let Some(found) = found {
            if found.as_slice() == value {
                right = right.saturating_add(1);
            }
        }
    }
    Ok((timing, right))
}

// Reads all rows in their order.
fn read_all<R: Clock>(rt: &R, db: &mut Db<FileDevice>) -> Result<(Timing, u32)> {
    let mut timing = Timing::none();
    let mut count = 0_u32;
    let mut rows = db.rows(b"b", None)?;
    for _ in 0..u32::MAX {
        let start = Instant::now(rt).ok();
        let row = rows.next_row()?;
        timing.add(since(rt, start));
        if row.is_none() {
            break;
        }
        count = count.saturating_add(1);
    }
    Ok((timing, count))
}

// A new store in a file, in which the rows fill at most half of the blocks.
fn create<R: Files<File = File> + AllocGlobal>(
    rt: &R,
    path: &str,
    sizes: Sizes,
) -> Result<Db<FileDevice>, OpenDbError> {
    let proposed = Options::for_rows(u64::from(sizes.keys), 16, sizes.value_bytes);
    let options = Options {
        cache: 4_096,
        log_sectors: u16::try_from(sizes.log_sectors).unwrap_or(u16::MAX),
        ..proposed
    };
    Db::create(rt, path, options)
}

/// Does all workloads on a new store in a file.
pub(crate) fn measure<R: Files<File = File> + Clock + AllocGlobal>(
    rt: &R,
    path: &str,
    sizes: Sizes,
) -> Result<AllTimings> {
    let mut db = create(rt, path, sizes)?;
    let mut value = Vec::new(rt.alloc());
    value.resize(sizes.value_bytes as usize, 0_u8)?;
    let fill = put_all(rt, &mut db, sizes.keys, &mut value, b'1')?;
    let overwrite = put_all(rt, &mut db, sizes.keys, &mut value, b'2')?;
    let (buffered, mut db) = put_buffered(rt, db, sizes.keys, &value)?;
    let (gets, right) = get_all(rt, &mut db, sizes.keys, &value)?;
    let (rows, row_count) = read_all(rt, &mut db)?;
    let stat = db.stat()?;
    Ok(AllTimings {
        fill,
        overwrite,
        buffered,
        gets,
        rows,
        right,
        row_count,
        tables: stat.tables,
        free_blocks: stat.free_blocks,
    })
}
