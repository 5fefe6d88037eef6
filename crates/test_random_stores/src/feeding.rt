//! Stores that are fed with random streams until they are full.

use crate::calls::Calls;
use crate::draws::Draws;
use crate::stream::Stream;
use crate::striking::strike_all;
use crate::subject::{Subject, Went};
use crate::tally::{Course, Tally};
use crate::trouble::Trouble;

/// The sectors of larger stores, and of their log regions.
const LARGE: &[(u32, u16)] = &[
    (16_384, 2_048),
    (16_384, 256),
    (32_768, 1_024),
    (32_768, 256),
    (65_536, 2_042),
    (32_768, 128),
    (16_384, 512),
    (16_384, 1_024),
    (16_384, 128),
    (16_384, 2_042),
];

/// The sectors of shorter log regions.
const SHORT: &[u16] = &[128, 256, 512, 1_024];

/// How often a store is filled and rescued.
const ROUNDS: u32 = 3;

/// Which stores are fed, and with how much.
#[derive(Clone, Copy)]
pub struct Feeding {
    /// The seed of the first store, and how much larger that of each next one is. Of those that leave 18 when they are divided by 25 calls of
    /// the device fail, and their logs are short.
    pub seed: u64,
    pub apart: u64,
    /// How many stores there are.
    pub stores: u64,
    /// How many batches a store gets in a round at most, for each MiB that its tables may take.
    pub lines: u32,
    /// The sectors of each store, 0 for several sizes.
    pub sectors: u32,
    /// The sectors of each log region, 0 for several sizes.
    pub log_sectors: u16,
    /// How many calls of a device fail in a round, of a store of which some do.
    pub strikes: u32,
    /// Whether other calls come between the batches, as guarded ones, reads, syncs and compactions; each store is led for three rounds then,
    /// whether it gets full or not, and crashes come after batches that were not synced.
    pub is_mixed: bool,
}

/// Takes one of some numbers out of them.
fn taken_out(numbers: &mut Vec<u32>, draws: &mut Draws) -> Option<u32> {
    let place = draws.place(numbers.len());
    if place < numbers.len() {
        return Some(numbers.swap_remove(place));
    }
    None
}

/// Deletes two of three of its keys, each alone, and puts and deletes a row.
fn rescue(subject: &mut Subject, stream: &mut Stream) -> Result<(), Trouble> {
    let mut keys = subject.keys()?;
    let count = keys.len();
    for _ in count / 3..count {
        if let Some(key) = taken_out(&mut keys, &mut stream.draws) {
            subject.make(key, None)?;
        }
    }
    subject.make(7, Some(1))?;
    subject.make(7, None)?;
    subject.compare()
}

/// Feeds a store until it is full, or gets `lines` batches. Returns whether it is full.
fn fed<R: AllocGlobal>(
    rt: &R,
    subject: Subject,
    (stream, calls): (&mut Stream, &mut Calls),
    lines: u32,
) -> Result<(Subject, bool), Trouble> {
    let mut subject = subject;
    for _ in 0..lines {
        if let Went::Full = subject.feed(stream)? {
            subject.let_go()?;
            return Ok((subject, true));
        }
        match stream.draws.below(500) {
            0 => {
                subject.let_go()?;
                subject = subject.reopened(rt)?;
            }
            1 | 2 => subject.hold(1)?,
            3..=9 => subject.let_go()?,
            _ => calls.may_make(&mut subject, stream)?,
        }
    }
    subject.let_go()?;
    Ok((subject, false))
}

/// Leads a store through its rounds.
fn lead<R: AllocGlobal>(rt: &R, feeding: Feeding, seed: u64) -> Result<Course, Trouble> {
    let mut stream = Stream::new(rt.alloc(), seed);
    let mut calls = Calls::new(seed, feeding.is_mixed);
    let key_len = stream.draws.one_of(&[2, 2, 4, 16, 255]);
    let (sectors, log_sectors) = feeding.shape(seed);
    let lines = feeding
        .lines
        .saturating_mul(mebibytes(sectors, log_sectors));
    let mut subject = Subject::new(rt, sectors, log_sectors, key_len)?;
    for _ in 0..ROUNDS {
        let (next, is_full) = fed(rt, subject, (&mut stream, &mut calls), lines)?;
        let strikes = feeding.strikes_of(seed);
        subject = strike_all(rt, next, (&mut stream, &mut calls), strikes)?;
        if is_full {
            subject.course.count_refusal();
            rescue(&mut subject, &mut stream)?;
        } else if !feeding.is_mixed {
            break;
        }
    }
    subject.compare()?;
    Ok(subject.course)
}

/// The MiB that tables may take, at least one.
fn mebibytes(sectors: u32, log_sectors: u16) -> u32 {
    let logs = u32::from(log_sectors).wrapping_mul(3);
    (sectors.saturating_sub(logs) / 2_048).max(1)
}

impl Feeding {
    /// The sectors of a store and of its log regions.
    fn shape(self, seed: u64) -> (u32, u16) {
        let (mut sectors, mut log_sectors) = shape_of(seed);
        if self.sectors > 0 {
            sectors = self.sectors;
        }
        if self.log_sectors > 0 {
            log_sectors = self.log_sectors;
        }
        (sectors, log_sectors)
    }

    /// How many calls of the device fail in a round of a store.
    fn strikes_of(self, seed: u64) -> u32 {
        if is_struck(seed) {
            return self.strikes;
        }
        0
    }
}

/// The sectors of one of several stores, and of its log regions. Of a hundred one is larger, and some sixteen have shorter logs; the logs of
/// the others are so long that few rows fill them.
fn shape_of(seed: u64) -> (u32, u16) {
    if seed % 100 == 91 {
        return large(seed / 100);
    }
    if is_struck(seed) {
        return (8_192, short(seed / 25));
    }
    if seed % 8 == 3 {
        return (8_192, short(seed / 8));
    }
    (8_192, if seed % 2 == 0 { 2_042 } else { 2_048 })
}

/// Whether calls of a store's device fail: of 25 stores those of one.
fn is_struck(seed: u64) -> bool {
    seed % 25 == 18
}

fn large(turn: u64) -> (u32, u16) {
    match LARGE.get((turn % 10) as usize) {
        Some(shape) => *shape,
        None => (16_384, 128),
    }
}

fn short(turn: u64) -> u16 {
    match SHORT.get((turn % 4) as usize) {
        Some(log_sectors) => *log_sectors,
        None => 128,
    }
}

/// Feeds stores, and counts what comes of each.
pub fn feed_all<R: AllocGlobal>(rt: &R, feeding: Feeding, tally: &mut Tally) {
    for i in 0..feeding.stores {
        let seed = feeding.seed.wrapping_add(i.wrapping_mul(feeding.apart));
        tally.count(seed, lead(rt, feeding, seed));
    }
}
