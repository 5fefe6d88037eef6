//! The batches of a plain machine, and the maps that they make.

use crate::plain::step::{Change, Operation, RowsTold, Value};
use lsm_device::Refusal;
use std::alloc::Global;

/// The value of each key, if it has one.
pub(crate) type Map = [Option<Value>; 256];

/// A snapshot: how many batches its map has.
#[derive(Clone, Copy)]
struct Mark {
    number: u64,
    count: u64,
}

/// Batches in their order, how many are synced, and the snapshots that live.
#[derive(Drop)]
pub(crate) struct Batches {
    changes: Vec<Change>,
    pub(crate) synced: u64,
    marks: Vec<Mark>,
    next_mark: u64,
}

/// How many snapshots live at most.
const MOST_MARKS: usize = 32;

/// The bytes of an operation in the text of a batch, whose key has one byte.
fn bytes_of(operation: Operation) -> u32 {
    match operation.value {
        Some(value) => 5 + u32::from(value.length),
        None => 3,
    }
}

/// The sectors that the text of a batch takes in a log.
pub(crate) fn sectors_of(change: Change) -> u32 {
    let mut text = 2_u32;
    for place in 0..=u8::MAX {
        let Some(operation) = change.operation(place) else {
            break;
        };
        text = text.wrapping_add(bytes_of(operation));
    }
    text.wrapping_add(479) / 480
}

/// Makes the operations of a batch, one after another.
fn apply(map: &mut Map, change: Change) {
    for place in 0..=u8::MAX {
        let Some(operation) = change.operation(place) else {
            return;
        };
        if let Some(value) = map.get_mut(usize::from(operation.key)) {
            *value = operation.value;
        }
    }
}

/// The value of a key.
pub(crate) fn value_in(map: &Map, key: u8) -> Option<Value> {
    match map.get(usize::from(key)) {
        Some(value) => *value,
        None => None,
    }
}

/// The first `limit` pairs of a map from a key on, and the key of the next.
pub(crate) fn rows_of(map: &Map, from: u8, limit: u64) -> RowsTold {
    let mut rows = RowsTold::NONE;
    for key in from..=u8::MAX {
        let Some(value) = value_in(map, key) else {
            continue;
        };
        if rows.count as u64 == limit {
            rows.next = Some(key);
            return rows;
        }
        rows = rows.and(key, value);
    }
    rows
}

/// Appends a count, unless it is the last one already.
fn add_cut(cuts: &mut Vec<u64>, count: u64) -> Result<(), Refusal> {
    match cuts.last() {
        Some(last) if *last == count => Ok(()),
        _ => Ok(cuts.push(count)?),
    }
}

impl Batches {
    /// No batch, and no snapshot.
    pub(crate) fn new(alloc: Global) -> Batches {
        Batches {
            changes: Vec::new(alloc),
            synced: 0,
            marks: Vec::new(alloc),
            next_mark: 1,
        }
    }

    /// What a crash and an opening leave, where `count` batches are kept.
    pub(crate) fn kept(&self, alloc: Global, count: u64) -> Result<Batches, Refusal> {
        let mut changes = Vec::from_slice(alloc, &self.changes)?;
        changes.truncate(count as usize);
        Ok(Batches {
            changes,
            synced: count,
            marks: Vec::new(alloc),
            next_mark: 1,
        })
    }

    /// How many batches there are.
    pub(crate) fn count(&self) -> u64 {
        self.changes.len() as u64
    }

    /// Adds a batch, and returns its sequence number.
    pub(crate) fn add(&mut self, change: Change) -> Result<u64, Refusal> {
        self.changes.push(change)?;
        Ok(self.count())
    }

    /// The batch of a number.
    pub(crate) fn batch(&self, number: u64) -> Option<Change> {
        self.changes.get(number.wrapping_sub(1) as usize).copied()
    }

    /// All batches are synced.
    pub(crate) fn sync(&mut self) {
        self.synced = self.count();
    }

    /// The map after `count` batches.
    pub(crate) fn map(&self, count: u64) -> Map {
        let mut map = [None; 256];
        for change in self.changes.iter().take(count as usize) {
            apply(&mut map, *change);
        }
        map
    }

    /// Takes a snapshot, and returns its number.
    pub(crate) fn mark(&mut self) -> Result<u64, Refusal> {
        if self.marks.len() >= MOST_MARKS {
            return Err(Refusal::TooManySnapshots);
        }
        let number = self.next_mark;
        let count = self.count();
        self.marks.push(Mark { number, count })?;
        self.next_mark = number.wrapping_add(1);
        Ok(number)
    }

    /// The snapshot at a place among those that live.
    pub(crate) fn live(&self, place: usize) -> Option<u64> {
        let mark = self.marks.get(place)?;
        Some(mark.number)
    }

    /// The place of a snapshot among those that live.
    fn place(&self, number: u64) -> Result<usize, Refusal> {
        let mut place = 0_usize;
        for mark in self.marks.iter() {
            if mark.number == number {
                return Ok(place);
            }
            place = place.wrapping_add(1);
        }
        Err(Refusal::NoSuchSnapshot)
    }

    /// How many batches the map of a snapshot has.
    pub(crate) fn count_at(&self, number: u64) -> Result<u64, Refusal> {
        let place = self.place(number)?;
        match self.marks.get(place) {
            Some(mark) => Ok(mark.count),
            None => Err(Refusal::NoSuchSnapshot),
        }
    }

    pub(crate) fn release(&mut self, number: u64) -> Result<(), Refusal> {
        let place = self.place(number)?;
        if place < self.marks.len() {
            self.marks.remove(place);
        }
        Ok(())
    }

    /// The counts that a merge keeps: those of the snapshots, and the present one, each once and rising.
    pub(crate) fn cuts(&self, alloc: Global) -> Result<Vec<u64>, Refusal> {
        let mut cuts = Vec::new(alloc);
        for mark in self.marks.iter() {
            add_cut(&mut cuts, mark.count)?;
        }
        add_cut(&mut cuts, self.count())?;
        Ok(cuts)
    }
}
