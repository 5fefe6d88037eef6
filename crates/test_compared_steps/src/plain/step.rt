//! What is done with a store, and what it answers.

use lsm_device::Refusal;
use lsm_store::{At, Choice, Stat};

/// A value: `length` equal bytes.
#[derive(Clone, Copy, Debug, PartialEq, Eq)]
pub struct Value {
    pub byte: u8,
    pub length: u16,
}

/// A key, and the value that it gets, or none where it is deleted.
#[derive(Clone, Copy)]
pub struct Operation {
    pub key: u8,
    pub value: Option<Value>,
}

/// What a guard asks for: that a key has this value, or that it has none.
#[derive(Clone, Copy, Debug)]
pub struct Condition {
    pub key: u8,
    pub value: Option<Value>,
}

/// What a batch does.
#[derive(Clone, Copy, Debug)]
pub enum Change {
    /// Gives a key a value of a number of equal bytes.
    Put(u8, u8, u16),
    Delete(u8),
    /// Puts a key, deletes another, and puts the first once more.
    Both(u8, u8),
    /// Puts thirty keys, with a text that fills 128 sectors.
    Fill,
}

/// How many keys the batch that fills a log puts.
const FILLING: u8 = 30;

/// The operation that puts a value of `length` equal bytes under a key.
fn put(key: u8, byte: u8, length: u16) -> Option<Operation> {
    let value = Some(Value { byte, length });
    Some(Operation { key, value })
}

/// The operation at a place of the batch that puts a key, deletes another, and puts the first again.
fn of_both(first: u8, second: u8, place: u8) -> Option<Operation> {
    match place {
        0 => put(first, 1, 1),
        1 => Some(Operation {
            key: second,
            value: None,
        }),
        2 => put(first, 2, 2),
        _ => None,
    }
}

/// The operation at a place of the batch that fills a log: all values but the last have 2,048 bytes.
fn of_filling(place: u8) -> Option<Operation> {
    if place >= FILLING {
        return None;
    }
    let key = place.wrapping_add(1);
    let length = if key == FILLING { 1_896 } else { 2_048 };
    put(key, key, length)
}

impl Change {
    /// The operation at a place, counted from 0.
    pub fn operation(self, place: u8) -> Option<Operation> {
        match self {
            Change::Put(key, byte, length) if place == 0 => put(key, byte, length),
            Change::Delete(key) if place == 0 => Some(Operation { key, value: None }),
            Change::Both(first, second) => of_both(first, second, place),
            Change::Fill => of_filling(place),
            _ => None,
        }
    }
}

/// The keys at which a result is divided: its tables begin at each of them, if it keeps something before and after.
#[derive(Clone, Copy, Debug, PartialEq, Eq)]
pub struct Division {
    pub first: u8,
    pub second: u8,
}

impl Division {
    /// At no key that comes after another.
    pub const NONE: Division = Division {
        first: 0,
        second: 0,
    };

    /// Which of the parts that it makes has a key, of three.
    pub fn part(self, key: u8) -> u8 {
        if key < self.first {
            0
        } else if key < self.second {
            1
        } else {
            2
        }
    }
}

/// A call of a store, or a piece of work on a job of it.
#[derive(Clone, Copy, Debug)]
pub enum Step {
    Commit(Change),
    /// Commits under two guards.
    CommitIf(Condition, Condition, Change),
    Sync,
    SyncTo(u64),
    Get(At, u8),
    /// Scans from a key on, for up to a number of rows.
    Scan(At, u8, u64),
    Snapshot,
    Release(u64),
    Rotate,
    Room,
    Stat,
    Take,
    /// Takes the job of a choice.
    TakeOf(Choice),
    Read(u64),
    /// Builds a result of a job's input, in a number of parts.
    Build(u64, u8),
    /// Builds one that is divided at keys.
    Divide(u64, Division),
    /// For a job, the result that was built last.
    Accept(u64),
    Write(u64),
    Install(u64),
    Drop(u64),
}

impl Step {
    /// Whether it reads the device, and makes no other call of it.
    pub fn is_read(self) -> bool {
        matches!(self, Step::Get(_, _) | Step::Scan(_, _, _) | Step::Read(_))
    }
}

/// The rows of a page, as two pages that differ tell apart: their number, and one number of all their bytes.
#[derive(Clone, Copy, Debug, PartialEq, Eq)]
pub struct RowsTold {
    pub count: usize,
    pub mixed: u64,
    pub next: Option<u8>,
}

/// The tables of all levels, as two stores that differ tell apart: their number, and one number of all that is told of them.
#[derive(Clone, Copy, Debug, PartialEq, Eq)]
pub struct TablesTold {
    pub count: usize,
    pub mixed: u64,
}

/// What is told of a table.
#[derive(Clone, Copy)]
pub struct TableTold {
    pub number: u64,
    pub level: usize,
    /// Its least and its greatest key.
    pub first: u8,
    pub last: u8,
    pub blocks: u64,
}

/// What is answered to a step.
#[derive(Clone, Copy, Debug, PartialEq, Eq)]
pub enum Answer {
    Done,
    /// Of a batch, a snapshot, or sectors.
    Number(u64),
    Found(Option<Value>),
    Rows(RowsTold),
    /// The number of a job, and the level above that of its outputs where it is a merge; none where there is no such job.
    Taken(Option<(u64, Option<usize>)>),
    /// How many blocks are left.
    Left(u64),
    /// How many tables a result has.
    Built(usize),
    /// There is no result that could be accepted.
    NoResult,
    Numbers(Stat),
    Refused(Refusal),
}

/// One number of two.
fn mix(number: u64, next: u64) -> u64 {
    (number ^ next).wrapping_mul(0x0000_0100_0000_01b3)
}

impl RowsTold {
    /// No row.
    pub const NONE: RowsTold = RowsTold {
        count: 0,
        mixed: 0xcbf2_9ce4_8422_2325,
        next: None,
    };

    /// With one row more.
    pub fn and(self, key: u8, value: Value) -> RowsTold {
        let mixed = mix(self.mixed, u64::from(key));
        let mixed = mix(mixed, u64::from(value.byte));
        RowsTold {
            count: self.count.wrapping_add(1),
            mixed: mix(mixed, u64::from(value.length)),
            next: self.next,
        }
    }
}

impl TablesTold {
    /// No table.
    pub const NONE: TablesTold = TablesTold {
        count: 0,
        mixed: 0xcbf2_9ce4_8422_2325,
    };

    /// With one table more.
    pub fn and(self, table: TableTold) -> TablesTold {
        let mixed = mix(self.mixed, table.number);
        let mixed = mix(mixed, table.level as u64);
        let mixed = mix(mixed, u64::from(table.first));
        let mixed = mix(mixed, u64::from(table.last));
        TablesTold {
            count: self.count.wrapping_add(1),
            mixed: mix(mixed, table.blocks),
        }
    }
}

/// What a call answered, or its refusal.
pub fn told(answer: Result<Answer, Refusal>) -> Answer {
    match answer {
        Ok(answer) => answer,
        Err(refusal) => Answer::Refused(refusal),
    }
}
