//! The values that the keys of a store are to have.

use crate::stream::{Deed, KEYS};
use lsm_codec::{Batch, Op};
use lsm_device::Refusal;
use std::alloc::{AllocError, Global};

/// The most bytes of a value.
const MOST: usize = 2_048;

/// Operations of one batch, and the batch.
pub(crate) struct Collected {
    pub batch: Batch,
    pub deeds: Vec<Deed>,
}

impl Drop for Collected {
    fn drop(self) {
        let Collected { batch: _, deeds: _ } = self;
    }
}

/// Whether one of some operations puts a value.
pub(crate) fn has_put(deeds: &[Deed]) -> bool {
    for deed in deeds {
        if deed.value.is_some() {
            return true;
        }
    }
    false
}

/// The values that the keys are to have.
pub(crate) struct Book {
    alloc: Global,
    /// Of the key of each number 0, or the length of its value and a byte.
    rows: Vec<u32>,
    /// The bytes of a key.
    key_len: u32,
    /// How many batches were noted.
    count: u32,
}

impl Drop for Book {
    fn drop(self) {
        let Book {
            alloc: _,
            rows: _,
            key_len: _,
            count: _,
        } = self;
    }
}

/// What is kept of a value, of its length and its byte.
fn row_of(length: u32, byte: u32) -> u32 {
    if length == 0 {
        return 1;
    }
    length
        .wrapping_mul(256)
        .wrapping_add(byte % 256)
        .wrapping_add(1)
}

/// What would be kept of a value; nothing where its bytes differ.
fn told_row(value: &[u8]) -> u32 {
    let Some(first) = value.first() else {
        return 1;
    };
    for byte in value {
        if *byte != *first {
            return 0;
        }
    }
    row_of(u32::try_from(value.len()).unwrap_or(0), u32::from(*first))
}

/// The first `length` bytes, or all of them.
fn part(bytes: &[u8], length: u32) -> &[u8] {
    match bytes.get(..length as usize) {
        Some(part) => part,
        None => bytes,
    }
}

/// No value for any key.
fn no_rows(alloc: Global) -> Result<Vec<u32>, AllocError> {
    let mut rows = Vec::new(alloc);
    for _ in 0..KEYS {
        rows.push(0)?;
    }
    Ok(rows)
}

impl Book {
    /// No value for any key, where keys have `key_len` bytes.
    pub fn new(alloc: Global, key_len: u32) -> Result<Book, AllocError> {
        Ok(Book {
            alloc,
            rows: no_rows(alloc)?,
            key_len,
            count: 0,
        })
    }

    /// The key of a number.
    pub fn key(&self, number: u32) -> Result<Vec<u8>, AllocError> {
        let [_, _, high, low] = number.to_be_bytes();
        let mut key = Vec::new(self.alloc);
        key.push(high)?;
        key.push(low)?;
        for _ in 2..self.key_len {
            key.push(0)?;
        }
        Ok(key)
    }

    // The byte that the values of the next batch are made of.
    fn byte(&self) -> u8 {
        let [_, _, _, byte] = self.count.to_be_bytes();
        byte
    }

    /// The value that a put of `length` bytes gives in the next batch.
    pub fn next_value(&self, length: u32) -> Result<Vec<u8>, AllocError> {
        Ok(Vec::from_slice(self.alloc, part(&[self.byte(); MOST], length))?)
    }

    fn op(&self, deed: Deed) -> Result<Op, Refusal> {
        let key = self.key(deed.key)?;
        match deed.value {
            Some(length) => Op::put(self.alloc, &key, part(&[self.byte(); MOST], length)),
            None => Op::delete(self.alloc, &key),
        }
    }

    fn append(&self, batch: &mut Batch, deed: Deed) -> Result<(), Refusal> {
        let key = self.key(deed.key)?;
        match deed.value {
            Some(length) => batch.put(&key, part(&[self.byte(); MOST], length)),
            None => batch.delete(&key),
        }
    }

    /// A batch of one operation.
    pub fn one(&self, deed: Deed) -> Result<Collected, Refusal> {
        let mut deeds = Vec::new(self.alloc);
        deeds.push(deed)?;
        let batch = Batch::new(self.alloc, self.op(deed)?)?;
        Ok(Collected { batch, deeds })
    }

    /// Adds an operation to a batch. Returns whether there was room in the batch.
    pub fn add(&self, gathered: &mut Collected, deed: Deed) -> Result<bool, Refusal> {
        match self.append(&mut gathered.batch, deed) {
            Ok(()) => {
                gathered.deeds.push(deed)?;
                Ok(true)
            }
            Err(Refusal::BatchTooBig) => Ok(false),
            Err(refusal) => Err(refusal),
        }
    }

    /// Notes what a batch did.
    pub fn note(&mut self, deeds: &[Deed]) {
        for deed in deeds {
            let row = match deed.value {
                Some(length) => row_of(length, self.count),
                None => 0,
            };
            if let Some(place) = self.rows.get_mut(deed.key as usize) {
                *place = row;
            }
        }
        self.count = self.count.wrapping_add(1);
    }

    /// A copy of what is noted now.
    pub fn copy(&self) -> Result<Book, AllocError> {
        Ok(Book {
            alloc: self.alloc,
            rows: Vec::from_slice(self.alloc, &self.rows)?,
            key_len: self.key_len,
            count: self.count,
        })
    }

    /// The numbers of the keys that have values.
    pub fn keys(&self) -> Result<Vec<u32>, AllocError> {
        let mut keys = Vec::new(self.alloc);
        for number in 0..KEYS {
            if self.row(number) != 0 {
                keys.push(number)?;
            }
        }
        Ok(keys)
    }

    fn row(&self, number: u32) -> u32 {
        match self.rows.get(number as usize) {
            Some(row) => *row,
            None => 0,
        }
    }

    /// The value that the key of a number is to have, if any.
    pub fn value(&self, number: u32) -> Result<Option<Vec<u8>>, AllocError> {
        let Some(told) = self.row(number).checked_sub(1) else {
            return Ok(None);
        };
        let [_, _, _, byte] = told.to_be_bytes();
        Ok(Some(Vec::from_slice(self.alloc, part(&[byte; MOST], told / 256))?))
    }

    /// Whether a value, or that there is none, is what the key of a number is to have.
    pub fn is_value(&self, number: u32, value: &Option<Vec<u8>>) -> bool {
        let row = self.row(number);
        match value {
            Some(value) => row != 0 && row == told_row(value),
            None => row == 0,
        }
    }

    /// The number of the first key from one on that has a value.
    pub fn next_number(&self, from: u32) -> Option<u32> {
        for number in from..KEYS {
            if self.row(number) != 0 {
                return Some(number);
            }
        }
        None
    }

    /// Whether a row is the one of a number.
    pub fn is_row(&self, number: u32, key: &[u8], value: &[u8]) -> Result<bool, AllocError> {
        let wanted = self.key(number)?;
        Ok(wanted.as_slice().cmp(key).is_eq() && self.row(number) == told_row(value))
    }
}
