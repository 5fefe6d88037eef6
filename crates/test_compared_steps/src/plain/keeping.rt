//! What a merge of a plain machine keeps.

use crate::plain::batches::Batches;
use crate::plain::step::{Division, Value};
use lsm_device::Refusal;
use std::alloc::Global;

/// What a batch made of a key.
#[derive(Clone, Copy, PartialEq, Eq)]
pub(crate) struct Version {
    pub(crate) key: u8,
    pub(crate) number: u64,
    pub(crate) value: Option<Value>,
}

impl Version {
    /// The bytes of its entry in a data block, whose key has one byte.
    pub(crate) fn size(self) -> u32 {
        match self.value {
            Some(value) => 13 + u32::from(value.length),
            None => 13,
        }
    }
}

/// What a merge is given: versions run by run, newer runs first, how many stand before each run, the counts whose maps stay, and
/// whether no older version of these keys is in a lower level.
#[derive(Drop)]
pub(crate) struct Input {
    pub(crate) versions: Vec<Version>,
    pub(crate) starts: Vec<u64>,
    pub(crate) cuts: Vec<u64>,
    pub(crate) bottom: bool,
}

impl Input {
    pub(crate) fn is_same(&self, other: &Input) -> bool {
        self.versions.as_slice() == other.versions.as_slice()
            && self.starts.as_slice() == other.starts.as_slice()
            && self.cuts.as_slice() == other.cuts.as_slice()
            && self.bottom == other.bottom
    }

    /// The batch of the next newer version of a key, if there is one.
    fn hidden_by(&self, version: Version) -> u64 {
        let mut least = u64::MAX;
        for other in self.versions.iter() {
            if other.key == version.key && other.number > version.number {
                least = least.min(other.number);
            }
        }
        least
    }

    /// Whether at some cut a version is the newest of its key.
    fn is_wanted(&self, version: Version) -> bool {
        let hidden_by = self.hidden_by(version);
        for cut in self.cuts.iter() {
            if version.number <= *cut && *cut < hidden_by {
                return true;
            }
        }
        false
    }

    /// Whether an older put of a key is wanted.
    fn has_older_put(&self, version: Version) -> bool {
        for other in self.versions.iter() {
            let is_older = other.key == version.key && other.number < version.number;
            if is_older && other.value.is_some() && self.is_wanted(*other) {
                return true;
            }
        }
        false
    }

    /// Whether a version is kept: in the lowest level a delete with nothing to hide is not.
    fn is_kept(&self, version: Version) -> bool {
        let hides = version.value.is_some() || !self.bottom;
        self.is_wanted(version) && (hides || self.has_older_put(version))
    }

    /// The versions that a merge keeps, by key, and of a key the newest first.
    pub(crate) fn kept(&self, alloc: Global) -> Result<Vec<Version>, Refusal> {
        let mut kept = Vec::new(alloc);
        for version in self.versions.iter() {
            if self.is_kept(*version) {
                insert(&mut kept, *version)?;
            }
        }
        Ok(kept)
    }
}

/// Whether a version stands before another.
fn is_before(version: Version, other: Version) -> bool {
    version.key < other.key || version.key == other.key && version.number > other.number
}

/// Puts a version into its place, or into that of another of its key and batch.
fn insert(versions: &mut Vec<Version>, version: Version) -> Result<(), Refusal> {
    let mut place = 0_usize;
    for other in versions.iter() {
        if !is_before(*other, version) {
            break;
        }
        place = place.wrapping_add(1);
    }
    if let Some(other) = versions.get_mut(place) {
        if other.key == version.key && other.number == version.number {
            *other = version;
            return Ok(());
        }
    }
    if place <= versions.len() {
        versions.insert(place, version)?;
    }
    Ok(())
}

/// Of versions those that stand in a part of a division.
pub(crate) fn part_of(
    alloc: Global,
    versions: &[Version],
    division: Division,
    part: u8,
) -> Result<Vec<Version>, Refusal> {
    let mut found = Vec::new(alloc);
    for version in versions {
        if division.part(version.key) == part {
            found.push(*version)?;
        }
    }
    Ok(found)
}

/// Adds the versions that one batch made: of each key its last operation.
fn add_batch(versions: &mut Vec<Version>, batches: &Batches, number: u64) -> Result<(), Refusal> {
    let Some(change) = batches.batch(number) else {
        return Ok(());
    };
    for place in 0..=u8::MAX {
        let Some(operation) = change.operation(place) else {
            return Ok(());
        };
        let version = Version {
            key: operation.key,
            number,
            value: operation.value,
        };
        insert(versions, version)?;
    }
    Ok(())
}

/// The versions that the batches above one number and up to another made.
pub(crate) fn versions_of(
    alloc: Global,
    batches: &Batches,
    above: u64,
    to: u64,
) -> Result<Vec<Version>, Refusal> {
    let mut versions = Vec::new(alloc);
    for number in above..to {
        add_batch(&mut versions, batches, number.wrapping_add(1))?;
    }
    Ok(versions)
}
