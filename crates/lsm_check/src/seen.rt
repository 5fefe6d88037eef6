// What a check keeps of the tables that it has seen.
ghost use Rattle.std.specs.Prelude.{◌≡◌, ◌+◌, ◌<◌, ◌^◌, ◌++◌, List, [], ◌∷◌, length, OnOk, MatchBool};
ghost use Rattle.lsm_codec.specs.Versions.{Version};
ghost use Rattle.lsm_levels.specs.Orders.{IsNewerPlace};
ghost use Rattle.lsm_check.specs.Seen.{number_of, least_with, IsSeen};

use lsm_codec::Entry;
use std::alloc::{AllocError, Allocator};
use std::collections::BTreeMap;
use std::marker::Model;

/// What is kept of the tables so far: of each key the least number of its versions, and how many versions there are. Contracts
/// see the keys with their numbers.
#[derive(Drop)]
pub(crate) struct Seen<A: Allocator> {
    least: BTreeMap<Vec<u8, A>, u64, A>,
    entries: u64,
}

impl<A: Allocator> Model for Seen<A> {
    ghost use Rattle.lsm_check.specs.Seen.{SeenView, plain};

    ghost Value = { SeenView };

    ghost view = { λ s. record { least = plain s.least.entries; entries = s.entries } };
}

impl<A: Allocator> Seen<A> {
    /// Nothing was seen yet.
    pub(crate) fn new(alloc: A) -> Seen<A>
        ensures { IsSeen [] result }
    {
        Seen {
            least: BTreeMap::new(alloc),
            entries: 0,
        }
    }

    /// How many versions were seen.
    pub(crate) fn entries(&self) -> u64
        ensures { result ≡ self.now.entries }
    {
        self.entries
    }

    // The least number of the key of an entry, when the entry is seen.
    fn least_with(&self, entry: &Entry<A>) -> u64
        ensures { result ≡ least_with entry.now.number (number_of entry.now.key self.now.least) }
    {
        match self.least.get(entry.key()) {
            Some(least) => entry.number().min(*least),
            None => entry.number(),
        }
    }

    // Whether an entry is older than each version of its key that was seen.
    fn is_older(&self, entry: &Entry<A>) -> bool
        ensures { (versions : List Version) → IsSeen versions self.now → MatchBool result
            (IsNewerPlace versions (entry.now ∷ []))
            (¬ IsNewerPlace versions (entry.now ∷ [])) }
    {
        match self.least.get(entry.key()) {
            Some(least) => entry.number() < *least,
            None => true,
        }
    }

    /// Whether each entry is older than each version of its key that was seen.
    pub(crate) fn are_older(&self, entries: &[Entry<A>]) -> bool
        ensures { (versions : List Version) → IsSeen versions self.now → MatchBool result
            (IsNewerPlace versions entries.now)
            (¬ IsNewerPlace versions entries.now) }
    {
        for entry in entries {
            if !self.is_older(entry) {
                return false;
            }
        }
        true
    }
}

impl<A: Allocator + Clone> Seen<A> {
    // Takes in an entry.
    fn take_in(&mut self, alloc: &A, entry: &Entry<A>) -> Result<(), AllocError>
        requires { self.old.entries + 1 < 2 ^ 64 }
        ensures seen { (versions : List Version) → IsSeen versions self.old
            → OnOk result (IsSeen (versions ++ entry.now ∷ []) self.new) }
        ensures counted { OnOk result (self.new.entries ≡ self.old.entries + 1) }
    {
        let key = Vec::from_slice(alloc.clone()?, entry.key())?;
        let number = self.least_with(entry);
        self.least.insert(key, number)?;
        self.entries += 1;
        Ok(())
    }

    /// Takes in entries.
    pub(crate) fn take_in_all(&mut self, alloc: &A, entries: &[Entry<A>]) -> Result<(), AllocError>
        requires { self.old.entries + length entries.now < 2 ^ 64 }
        ensures seen { (versions : List Version) → IsSeen versions self.old
            → OnOk result (IsSeen (versions ++ entries.now) self.new) }
        ensures counted { OnOk result (self.new.entries ≡ self.old.entries + length entries.now) }
    {
        for entry in entries {
            self.take_in(alloc, entry)?;
        }
        Ok(())
    }
}
