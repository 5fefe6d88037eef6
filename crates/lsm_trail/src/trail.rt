// The entries of a history.
ghost use Rattle.std.specs.Prelude.{◌≡◌, ◌==◌, ◌<◌, [], ◌∷◌, ◌++◌, length, IfOk};
ghost use Rattle.std.specs.Vec.{vec_capacity};

use crate::entry::TrailEntry;
use std::alloc::{AllocError, Allocator, Global};
use std::marker::Model;

/// The entries of a history, in order. All places are made at once, so that an entry takes no memory.
#[derive(Drop)]
pub struct Trail<A: Allocator = Global> {
    entries: Vec<TrailEntry<A>, A>,
    limit: usize,
}

impl<A: Allocator> Model for Trail<A> {
    ghost use Rattle.std.specs.Prelude.{◌≤◌};
    ghost use Rattle.std.specs.Vec.{vec_capacity};
    ghost use Rattle.lsm_trail.specs.History.{TrailView};
    ghost use Rattle.std.specs.Coded.{codes};
    ghost use Rattle.lsm_codec.specs.Map.{map_code};

    ghost Value = { TrailView };

    ghost coded = { Prim.hlevel (codes, map_code) };

    ghost view = { λ t. record { log = t.entries.items; limit = t.limit } };

    ghost use Rattle.std.specs.Prelude.{length};

    ghost invariant = { λ t. (t.limit ≤ vec_capacity t.entries) × (length t.entries.items ≤ t.limit) };
}

impl<A: Allocator> Trail<A> {
    /// A trail with no entry, and room for `limit` entries.
    pub fn new(alloc: A, limit: usize) -> Result<Trail<A>, AllocError>
        ensures { IfOk result (λ trail. trail ≡ record { log = []; limit = limit }) }
    {
        Ok(Trail {
            entries: Vec::with_capacity(alloc, limit)?,
            limit,
        })
    }

    /// The trail of these entries, with the places that their vector has.
    pub fn from_entries(entries: Vec<TrailEntry<A>, A>) -> Trail<A>
        ensures { result ≡ record { log = entries.items; limit = vec_capacity entries } }
    {
        let limit = entries.capacity();
        Trail { entries, limit }
    }

    /// How many entries there are.
    pub fn len(&self) -> usize
        ensures { result ≡ length self.now.log }
    {
        self.entries.len()
    }

    /// Whether there is no entry.
    pub fn is_empty(&self) -> bool
        ensures { result ≡ (length self.now.log == 0) }
    {
        self.entries.is_empty()
    }

    /// Whether there is no place for another entry.
    pub fn is_full(&self) -> bool
        ensures { result ≡ (length self.now.log == self.now.limit) }
    {
        self.len() == self.limit
    }

    /// One entry more.
    pub fn push(&mut self, entry: TrailEntry<A>)
        requires { length self.old.log < self.old.limit }
        ensures { self.new ≡ record { log = self.old.log ++ entry ∷ []; limit = self.old.limit } }
    {
        self.entries.push_reserved(entry);
    }

    /// The entries.
    pub fn entries(&self) -> &[TrailEntry<A>]
        ensures { result.now ≡ self.now.log }
    {
        self.entries.as_slice()
    }

    /// The entries, without taking memory.
    pub fn into_entries(self) -> Vec<TrailEntry<A>, A>
        ensures { result.items ≡ self.log }
    {
        let Trail { entries, .. } = self;
        entries
    }
}
