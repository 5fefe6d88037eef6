//! Entries that share one block of memory.

ghost use Rattle.std.specs.Prelude.{◌≡◌, ◌∷◌, ◌++◌, [], IfOk, OnOk};
ghost use Rattle.lsm_codec.specs.Versions.{IsEntry};
ghost use Rattle.lsm_codec.specs.References.{shown};

use crate::entry::Entry;
use crate::place::{Place, append};
use crate::version::VersionRef;
use std::alloc::{AllocError, Allocator, Global};
use std::marker::Model;
use std::sync::Arc;

/// Copies of versions, side by side in one block of memory, which their entries will share: so each costs no allocation of its
/// own. The memory is given back with the last of the entries. Contracts see the versions.
#[derive(Drop)]
pub struct Gathered<A: Allocator = Global> {
    bytes: Vec<u8, A>,
    places: Vec<Place, A>,
}

impl<A: Allocator> Model for Gathered<A> {
    ghost use Rattle.std.specs.Prelude.{List, map};
    ghost use Rattle.std.specs.List.{AllByRecursion};
    ghost use Rattle.lsm_codec.specs.Versions.{Version};
    ghost use Rattle.lsm_codec.specs.Places.{version_at, IsPlaceIn};

    ghost Value = { List Version };

    ghost view = { λ g. map (version_at g.bytes.items) g.places.items };

    ghost invariant = { λ g. AllByRecursion (IsPlaceIn g.bytes.items) g.places.items };
}

impl<A: Allocator + Clone> Gathered<A> {
    /// No version, with room for this many bytes of keys and values, and for this many versions, before more is asked for.
    pub fn with_capacity(alloc: A, bytes: usize, versions: usize) -> Result<Gathered<A>, AllocError>
        ensures { IfOk result (λ gathered. gathered ≡ []) }
    {
        let bytes = Vec::with_capacity(alloc.clone()?, bytes)?;
        let places = Vec::with_capacity(alloc, versions)?;
        Ok(Gathered { bytes, places })
    }

    /// The bytes of all keys and values.
    pub fn bytes(&self) -> usize {
        self.bytes.len()
    }

    /// Adds a copy of a version that is within the limits of an entry.
    pub fn push(&mut self, version: VersionRef<'_>) -> Result<(), AllocError>
        requires { IsEntry (shown version) }
        ensures { OnOk result (self.new ≡ self.old ++ shown version.entry ∷ []) }
    {
        let place = append(&mut self.bytes, version)?;
        self.places.push(place)?;
        Ok(())
    }

    /// The entries of the versions, in the order in which these were added.
    pub fn into_entries(self) -> Result<Vec<Entry<A>, A>, AllocError>
        ensures { IfOk result (λ entries. entries.items ≡ self) }
    {
        let Gathered { bytes, places } = self;
        let alloc = bytes.allocator().clone()?;
        let mut entries = Vec::with_capacity(alloc.clone()?, places.len())?;
        let bytes = Arc::new(alloc, bytes)?;
        for place in &places {
            entries.push(Entry::at(bytes.clone()?, *place))?;
        }
        Ok(entries)
    }
}
