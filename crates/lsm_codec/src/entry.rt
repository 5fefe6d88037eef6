//! Entries of tables.

ghost use Rattle.std.specs.Prelude.{◌≡◌, ◌≤◌, ◌+◌, ◌++◌, length, option_map, IfOk};
ghost use Rattle.std.specs.Arc.{arc_value};
ghost use Rattle.lsm_codec.specs.Versions.{IsEntry};
ghost use Rattle.lsm_codec.specs.Places.{version_at, IsPlaceIn};
ghost use Rattle.lsm_codec.specs.References.{shown};
ghost use Rattle.lsm_codec.specs.Entries.{entry_text, entry_size};

use crate::filled::Filled;
use crate::kind::{DELETE, PUT};
use crate::place::{Place, append};
use crate::version::VersionRef;
use std::alloc::{AllocError, Allocator, Global};
use std::marker::Model;
use std::sync::Arc;

/// A version of a key, as a table keeps it: a key of 1 to 255 bytes, the number of a batch from 1 to 2^63, and a value of
/// at most 2,048 bytes, or none where the batch deleted the key. Its key and value are in a block of memory that entries
/// share; the last of them gives it back. Contracts see the version.
#[derive(Drop)]
pub struct Entry<A: Allocator = Global> {
    bytes: Arc<Vec<u8, A>, A>,
    place: Place,
}

impl<A: Allocator> Model for Entry<A> {
    ghost use Rattle.std.specs.Arc.{arc_value};
    ghost use Rattle.lsm_codec.specs.Versions.{Version};
    ghost use Rattle.lsm_codec.specs.Places.{version_at, IsPlaceIn};

    ghost Value = { Version };

    ghost view = { λ e. version_at (arc_value e.bytes).items e.place };

    ghost invariant = { λ e. IsPlaceIn (arc_value e.bytes).items e.place };
}

impl<A: Allocator> Entry<A> {
    /// The entry of the version at a place.
    pub(crate) fn at(bytes: Arc<Vec<u8, A>, A>, place: Place) -> Entry<A>
        requires { IsPlaceIn (arc_value bytes).items place }
        ensures { result ≡ version_at (arc_value bytes).items place }
    {
        Entry { bytes, place }
    }

    /// The key, of 1 to 255 bytes.
    pub fn key(&self) -> &[u8]
        ensures same { result.now ≡ self.now.key }
        ensures fits { IsEntry self.now }
    {
        self.place.key(&self.bytes)
    }

    /// The number of the batch, from 1 to 2^63.
    pub fn number(&self) -> u64
        ensures { result ≡ self.now.number }
    {
        self.place.number
    }

    /// The value, or none where the batch deleted the key.
    pub fn value(&self) -> Option<&[u8]>
        ensures { option_map (λ v. v.now) result ≡ self.now.value }
    {
        self.place.value(&self.bytes)
    }

    /// The bytes that the entry takes in a data block, at most 2,315.
    pub fn size(&self) -> usize
        ensures size { result ≡ entry_size self.now }
        ensures small { result ≤ 2315 }
        ensures fits { IsEntry self.now }
    {
        12 + self.place.size()
    }

    /// Writes the entry's text after what is written.
    pub(crate) fn write(&self, out: &mut Filled<4_096>)
        requires { length out.old + entry_size self.now ≤ 4096 }
        ensures { out.new ≡ out.old ++ entry_text self.now }
    {
        out.put_key(self.key());
        out.put_u64(self.number());
        match self.value() {
            Some(value) => {
                out.put_u8(PUT);
                out.put_u16(value.len() as u16);
                out.put(value);
            }
            None => {
                out.put_u8(DELETE);
                out.put_u16(0);
            }
        }
    }

    /// The same version in the same memory: its bytes aren't copied.
    pub fn share(&self) -> Result<Entry<A>, AllocError>
        ensures { IfOk result (λ e. e ≡ self.now) }
    {
        Ok(Entry {
            bytes: self.bytes.clone()?,
            place: self.place,
        })
    }
}

impl<A: Allocator + Clone> Entry<A> {
    /// A copy of a version that is within the limits of an entry, in memory of its own.
    pub fn from_ref(alloc: A, version: VersionRef<'_>) -> Result<Entry<A>, AllocError>
        requires { IsEntry (shown version) }
        ensures { IfOk result (λ e. e ≡ shown version.entry) }
    {
        let mut bytes = Vec::new(alloc.clone()?);
        let place = append(&mut bytes, version)?;
        let bytes = Arc::new(alloc, bytes)?;
        Ok(Entry { bytes, place })
    }
}
