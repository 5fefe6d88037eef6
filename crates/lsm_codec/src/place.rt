//! Versions in one block of memory, each a key and its value right after it.

ghost use Rattle.std.specs.Prelude.{◌≡◌, ◌+◌, ◌++◌, ◌≤◌, length, take, option_map, is_ok, if◌then◌else◌, IfOk};
ghost use Rattle.lsm_codec.specs.Versions.{IsEntry, value_length};
ghost use Rattle.lsm_codec.specs.References.{shown};
ghost use Rattle.lsm_codec.specs.Places.{version_at, value_room, value_bytes, IsPlaceIn};

use crate::version::VersionRef;
use std::alloc::{AllocError, Allocator};

/// Where a version is: its key begins with byte `at`, and its value, where it has one, comes right after the key.
#[derive(Clone, Copy)]
pub(crate) struct Place {
    pub(crate) at: usize,
    pub(crate) number: u64,
    pub(crate) key_len: u8,
    pub(crate) value_len: Option<u16>,
}

impl Place {
    /// The key.
    pub(crate) fn key(self, bytes: &[u8]) -> &[u8]
        requires { IsPlaceIn bytes.now self }
        ensures { result.now ≡ (version_at bytes.now self).key }
    {
        &bytes[self.at..self.at + self.key_len as usize]
    }

    /// The value, or none where the batch deleted the key.
    pub(crate) fn value(self, bytes: &[u8]) -> Option<&[u8]>
        requires { IsPlaceIn bytes.now self }
        ensures { option_map (λ v. v.now) result ≡ (version_at bytes.now self).value }
    {
        let len = self.value_len?;
        let start = self.at + self.key_len as usize;
        Some(&bytes[start..start + len as usize])
    }

    /// The bytes of the key and of the value.
    pub(crate) fn size(self) -> usize
        ensures { result ≡ self.key_len + value_room self.value_len }
    {
        match self.value_len {
            Some(len) => self.key_len as usize + len as usize,
            None => self.key_len as usize,
        }
    }
}

/// Adds a value to the bytes, and returns its length, if there is one.
fn append_value<A: Allocator>(
    bytes: &mut Vec<u8, A>,
    value: Option<&[u8]>,
) -> Result<Option<u16>, AllocError>
    requires { value_length (option_map (λ v. v.now) value) ≤ 2048 }
    ensures bytes { bytes.new.items
        ≡ (if is_ok result then bytes.old.items ++ value_bytes (option_map (λ v. v.now) value.entry)
        else bytes.old.items) }
    ensures len { IfOk result (λ len. len ≡ option_map (λ v. length v.now) value.entry) }
{
    let Some(value) = value else {
        return Ok(None);
    };
    bytes.extend_from_slice(value)?;
    Ok(Some(value.len() as u16))
}

/// Adds the key and the value of a version to the bytes, and returns its place.
pub(crate) fn append<A: Allocator>(
    bytes: &mut Vec<u8, A>,
    version: VersionRef<'_>,
) -> Result<Place, AllocError>
    requires { IsEntry (shown version) }
    ensures place { IfOk result (λ place. IsPlaceIn bytes.new.items place) }
    ensures version { IfOk result
        (λ place. version_at bytes.new.items place ≡ shown version.entry) }
    ensures longer { take (length bytes.old.items) bytes.new.items ≡ bytes.old.items }
{
    let at = bytes.len();
    bytes.extend_from_slice(version.key)?;
    let value_len = append_value(bytes, version.value)?;
    Ok(Place {
        at,
        number: version.number,
        key_len: version.key.len() as u8,
        value_len,
    })
}
