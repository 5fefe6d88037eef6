//! The entries of a data block.

ghost use Rattle.std.specs.Prelude.{◌≡◌, ◌↔◌, List, ◌∷◌, [], Ok, Err, map};
ghost use Rattle.std.specs.Iterator.{YieldsFirstBy, item_count};
ghost use Rattle.lsm_device.specs.declared.refusal.Refusal.TheVariants.{BadTable};
ghost use Rattle.lsm_codec.specs.Versions.{Version};
ghost use Rattle.lsm_codec.specs.Entries.{entries_from, entries_in, IsDataBlock, data_block};
ghost use Rattle.lsm_table.specs.Items.{shown_item, Takes};

use byteorder::{BigEndian, ByteOrder};
use lsm_codec::{VersionRef, is_zero};
use lsm_device::Refusal;
use std::marker::Model;

/// The entries of a data block, one after the other, lent out of its bytes. Bytes that are no entry give `BadTable`,
/// and nothing comes after that. Contracts see the items that are left.
#[derive(Drop)]
pub struct Entries<'a> {
    left: usize,
    rest: &'a [u8],
}

impl<'a> Model for Entries<'a> {
    ghost use Rattle.std.specs.Prelude.{List, Result};
    ghost use Rattle.lsm_device.specs.declared.refusal.Refusal.{Refusal};
    ghost use Rattle.lsm_codec.specs.Versions.{Version};
    ghost use Rattle.lsm_codec.specs.Entries.{entries_from};

    ghost Value = { List (Result Version Refusal) };

    ghost view = { λ e. entries_from e.left e.rest.now };
}

impl<'a> Entries<'a> {
    /// No entry, and bad bytes: one entry of no bytes is bad.
    fn bad(block: &'a [u8]) -> Entries<'a>
        ensures { result ≡ Err BadTable ∷ [] }
    {
        Entries {
            left: 1,
            rest: &block[..0],
        }
    }

    /// The entries of the block: none of the items is `BadTable` exactly where the bytes spell a data block, and the
    /// items are then its entries.
    pub fn new(block: &'a [u8; 4_096]) -> Entries<'a>
        ensures items { result ≡ entries_in block.now }
        ensures exact { (entries : List Version) → (result ≡ map Ok entries)
            ↔ (IsDataBlock entries × (block.now ≡ data_block entries)) }
    {
        let count = BigEndian::read_u16(block);
        if count == 0 {
            return Entries::bad(block);
        }
        Entries {
            left: count as usize,
            rest: &block[2..],
        }
    }

    /// `left` entries, which begin with these bytes.
    pub(crate) fn of(left: usize, rest: &'a [u8]) -> Entries<'a>
        ensures { result ≡ entries_from left rest.now }
    {
        Entries { left, rest }
    }

    fn take(&mut self) -> Option<Result<VersionRef<'a>, Refusal>>
        ensures { Takes self.old result self.new }
    {
        if self.left == 0 {
            if is_zero(self.rest) {
                return None;
            }
            self.rest = &self.rest[..0];
            return Some(Err(Refusal::BadTable));
        }
        match VersionRef::read(self.rest) {
            Some((entry, rest)) => {
                self.left -= 1;
                self.rest = rest;
                Some(Ok(entry))
            }
            None => {
                self.left = 0;
                self.rest = &self.rest[..0];
                Some(Err(Refusal::BadTable))
            }
        }
    }
}

impl<'a> Iterator for Entries<'a> {
    type Item = Result<VersionRef<'a>, Refusal>;

    ghost next_gives = { YieldsFirstBy shown_item (λ r. r) };

    ghost remaining = { item_count (λ r. r) };

    fn next(&mut self) -> Option<Result<VersionRef<'a>, Refusal>> {
        self.take()
    }
}
