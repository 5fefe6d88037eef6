//! Places among the entries of a data block.

ghost use Rattle.std.specs.Prelude.{◌≡◌, [], ◌∷◌, Err, drop, option_map, IfSome};
ghost use Rattle.lsm_device.specs.declared.refusal.Refusal.TheVariants.{BadTable};
ghost use Rattle.lsm_codec.specs.Entries.{entries_in};
ghost use Rattle.lsm_table.specs.Items.{first_version, items_at};
ghost use Rattle.lsm_table.specs.Spans.{spanned};

use crate::entries::Entries;
use crate::entry_span::EntrySpan;
use byteorder::{BigEndian, ByteOrder};
use lsm_codec::VersionRef;
use std::marker::Model;

const BLOCK: usize = 4_096;

/// A place among the entries of a data block, which can be kept next to the bytes of the block: how many entries are left, and at
/// which byte they begin.
#[derive(Clone, Copy)]
pub struct EntryPlace {
    left: usize,
    offset: usize,
}

impl Model for EntryPlace {
    ghost use Rattle.std.specs.Prelude.{◌≤◌};
    ghost use Rattle.lsm_table.specs.Items.{Place};

    ghost Value = { Place };

    ghost view = { λ p. record { left = p.left; offset = p.offset } };

    ghost invariant = { λ p. p.offset ≤ 4096 };

    ghost inverse = { λ p. record { left = p.left; offset = p.offset } };
}

impl EntryPlace {
    /// The place of the first entry of a block.
    pub fn first(block: &[u8; 4_096]) -> EntryPlace
        ensures { items_at result block.now ≡ entries_in block.now }
    {
        let count = BigEndian::read_u16(block);
        if count == 0 {
            return EntryPlace::bad(block);
        }
        EntryPlace {
            left: count as usize,
            offset: 2,
        }
    }

    /// The place of bytes that are no entry: one entry of no bytes.
    pub fn bad(block: &[u8; 4_096]) -> EntryPlace
        ensures { items_at result block.now ≡ Err BadTable ∷ [] }
    {
        let _bytes = block;
        EntryPlace {
            left: 1,
            offset: BLOCK,
        }
    }

    /// The place after all entries of a block.
    pub fn end(block: &[u8; 4_096]) -> EntryPlace
        ensures { items_at result block.now ≡ [] }
    {
        let _bytes = block;
        EntryPlace {
            left: 0,
            offset: BLOCK,
        }
    }

    fn bytes_from<'b>(&self, block: &'b [u8; 4_096]) -> &'b [u8]
        ensures { result.now ≡ drop self.now.offset block.now }
    {
        &block[self.offset..]
    }

    /// The entries of a block from the place on, lent out of its bytes. Bytes that are no entry give `BadTable`, and nothing
    /// comes after that.
    pub fn entries<'b>(&self, block: &'b [u8; 4_096]) -> Entries<'b>
        ensures { result ≡ items_at self.now block.now }
    {
        Entries::of(self.left, self.bytes_from(block))
    }

    /// Where the first entry from the place on is, and the place after it; `None` where none is left or its bytes are invalid.
    pub fn first_entry(&self, block: &[u8; 4_096]) -> Option<(EntrySpan, EntryPlace)>
        ensures lies { option_map (λ e. spanned e.0 block.now) result
            ≡ first_version (items_at self.now block.now) }
        ensures behind { IfSome result
            (λ e. items_at e.1 block.now ≡ drop 1 (items_at self.now block.now)) }
    {
        if self.left == 0 {
            return None;
        }
        match VersionRef::read(self.bytes_from(block)) {
            Some((entry, rest)) => {
                let span = EntrySpan::of(self.offset, &entry);
                let behind = EntryPlace {
                    left: self.left - 1,
                    offset: BLOCK - rest.len(),
                };
                Some((span, behind))
            }
            None => None,
        }
    }

    /// The place after the first entry from the place on.
    pub fn next(&self, block: &[u8; 4_096]) -> EntryPlace
        ensures { items_at result block.now ≡ drop 1 (items_at self.now block.now) }
    {
        match self.first_entry(block) {
            Some((_span, behind)) => behind,
            None => EntryPlace::end(block),
        }
    }
}
