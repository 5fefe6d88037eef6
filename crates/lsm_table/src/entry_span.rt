//! Where entries are in a data block.

ghost use Rattle.std.specs.Prelude.{◌≡◌, ◌+◌, ◌≤◌, take, drop};
ghost use Rattle.lsm_codec.specs.Entries.{entry_size};
ghost use Rattle.lsm_codec.specs.References.{shown};
ghost use Rattle.lsm_table.specs.Spans.{span_at, spanned};

use lsm_codec::VersionRef;
use std::marker::Model;

/// Where an entry is in a data block. It can be kept next to the bytes of the block, so that they are parsed once: then the entry
/// is lent out of them without parsing it again.
#[derive(Clone, Copy)]
pub struct EntrySpan {
    key_offset: usize,
    key_len: usize,
    number: u64,
    value_offset: usize,
    value_len: Option<usize>,
}

impl Model for EntrySpan {
    ghost use Rattle.lsm_table.specs.Spans.{IsWithinBlock, Span};

    ghost Value = { Span };

    ghost view = { λ s. record { key_offset = s.key_offset; key_len = s.key_len; number = s.number; value_offset = s.value_offset; value_len = s.value_len } };

    ghost inverse = { λ s. record { key_offset = s.key_offset; key_len = s.key_len; number = s.number; value_offset = s.value_offset; value_len = s.value_len } };

    ghost invariant = { λ s. IsWithinBlock (record { key_offset = s.key_offset; key_len = s.key_len; number = s.number; value_offset = s.value_offset; value_len = s.value_len }) };
}

/// `len` bytes of a block, from `offset` on.
fn part_of(block: &[u8; 4_096], offset: usize, len: usize) -> &[u8]
    requires { offset + len ≤ 4096 }
    ensures { result.now ≡ take len (drop offset block.now) }
{
    &block[offset..offset + len]
}

impl EntrySpan {
    /// That of an entry whose text begins at a byte of a block.
    pub(crate) fn of(offset: usize, entry: &VersionRef<'_>) -> EntrySpan
        requires { offset + entry_size (shown entry.now) ≤ 4096 }
        ensures { result ≡ span_at offset (shown entry.now) }
    {
        let key_len = entry.key.len();
        EntrySpan {
            key_offset: offset + 1,
            key_len,
            number: entry.number,
            value_offset: offset + 12 + key_len,
            value_len: match entry.value {
                Some(value) => Some(value.len()),
                None => None,
            },
        }
    }

    /// The entry at this place, lent out of the bytes of its block.
    pub fn entry<'b>(&self, block: &'b [u8; 4_096]) -> VersionRef<'b>
        ensures { shown result ≡ spanned self.now block.now }
    {
        VersionRef {
            key: part_of(block, self.key_offset, self.key_len),
            number: self.number,
            value: match self.value_len {
                Some(len) => Some(part_of(block, self.value_offset, len)),
                None => None,
            },
        }
    }
}
