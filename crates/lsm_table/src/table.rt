//! Written tables, as their footer, index and filter describe them.

ghost use Rattle.std.specs.Prelude.{◌≡◌, ◌<◌, ◌≤◌, length, IfSome};
ghost use Rattle.lsm_codec.specs.Versions.{newest};
ghost use Rattle.lsm_codec.specs.Indexes.{IsIndex};
ghost use Rattle.lsm_codec.specs.Footers.{IsSummary, summary_of};
ghost use Rattle.lsm_filter.specs.Bits.{is_perhaps, has_bits};
ghost use Rattle.lsm_table.specs.Division.{TableBlocks, entries_of};
ghost use Rattle.lsm_table.specs.BlockEdges.{edges_of, first_key_of, last_key};
ghost use Rattle.lsm_table.specs.Places.{place_of, at_place, blocks_before, IsSorted};
ghost use Rattle.lsm_table.specs.Outlines.{IsOutline, outline_with, outline_by, outline_of, Opens};

use crate::edges::{blocks_before, last_key, place_in};
use crate::outline::{go_together, is_of_record};
use lsm_codec::{Edge, Footer, Index, Key, TableRecord};
use lsm_device::Refusal;
use lsm_filter::{Filter, KeyHash};
use std::alloc::{Allocator, Global};
use std::marker::Model;

/// A written table. Contracts see what its footer, index and filter contain.
#[derive(Drop)]
pub struct Table<A: Allocator = Global> {
    number: u64,
    entries: u32,
    first: Key<A>,
    index: Index<A>,
    filter: Filter<A>,
}

impl<A: Allocator> Model for Table<A> {
    ghost use Rattle.lsm_table.specs.Outlines.{Outline, IsOutline};

    ghost Value = { Outline };

    ghost view = { λ t. record { number = t.number; entries = t.entries; first = t.first; edges = t.index; filter = t.filter } };

    ghost invariant = { λ t. IsOutline (record { number = t.number; entries = t.entries; first = t.first; edges = t.index; filter = t.filter }) };
}

impl<A: Allocator + Clone> Table<A> {
    /// Opens the table of a manifest's record, with this footer block, these index blocks and this filter block. `BadTable`
    /// where they are not those of such a table: the footer is outside its limits, or has another number, count of data
    /// blocks or of entries than the record; the index isn't that of the footer's data blocks, of the footer's length
    /// and in the record's count of blocks, which are the fewest that hold it; or first key and edges are out of order.
    /// `NoMemory` where memory runs out.
    #[tactic(auto, unfolding(crate::specs::Outlines::outline_of))]
    pub fn open(
        alloc: A,
        table: TableRecord,
        footer: &[u8; 4_096],
        index: &[u8],
        filter: &[u8; 4_096],
    ) -> Result<Table<A>, Refusal>
        ensures { Opens (outline_of table footer.now index.now filter.now) result }
    {
        match Footer::decode(footer) {
            Some(footer) => Table::open_by(alloc, table, &footer, index, filter),
            None => Err(Refusal::BadTable),
        }
    }

    fn open_by(
        alloc: A,
        table: TableRecord,
        footer: &Footer<'_>,
        index: &[u8],
        filter: &[u8; 4_096],
    ) -> Result<Table<A>, Refusal>
        requires { IsSummary (summary_of footer.now) }
        ensures { Opens (outline_by table (summary_of footer.now) index.now filter.now) result }
    {
        if !is_of_record(table, footer) {
            return Err(Refusal::BadTable);
        }
        match Index::decode(alloc.clone()?, footer.data_blocks as usize, index)? {
            Some(index) => Table::open_with(alloc, table, footer, index, filter),
            None => Err(Refusal::BadTable),
        }
    }

    fn open_with(
        alloc: A,
        table: TableRecord,
        footer: &Footer<'_>,
        index: Index<A>,
        filter: &[u8; 4_096],
    ) -> Result<Table<A>, Refusal>
        requires footer { IsSummary (summary_of footer.now) }
        requires index { IsIndex footer.now.data_blocks index }
        ensures { Opens (outline_with table (summary_of footer.now) filter.now index) result }
    {
        if !go_together(table, footer, &index) {
            return Err(Refusal::BadTable);
        }
        let first = Key::from_slice(alloc.clone()?, footer.first)?;
        let filter = Filter::from_block(alloc, filter)?;
        Ok(Table {
            number: footer.number,
            entries: footer.entries,
            first,
            index,
            filter,
        })
    }
}

impl<A: Allocator> Table<A> {
    /// The number of the table.
    pub fn number(&self) -> u64
        ensures { result ≡ self.now.number }
    {
        self.number
    }

    /// How many entries the table has, from 1 to 3,200.
    pub fn entries(&self) -> u32
        ensures count { result ≡ self.now.entries }
        ensures low { 1 ≤ result }
        ensures high { result ≤ 3200 }
    {
        self.entries
    }

    /// How many data blocks the table has, from 1 to 64.
    pub fn data_blocks(&self) -> usize
        ensures count { result ≡ length self.now.edges }
        ensures low { 1 ≤ result }
        ensures high { result ≤ 64 }
        ensures fits { IsOutline self.now }
    {
        self.index.edges().len()
    }

    /// The first key.
    pub fn first(&self) -> &[u8]
        ensures { result.now ≡ self.now.first }
    {
        self.first.as_slice()
    }

    /// The last key.
    pub fn last(&self) -> &[u8]
        ensures { result.now ≡ last_key self.now.edges }
    {
        last_key(self.index.edges())
    }

    /// The last key and the number of the last version of each data block.
    pub fn edges(&self) -> &[Edge<A>]
        ensures { result.now ≡ self.now.edges }
    {
        self.index.edges()
    }

    /// Whether the table may have a version of the key: where the filter is that of the table's keys, and the result is
    /// false, it has none. It takes no memory.
    pub fn perhaps(&self, key: &[u8]) -> bool
        ensures { result ≡ is_perhaps self.now.filter key.now }
    {
        self.filter.perhaps(key)
    }

    /// What [`Table::perhaps`] returns for the keys that have this hash. It takes no memory, and reads no key.
    pub fn perhaps_hashed(&self, hash: KeyHash) -> bool
        ensures { result ≡ has_bits self.now.filter hash }
    {
        self.filter.perhaps_hashed(hash)
    }

    /// How many data blocks end before the key, by the index, found by a binary search over the edges. It takes no memory.
    pub fn blocks_before(&self, key: &[u8]) -> usize
        ensures { result ≡ blocks_before key.now self.now.edges }
    {
        blocks_before(self.index.edges(), key)
    }

    /// The one data block that can hold the newest version of the key that is numbered at most `at`, found by a binary
    /// search over the edges. It takes no memory.
    pub fn place(&self, key: &[u8], at: u64) -> Option<usize>
        ensures place { result ≡ place_of self.now.first self.now.edges key.now at }
        ensures inside { IfSome result (λ block. block < length self.now.edges) }

        // Where first key and edges are those of a table, its newest version of the key up to `at` is that of the block.
        ensures finds { (table : TableBlocks) → IsSorted table → self.now.first ≡ first_key_of table
            → self.now.edges ≡ edges_of table
            → newest key.now at (entries_of table) ≡ newest key.now at (at_place table result) }
    {
        if at == 0 || self.first.as_slice().cmp(key).is_gt() {
            return None;
        }
        place_in(self.index.edges(), key, at, self.index.guess(key))
    }
}
