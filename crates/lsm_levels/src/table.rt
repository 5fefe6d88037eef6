//! Tables as the levels hold them.

ghost use Rattle.std.specs.Prelude.{◌≡◌, ◌≤◌, ◌^◌, List, IfOk, IfErr};
ghost use Rattle.lsm_codec.specs.Versions.{Version, deletes_in};
ghost use Rattle.lsm_device.specs.declared.refusal.Refusal.TheVariants.{NoMemory};
ghost use Rattle.lsm_filter.specs.Bits.{filter_of};
ghost use Rattle.lsm_table.specs.Outlines.{IsRecordOf, Opens, outline_in, outline_of};
ghost use Rattle.lsm_table.specs.Division.{entries_of};
ghost use Rattle.lsm_table.specs.Extents.{keys_of};
ghost use Rattle.lsm_levels.specs.Pick.{is_mostly_deletes};
ghost use Rattle.lsm_levels.specs.Sizes.{AreAtMost};
ghost use Rattle.lsm_levels.specs.Tables.{at_most, is_below, meets, table_at, table_of, record_of, outline_opened};

use crate::contents::Contents;
use lsm_codec::{TableRecord, head_of};
use lsm_device::Refusal;
use lsm_table::laws::outline_law;
use lsm_table::{Image, Table};
use std::alloc::{AllocError, Allocator, Global};
use std::marker::Model;
use std::sync::Arc;

/// The bytes that an entry has at most.
const LARGEST: usize = 2_315;

/// What all handles of a table share.
#[derive(Drop)]
struct Placed<A: Allocator> {
    table: Table<A>,
    listed: TableRecord,
    deletes: u16,
    largest: usize,
    contents: Contents,
}

impl<A: Allocator> Model for Placed<A> {
    ghost use Rattle.lsm_table.specs.Outlines.{IsRecordOf};
    ghost use Rattle.lsm_levels.specs.Sizes.{AreAtMost};
    ghost use Rattle.lsm_levels.specs.Tables.{Table, table_at};

    ghost Value = { Table };

    ghost view = { λ t. table_at t.table t.listed.first_block t.deletes t.contents.versions };

    ghost invariant = { λ t. IsRecordOf t.listed t.table × AreAtMost t.largest t.contents.versions };
}

/// A table that stands in an extent of the device. Levels and jobs share it: each has a handle of its own. Contracts see
/// what its blocks tell, where its extent begins, and its versions, which no code holds.
#[derive(Drop)]
pub struct PlacedTable<A: Allocator = Global> {
    shared: Arc<Placed<A>, A>,
    // What a run guesses by.
    head: u64,
}

impl<A: Allocator> Model for PlacedTable<A> {
    ghost use Rattle.std.specs.Arc.{arc_value};
    ghost use Rattle.lsm_levels.specs.Tables.{Table};

    ghost Value = { Table };

    ghost view = { λ t. arc_value t.shared };
}

impl<A: Allocator> Placed<A> {
    fn table(&self) -> &Table<A>
        ensures same { result.now ≡ self.now.outline }
        ensures whole { self.now
            ≡ table_at self.now.outline self.now.start self.now.deletes self.now.versions }
    {
        &self.table
    }

    fn table_record(&self, level: u8, run: u8) -> TableRecord
        ensures { result ≡ record_of level run self.now }
    {
        TableRecord {
            number: self.listed.number,
            level,
            run,
            first_block: self.listed.first_block,
            data_blocks: self.listed.data_blocks,
            index_blocks: self.listed.index_blocks,
            entries: self.listed.entries,
            deletes: Some(self.deletes),
        }
    }

    fn blocks(&self) -> u32
        ensures { result ≡ self.now.blocks }
    {
        self.listed.extent_blocks()
    }

    fn first_block(&self) -> u32
        ensures { result ≡ self.now.start }
    {
        self.listed.first_block
    }

    fn deletes(&self) -> u16
        ensures { result ≡ self.now.deletes }
    {
        self.deletes
    }

    fn largest_entry(&self) -> usize
        ensures { AreAtMost result self.now.versions }
    {
        self.largest
    }
}

impl<A: Allocator> PlacedTable<A> {
    /// A table with these versions, of which `deletes` are deletes and none takes more than `largest` bytes, in the extent that
    /// its record lists.
    fn new(
        alloc: A,
        table: Table<A>,
        listed: TableRecord,
        deletes: u16,
        largest: usize,
    ) -> Result<PlacedTable<A>, AllocError>
        ghost versions: { List Version }
        requires { IsRecordOf listed table × AreAtMost largest versions }
        ensures { IfOk result (λ t. t ≡ table_at table listed.first_block deletes versions) }
    {
        let contents = Contents::of();
        let placed = Placed {
            table,
            listed,
            deletes,
            largest,
            contents,
        };
        let shared = Arc::new(alloc, placed)?;
        Ok(PlacedTable { shared, head: 0 })
    }

    /// Opens the table that a manifest lists, from its footer block, index blocks and filter block, with `deletes` deletes and
    /// these versions. Fails with `BadTable` where the blocks aren't those of such a table, with `NoMemory` where an
    /// allocation fails.
    pub fn open(
        alloc: A,
        listed: TableRecord,
        deletes: u16,
        footer: &[u8; 4_096],
        index: &[u8],
        filter: &[u8; 4_096],
    ) -> Result<PlacedTable<A>, Refusal>
    where
        A: Clone,
        ghost versions: { List Version }
        ensures opened { IfOk result
            (λ t. t ≡ table_at t.outline listed.first_block deletes versions) }
        ensures told { Opens (outline_of listed footer.now index.now filter.now)
            (outline_opened result) }
    {
        PlacedTable::open_sized(alloc, listed, deletes, LARGEST, footer, index, filter)
    }

    /// As `open`, where no version takes more than `largest` bytes.
    fn open_sized(
        alloc: A,
        listed: TableRecord,
        deletes: u16,
        largest: usize,
        footer: &[u8; 4_096],
        index: &[u8],
        filter: &[u8; 4_096],
    ) -> Result<PlacedTable<A>, Refusal>
    where
        A: Clone,
        ghost versions: { List Version }
        requires { AreAtMost largest versions }
        ensures opened { IfOk result
            (λ t. t ≡ table_at t.outline listed.first_block deletes versions) }
        ensures told { Opens (outline_of listed footer.now index.now filter.now)
            (outline_opened result) }
    {
        outline_law();
        let table = Table::open(alloc.clone()?, listed, footer, index, filter)?;
        Ok(PlacedTable::new(alloc, table, listed, deletes, largest)?)
    }

    /// Opens an image as a table with these versions, none of which takes more than `largest` bytes.
    fn open_image(
        alloc: A,
        image: &Image<A>,
        largest: usize,
        number: u64,
        first_block: u32,
    ) -> Result<PlacedTable<A>, Refusal>
    where
        A: Clone,
        ghost versions: { List Version }
        requires number { number ≤ 2 ^ 63 }
        requires largest { AreAtMost largest versions }
        ensures placed { IfOk result
            (λ t. t ≡ table_at (outline_in number (filter_of (keys_of image.now)) image.now)
            first_block (deletes_in (entries_of image.now)) versions) }
        ensures memory { IfErr result (λ refusal. refusal ≡ NoMemory) }
    {
        outline_law();
        let listed = image.table_record(number, 0, 0, first_block);
        let _blocks = image.data_blocks();
        let mut filter = [0; 4_096];
        filter.copy_from_slice(image.filter().block());
        PlacedTable::open_sized(
            alloc,
            listed,
            image.deletes(),
            largest,
            &image.footer(number),
            image.index(),
            &filter,
        )
    }

    /// The table of an image under a number up to 2^63, in the extent from this block on. Fails only with NoMemory.
    pub fn of_image(
        alloc: A,
        image: &Image<A>,
        number: u64,
        first_block: u32,
    ) -> Result<PlacedTable<A>, Refusal>
    where
        A: Clone,
        requires { number ≤ 2 ^ 63 }
        ensures placed { IfOk result (λ t. t ≡ table_of number first_block image.now) }
        ensures memory { IfErr result (λ refusal. refusal ≡ NoMemory) }
    {
        let largest = image.largest_entry();
        PlacedTable::open_image(alloc, image, largest, number, first_block)
    }

    /// Another handle of the table. It copies nothing; `AllocError` only where there are 2^63 handles.
    pub fn share(&self) -> Result<PlacedTable<A>, AllocError>
        ensures { IfOk result (λ t. t ≡ self.now) }
    {
        let shared = Arc::try_clone(&self.shared)?;
        Ok(PlacedTable {
            shared,
            head: self.head,
        })
    }

    /// Notes the number of its last key behind so many bytes.
    pub(crate) fn note_head(&mut self, past: usize)
        ensures { self.new ≡ self.old }
    {
        self.head = head_of(self.last(), past);
    }

    /// The number that was noted.
    pub(crate) fn head(&self) -> u64 {
        self.head
    }

    /// What footer, index and filter tell of it.
    pub fn table(&self) -> &Table<A>
        ensures same { result.now ≡ self.now.outline }
        ensures whole { self.now
            ≡ table_at self.now.outline self.now.start self.now.deletes self.now.versions }
    {
        self.shared.table()
    }

    /// Its record in a manifest that has it in this level, from 0 to 4, and run.
    pub fn table_record(&self, level: u8, run: u8) -> TableRecord
        ensures { result ≡ record_of level run self.now }
    {
        self.shared.table_record(level, run)
    }

    /// Its number.
    pub fn number(&self) -> u64
        ensures { result ≡ self.now.number }
    {
        self.table().number()
    }

    /// The least key.
    pub fn first(&self) -> &[u8]
        ensures { result.now ≡ self.now.first }
    {
        self.table().first()
    }

    /// The greatest key.
    pub fn last(&self) -> &[u8]
        ensures { result.now ≡ self.now.last }
    {
        self.table().last()
    }

    /// The blocks of its whole extent: data blocks, filter, index and footer.
    pub fn blocks(&self) -> u32
        ensures { result ≡ self.now.blocks }
    {
        self.shared.blocks()
    }

    /// The first block of its extent, counted in the data area.
    pub fn first_block(&self) -> u32
        ensures { result ≡ self.now.start }
    {
        self.shared.first_block()
    }

    /// How many of its entries are deletes.
    pub fn deletes(&self) -> u16
        ensures { result ≡ self.now.deletes }
    {
        self.shared.deletes()
    }

    /// How many entries it has.
    pub fn entries(&self) -> u32
        ensures { result ≡ self.now.outline.entries }
    {
        self.table().entries()
    }

    /// No entry of it takes more bytes in a block: those that its largest takes, where the table was made since the store was
    /// opened, and else 2,315, which is the most that an entry takes.
    pub fn largest_entry(&self) -> usize
        ensures { AreAtMost result self.now.versions }
    {
        self.shared.largest_entry()
    }

    /// Whether half of its entries or more are deletes.
    pub(crate) fn is_mostly_deletes(&self) -> bool
        ensures { result ≡ is_mostly_deletes self.now }
    {
        self.entries() <= 2 * self.deletes() as u32
    }

    /// Whether it begins at a key or before it.
    pub(crate) fn begins_by(&self, key: &[u8]) -> bool
        ensures { result ≡ at_most self.now.first key.now }
    {
        self.first().cmp(key).is_le()
    }

    /// Whether it ends before a key.
    pub(crate) fn ends_before(&self, key: &[u8]) -> bool
        ensures { result ≡ is_below self.now.last key.now }
    {
        self.last().cmp(key).is_lt()
    }

    /// Whether it has keys of a range, from the first up to the last.
    pub(crate) fn meets(&self, first: &[u8], last: &[u8]) -> bool
        ensures { result ≡ meets (record { first = first.now; last = last.now }) self.now }
    {
        first.cmp(self.last()).is_le() && self.begins_by(last)
    }
}

/// Handles of tables.
pub fn share_all<A: Allocator>(
    alloc: A,
    tables: &[PlacedTable<A>],
) -> Result<Vec<PlacedTable<A>, A>, AllocError>
    ensures { IfOk result (λ v. v.items ≡ tables.now) }
{
    let mut handles = Vec::new(alloc);
    for table in tables {
        handles.push(table.share()?)?;
    }
    Ok(handles)
}
