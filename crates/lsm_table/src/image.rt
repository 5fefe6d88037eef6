//! Tables that are not yet written.

ghost use Rattle.std.specs.Prelude.{◌≡◌, Some, ◌+◌, ◌*◌, ◌<◌, ◌≤◌, [], length, take, drop, map, fold, slice_index_or, true, IfOk};
ghost use Rattle.std.specs.List.{All};
ghost use Rattle.lsm_codec.specs.Entries.{data_block};
ghost use Rattle.lsm_codec.specs.Indexes.{index_blocks, index_count, index_length};
ghost use Rattle.lsm_codec.specs.Versions.{one_if_none, deletes_in};
ghost use Rattle.lsm_filter.specs.Bits.{filter_of, with_key, is_perhaps};
ghost use Rattle.lsm_table.specs.Division.{IsTable, entries_of};
ghost use Rattle.lsm_table.specs.BlockEdges.{edges_of, first_key_of};
ghost use Rattle.lsm_table.specs.Outlines.{outline_in, IsRecordOf};
ghost use Rattle.lsm_table.specs.Sizes.{larger, largest_from, largest_entry};
ghost use Rattle.lsm_table.specs.Extents.{keys_of, footer_in, extent_size, extent_in_blocks};

use crate::edges::edges_of;
use crate::layout::BLOCK;
use lsm_codec::{Entry, Footer, TableRecord, encode_data_block};
use lsm_filter::Filter;
use std::alloc::{AllocError, Allocator, Global};
use std::marker::Model;

/// Puts the keys of a block into a filter.
fn insert_keys<A: Allocator>(filter: &mut Filter<A>, block: &[Entry<A>])
    ensures { filter.new ≡ fold with_key filter.old (map (λ v. v.key) block.now) }
{
    for entry in block {
        filter.insert(entry.key());
    }
}

/// The filter of the keys of blocks.
fn filter_of<A: Allocator>(alloc: A, blocks: &[Vec<Entry<A>, A>]) -> Result<Filter<A>, AllocError>
    ensures { IfOk result (λ filter. filter ≡ filter_of (keys_of (map (λ b. b.items) blocks.now))) }
{
    let mut filter = Filter::new(alloc)?;
    for block in blocks {
        insert_keys(&mut filter, block);
    }
    Ok(filter)
}

/// 1 where the entry is a delete.
fn one_if_delete<A: Allocator>(entry: &Entry<A>) -> usize
    ensures count { result ≡ one_if_none entry.now.value }
    ensures few { result ≤ 1 }
{
    match entry.value() {
        Some(_value) => 0,
        None => 1,
    }
}

/// How many of the entries of a block are deletes.
fn deletes_in<A: Allocator>(block: &[Entry<A>]) -> usize
    ensures count { result ≡ deletes_in block.now }
    ensures few { result ≤ length block.now }
{
    let mut deletes = 0;
    for entry in block {
        deletes += one_if_delete(entry);
    }
    deletes
}

/// How many of the entries of blocks are deletes.
fn deletes_of<A: Allocator>(blocks: &[Vec<Entry<A>, A>]) -> usize
    requires { length (entries_of (map (λ b. b.items) blocks.now)) ≤ 3200 }
    ensures count { result ≡ deletes_in (entries_of (map (λ b. b.items) blocks.now)) }
    ensures few { result ≤ length (entries_of (map (λ b. b.items) blocks.now)) }
{
    let mut deletes = 0;
    for block in blocks {
        deletes += deletes_in(block);
    }
    deletes
}

/// The bytes of the index of blocks, and the length of its text.
fn index_of<A: Allocator + Clone>(
    alloc: &A,
    blocks: &[Vec<Entry<A>, A>],
) -> Result<(Vec<u8, A>, usize), AllocError>
    requires { length blocks.now ≤ 64 }
    ensures bytes { IfOk result
        (λ index. index.0.items ≡ index_blocks (edges_of (map (λ b. b.items) blocks.now))) }
    ensures len { IfOk result (λ index. index.1
        ≡ index_length (edges_of (map (λ b. b.items) blocks.now))) }
{
    let edges = edges_of(alloc, blocks)?;
    let index = edges.encode(alloc.clone()?)?;
    Ok((index, edges.text_len()))
}

/// Block `at` of these bytes.
fn block_at(bytes: &[u8], at: usize) -> [u8; 4_096]
    requires low { at < 64 }
    requires inside { 4096 * at + 4096 ≤ length bytes.now }
    ensures { result ≡ take 4096 (drop (4096 * at) bytes.now) }
{
    let mut block = [0; 4_096];
    block.copy_from_slice(&bytes[BLOCK * at..BLOCK * at + BLOCK]);
    block
}

/// The first key of blocks.
fn first_key<A: Allocator>(blocks: &[Vec<Entry<A>, A>]) -> &[u8]
    ensures { result.now ≡ first_key_of (map (λ b. b.items) blocks.now) }
{
    let [block, ..] = blocks else {
        return &[];
    };
    let [entry, ..] = block.as_slice() else {
        return &[];
    };
    entry.key()
}

/// The greater of `so_far` and the size of an entry.
fn larger<A: Allocator>(so_far: usize, entry: &Entry<A>) -> usize
    ensures { result ≡ larger so_far entry.now }
{
    let size = entry.size();
    if so_far < size { size } else { so_far }
}

/// The greatest of `so_far` and the sizes of entries.
fn largest_from<A: Allocator>(so_far: usize, entries: &[Entry<A>]) -> usize
    ensures { result ≡ largest_from so_far entries.now }
{
    let mut largest = so_far;
    for entry in entries {
        largest = larger(largest, entry);
    }
    largest
}

/// The bytes that the largest entry of blocks takes.
fn largest_of<A: Allocator>(blocks: &[Vec<Entry<A>, A>]) -> usize
    ensures { result ≡ largest_entry (entries_of (map (λ b. b.items) blocks.now)) }
{
    let mut largest = 0;
    for block in blocks {
        largest = largest_from(largest, block);
    }
    largest
}

/// A table that is not yet written. Contracts see its data blocks, each a list of versions.
#[derive(Drop)]
pub struct Image<A: Allocator = Global> {
    blocks: Vec<Vec<Entry<A>, A>, A>,
    entries: u32,
    deletes: u16,
    filter: Filter<A>,
    index: Vec<u8, A>,
    index_len: usize,
}

impl<A: Allocator> Model for Image<A> {
    ghost use Rattle.std.specs.Prelude.{map};
    ghost use Rattle.lsm_table.specs.Division.{TableBlocks};
    ghost use Rattle.lsm_table.specs.Extents.{IsImageOf};

    ghost Value = { TableBlocks };

    ghost view = { λ i. map (λ b. b.items) i.blocks.items };

    ghost invariant = { λ i. IsImageOf (map (λ b. b.items) i.blocks.items) i.entries i.deletes i.filter i.index.items i.index_len };
}

impl<A: Allocator + Clone> Image<A> {
    pub(crate) fn new(
        alloc: A,
        blocks: Vec<Vec<Entry<A>, A>, A>,
        entries: u32,
    ) -> Result<Image<A>, AllocError>
        requires table { IsTable (map (λ b. b.items) blocks.items) }
        requires entries { entries ≡ length (entries_of (map (λ b. b.items) blocks.items)) }
        ensures { IfOk result (λ image. image ≡ map (λ b. b.items) blocks.items) }
    {
        let (index, index_len) = index_of(&alloc, &blocks)?;
        let deletes = deletes_of(&blocks) as u16;
        let filter = filter_of(alloc, &blocks)?;
        Ok(Image {
            blocks,
            entries,
            deletes,
            filter,
            index,
            index_len,
        })
    }
}

impl<A: Allocator> Image<A> {
    /// How many data blocks there are, from 1 to 64.
    pub fn data_blocks(&self) -> usize
        ensures count { result ≡ length self.now }
        ensures low { 1 ≤ result }
        ensures high { result ≤ 64 }
        ensures fits { IsTable self.now }
    {
        self.blocks.len()
    }

    /// How many entries there are, from 1 to 3,200.
    pub fn entries(&self) -> u32
        ensures { result ≡ length (entries_of self.now) }
    {
        self.entries
    }

    /// How many of the entries are deletes.
    pub fn deletes(&self) -> u16
        ensures count { result ≡ deletes_in (entries_of self.now) }
        ensures among { result ≤ length (entries_of self.now) }
    {
        self.deletes
    }

    /// The bytes that its largest entry takes in a block.
    pub fn largest_entry(&self) -> usize
        ensures { result ≡ largest_entry (entries_of self.now) }
    {
        largest_of(&self.blocks)
    }

    /// How many blocks the index takes, from 1 to 5.
    pub fn index_blocks(&self) -> usize
        ensures count { result ≡ index_count (edges_of self.now) }
        ensures low { 1 ≤ result }
        ensures high { result ≤ 5 }
    {
        self.index_len.div_ceil(BLOCK)
    }

    /// The bytes of a data block.
    fn data_block(&self, at: usize) -> [u8; 4_096]
        requires { at < length self.now }
        ensures { result ≡ data_block (slice_index_or self.now at []) }
    {
        encode_data_block(&self.blocks[at])
    }

    /// The filter of the table's keys, whose `perhaps` is true for each of them.
    pub fn filter(&self) -> &Filter<A>
        ensures built { result.now ≡ filter_of (keys_of self.now) }
        ensures members { All (λ v. is_perhaps result.now v.key ≡ true) (entries_of self.now) }
    {
        &self.filter
    }

    /// The bytes of the index blocks.
    pub fn index(&self) -> &[u8]
        ensures { result.now ≡ index_blocks (edges_of self.now) }
    {
        &self.index
    }

    /// The record of the table under this number, in this level and run, whose extent begins at this block.
    pub fn table_record(&self, number: u64, level: u8, run: u8, first_block: u32) -> TableRecord
        ensures deletes { result.deletes ≡ Some (deletes_in (entries_of self.now)) }
        ensures of { IsRecordOf result (outline_in number (filter_of (keys_of self.now)) self.now) }
        ensures level { result.level ≡ level }
        ensures run { result.run ≡ run }
        ensures first { result.first_block ≡ first_block }
    {
        TableRecord {
            number,
            level,
            run,
            first_block,
            data_blocks: self.data_blocks() as u8,
            index_blocks: self.index_blocks() as u8,
            entries: self.entries as u16,
            deletes: Some(self.deletes()),
        }
    }

    /// How many blocks the extent takes: data blocks, filter, index and footer.
    pub fn extent_blocks(&self) -> usize
        ensures { result ≡ extent_size self.now }
    {
        self.data_blocks() + self.index_blocks() + 2
    }

    /// A block of the extent of the table under this number: the data blocks come first, then filter, index and footer. It
    /// takes no memory.
    pub fn block(&self, number: u64, at: usize) -> [u8; 4_096]
        requires { at < extent_size self.now }
        ensures { result ≡ slice_index_or
            (extent_in_blocks number (filter_of (keys_of self.now)) self.now) at [] }
    {
        let data = self.data_blocks();
        if at < data {
            return self.data_block(at);
        }
        if at == data {
            return block_at(self.filter().block(), 0);
        }
        if at < data + 1 + self.index_blocks() {
            return block_at(self.index(), at - data - 1);
        }
        self.footer(number)
    }

    /// The footer, under this number.
    pub fn footer(&self, number: u64) -> [u8; 4_096]
        ensures { result ≡ footer_in number self.now }
    {
        Footer {
            number,
            data_blocks: self.blocks.len() as u16,
            entries: self.entries,
            index_len: self.index_len as u32,
            first: first_key(&self.blocks),
        }
        .encode()
    }
}
