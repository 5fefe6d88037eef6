//! A manifest's record of a table.

ghost use Rattle.std.specs.Prelude.{◌≡◌, ◌≤◌, ◌+◌, ◌*◌, ◌++◌, ◌↔◌, length, IsTrue, IfSome};
ghost use Rattle.std.specs.List.{flat_map};
ghost use Rattle.lsm_codec.specs.Reading.{Lends};
ghost use Rattle.lsm_codec.specs.TableRecords.{extent_blocks, extent_end, runs_in, HasSizes, IsTableRecord, IsOfVersion, InOrder, AreApart, TablesAgree, IsOfRun, HasRun, HasRuns, deletes_text, table_record, deletes_at, table_record_at};

use crate::agree::Agree;
use crate::filled::Filled;
use crate::records::Record;
use crate::superblock::FormatVersion;
use byteorder::{BigEndian, ByteOrder};
use std::alloc::{AllocError, Allocator};

/// The bytes of a record's text, without the deletes.
const NUMBERS_BYTES: usize = 18;

/// The bytes of a record's text at most.
const MOST_BYTES: usize = 20;

/// A table of the manifest, and where it is.
#[derive(Clone, Copy, Debug, PartialEq, Eq)]
pub struct TableRecord {
    /// Below the manifest's next one.
    pub number: u64,
    /// From 0 to 4.
    pub level: u8,
    /// In level 0 the run, of which 0 is the newest; in other levels 0.
    pub run: u8,
    /// The first block of the table's extent, which ends at 2^32 at most.
    pub first_block: u32,
    /// From 1 to 64.
    pub data_blocks: u8,
    /// From 1 to 5.
    pub index_blocks: u8,
    /// From 1 to 3,200.
    pub entries: u16,
    /// How many of the entries are deletes. Version 1 of the format doesn't record it.
    pub deletes: Option<u16>,
}

/// The deletes at the front of the bytes, where a record of this version has them, and the bytes after them.
fn deletes_at(version: FormatVersion, bytes: &[u8]) -> Option<(Option<u16>, &[u8])>
    ensures { Lends (λ x. (x.0, x.1.now)) result (deletes_at version bytes.now) }
{
    match version {
        FormatVersion::One => Some((None, bytes)),
        FormatVersion::Two => {
            if bytes.len() < 2 {
                return None;
            }
            Some((Some(BigEndian::read_u16(bytes)), &bytes[2..]))
        }
    }
}

/// Writes the deletes at the end, where they are recorded.
fn put_deletes(text: &mut Filled<MOST_BYTES>, deletes: Option<u16>)
    requires { length text.old + 2 ≤ 20 }
    ensures { text.new ≡ text.old ++ deletes_text deletes }
{
    if let Some(deletes) = deletes {
        text.put_u16(deletes);
    }
}

impl<A: Allocator> Record<A> for TableRecord {
    ghost reading = { table_record_at };

    ghost spelling = { table_record };

    fn read<'b>(
        _alloc: &A,
        version: FormatVersion,
        bytes: &'b [u8],
    ) -> Result<Option<(TableRecord, &'b [u8])>, AllocError> {
        if bytes.len() < NUMBERS_BYTES {
            return Ok(None);
        }
        let Some((deletes, rest)) = deletes_at(version, &bytes[NUMBERS_BYTES..]) else {
            return Ok(None);
        };
        let record = TableRecord {
            number: BigEndian::read_u64(bytes),
            level: bytes[8],
            run: bytes[9],
            first_block: BigEndian::read_u32(&bytes[10..]),
            data_blocks: bytes[14],
            index_blocks: bytes[15],
            entries: BigEndian::read_u16(&bytes[16..]),
            deletes,
        };
        Ok(Some((record, rest)))
    }

    fn write(&self, out: &mut Vec<u8, A>) -> Result<(), AllocError> {
        let mut text = Filled::<MOST_BYTES>::new();
        text.put_u64(self.number);
        text.put_u8(self.level);
        text.put_u8(self.run);
        text.put_u32(self.first_block);
        text.put_u8(self.data_blocks);
        text.put_u8(self.index_blocks);
        text.put_u16(self.entries);
        put_deletes(&mut text, self.deletes);
        out.extend_from_slice(text.text())?;
        Ok(())
    }
}

/// How many runs a level has: level 0 has `runs`, every other level one.
fn runs_in(runs: u8, level: u8) -> u8
    ensures { result ≡ runs_in runs level }
{
    if level == 0 { runs } else { 1 }
}

impl TableRecord {
    /// The blocks of the table's extent: data blocks, filter, index and footer.
    pub fn extent_blocks(&self) -> u32
        ensures { result ≡ extent_blocks self.now }
    {
        self.data_blocks as u32 + self.index_blocks as u32 + 2
    }

    /// The block after the extent.
    fn extent_end(&self) -> u64
        ensures { result ≡ extent_end self.now }
    {
        self.first_block as u64 + self.extent_blocks() as u64
    }

    /// Whether the record is one of this version of the format.
    pub(crate) fn is_of_version(&self, version: FormatVersion) -> bool
        ensures { IsTrue result ↔ IsOfVersion version self.now }
    {
        match version {
            FormatVersion::One => self.deletes.is_none(),
            FormatVersion::Two => self.deletes.is_some(),
        }
    }

    /// The bytes of the record's text.
    fn text_len(&self) -> usize
        ensures all { result ≡ length (table_record self.now) }
        ensures few { result ≤ 20 }
    {
        match self.deletes {
            Some(_deletes) => MOST_BYTES,
            None => NUMBERS_BYTES,
        }
    }

    /// Whether the deletes are at most the entries, where they are recorded.
    fn has_deletes_among(&self) -> bool
        ensures { IsTrue result ↔ IfSome self.now.deletes (λ deletes. deletes ≤ self.now.entries) }
    {
        match self.deletes {
            Some(deletes) => deletes <= self.entries,
            None => true,
        }
    }

    fn has_sizes(&self) -> bool
        ensures { IsTrue result ↔ HasSizes self.now }
    {
        (1..=64).contains(&self.data_blocks)
            && (1..=5).contains(&self.index_blocks)
            && (1..=3_200).contains(&self.entries)
            && self.has_deletes_among()
    }

    /// Whether the record is within its own limits, where the next table has this number and level 0 has `runs` runs.
    pub(crate) fn is_within_limits(&self, next_table: u64, runs: u8) -> bool
        ensures { IsTrue result ↔ IsTableRecord next_table runs self.now }
    {
        self.has_sizes()
            && self.level <= 4
            && self.run < runs_in(runs, self.level)
            && self.number < next_table
            && self.extent_end() <= 1 << 32
    }

    fn is_before(&self, later: &TableRecord) -> bool
        ensures { IsTrue result ↔ InOrder self.now later.now }
    {
        self.level < later.level || self.level == later.level && self.run <= later.run
    }

    fn is_apart_from(&self, other: &TableRecord) -> bool
        ensures { IsTrue result ↔ AreApart self.now other.now }
    {
        self.extent_end() <= other.first_block as u64
            || other.extent_end() <= self.first_block as u64
    }

    fn is_of_run(&self, run: u8) -> bool
        ensures { IsTrue result ↔ IsOfRun run self.now }
    {
        self.level == 0 && self.run == run
    }
}

impl Agree for TableRecord {
    ghost Agrees = { TablesAgree };

    fn agrees_with(&self, later: &TableRecord) -> bool {
        self.number != later.number && self.is_before(later) && self.is_apart_from(later)
    }
}

/// The bytes of the texts of at most 1,024 records.
pub(crate) fn texts_len(tables: &[TableRecord]) -> usize
    requires { length tables.now ≤ 1024 }
    ensures all { result ≡ length (flat_map table_record tables.now) }
    ensures few { result ≤ 20 * length tables.now }
{
    let mut len = 0;
    for table in tables {
        len += table.text_len();
    }
    len
}

fn has_run(tables: &[TableRecord], run: u8) -> bool
    ensures { IsTrue result ↔ HasRun tables.now run }
{
    for table in tables {
        if table.is_of_run(run) {
            return true;
        }
    }
    false
}

/// Whether every run of level 0 below the count has a record.
pub(crate) fn has_each_run(tables: &[TableRecord], runs: u8) -> bool
    ensures { IsTrue result ↔ HasRuns runs tables.now }
{
    for run in 0..runs {
        if !has_run(tables, run) {
            return false;
        }
    }
    true
}
