//! The text of a manifest.

ghost use Rattle.std.specs.Prelude.{◌≡◌, ◌<◌, ◌≤◌, ◌*◌, ◌^◌, ◌++◌, ◌↔◌, IsTrue, IfOk, OnOk, length};
ghost use Rattle.lsm_codec.specs.Spelling.{padding, IsDecoded};
ghost use Rattle.lsm_codec.specs.Reading.{Lends};
ghost use Rattle.lsm_codec.specs.Answers.{UnlessNoMemory};
ghost use Rattle.lsm_codec.specs.Manifests.{IsManifestOf, sector_count, manifest_header, manifest_text, manifest_bytes, header_at, manifest_at, manifest_of};

use crate::filled::Filled;
use crate::log_record::{LOG_RECORD_BYTES, LogRecord};
use crate::manifest::Manifest;
use crate::records::{read_all, write_all};
use crate::superblock::FormatVersion;
use crate::table_record::{TableRecord, texts_len};
use crate::whole_units::{is_padding, put_padding};
use byteorder::{BigEndian, ByteOrder};
use lsm_device::Refusal;
use std::alloc::{AllocError, Allocator};

/// `LSMM`.
const MAGIC: u32 = 0x4c53_4d4d;

/// The bytes before the records.
const HEADER_BYTES: usize = 32;

/// The numbers before the records.
#[derive(Drop)]
struct Header {
    generation: u64,
    base: u64,
    next_table: u64,
    logs: u8,
    runs: u8,
    tables: u16,
}

fn header_at(bytes: &[u8]) -> Option<(Header, &[u8])>
    ensures { Lends (λ x. (
      (
        0x4c534d4d,
        (
          x.0.generation,
          (x.0.base, (x.0.next_table, (x.0.logs, (x.0.runs, x.0.tables)))),
        ),
      ),
      x.1.now,
    )) result (header_at bytes.now) }
{
    if bytes.len() < HEADER_BYTES {
        return None;
    }
    if BigEndian::read_u32(bytes) != MAGIC {
        return None;
    }
    let header = Header {
        generation: BigEndian::read_u64(&bytes[4..]),
        base: BigEndian::read_u64(&bytes[12..]),
        next_table: BigEndian::read_u64(&bytes[20..]),
        logs: bytes[28],
        runs: bytes[29],
        tables: BigEndian::read_u16(&bytes[30..]),
    };
    Some((header, &bytes[HEADER_BYTES..]))
}

#[tactic(auto, unfolding(crate::specs::Manifests::manifest_at))]
fn manifest_at<'b, A: Allocator + Clone>(
    alloc: &A,
    version: FormatVersion,
    bytes: &'b [u8],
) -> Result<Option<(Manifest<A>, &'b [u8])>, AllocError>
    ensures { IfOk result
        (λ read. Lends (λ x. (x.0, x.1.now)) read (manifest_at version bytes.now)) }
{
    let Some((header, rest)) = header_at(bytes) else {
        return Ok(None);
    };
    let logs = header.logs as usize;
    let Some((logs, rest)) = read_all::<A, LogRecord>(alloc, version, logs, rest)? else {
        return Ok(None);
    };
    let tables = header.tables as usize;
    let Some((tables, rest)) = read_all::<A, TableRecord>(alloc, version, tables, rest)? else {
        return Ok(None);
    };
    Ok(Some((
        Manifest::new(
            header.generation,
            header.base,
            header.next_table,
            header.runs,
            logs,
            tables,
        ),
        rest,
    )))
}

fn header_text<A: Allocator>(manifest: &Manifest<A>) -> [u8; HEADER_BYTES]
    requires logs { length manifest.now.logs < 2 ^ 8 }
    requires tables { length manifest.now.tables < 2 ^ 16 }
    ensures { result ≡ manifest_header manifest.now }
{
    let mut text = Filled::<HEADER_BYTES>::new();
    text.put_u32(MAGIC);
    text.put_u64(manifest.generation());
    text.put_u64(manifest.base());
    text.put_u64(manifest.next_table());
    text.put_u8(manifest.logs().len() as u8);
    text.put_u8(manifest.runs());
    text.put_u16(manifest.tables().len() as u16);
    text.into_bytes()
}

impl<A: Allocator> Manifest<A> {
    /// The fewest sectors that hold the manifest.
    pub fn sectors(&self) -> u16
        requires logs { length self.now.logs < 2 ^ 8 }
        requires tables { length self.now.tables ≤ 1024 }
        ensures fewest { result ≡ sector_count self.now }
        ensures low { 1 ≤ result }
        ensures high { result ≤ 64 }
    {
        let size = HEADER_BYTES + LOG_RECORD_BYTES * self.logs().len() + texts_len(self.tables());
        size.div_ceil(512) as u16
    }

    /// The bytes of the sectors that spell the manifest, 512 for each, in the version of its records. Want of memory is
    /// `NoMemory`.
    pub fn encode(&self, alloc: A) -> Result<Vec<u8, A>, Refusal>
        requires logs { length self.now.logs < 2 ^ 8 }
        requires tables { length self.now.tables < 2 ^ 16 }
        ensures spelled { UnlessNoMemory result
            (λ sectors. sectors.items ≡ manifest_bytes self.now) }
        ensures whole { IfOk result
            (λ sectors. length sectors.items ≡ 512 * sector_count self.now) }
    {
        let mut sectors = Vec::new(alloc);
        sectors.extend_from_slice(&header_text(self))?;
        write_all(self.logs(), &mut sectors)?;
        write_all(self.tables(), &mut sectors)?;
        put_padding(&mut sectors, 512)?;
        Ok(sectors)
    }
}

impl<A: Allocator + Clone> Manifest<A> {
    /// The manifest that the bytes of sectors spell in this version, if they spell one within the limits. Want of memory is
    /// `NoMemory`.
    pub fn decode(
        alloc: A,
        version: FormatVersion,
        sectors: &[u8],
    ) -> Result<Option<Manifest<A>>, Refusal>
        ensures answer { UnlessNoMemory result
            (λ manifest. manifest ≡ manifest_of version sectors.now) }
        ensures exact { IsDecoded (IsManifestOf version) manifest_bytes sectors.now
            (manifest_of version sectors.now) }
    {
        match manifest_at(&alloc, version, sectors)? {
            Some((manifest, rest)) => {
                let is_whole = is_padding(rest, sectors.len() - rest.len(), 512);
                if is_whole && manifest.is_within_limits() {
                    Ok(Some(manifest))
                } else {
                    Ok(None)
                }
            }
            None => Ok(None),
        }
    }
}
