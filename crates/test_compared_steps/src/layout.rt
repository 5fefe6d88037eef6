//! Where the fields of superblock and manifest lie.

use crate::image::PlainImage;

/// Where the areas of the manifests begin, those of even generations and those of odd ones.
const MANIFESTS: [u32; 2] = [2, 66];

/// In a superblock, where the version of the format ends, and where the generation stands.
const VERSION: usize = 5;

const GENERATION: usize = 6;

/// In a manifest, where the number of its log records stands, and of its runs of level 0, and of its tables.
const LOGS: usize = 28;

const RUNS: usize = 29;

const TABLES: usize = 31;

/// Where the log records begin, and how long each of them is, and each record of a table.
const HEADER: usize = 32;

const LOG_RECORD: usize = 17;

const TABLE_RECORD: usize = 20;

/// In version 1 of the format the record of a table lacks the deletes.
const OLD_RECORD: usize = 18;

/// In the record of a table, where its level stands, and its run.
const LEVEL: usize = 8;

const RUN: usize = 9;

/// In the record of a table, where its first block stands, its data blocks, its index blocks, its entries, and its deletes.
const FIRST_BLOCK: usize = 10;

const DATA_BLOCKS: usize = 14;

const INDEX_BLOCKS: usize = 15;

const ENTRIES: usize = 16;

const DELETES: usize = 18;

/// The first sector of the data blocks, of a device with logs of 128 sectors.
const DATA: u32 = 514;

/// Where a table lies: the sector of the manifest, and the places of its number, its entries and its deletes in that; and the
/// first sectors of its data blocks, its index and its footer.
#[derive(Clone, Copy)]
pub struct Record {
    pub manifest: u32,
    pub number: usize,
    pub entries: usize,
    pub deletes: usize,
    pub data: u32,
    pub index: u32,
    pub footer: u32,
}

/// A byte of a sector, 0 after its end.
fn byte_of(bytes: &[u8; 512], at: usize) -> u8 {
    bytes.get(at).copied().unwrap_or(0)
}

/// The generation of a superblock that stands in a sector, which is small.
fn generation_in(image: &PlainImage, at: u32) -> u8 {
    for sector in image.sectors.iter() {
        if sector.at == at {
            return byte_of(&sector.bytes, GENERATION + 7);
        }
    }
    0
}

/// The sector in which the manifest begins that counts.
pub fn manifest_of(image: &PlainImage) -> u32 {
    let [even, odd] = MANIFESTS;
    if generation_in(image, 0) > generation_in(image, 1) {
        return even;
    }
    odd
}

fn set(bytes: &mut [u8; 512], at: usize, byte: u8) {
    if let Some(place) = bytes.get_mut(at) {
        *place = byte;
    }
}

/// Where the records of tables begin in a manifest.
fn first_record(bytes: &[u8; 512]) -> usize {
    let logs = usize::from(byte_of(bytes, LOGS));
    HEADER.wrapping_add(LOG_RECORD.wrapping_mul(logs))
}

/// Gives each table but the first the level of its place, in a manifest of one sector.
fn spread_in(bytes: &mut [u8; 512]) {
    let mut record = first_record(bytes);
    for place in 0..byte_of(bytes, TABLES) {
        set(bytes, record.wrapping_add(LEVEL), place);
        set(bytes, record.wrapping_add(RUN), 0);
        record = record.wrapping_add(TABLE_RECORD);
    }
    set(bytes, RUNS, 1);
}

/// Of the tables of the runs of level 0, of which there are no others, the newest stays there, the next is of level 1, and so on.
pub(crate) fn spread(image: &mut PlainImage) {
    let manifest = manifest_of(image);
    for sector in image.sectors.iter_mut() {
        if sector.at == manifest {
            spread_in(&mut sector.bytes);
        }
    }
}

/// A manifest of one sector as version 1 has it.
fn old_manifest(bytes: &[u8; 512]) -> [u8; 512] {
    let first = first_record(bytes);
    let records = usize::from(byte_of(bytes, TABLES));
    let mut old = [0; 512];
    for at in 0..512_usize {
        let place = at.wrapping_sub(first);
        if at < first {
            old[at] = bytes[at];
        } else if place / OLD_RECORD < records {
            let record = TABLE_RECORD.wrapping_mul(place / OLD_RECORD);
            let from = first.wrapping_add(record).wrapping_add(place % OLD_RECORD);
            old[at] = byte_of(bytes, from);
        }
    }
    old
}

/// Makes the image of a store, whose manifests have one sector, one of version 1.
pub fn make_old(image: &mut PlainImage) {
    let [even, odd] = MANIFESTS;
    for sector in image.sectors.iter_mut() {
        if sector.at < even {
            set(&mut sector.bytes, VERSION, 1);
        } else if sector.at == even || sector.at == odd {
            sector.bytes = old_manifest(&sector.bytes);
        }
    }
}

/// A byte of a record.
fn field_of(bytes: &[u8; 512], record: usize, field: usize) -> u32 {
    u32::from(byte_of(bytes, record.wrapping_add(field)))
}

/// The first sector of a block.
fn sector_of(block: u32) -> u32 {
    DATA.wrapping_add(block.wrapping_mul(8))
}

/// Where a table lies whose record begins at a place of the manifest.
fn record_of(manifest: u32, bytes: &[u8; 512], record: usize) -> Record {
    let high = field_of(bytes, record, FIRST_BLOCK + 2);
    let first = high
        .wrapping_mul(256)
        .wrapping_add(field_of(bytes, record, FIRST_BLOCK + 3));
    let filter = first.wrapping_add(field_of(bytes, record, DATA_BLOCKS));
    let index = filter.wrapping_add(1);
    let footer = index.wrapping_add(field_of(bytes, record, INDEX_BLOCKS));
    Record {
        manifest,
        number: record.wrapping_add(7),
        entries: record.wrapping_add(ENTRIES),
        deletes: record.wrapping_add(DELETES),
        data: sector_of(first),
        index: sector_of(index),
        footer: sector_of(footer),
    }
}

/// Where the table of a place lies, as the manifest says, which has one sector.
pub fn record_in(image: &PlainImage, place: usize) -> Option<Record> {
    let manifest = manifest_of(image);
    for sector in image.sectors.iter() {
        if sector.at == manifest && place < usize::from(byte_of(&sector.bytes, TABLES)) {
            let first = first_record(&sector.bytes);
            let record = first.wrapping_add(TABLE_RECORD.wrapping_mul(place));
            return Some(record_of(manifest, &sector.bytes, record));
        }
    }
    None
}

/// What the manifest of an image tells: its tables, those of their entries that are deletes, and its logs.
#[derive(Clone, Copy)]
pub struct Numbers {
    pub tables: u32,
    pub deletes: u32,
    pub logs: u32,
}

/// What a manifest of one sector tells.
fn numbers_of(bytes: &[u8; 512]) -> Numbers {
    let mut deletes = 0_u32;
    let mut record = first_record(bytes);
    for _ in 0..byte_of(bytes, TABLES) {
        deletes = deletes.wrapping_add(field_of(bytes, record, DELETES + 1));
        record = record.wrapping_add(TABLE_RECORD);
    }
    Numbers {
        tables: byte_of(bytes, TABLES).into(),
        deletes,
        logs: byte_of(bytes, LOGS).into(),
    }
}

/// What the manifest of an image tells, which has one sector.
pub fn numbers_in(image: &PlainImage) -> Numbers {
    let manifest = manifest_of(image);
    for sector in image.sectors.iter() {
        if sector.at == manifest {
            return numbers_of(&sector.bytes);
        }
    }
    numbers_of(&[0; 512])
}
