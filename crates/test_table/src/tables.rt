//! The bytes of a table, its places, and what is read back.

use crate::input::images_of_puts;
use hex::decode_to_slice;
use lsm_codec::TableRecord;
use lsm_device::Refusal;
use lsm_table::{Entries, EntryPlace, EntrySpan, Image, Table, decode_data_block};
use std::alloc::Global;
use std::process::Abort;

/// A block that begins with the bytes of the hex text, and goes on with zeros.
fn block_of(text: &str) -> Option<[u8; 4_096]> {
    let mut block = [0; 4_096];
    let end = text.len() / 2;
    if end > 4_096 || decode_to_slice(text, &mut block[..end]).is_err() {
        return None;
    }
    Some(block)
}

/// The image of the table of puts of one value under these keys.
fn image_of<R: Abort>(rt: &R, alloc: Global, keys: &[&[u8]], value: &[u8]) -> Image {
    let mut images = images_of_puts(alloc, keys, value).expect(rt, "memory");
    assert!(rt; images.len() == 1);
    images.pop().expect(rt, "an image")
}

/// Whether a block of the image's extent under number 1 is that one.
fn has_block(image: &Image, at: usize, text: &str) -> bool {
    at < image.extent_blocks() && block_of(text) == Some(image.block(1, at))
}

const DATA_BLOCK: &str = "00010161000000000000000101000131";

const INDEX: &str = "01610000000000000001";

const FOOTER: &str = "4c534d5400000000000000010001000000010000000a0161";

#[test]
fn the_extent_of_one_put(rt: HostRuntime) {
    let image = image_of(&rt, rt.alloc(), &[b"a".as_slice()], b"1");
    const BLOCKS: &[(usize, &str)] = &[(0, DATA_BLOCK), (2, INDEX), (3, FOOTER)];
    for &(at, text) in BLOCKS {
        assert!(rt; has_block(&image, at, text));
    }
    assert!(rt; image.extent_blocks() == 4 && block_of(FOOTER) == Some(image.footer(1)));
}

/// How many entries a block has, and whether the first is the put of `1` under `a`.
fn decoded(alloc: Global, block: &[u8; 4_096]) -> Result<(usize, bool), Refusal> {
    let entries = decode_data_block(&alloc, block)?;
    let is_put = match entries.first() {
        Some(entry) => {
            entry.key() == b"a".as_slice()
                && entry.number() == 1
                && entry.value() == Some(b"1".as_slice())
        }
        None => false,
    };
    Ok((entries.len(), is_put))
}

#[test]
fn a_data_block_is_decoded(rt: HostRuntime) {
    const CASES: &[(&str, Result<(usize, bool), Refusal>)] = &[
        (DATA_BLOCK, Ok((1, true))),
        ("", Err(Refusal::BadTable)), // No entry.
        ("00020161000000000000000101000131", Err(Refusal::BadTable)), // One entry of two.
        ("0001016100000000000000010100013101", Err(Refusal::BadTable)), // A byte after the entry.
    ];
    for &(text, wanted) in CASES {
        let block = block_of(text).expect(&rt, "a block");
        assert!(rt; decoded(rt.alloc(), &block) == wanted, "{text}");
    }
}

/// The table of three puts under number 9, each in a block of its own.
fn of_three<R: Abort>(rt: &R, alloc: Global) -> Table {
    let image = image_of(rt, alloc, &[b"a".as_slice(), b"b", b"c"], &[7; 2_048]);
    assert!(rt; image.data_blocks() == 3 && image.extent_blocks() > 3);
    let record = image.table_record(9, 0, 0, 0);
    let table = Table::open(
        alloc,
        record,
        &image.footer(9),
        image.index(),
        &image.block(9, 3),
    );
    table.expect(rt, "a table")
}

/// Whether it is that table.
fn is_of_three(table: &Table) -> bool {
    table.number() == 9
        && table.entries() == 3
        && table.data_blocks() == 3
        && table.first() == b"a".as_slice()
        && table.last() == b"c".as_slice()
        && table.perhaps(b"a")
        && table.perhaps(b"b")
        && table.perhaps(b"c")
}

#[test]
fn a_table_of_three_blocks(rt: HostRuntime) {
    let table = of_three(&rt, rt.alloc());
    assert!(rt; is_of_three(&table));
    const CASES: &[(&[u8], u64, Option<usize>)] = &[
        (b"a", 1, Some(0)),
        (b"b", 1, Some(1)),
        (b"bb", 9, Some(2)),
        (b"c", 9, Some(2)),
        (b"d", 9, None), // Behind the last key.
        (b"A", 9, None), // Before the first.
        (b"a", 0, None), // Before the first batch.
    ];
    for &(key, at, place) in CASES {
        assert!(rt; table.place(key, at) == place);
    }
}

/// Whether the blocks are those of a table with these numbers.
fn is_table<R: Abort>(
    rt: &R,
    alloc: Global,
    (number, data_blocks, index_blocks, entries): (u64, u8, u8, u16),
    footer: &[u8; 4_096],
    index: &[u8],
) -> bool {
    let record = TableRecord {
        number,
        level: 1,
        run: 0,
        first_block: 7,
        data_blocks,
        index_blocks,
        entries,
        deletes: None,
    };
    match Table::open(alloc, record, footer, index, &[0; 4_096]) {
        Ok(_) => true,
        Err(refusal) => {
            assert!(rt; refusal == Refusal::BadTable);
            false
        }
    }
}

#[test]
fn records_of_other_tables(rt: HostRuntime) {
    let image = image_of(&rt, rt.alloc(), &[b"a".as_slice(), b"b"], &[7; 2_048]);
    let footer = image.footer(9);
    const CASES: &[((u64, u8, u8, u16), bool)] = &[
        ((9, 2, 1, 2), true),
        ((8, 2, 1, 2), false),
        ((9, 1, 1, 2), false),
        ((9, 2, 2, 2), false),
        ((9, 2, 1, 3), false),
    ];
    for &(numbers, fits) in CASES {
        assert!(rt; is_table(&rt, rt.alloc(), numbers, &footer, image.index()) == fits);
    }
}

/// The block with the lowest bit of a byte changed.
fn flipped(block: &[u8; 4_096], at: usize) -> [u8; 4_096] {
    let mut block = *block;
    if at < 4_096 {
        block[at] ^= 1;
    }
    block
}

/// How many of the footers, and how many of the indexes, that differ from these in the lowest bit of one byte are those of
/// the table of one put.
fn tables_among<R: Abort>(
    rt: &R,
    alloc: Global,
    footer: &[u8; 4_096],
    index: &[u8; 4_096],
) -> (u32, u32) {
    let (mut footers, mut indexes) = (0u32, 0u32);
    for at in 0..4_096 {
        if is_table(rt, alloc, (1, 1, 1, 1), &flipped(footer, at), index) {
            footers = footers.wrapping_add(1);
        }
        if is_table(rt, alloc, (1, 1, 1, 1), footer, &flipped(index, at)) {
            indexes = indexes.wrapping_add(1);
        }
    }
    (footers, indexes)
}

#[test]
fn each_byte_of_footer_and_index(rt: HostRuntime) {
    let footer = block_of(FOOTER).expect(&rt, "a footer");
    let index = block_of(INDEX).expect(&rt, "an index");
    // A first key below the last is allowed, and seven bytes of the last version's number.
    assert!(rt; tables_among(&rt, rt.alloc(), &footer, &index) == (1, 7));
}

/// The entries of a block, none where it isn't one.
fn count_of(block: &[u8; 4_096]) -> Option<u32> {
    let mut count = 0u32;
    for item in Entries::new(block) {
        match item {
            Ok(_) => count = count.wrapping_add(1),
            Err(_) => return None,
        }
    }
    Some(count)
}

/// How many of the blocks that differ in the lowest bit of one byte are data blocks.
fn blocks_among(block: &[u8; 4_096]) -> u32 {
    let mut found = 0u32;
    for at in 0..4_096 {
        if count_of(&flipped(block, at)).is_some() {
            found = found.wrapping_add(1);
        }
    }
    found
}

#[test]
fn each_byte_of_a_data_block(rt: HostRuntime) {
    let block = block_of(DATA_BLOCK).expect(&rt, "a data block");
    // The key, seven bytes of the number, the high byte of the value's length, and the value.
    assert!(rt; count_of(&block) == Some(1) && blocks_among(&block) == 10);
}

/// Whether an entry with this key, number and value lies there in a block.
fn lies_at(
    span: &EntrySpan,
    block: &[u8; 4_096],
    key: &[u8],
    number: u64,
    value: Option<&[u8]>,
) -> bool {
    let entry = span.entry(block);
    entry.key == key && entry.number == number && entry.value == value
}

#[test]
fn entries_are_lent_where_they_lie(rt: HostRuntime) {
    let block = block_of("000201610000000000000001010001310162000000000000000202").expect(
        &rt, "hex",
    );
    let (put, behind) = EntryPlace::first(&block)
        .first_entry(&block)
        .expect(&rt, "a put");
    let (delete, end) = behind.first_entry(&block).expect(&rt, "a delete");
    assert!(rt;
        lies_at(&put, &block, b"a", 1, Some(b"1")) && lies_at(&delete, &block, b"b", 2, None)
    );
    assert!(rt; end.first_entry(&block).is_none());
}
