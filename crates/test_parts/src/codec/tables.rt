//! Entries, data blocks, indexes and footers.

use crate::codec::texts::{are, bytes_of, flipped};
use lsm_codec::{Edge, Entry, Footer, Gathered, Index, VersionRef, encode_data_block, is_zero};
use std::alloc::Global;
use std::process::Abort;

const DATA_BLOCK: &str = "00010161000000000000000101000131";

const INDEX: &str = "01610000000000000001";

const FOOTER: &str = "4c534d5400000000000000010001000000010000000a0161";

/// The version of `a` that batch 1 put as `1`.
const PUT: VersionRef<'static> = VersionRef {
    key: b"a",
    number: 1,
    value: Some(b"1"),
};

/// Batch 2 deleted `bc`.
const DELETE: VersionRef<'static> = VersionRef {
    key: b"bc",
    number: 2,
    value: None,
};

/// The data block of its entry.
fn block_of_one<R: Abort>(rt: &R, alloc: Global) -> [u8; 4_096] {
    let entry = Entry::from_ref(alloc, PUT).expect(rt, "memory");
    assert!(rt; entry.size() == 14);
    encode_data_block(&[entry])
}

/// The entry that a block holds, if it is one with zeros behind it.
fn one_entry(block: &[u8; 4_096]) -> Option<VersionRef<'_>> {
    let (version, rest) = VersionRef::read(&block[2..])?;
    if is_zero(rest) { Some(version) } else { None }
}

/// Whether the block holds that version.
fn has_put(block: &[u8; 4_096]) -> bool {
    match one_entry(block) {
        Some(found) => {
            found.key == b"a".as_slice()
                && found.number == 1
                && found.value == Some(b"1".as_slice())
        }
        None => false,
    }
}

#[test]
fn the_data_block_of_one_put(rt: HostRuntime) {
    let block = block_of_one(&rt, rt.alloc());
    assert!(rt; are(&block, DATA_BLOCK) && has_put(&block));
}

/// Whether the entry is of that version.
fn is_of(entry: &Entry, version: VersionRef<'_>) -> bool {
    entry.key() == version.key && entry.number() == version.number && entry.value() == version.value
}

/// Whether two versions that were gathered become their entries, and an entry that shares the memory of one outlives them.
fn entries_share_memory<R: Abort>(rt: &R, alloc: Global) -> bool {
    let mut gathered = Gathered::with_capacity(alloc, 2, 1).expect(rt, "memory");
    gathered.push(PUT).expect(rt, "memory");
    gathered.push(DELETE).expect(rt, "memory");
    assert!(rt; gathered.bytes() == 4);
    let entries = gathered.into_entries().expect(rt, "memory");
    let [put, delete] = entries.as_slice() else {
        return false;
    };
    let shared = put.share().expect(rt, "an entry");
    let are_those = is_of(put, PUT) && is_of(delete, DELETE);
    drop(entries);
    are_those && is_of(&shared, PUT)
}

#[test]
fn gathered_versions_become_entries(rt: HostRuntime) {
    assert!(rt; entries_share_memory(&rt, rt.alloc()));
}

/// Whether an entry is read at the front of the bytes of the text.
fn is_entry(text: &str) -> bool {
    match bytes_of::<4_096>(text) {
        Some(block) => {
            let end = text.len() / 2;
            end <= 4_096 && VersionRef::read(&block[..end]).is_some()
        }
        None => false,
    }
}

#[test]
fn bytes_that_spell_no_entry(rt: HostRuntime) {
    for (text, fits) in [
        ("0161000000000000000101000131", true), // The put.
        ("0161800000000000000002000031", true), // A delete of the last batch, and a byte more.
        ("", false), // No byte.
        ("00000000000000000101000131", false), // A key without a byte.
        ("0161000000000000000001000131", false), // Number 0.
        ("0161800000000000000101000131", false), // A number above the last.
        ("0161000000000000000100000131", false), // Another kind.
        ("0161000000000000000103000131", false), // Another kind.
        ("0161000000000000000102000131", false), // A delete with a value.
        ("01610000000000000001010002", false), // A value that is cut.
        ("01610000000000000001010801", false), // A value of 2,049 bytes.
    ] {
        assert!(rt; is_entry(text) == fits, "{text}");
    }
}

/// The index of so many data blocks that the bytes spell, if they spell one.
fn read<R: Abort>(rt: &R, alloc: Global, count: usize, blocks: &[u8]) -> Option<Index> {
    Index::decode(alloc, count, blocks).expect(rt, "memory")
}

/// Whether the index has one edge, of `a` and 1.
fn is_first_index(index: &Index) -> bool {
    let [edge] = index.edges() else {
        return false;
    };
    index.text_len() == 10 && edge.key() == b"a".as_slice() && edge.number() == 1
}

/// Whether the index of the block that ends with that version is spelled, and read back.
fn the_first_index_is_spelled<R: Abort>(rt: &R, alloc: Global) -> bool {
    let mut index = Index::new(alloc);
    let edge = Edge::new(alloc, b"a", 1).expect(rt, "memory");
    index.push(edge).expect(rt, "memory");
    let blocks = index.encode(alloc).expect(rt, "memory");
    let again = read(rt, alloc, 1, &blocks).expect(rt, "an index");
    are(&blocks, INDEX) && is_first_index(&index) && is_first_index(&again)
}

#[test]
fn the_index_of_one_block(rt: HostRuntime) {
    assert!(rt; the_first_index_is_spelled(&rt, rt.alloc()));
    let block = bytes_of::<4_096>(INDEX).expect(&rt, "a block");
    for (count, end, fits) in [
        (1, 4_096, true),
        (2, 4_096, false),
        (1, 4_095, false),
        (0, 0, true),
    ] {
        assert!(rt; read(&rt, rt.alloc(), count, &block[..end]).is_some() == fits);
    }
}

/// Whether the block is the footer of table 1.
fn is_first_footer(footer: &Footer<'_>) -> bool {
    footer.number == 1
        && footer.data_blocks == 1
        && footer.entries == 1
        && footer.index_len == 10
        && footer.first == b"a".as_slice()
}

fn the_first_footer_is_spelled() -> bool {
    let footer = Footer {
        number: 1,
        data_blocks: 1,
        entries: 1,
        index_len: 10,
        first: b"a",
    };
    let block = footer.encode();
    match Footer::decode(&block) {
        Some(again) => are(&block, FOOTER) && is_first_footer(&again),
        None => false,
    }
}

#[test]
fn the_footer_of_one_put(rt: HostRuntime) {
    assert!(rt; the_first_footer_is_spelled());
}

/// How many of the blocks that differ from these in the lowest bit of one byte spell an entry, the index of one data block,
/// and a footer.
fn spelled_among<R: Abort>(rt: &R, alloc: Global, blocks: &[[u8; 4_096]; 3]) -> [u32; 3] {
    let [data, index, footer] = blocks;
    let (mut entries, mut indexes, mut footers) = (0u32, 0u32, 0u32);
    for at in 0..4_096 {
        if at >= 2 && one_entry(&flipped(data, at)).is_some() {
            entries = entries.wrapping_add(1);
        }
        if read(rt, alloc, 1, &flipped(index, at)).is_some() {
            indexes = indexes.wrapping_add(1);
        }
        if Footer::decode(&flipped(footer, at)).is_some() {
            footers = footers.wrapping_add(1);
        }
    }
    [entries, indexes, footers]
}

#[test]
fn each_byte_is_changed_in_turn(rt: HostRuntime) {
    let blocks = [DATA_BLOCK, INDEX, FOOTER].map(|text| bytes_of::<4_096>(text).unwrap_or(
        [0; 4_096],
    ));
    // The key, seven bytes of the number, the high byte of the value's length, and the value. The key, and seven bytes of the
    // number. Then eight bytes of the number, one of the entries, two of the index's length, and the key.
    assert!(rt; spelled_among(&rt, rt.alloc(), &blocks) == [10, 8, 12]);
}
