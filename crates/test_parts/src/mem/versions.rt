//! Versions that a table keeps, as lines of text. Those that a `get` or a page finds at a snapshot are told by scripts
//! (`tests/runs`).

use crate::codec::batches::Operation;
use crate::mem::tables::Table;
use lsm_codec::{Entry, VersionRef};
use lsm_mem::{AllVersions, Mem};
use std::alloc::Global;
use std::process::Abort;

/// Adds the key, the number and the value of a version to a line.
fn tell<R: Abort>(rt: &R, line: &mut Vec<u8>, version: VersionRef<'_>) {
    line.extend_from_slice(version.key).expect(rt, "memory");
    line.push(b'0' + (version.number % 10) as u8)
        .expect(rt, "memory");
    if let Some(value) = version.value {
        line.push(b'=').expect(rt, "memory");
        line.extend_from_slice(value).expect(rt, "memory");
    }
    line.push(b' ').expect(rt, "memory");
}

/// Whether the newest versions at a number from a key on are these.
fn has_range<R: Abort>(
    rt: &R,
    alloc: Global,
    mem: &Mem,
    (from, at): (&[u8], u64),
    wanted: &[u8],
) -> bool {
    let mut line = Vec::new(alloc);
    for version in mem.range(from, at).expect(rt, "memory") {
        tell(rt, &mut line, version);
    }
    line.as_slice() == wanted
}

/// Three batches over several keys.
const SEVERAL: [&[Operation]; 3] = [
    &[(b"c", Some(b"1")), (b"a", Some(b"1")), (b"b", Some(b"1"))],
    &[(b"b", None)],
    &[(b"ab", Some(b""))],
];

#[test]
fn a_range_gives_the_newest_version_of_each_key(rt: HostRuntime) {
    let table = Table::of(&rt, rt.alloc(), &SEVERAL);
    for (from, at, wanted) in [
        (b"".as_slice(), 0, b"".as_slice()),
        (b"", 1, b"a1=1 b1=1 c1=1 "),
        (b"", 2, b"a1=1 b2 c1=1 "),
        (b"", 3, b"a1=1 ab3= b2 c1=1 "),
        (b"b", 1, b"b1=1 c1=1 "),
        (b"ba", 9, b"c1=1 "),
        (b"d", 9, b""),
    ] {
        assert!(rt;
            has_range(&rt, rt.alloc(), table.mem(), (from, at), wanted),
            "{at}"
        );
    }
}

/// Whether all versions, in their order, are these.
fn are<R: Abort>(rt: &R, alloc: Global, versions: AllVersions<'_>, wanted: &[u8]) -> bool {
    let mut line = Vec::new(alloc);
    for version in versions {
        tell(rt, &mut line, version);
    }
    line.as_slice() == wanted
}

/// Whether the entries, in their order, are these.
fn are_entries<R: Abort>(rt: &R, alloc: Global, entries: &[Entry], wanted: &[u8]) -> bool {
    let mut line = Vec::new(alloc);
    for entry in entries {
        let version = VersionRef {
            key: entry.key(),
            number: entry.number(),
            value: entry.value(),
        };
        tell(rt, &mut line, version);
    }
    line.as_slice() == wanted
}

/// Whether a table of these batches lends these versions, and lends and copies them once it takes no more batches.
fn keeps<R: Abort>(rt: &R, alloc: Global, batches: &[&[Operation]], wanted: &[u8]) -> bool {
    let table = Table::of(rt, alloc, batches);
    let is_lent = are(rt, alloc, table.mem().versions(), wanted);
    let sealed = table.seal(rt);
    let entries = sealed.entries(alloc).expect(rt, "memory");
    is_lent && are(rt, alloc, sealed.versions(), wanted) && are_entries(rt, alloc, &entries, wanted)
}

/// Two puts of a key.
const ONE: [&[Operation]; 2] = [&[(b"a", Some(b"1"))], &[(b"a", Some(b"2"))]];

/// A put and a delete of it, one way and the other: the later operation of a batch counts.
const TWICE: [&[Operation]; 2] = [
    &[(b"a", Some(b"1")), (b"a", None)],
    &[(b"a", None), (b"a", Some(b"2"))],
];

#[test]
fn all_versions_come_by_key_and_the_newest_first(rt: HostRuntime) {
    let alloc = rt.alloc();
    assert!(rt; keeps(&rt, alloc, &[], b"") && keeps(&rt, alloc, &ONE, b"a2=2 a1=1 "));
    let several = b"a1=1 ab3= b2 b1=1 c1=1 ";
    assert!(rt; keeps(&rt, alloc, &TWICE, b"a2=2 a1 ") && keeps(&rt, alloc, &SEVERAL, several));
}
