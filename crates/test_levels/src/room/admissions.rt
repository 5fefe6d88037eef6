//! What is admitted into memory.

use crate::room::areas::area_of;
use crate::slots::Slots;
use crate::tables::no_tables;
use lsm_mem::MemSize;
use lsm_room::{InMemory, Standing, flush_blocks, flush_outputs, is_small};
use std::alloc::Global;
use std::process::Abort;

/// So many puts of the largest entry.
fn puts(count: u64) -> MemSize {
    MemSize {
        entries: count,
        bytes: count.saturating_mul(2_315),
        large: count,
        deletes: 0,
        delete_bytes: 0,
        largest: 2_315,
    }
}

/// So many deletes of the longest key.
fn deletes(count: u64) -> MemSize {
    let bytes = count.saturating_mul(267);
    MemSize {
        entries: count,
        bytes,
        large: 0,
        deletes: count,
        delete_bytes: bytes,
        largest: 267,
    }
}

/// Whether the memtable may become so much, and whether easily, where nothing waits for a flush, no table stands, and so many blocks are
/// free.
fn admitted<R: Abort>(
    rt: &R,
    alloc: Global,
    free: u32,
    before: MemSize,
    after: MemSize,
) -> (bool, bool) {
    let memory = InMemory {
        waiting: MemSize::empty(),
        before,
        after,
    };
    admitted_beside(rt, alloc, free, memory)
}

/// Whether it may, and whether easily, beside what waits.
fn admitted_beside<R: Abort>(rt: &R, alloc: Global, free: u32, memory: InMemory) -> (bool, bool) {
    let levels = no_tables(rt, alloc);
    let extents = area_of(rt, alloc, 1, free);
    let standing = Standing {
        levels: &levels,
        extents: &extents,
        held: &Slots::Free,
        live: false,
    };
    let are_puts = memory.after.deletes == 0;
    (
        standing.admits(memory, are_puts),
        standing.admits_easily(memory, are_puts),
    )
}

#[test]
fn puts_leave_the_reserve(rt: HostRuntime) {
    // Of 500 blocks 240 stay free, and 20 more if easily. So many puts, one in a block and three blocks more, are at most 232 data blocks in
    // four tables, with 15 blocks of their indexes, and 259 in all. One more makes it 261. 211 come to 240 in all.
    const CASES: &[(u64, (bool, bool))] = &[
        (211, (true, true)),
        (212, (true, false)),
        (229, (true, false)),
        (230, (false, false)),
    ];
    for &(count, wanted) in CASES {
        let given = admitted(&rt, rt.alloc(), 500, MemSize::empty(), puts(count));
        assert!(rt; given == wanted, "{count}");
    }
}

#[test]
fn what_waits_counts_too(rt: HostRuntime) {
    // 229 puts of the largest entry find room in 500 blocks, and 230 don't, however many of them wait for a flush.
    const CASES: &[(u64, u64, bool)] = &[
        (0, 229, true),
        (100, 129, true),
        (228, 1, true),
        (100, 130, false),
        (229, 1, false),
        (229, 0, true),
    ];
    for &(waiting, count, wanted) in CASES {
        let memory = InMemory {
            waiting: puts(waiting),
            before: MemSize::empty(),
            after: puts(count),
        };
        let (given, _) = admitted_beside(&rt, rt.alloc(), 500, memory);
        assert!(rt; given == wanted, "{waiting} {count}");
    }
}

#[test]
fn flushes_take_so_many_blocks(rt: HostRuntime) {
    // 55 of the largest entry, one in a block and two blocks more: 57 data blocks, 4 of an index and 3 besides. With a snapshot there may be
    // two tables, so that one block and three besides come to it. 3,200 entries of 13 bytes fill 10 blocks of 314, and two more, in two
    // tables at most.
    let one = MemSize {
        entries: 3_200,
        bytes: 41_600,
        large: 0,
        deletes: 0,
        delete_bytes: 0,
        largest: 13,
    };
    for (memory, live, blocks, tables) in [
        (MemSize::empty(), false, 0, 0),
        (puts(55), false, 64, 1),
        (puts(55), true, 68, 2),
        (one, false, 20, 2),
    ] {
        let outputs = flush_outputs(memory, live);
        assert!(rt; outputs.blocks == blocks, "{blocks}");
        assert!(rt; outputs.tables == tables, "{tables}");
    }
}

#[test]
fn memory_stays_small(rt: HostRuntime) {
    // An eighth of 500 blocks, 62: 55 data blocks at most, with 4 blocks of an index and 3 besides. A first batch may be larger.
    assert!(rt; flush_blocks(puts(55)) == 62);
    assert!(rt; flush_blocks(puts(56)) == 63);
    for (count, before, wanted) in [
        (55, puts(1), true),
        (56, puts(1), false),
        (56, MemSize::empty(), true),
    ] {
        let (given, _) = admitted(&rt, rt.alloc(), 500, before, puts(count));
        assert!(rt; given == wanted, "{count}");
    }
}

#[test]
fn deletes_leave_room_for_steps(rt: HostRuntime) {
    // 989 deletes are 69 data blocks at most, in two tables, with 5 blocks of their indexes: 80 in all. One more makes it 81, and then they are
    // taken where puts find room too: these leave 180 free. Of a small area 100 blocks stay free beside the flush. That of 989 has 15 deletes
    // in a block and two blocks more, 67 and one more for a second table, 5 of indexes and 6 besides, so 79, and that of 990 has 80.
    const CASES: &[(u64, u32, bool)] = &[
        (989, 179, true),
        (989, 178, false),
        (990, 180, true),
        (990, 179, false),
        (990, 5_000, true),
    ];
    for &(count, free, wanted) in CASES {
        let (given, _) = admitted(&rt, rt.alloc(), free, MemSize::empty(), deletes(count));
        assert!(rt; given == wanted, "{count} {free}");
    }
}

#[test]
fn deletes_leave_room_for_what_waits(rt: HostRuntime) {
    // One delete is two data blocks at most, with one of an index and 3 besides: 6, beside the 79 of 989 and 100 for steps. 55 of the largest
    // put come to 64.
    for (waiting, count, free, wanted) in [
        (deletes(1), 989, 185, true),
        (deletes(1), 989, 184, false),
        (puts(55), 1, 170, true),
        (puts(55), 1, 169, false),
    ] {
        let memory = InMemory {
            waiting,
            before: MemSize::empty(),
            after: deletes(count),
        };
        let (given, _) = admitted_beside(&rt, rt.alloc(), free, memory);
        assert!(rt; given == wanted, "{count} {free}");
    }
}

#[test]
fn deletes_join_others(rt: HostRuntime) {
    // A sixteenth of 1,296 blocks is 81, which 990 deletes come to. If a put joins them they may come to no more than 80.
    const FREE: &[(u64, u32, bool)] = &[
        (990, 1_296, true),
        (990, 1_295, false),
        (991, 1_600, true),
    ];
    const BESIDE_PUTS: &[(u64, bool)] = &[(989, true), (990, false)];
    for &(count, free, wanted) in FREE {
        let (given, _) = admitted(&rt, rt.alloc(), free, deletes(1), deletes(count));
        assert!(rt; given == wanted, "{count} {free}");
    }
    for &(count, wanted) in BESIDE_PUTS {
        let memory = InMemory {
            waiting: MemSize::empty(),
            before: deletes(1),
            after: deletes(count),
        };
        let levels = no_tables(&rt, rt.alloc());
        let extents = area_of(&rt, rt.alloc(), 1, 5_000);
        let standing = Standing {
            levels: &levels,
            extents: &extents,
            held: &Slots::Free,
            live: false,
        };
        assert!(rt; standing.admits(memory, true) == wanted, "{count}");
    }
}

#[test]
fn blocks_to_spare(rt: HostRuntime) {
    // 180 for puts in a small area, and a 24th of it.
    let levels = no_tables(&rt, rt.alloc());
    const FREE: &[(u32, bool)] = &[(186, false), (187, true)];
    for &(free, wanted) in FREE {
        let extents = area_of(&rt, rt.alloc(), 1, free);
        let standing = Standing {
            levels: &levels,
            extents: &extents,
            held: &Slots::Free,
            live: false,
        };
        assert!(rt; standing.has_spare() == wanted, "{free}");
        assert!(rt; standing.reserve().for_puts() == 180);
        assert!(rt; is_small(standing.reserve(), puts(1)));
    }
}

/// Whether memory may become so large by whatever puts and deletes, where no table stands and so many blocks are free.
fn allowed<R: Abort>(rt: &R, alloc: Global, free: u32, before: MemSize, most: MemSize) -> bool {
    let levels = no_tables(rt, alloc);
    let extents = area_of(rt, alloc, 1, free);
    let standing = Standing {
        levels: &levels,
        extents: &extents,
        held: &Slots::Free,
        live: false,
    };
    let memory = InMemory {
        waiting: MemSize::empty(),
        before,
        after: before,
    };
    standing.admits_up_to(memory, most)
}

#[test]
fn memory_may_become_so_large(rt: HostRuntime) {
    // An eighth of 500 blocks is 62, as above, of whatever came first. A 16th is 31: 372 deletes are 26 data blocks at most, with 2 blocks
    // of an index and 3 besides; one more makes it 27.
    for (most, wanted) in [
        (puts(55), true),
        (puts(56), false),
        (deletes(372), true),
        (deletes(373), false),
    ] {
        assert!(rt; allowed(&rt, rt.alloc(), 500, MemSize::empty(), most) == wanted);
    }
}

#[test]
fn what_is_allowed_is_admitted(rt: HostRuntime) {
    const FREE: &[u32] = &[260, 300, 500, 2_000];
    const COUNTS: &[u64] = &[1, 20, 40, 55, 80, 160];
    for &free in FREE {
        for &count in COUNTS {
            if !allowed(&rt, rt.alloc(), free, puts(1), puts(count)) {
                continue;
            }
            for less in 1..count {
                let (given, _) = admitted(&rt, rt.alloc(), free, puts(1), puts(less));
                assert!(rt; given, "{less} of {count} in {free}");
            }
        }
    }
}
