//! Neighbours that are joined.

ghost use Rattle.std.specs.Prelude.{◌≡◌, false, IfSome};
ghost use Rattle.lsm_room.specs.Taking.{goes_down};

use crate::bounds::{Outputs, blocks_with, data_of};
use crate::standing::Standing;
use lsm_levels::{Choice, HeldJobs, PlacedTable, Run};
use std::alloc::Allocator;

/// The data blocks that a table has at most.
const MOST_DATA: u64 = 64;

/// The entries that a table has at most.
const MOST_ENTRIES: u64 = 3_200;

/// The bytes of entries that a data block has room for.
const ROOM: u64 = 4_094;

/// Neighbours that fit one table.
#[derive(Clone, Copy)]
struct Group {
    first: u64,
    last: u64,
    count: u64,
    data: u64,
    entries: u64,
    /// The bytes of the largest entry.
    largest: u64,
}

impl Group {
    fn none(first: u64) -> Group {
        Group {
            first,
            last: first,
            count: 0,
            data: 0,
            entries: 0,
            largest: 0,
        }
    }

    fn with<A: Allocator>(self, table: &PlacedTable<A>) -> Group {
        Group {
            first: self.first,
            last: table.number(),
            count: self.count.saturating_add(1),
            data: self.data.saturating_add(data_of(table)),
            entries: self.entries.saturating_add(u64::from(table.entries())),
            largest: self.largest.max(table.largest_entry() as u64),
        }
    }

    // The data blocks of the one table: those of all, or one where all entries fit in one even if each were the largest.
    fn joined(self) -> u64 {
        if self.entries.saturating_mul(self.largest) <= ROOM {
            return 1;
        }
        self.data
    }

    // What the one table takes: an image has two blocks besides its data blocks and its index.
    fn output(self) -> Outputs {
        let blocks = blocks_with(self.joined(), 1).saturating_sub(1);
        Outputs {
            blocks,
            largest: blocks,
            tables: 1,
        }
    }
}

/// The joining of the most neighbours that fit one table and are sure to find room, of the first level that has more than twice the tables
/// that its entries need.
pub(crate) fn join_of<H: HeldJobs, A: Allocator>(standing: &Standing<'_, H, A>) -> Option<Choice>
    ensures { IfSome result (λ choice. goes_down choice ≡ false) }
{
    for run in standing.levels.deeper() {
        if has_many(run) {
            if let Some(choice) = widest(standing, run.tables()) {
                return Some(choice);
            }
        }
    }
    None
}

// Whether a level has more than twice the tables that its entries need.
fn has_many<A: Allocator>(run: &Run<A>) -> bool {
    let mut all = Group::none(0);
    for table in run.tables() {
        all = all.with(table);
    }
    let wanted = (all.data / MOST_DATA)
        .max(all.entries / MOST_ENTRIES)
        .saturating_add(1);
    all.count > wanted.saturating_mul(2).saturating_add(2)
}

fn widest<H: HeldJobs, A: Allocator>(
    standing: &Standing<'_, H, A>,
    tables: &[PlacedTable<A>],
) -> Option<Choice>
    ensures { IfSome result (λ choice. goes_down choice ≡ false) }
{
    let mut found = Group::none(0);
    for (i, table) in tables.iter().enumerate() {
        let next = group_from(standing, &tables[i..], table.number());
        if next.count > found.count {
            found = next;
        }
    }
    if found.count < 2 {
        return None;
    }
    Some(Choice::Rewrite {
        first: found.first,
        last: found.last,
    })
}

// As many of the first of these tables as fit one and are sure to find room.
fn group_from<H: HeldJobs, A: Allocator>(
    standing: &Standing<'_, H, A>,
    tables: &[PlacedTable<A>],
    first: u64,
) -> Group {
    let mut group = Group::none(first);
    for table in tables {
        let next = group.with(table);
        if next.data > MOST_DATA || next.entries > MOST_ENTRIES {
            return group;
        }
        if !standing.places(next.output(), next.count) {
            return group;
        }
        group = next;
    }
    group
}
