//! Neighbouring tables of a level, which of them go down best.

use lsm_levels::{HeldJobs, PlacedTable};
use std::alloc::Allocator;

/// Neighbours that may go down: the first and the last, the least number of them, their blocks, and those of the next level that go
/// with them.
#[derive(Clone, Copy)]
pub(crate) struct Neighbours {
    pub first: u64,
    pub last: u64,
    oldest: u64,
    own: u64,
    below: u64,
}

impl Neighbours {
    /// Whether they take fewer blocks of the next level, a block of their own, than others; or as many, and are wider.
    fn are_cheaper(self, other: Neighbours) -> bool {
        let mine = self.below.saturating_mul(other.own);
        let others = other.below.saturating_mul(self.own);
        mine < others || (mine == others && self.own > other.own)
    }

    /// Whether they have an older table than others; or the same, and are wider.
    fn are_older(self, other: Neighbours) -> bool {
        self.oldest < other.oldest || (self.oldest == other.oldest && self.own > other.own)
    }
}

/// What a choice has to keep to.
#[derive(Clone, Copy)]
pub(crate) struct Bounds {
    /// The most blocks that several may take in.
    pub joins: bool,
    /// The blocks that several take in at most.
    pub most_blocks: u64,
    /// Whether room is scarce: then the oldest go, and else the cheapest.
    pub is_scarce: bool,
    /// The blocks that are free.
    pub room: u64,
}

impl Bounds {
    /// The most blocks that this number of runs may take in.
    pub fn room_of(self, runs: usize) -> u64 {
        if runs > 1 {
            self.room.min(self.most_blocks)
        } else {
            self.room
        }
    }

    /// Whether `count` tables that take in `blocks` blocks are within the bounds.
    fn allow(self, count: usize, blocks: u64) -> bool {
        blocks <= self.room && (count <= 1 || (self.joins && blocks <= self.most_blocks))
    }

    /// The better of some neighbours and what was found so far.
    fn better(self, found: Option<Neighbours>, next: Neighbours) -> Neighbours {
        let Some(other) = found else {
            return next;
        };
        let is_better = if self.is_scarce {
            next.are_older(other)
        } else {
            next.are_cheaper(other)
        };
        if is_better { next } else { other }
    }
}

/// The blocks of tables.
pub(crate) fn blocks_of<A: Allocator>(tables: &[PlacedTable<A>]) -> u64 {
    let mut blocks: u64 = 0;
    for table in tables {
        blocks = blocks.saturating_add(u64::from(table.blocks()));
    }
    blocks
}

/// The tables of a run that don't end before a key.
fn ending_on<'a, A: Allocator>(run: &'a [PlacedTable<A>], key: &[u8]) -> &'a [PlacedTable<A>] {
    for (i, table) in run.iter().enumerate() {
        if table.last().cmp(key).is_ge() {
            return &run[i..];
        }
    }
    &[]
}

/// The blocks of the tables of a run that begin at a key or before it, and the others; none where one of them is taken.
fn begun_by<'a, H: HeldJobs, A: Allocator>(
    run: &'a [PlacedTable<A>],
    key: &[u8],
    held: &H,
) -> Option<(u64, &'a [PlacedTable<A>])> {
    let mut blocks: u64 = 0;
    for (i, table) in run.iter().enumerate() {
        if table.first().cmp(key).is_gt() {
            return Some((blocks, &run[i..]));
        }
        if held.takes_in(table.number()) {
            return None;
        }
        blocks = blocks.saturating_add(u64::from(table.blocks()));
    }
    Some((blocks, &[]))
}

/// The best of the neighbours that begin with the first of these tables. Of the next level it takes those that don't end before
/// that one.
fn best_from<H: HeldJobs, A: Allocator>(
    tables: &[PlacedTable<A>],
    below: &[PlacedTable<A>],
    bounds: Bounds,
    held: &H,
) -> Option<Neighbours> {
    let [start, ..] = tables else {
        return None;
    };
    let mut found: Option<Neighbours> = None;
    let mut next = Neighbours {
        first: start.number(),
        last: start.number(),
        oldest: start.number(),
        own: 0,
        below: 0,
    };
    let mut left = below;
    for (i, table) in tables.iter().enumerate() {
        if held.takes_in(table.number()) {
            return found;
        }
        let Some((blocks, rest)) = begun_by(left, table.last(), held) else {
            return found;
        };
        left = rest;
        next.last = table.number();
        next.oldest = next.oldest.min(table.number());
        next.own = next.own.saturating_add(u64::from(table.blocks()));
        next.below = next.below.saturating_add(blocks);
        if !bounds.allow(i.saturating_add(1), next.own.saturating_add(next.below)) {
            return found;
        }
        found = Some(bounds.better(found, next));
    }
    found
}

/// The best neighbours of a level, over the next level.
pub(crate) fn best<H: HeldJobs, A: Allocator>(
    tables: &[PlacedTable<A>],
    below: &[PlacedTable<A>],
    bounds: Bounds,
    held: &H,
) -> Option<Neighbours> {
    let mut found: Option<Neighbours> = None;
    let mut rest = below;
    for (i, table) in tables.iter().enumerate() {
        rest = ending_on(rest, table.first());
        if let Some(next) = best_from(&tables[i..], rest, bounds, held) {
            found = Some(bounds.better(found, next));
        }
    }
    found
}
