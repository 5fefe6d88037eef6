//! Neighbours that go down and are sure to find room.

use crate::bounds::{Sizes, merged};
use crate::standing::{MOST_BLOCKS, Standing};
use lsm_levels::{Choice, HeldJobs, PlacedTable};
use std::alloc::Allocator;

/// Neighbours, and the tables of the next level that they meet.
#[derive(Clone, Copy)]
struct Group {
    first: u64,
    last: u64,
    count: u64,
    own: u64,
    below: u64,
    upper: Sizes,
    lower: Sizes,
}

impl Group {
    fn from<A: Allocator>(table: &PlacedTable<A>) -> Group {
        Group {
            first: table.number(),
            last: table.number(),
            count: 0,
            own: 0,
            below: 0,
            upper: Sizes::none(),
            lower: Sizes::none(),
        }
    }

    /// These with a neighbour.
    fn with<A: Allocator>(self, table: &PlacedTable<A>) -> Group {
        Group {
            last: table.number(),
            count: self.count.saturating_add(1),
            own: self.own.saturating_add(u64::from(table.blocks())),
            upper: self.upper.with(table),
            ..self
        }
    }

    /// These with a table of the next level.
    fn onto<A: Allocator>(self, table: &PlacedTable<A>) -> Group {
        Group {
            count: self.count.saturating_add(1),
            below: self.below.saturating_add(u64::from(table.blocks())),
            lower: self.lower.with(table),
            ..self
        }
    }

    /// Whether they take fewer blocks of the next level, a block of their own, than others; or as many, and are wider.
    fn is_cheaper(self, other: Group) -> bool {
        let mine = self.below.saturating_mul(other.own);
        let others = other.below.saturating_mul(self.own);
        mine < others || (mine == others && self.own > other.own)
    }
}

/// The cheaper of two.
fn cheaper(found: Option<Group>, next: Group) -> Option<Group> {
    match found {
        Some(other) if !next.is_cheaper(other) => Some(other),
        _ => Some(next),
    }
}

/// How many of the tables begin at a key or before it.
fn begun_by<A: Allocator>(tables: &[PlacedTable<A>], key: &[u8]) -> usize {
    for (i, table) in tables.iter().enumerate() {
        if table.first().cmp(key).is_gt() {
            return i;
        }
    }
    tables.len()
}

/// How many of the tables end before a key.
fn ended_before<A: Allocator>(tables: &[PlacedTable<A>], key: &[u8]) -> usize {
    for (i, table) in tables.iter().enumerate() {
        if table.last().cmp(key).is_ge() {
            return i;
        }
    }
    tables.len()
}

/// The tables that meet one.
pub(crate) fn met<'a, A: Allocator>(
    below: &'a [PlacedTable<A>],
    table: &PlacedTable<A>,
) -> &'a [PlacedTable<A>] {
    let from = ended_before(below, table.first());
    let rest = &below[from.min(below.len())..];
    let count = begun_by(rest, table.last());
    &rest[..count.min(rest.len())]
}

/// The cheapest of the neighbours that begin with the first of these tables. Of the next level it takes those that don't end before
/// that one.
fn cheapest_from<H: HeldJobs, A: Allocator>(
    standing: &Standing<'_, H, A>,
    tables: &[PlacedTable<A>],
    below: &[PlacedTable<A>],
    drops: bool,
) -> Option<Group> {
    let [start, ..] = tables else {
        return None;
    };
    let mut found = None;
    let mut next = Group::from(start);
    let mut left = below;
    for (i, table) in tables.iter().enumerate() {
        next = next.with(table);
        let (begun, rest) = left.split_at(begun_by(left, table.last()).min(left.len()));
        for lower in begun {
            next = next.onto(lower);
        }
        left = rest;
        if i > 0 && next.own.saturating_add(next.below) > MOST_BLOCKS {
            return found;
        }
        if !standing.places(
            merged(next.upper, next.lower, drops, standing.live),
            next.count,
        ) {
            return found;
        }
        found = cheaper(found, next);
    }
    found
}

/// Of the neighbours of a level that are sure to find room with those of the next level that they meet: those that take the fewest blocks
/// of that level, a block of their own.
pub(crate) fn cheapest<H: HeldJobs, A: Allocator>(
    standing: &Standing<'_, H, A>,
    tables: &[PlacedTable<A>],
    below: &[PlacedTable<A>],
    drops: bool,
) -> Option<Choice> {
    let mut found: Option<Group> = None;
    let mut rest = below;
    for (i, table) in tables.iter().enumerate() {
        let ended = ended_before(rest, table.first()).min(rest.len());
        let (_, left) = rest.split_at(ended);
        rest = left;
        if let Some(next) = cheapest_from(standing, &tables[i..], rest, drops) {
            found = cheaper(found, next);
        }
    }
    match found {
        Some(Group { first, last, .. }) => Some(Choice::Tables { first, last }),
        None => None,
    }
}
