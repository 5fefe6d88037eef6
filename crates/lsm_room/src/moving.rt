//! Tables that are moved so that free blocks become adjacent.

ghost use Rattle.std.specs.Prelude.{◌≡◌, false, IfOk, IfSome};
ghost use Rattle.lsm_room.specs.Taking.{goes_down};

use crate::cutting::{blocks_of_piece, length_within, push_cut};
use crate::gaps::{gaps_of, longest_below, longest_with, take_lowest};
use crate::standing::Standing;
use crate::stepping::{Step, rewrite_of};
use lsm_codec::{Edge, Key};
use lsm_extent::Extent;
use lsm_levels::{HeldJobs, PlacedTable};
use std::alloc::{AllocError, Allocator};

/// The data blocks that a table has at most, and so the pieces.
const MOST_PIECES: usize = 64;

/// A move is made only if the tables and its pieces are at most this many.
const MOST_TABLES: u64 = 1_000;

/// The move of a table of levels 1 to 4, whole or in pieces that fill the longest gaps first: the one after which the longest gap is
/// longest, where it is longer than before. Else the one of the highest table of those whose pieces all find room below it, where
/// the longest gap doesn't get shorter.
///
/// So each move makes the longest gap longer, or else moves blocks lower: the moves come to an end.
pub(crate) fn move_of<H: HeldJobs, A: Allocator + Clone>(
    standing: &Standing<'_, H, A>,
    alloc: &A,
) -> Result<Option<Step<A>>, AllocError>
    ensures { IfOk result (λ step. IfSome step (λ s. goes_down s.choice ≡ false)) }
{
    if let Some(table) = best_anywhere(standing, alloc)? {
        return Ok(Some(step_of(standing, alloc, table, u32::MAX)?));
    }
    match highest_lowered(standing, alloc)? {
        Some(table) => Ok(Some(step_of(standing, alloc, table, table.first_block())?)),
        None => Ok(None),
    }
}

/// The table after whose move the longest gap is longest, where it is longer than before. Of equal ones the smallest.
fn best_anywhere<'a, H: HeldJobs, A: Allocator + Clone>(
    standing: &Standing<'a, H, A>,
    alloc: &A,
) -> Result<Option<&'a PlacedTable<A>>, AllocError> {
    let mut longest = standing.extents.longest_gap();
    let mut found: Option<&PlacedTable<A>> = None;
    for run in standing.levels.deeper() {
        for table in run.tables() {
            if let Some(length) = longest_behind(standing, alloc, table, u32::MAX)? {
                if length > longest || (length == longest && is_smaller(table, found)) {
                    longest = length;
                    found = Some(table);
                }
            }
        }
    }
    Ok(found)
}

// Whether a table is smaller than the one that was found, if one was.
fn is_smaller<A: Allocator>(table: &PlacedTable<A>, found: Option<&PlacedTable<A>>) -> bool {
    match found {
        Some(other) => table.blocks() < other.blocks(),
        None => false,
    }
}

/// The highest table of those that may be moved below their place, where the longest gap doesn't get shorter.
fn highest_lowered<'a, H: HeldJobs, A: Allocator + Clone>(
    standing: &Standing<'a, H, A>,
    alloc: &A,
) -> Result<Option<&'a PlacedTable<A>>, AllocError> {
    let longest = standing.extents.longest_gap();
    let mut found: Option<&PlacedTable<A>> = None;
    for run in standing.levels.deeper() {
        for table in run.tables() {
            if lies_higher(table, found) {
                match longest_behind(standing, alloc, table, table.first_block())? {
                    Some(length) if length >= longest => found = Some(table),
                    _ => {}
                }
            }
        }
    }
    Ok(found)
}

// Whether a table is higher than the one that was found, if one was.
fn lies_higher<A: Allocator>(table: &PlacedTable<A>, found: Option<&PlacedTable<A>>) -> bool {
    match found {
        Some(other) => table.first_block() > other.first_block(),
        None => true,
    }
}

// The longest gap after the move of a table into gaps that begin below a block; `None` where its pieces don't find room there.
fn longest_behind<H: HeldJobs, A: Allocator + Clone>(
    standing: &Standing<'_, H, A>,
    alloc: &A,
    table: &PlacedTable<A>,
    below: u32,
) -> Result<Option<u32>, AllocError> {
    let mut gaps = gaps_of(alloc, standing.extents)?;
    let mut tables = standing.tables();
    let mut left = table.table().edges();
    for _ in 0..MOST_PIECES {
        if left.is_empty() {
            break;
        }
        tables = tables.saturating_add(1);
        match next_piece(left, &mut gaps, below) {
            Some(length) => left = &left[length.min(left.len())..],
            None => return Ok(None),
        }
    }
    if !left.is_empty() || tables > MOST_TABLES {
        return Ok(None);
    }
    Ok(Some(longest_with(&gaps, table.first_block(), table.blocks())))
}

// How many of the first data blocks with these edges go into the longest of the gaps that begin below a block; their image takes the lowest
// gap that has room for it.
fn next_piece<A: Allocator>(edges: &[Edge<A>], gaps: &mut [Extent], below: u32) -> Option<usize> {
    let length = length_within(edges, u64::from(longest_below(gaps, below)));
    if length == 0 {
        return None;
    }
    let piece = &edges[..length.min(edges.len())];
    let _first = take_for(gaps, piece)?;
    Some(length)
}

// The move of a table into gaps that begin below a block.
fn step_of<H: HeldJobs, A: Allocator + Clone>(
    standing: &Standing<'_, H, A>,
    alloc: &A,
    table: &PlacedTable<A>,
    below: u32,
) -> Result<Step<A>, AllocError>
    ensures { IfOk result (λ step. goes_down step.choice ≡ false) }
{
    let mut gaps = gaps_of(alloc, standing.extents)?;
    let mut divisions: Vec<Key<A>, A> = Vec::new(alloc.clone()?);
    let mut left = table.table().edges();
    for _ in 0..MOST_PIECES {
        let length = match next_piece(left, &mut gaps, below) {
            Some(length) => length.min(left.len()),
            None => break,
        };
        if length < left.len() {
            push_cut(alloc, &mut divisions, &left[..length])?;
        }
        left = &left[length..];
    }
    Ok(Step {
        choice: rewrite_of(table),
        divisions,
    })
}

// Takes the lowest run for a piece with these edges, and returns its first block.
fn take_for<A: Allocator>(gaps: &mut [Extent], piece: &[Edge<A>]) -> Option<u32> {
    match u32::try_from(blocks_of_piece(piece)) {
        Ok(blocks) => take_lowest(gaps, blocks),
        Err(_) => None,
    }
}
