//! Tables that are rewritten in pieces.

use crate::bounds::{BLOCK, INDEX_BYTES, Outputs};
use lsm_codec::{Edge, Key};
use lsm_levels::PlacedTable;
use std::alloc::{AllocError, Allocator};

/// The bytes that the index has for a block besides its last key.
const EDGE: u64 = 9;

/// The blocks of an image of data blocks with these edges, and of an index that is longer by `more` bytes.
fn blocks_between<A: Allocator>(edges: &[Edge<A>], more: u64) -> u64 {
    let mut index = more;
    for edge in edges {
        index = index
            .saturating_add(EDGE)
            .saturating_add(edge.key().len() as u64);
    }
    (edges.len() as u64)
        .saturating_add(index.div_ceil(BLOCK))
        .saturating_add(2)
}

/// The blocks of an image of a table's data blocks with these edges.
pub(crate) fn blocks_of_piece<A: Allocator>(piece: &[Edge<A>]) -> u64 {
    blocks_between(piece, 0)
}

/// How many of the first of these data blocks fit an image of at most `most` blocks.
pub(crate) fn length_within<A: Allocator>(edges: &[Edge<A>], most: u64) -> usize {
    let mut index: u64 = 0;
    for (i, edge) in edges.iter().enumerate() {
        index = index
            .saturating_add(EDGE)
            .saturating_add(edge.key().len() as u64);
        let blocks = (i as u64)
            .saturating_add(index.div_ceil(BLOCK))
            .saturating_add(3);
        if blocks > most {
            return i;
        }
    }
    edges.len()
}

/// What the pieces of a table take, where each but the last has `length` of its data blocks.
pub(crate) fn pieces_of<A: Allocator>(table: &PlacedTable<A>, length: usize) -> Outputs {
    let mut outputs = Outputs::none();
    for piece in table.table().edges().chunks(length.max(1)) {
        let blocks = blocks_of_piece(piece);
        outputs = Outputs {
            blocks: outputs.blocks.saturating_add(blocks),
            largest: outputs.largest.max(blocks),
            tables: outputs.tables.saturating_add(1),
        };
    }
    outputs
}

/// What the two parts of a table take at most that is cut at a key.
pub(crate) fn parts_at<A: Allocator>(table: &PlacedTable<A>, key: &[u8]) -> Outputs {
    let edges = table.table().edges();
    let before = table.table().blocks_before(key).min(edges.len());
    let (whole, rest) = edges.split_at(before);
    // The block with the key counts for both.
    let front = blocks_between(whole, INDEX_BYTES).saturating_add(1);
    let back = blocks_between(rest, 0);
    Outputs {
        blocks: front.saturating_add(back),
        largest: front.max(back),
        tables: 2,
    }
}

/// The keys at which a table is cut after each `length` of its data blocks.
pub(crate) fn cuts_behind<A: Allocator + Clone>(
    alloc: &A,
    table: &PlacedTable<A>,
    length: usize,
) -> Result<Vec<Key<A>, A>, AllocError> {
    let edges = table.table().edges();
    let mut cuts = Vec::new(alloc.clone()?);
    let mut left = edges.len();
    for piece in edges.chunks(length.max(1)) {
        left = left.saturating_sub(piece.len());
        if left > 0 {
            push_cut(alloc, &mut cuts, piece)?;
        }
    }
    Ok(cuts)
}

/// Adds the cut after a piece.
pub(crate) fn push_cut<A: Allocator + Clone>(
    alloc: &A,
    cuts: &mut Vec<Key<A>, A>,
    piece: &[Edge<A>],
) -> Result<(), AllocError> {
    let Some(edge) = piece.last() else {
        return Ok(());
    };
    if let Some(key) = key_after(alloc, edge.key())? {
        cuts.push(key)?;
    }
    Ok(())
}

/// The least key above another one, if there is one.
fn key_after<A: Allocator + Clone>(alloc: &A, key: &[u8]) -> Result<Option<Key<A>>, AllocError> {
    let mut bytes = Vec::from_slice(alloc.clone()?, key)?;
    if bytes.len() < 255 {
        bytes.push(0)?;
    } else {
        raise(&mut bytes);
    }
    if bytes.is_empty() || bytes.len() > 255 {
        return Ok(None);
    }
    Ok(Some(Key::from_slice(alloc.clone()?, &bytes)?))
}

// Takes the last bytes away that can't be raised, and raises the one before.
fn raise<A: Allocator>(bytes: &mut Vec<u8, A>) {
    while let Some(last) = bytes.pop() {
        if last < 255 {
            let _ = bytes.push(last + 1);
            return;
        }
    }
}

/// The one cut at a key.
pub(crate) fn cut_at<A: Allocator + Clone>(
    alloc: &A,
    key: &[u8],
) -> Result<Vec<Key<A>, A>, AllocError> {
    let mut cuts = Vec::new(alloc.clone()?);
    if !key.is_empty() && key.len() <= 255 {
        cuts.push(Key::from_slice(alloc.clone()?, key)?)?;
    }
    Ok(cuts)
}
