//! The edges of blocks, and places among them.

ghost use Rattle.std.specs.Prelude.{◌≡◌, ◌++◌, ◌<◌, ◌≤◌, ◌-◌, length, slice_index_or, map, true, false, IfOk, IfSome, OnOk};
ghost use Rattle.std.specs.List.Sorted.{IsPartitionPoint};
ghost use Rattle.lsm_codec.specs.Indexes.{Edge as EdgeValue};
ghost use Rattle.lsm_table.specs.BlockEdges.{edge_of, edges_of, last_key, is_edge_before, are_rising};
ghost use Rattle.lsm_table.specs.Places.{stands_before, place_from, blocks_before};

use lsm_codec::{Edge, Entry, Index};
use std::alloc::{AllocError, Allocator};
use std::cmp::Ordering;

/// Adds the edge of a block, which is that of its last entry.
fn push_edge<A: Allocator + Clone>(
    alloc: &A,
    block: &[Entry<A>],
    index: &mut Index<A>,
) -> Result<(), AllocError>
    requires { length index.old < 64 }
    ensures { OnOk result (index.new ≡ index.old ++ edge_of block.now) }
{
    if block.is_empty() {
        return Ok(());
    }
    let last = &block[block.len() - 1];
    index.push(Edge::new(alloc.clone()?, last.key(), last.number())?)?;
    Ok(())
}

/// The edges of the blocks, in order.
pub(crate) fn edges_of<A: Allocator + Clone>(
    alloc: &A,
    blocks: &[Vec<Entry<A>, A>],
) -> Result<Index<A>, AllocError>
    requires { length blocks.now ≤ 64 }
    ensures { IfOk result (λ index. index ≡ edges_of (map (λ b. b.items) blocks.now)) }
{
    let mut index = Index::new(alloc.clone()?);
    for block in blocks {
        push_edge(alloc, block, &mut index)?;
    }
    Ok(index)
}

/// The last key, empty where there is no edge.
pub(crate) fn last_key<A: Allocator>(edges: &[Edge<A>]) -> &[u8]
    ensures { result.now ≡ last_key edges.now }
{
    if edges.is_empty() {
        return &[];
    }
    edges[edges.len() - 1].key()
}

/// Whether the edge comes before the key's version numbered `at`.
fn stands_before<A: Allocator>(edge: &Edge<A>, key: &[u8], at: u64) -> bool
    ensures { result ≡ stands_before key.now at edge.now }
{
    match edge.key().cmp(key) {
        Ordering::Less => true,
        Ordering::Equal => edge.number() > at,
        Ordering::Greater => false,
    }
}

/// Whether the edge before a place comes before the key's version numbered `at`, if there is one.
fn is_passed<A: Allocator>(edges: &[Edge<A>], key: &[u8], at: u64, place: usize) -> bool
    requires { place ≤ length edges.now }
    ensures { result ≡ true → (d : EdgeValue) → 0 < place
        → stands_before key.now at (slice_index_or edges.now (place - 1) d) ≡ true }
{
    if place == 0 {
        return true;
    }
    stands_before(&edges[place - 1], key, at)
}

/// Whether the edge at a place doesn't, if there is one.
fn is_left<A: Allocator>(edges: &[Edge<A>], key: &[u8], at: u64, place: usize) -> bool
    ensures { result ≡ true → (d : EdgeValue) → place < length edges.now
        → stands_before key.now at (slice_index_or edges.now place d) ≡ false }
{
    if place >= edges.len() {
        return true;
    }
    !stands_before(&edges[place], key, at)
}

/// Whether the edges before a place come before the key's version numbered `at`, and the others don't.
fn is_place<A: Allocator>(edges: &[Edge<A>], key: &[u8], at: u64, place: usize) -> bool
    requires { are_rising edges.now ≡ true }
    ensures { result ≡ true
        → IsPartitionPoint (λ e. stands_before key.now at e ≡ true)
        (λ e. stands_before key.now at e ≡ false) edges.now place }
{
    if place > edges.len() {
        return false;
    }
    if !is_passed(edges, key, at, place) {
        return false;
    }
    is_left(edges, key, at, place)
}

/// How many edges come before the key's version numbered `at`, which is looked for at a guess first.
fn edges_before<A: Allocator>(edges: &[Edge<A>], key: &[u8], at: u64, guess: usize) -> usize
    requires { are_rising edges.now ≡ true }
    ensures { IsPartitionPoint (λ e. stands_before key.now at e ≡ true)
        (λ e. stands_before key.now at e ≡ false) edges.now result }
{
    if is_place(edges, key, at, guess) {
        return guess;
    }
    edges.partition_point(|edge: &Edge<A>| stands_before(edge, key, at))
}

/// The first block whose edge doesn't come before the key's version numbered `at`, which is looked for at a guess first.
pub(crate) fn place_in<A: Allocator>(
    edges: &[Edge<A>],
    key: &[u8],
    at: u64,
    guess: usize,
) -> Option<usize>
    requires { are_rising edges.now ≡ true }
    ensures place { result ≡ place_from 0 key.now at edges.now }
    ensures inside { IfSome result (λ block. block < length edges.now) }
{
    let block = edges_before(edges, key, at, guess);
    if block < edges.len() {
        Some(block)
    } else {
        None
    }
}

/// How many blocks end before a key.
pub(crate) fn blocks_before<A: Allocator>(edges: &[Edge<A>], key: &[u8]) -> usize
    requires { are_rising edges.now ≡ true }
    ensures { result ≡ blocks_before key.now edges.now }
{
    edges.partition_point(|edge: &Edge<A>| edge.key().cmp(key).is_lt())
}

fn is_edge_before<A: Allocator>(edge: &Edge<A>, next: &Edge<A>) -> bool
    ensures { result ≡ is_edge_before edge.now next.now }
{
    stands_before(edge, next.key(), next.number())
}

/// Whether each edge comes before the next.
pub(crate) fn are_rising<A: Allocator>(edges: &[Edge<A>]) -> bool
    ensures { result ≡ are_rising edges.now }
{
    for i in 1..edges.len() {
        if !is_edge_before(&edges[i - 1], &edges[i]) {
            return false;
        }
    }
    true
}
