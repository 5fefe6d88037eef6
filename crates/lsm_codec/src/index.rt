//! The index of a table.

ghost use Rattle.std.specs.Prelude.{◌≡◌, ◌<◌, ◌≤◌, ◌*◌, ◌++◌, ◌∷◌, [], IfOk, OnOk, OnErr, length};
ghost use Rattle.lsm_codec.specs.Spelling.{IsDecoded};
ghost use Rattle.lsm_codec.specs.Answers.{UnlessNoMemory};
ghost use Rattle.lsm_codec.specs.Indexes.{IsEdge, IsIndex, index_length, index_blocks, index_of};

use crate::head::{common_prefix, head_of};
use crate::key::Key;
use crate::records::{read_all, write_all};
use crate::superblock::FormatVersion;
use crate::whole_units::{is_padding, put_padding};
use lsm_device::Refusal;
use std::alloc::{AllocError, Allocator, Global};
use std::marker::Model;

/// The last key of a data block, and the number of its last version.
#[derive(Drop)]
pub struct Edge<A: Allocator = Global> {
    key: Key<A>,
    number: u64,
    // What an index guesses by.
    head: u64,
}

impl<A: Allocator> Model for Edge<A> {
    ghost use Rattle.lsm_codec.specs.Indexes.{Edge as EdgeValue, IsEdge};

    ghost Value = { EdgeValue };

    ghost view = { λ e. record { key = e.key; number = e.number } };

    ghost invariant = { λ e. IsEdge (record { key = e.key; number = e.number }) };
}

impl<A: Allocator> Edge<A> {
    /// The edge of a block that ends with this key and number.
    pub fn new(alloc: A, key: &[u8], number: u64) -> Result<Edge<A>, AllocError>
        requires { IsEdge (record { key = key.now; number = number }) }
        ensures { IfOk result (λ e. e ≡ record { key = key.now; number = number }) }
    {
        Ok(Edge {
            key: Key::from_slice(alloc, key)?,
            number,
            head: 0,
        })
    }

    /// The last key of the block.
    pub fn key(&self) -> &[u8]
        ensures same { result.now ≡ self.now.key }
        ensures fits { IsEdge self.now }
    {
        self.key.as_slice()
    }

    // Notes the number of its key behind so many bytes.
    fn note_head(&mut self, past: usize)
        ensures { self.new ≡ self.old }
    {
        self.head = head_of(self.key.as_slice(), past);
    }

    /// The number of the last version of the block.
    pub fn number(&self) -> u64
        ensures { result ≡ self.now.number }
    {
        self.number
    }
}

/// The edges of a table's data blocks, in the order of the blocks. Contracts see the list of edges.
#[derive(Drop)]
pub struct Index<A: Allocator = Global> {
    edges: Vec<Edge<A>, A>,
    text_len: usize,
    // How many bytes all keys begin with alike.
    past: usize,
}

impl<A: Allocator> Model for Index<A> {
    ghost use Rattle.std.specs.Prelude.{◌≡◌, ◌≤◌, ◌*◌, List, length};
    ghost use Rattle.lsm_codec.specs.Indexes.{Edge, index_length};

    ghost Value = { List Edge };

    ghost view = { λ i. i.edges.items };

    ghost invariant = { λ i. (i.text_len ≡ index_length i.edges.items) × (i.text_len ≤ 264 * length i.edges.items) };
}

impl<A: Allocator> Index<A> {
    /// The index of no block.
    pub fn new(alloc: A) -> Index<A>
        ensures { result ≡ [] }
    {
        Index {
            edges: Vec::new(alloc),
            text_len: 0,
            past: 0,
        }
    }

    /// Adds the edge of the next block. Where memory is refused, the index is as it was.
    pub fn push(&mut self, edge: Edge<A>) -> Result<(), AllocError>
        requires { length self.old < 64 }
        ensures added { OnOk result (self.new ≡ self.old ++ edge ∷ []) }
        ensures same { OnErr result (self.new ≡ self.old) }
    {
        let size = 9 + edge.key().len();
        self.edges.push(edge)?;
        self.text_len += size;
        Ok(())
    }

    /// The edges, in the order of the blocks.
    pub fn edges(&self) -> &[Edge<A>]
        ensures { result.now ≡ self.now }
    {
        &self.edges
    }

    /// How many of the edges come before a key, as far as eight bytes of each tell. It is a guess: no clause says that it is right.
    pub fn guess(&self, key: &[u8]) -> usize {
        let head = head_of(key, self.past);
        self.edges
            .partition_point(|edge: &Edge<A>| edge.head < head)
    }

    /// The bytes of the index's text, 10 to 264 for each block.
    pub fn text_len(&self) -> usize
        ensures { result ≡ index_length self.now }
    {
        self.text_len
    }
}

/// Notes in each edge what an index guesses by, and tells how many bytes all keys begin with alike.
fn note_heads<A: Allocator>(edges: &mut Vec<Edge<A>, A>) -> usize
    ensures { edges.new.items ≡ edges.old.items }
{
    let past = match (edges.first(), edges.last()) {
        (Some(first), Some(last)) => common_prefix(first.key(), last.key()),
        _ => 0,
    };
    for i in 0..edges.len() {
        edges[i].note_head(past);
    }
    past
}

impl<A: Allocator + Clone> Index<A> {
    /// The bytes of the blocks that spell the index, 4,096 for each.
    #[tactic(auto, unfolding(crate::specs::Indexes::index_blocks))]
    pub fn encode(&self, alloc: A) -> Result<Vec<u8, A>, AllocError>
        ensures { IfOk result (λ blocks. blocks.items ≡ index_blocks self.now) }
    {
        let mut blocks = Vec::new(alloc);
        write_all(&self.edges, &mut blocks)?;
        put_padding(&mut blocks, 4_096)?;
        Ok(blocks)
    }

    /// The index of `count` data blocks that the bytes of blocks spell, if they spell one. Want of memory is `NoMemory`.
    pub fn decode(alloc: A, count: usize, blocks: &[u8]) -> Result<Option<Index<A>>, Refusal>
        ensures answer { UnlessNoMemory result (λ index. index ≡ index_of count blocks.now) }
        ensures exact { IsDecoded (IsIndex count) index_blocks blocks.now
            (index_of count blocks.now) }
    {
        // An edge's text is the same in both versions.
        match read_all::<A, Edge<A>>(&alloc, FormatVersion::Two, count, blocks)? {
            Some((edges, rest)) => {
                let text_len = blocks.len() - rest.len();
                if is_padding(rest, text_len, 4_096) {
                    let mut edges = edges;
                    let past = note_heads(&mut edges);
                    Ok(Some(Index {
                        edges,
                        text_len,
                        past,
                    }))
                } else {
                    Ok(None)
                }
            }
            None => Ok(None),
        }
    }
}
