//! What record, footer and index of a table have to be.

ghost use Rattle.std.specs.Prelude.{◌≡◌};
ghost use Rattle.lsm_codec.specs.Footers.{summary_of};
ghost use Rattle.lsm_table.specs.BlockEdges.{follow_first};
ghost use Rattle.lsm_table.specs.Outlines.{is_of_record, go_together};

use crate::edges::are_rising;
use crate::layout::BLOCK;
use lsm_codec::{Edge, Footer, Index, TableRecord};
use std::alloc::Allocator;

/// Whether the footer is of the record's number, and has as many data blocks and entries.
pub(crate) fn is_of_record(table: TableRecord, footer: &Footer<'_>) -> bool
    ensures { result ≡ is_of_record table (summary_of footer.now) }
{
    footer.number == table.number
        && (footer.data_blocks == table.data_blocks as u16
            && footer.entries == table.entries as u32)
}

/// Whether no edge is before the first key.
fn follow_first<A: Allocator>(first: &[u8], edges: &[Edge<A>]) -> bool
    ensures { result ≡ follow_first first.now edges.now }
{
    match edges {
        [] => true,
        [edge, ..] => !first.cmp(edge.key()).is_gt(),
    }
}

/// Whether the index is in order, as long as the footer says, and in as many blocks as the record says.
pub(crate) fn go_together<A: Allocator>(
    table: TableRecord,
    footer: &Footer<'_>,
    index: &Index<A>,
) -> bool
    ensures { result ≡ go_together table (summary_of footer.now) index.now }
{
    let len = index.text_len();
    let edges = index.edges();
    len.div_ceil(BLOCK) == table.index_blocks as usize
        && (len == footer.index_len as usize
            && (follow_first(footer.first, edges) && are_rising(edges)))
}
