//! The text of an edge.

ghost use Rattle.std.specs.Prelude.{◌≡◌, IfSome};
ghost use Rattle.lsm_codec.specs.Reading.{Lends};
ghost use Rattle.lsm_codec.specs.Indexes.{IsEdge, edge_text, edge_at};

use crate::filled::Filled;
use crate::index::Edge;
use crate::lending::{batch_number_at, key_at};
use crate::records::Record;
use crate::superblock::FormatVersion;
use std::alloc::{AllocError, Allocator};

#[tactic(auto, unfolding(crate::specs::Indexes::edge_at))]
fn edge_at(bytes: &[u8]) -> Option<((&[u8], u64), &[u8])>
    ensures read { Lends (λ x. (record { key = x.0.0.now; number = x.0.1 }, x.1.now)) result
        (edge_at bytes.now) }
    ensures fits { IfSome result (λ x. IsEdge (record { key = x.0.0.now; number = x.0.1 })) }
{
    let (key, rest) = key_at(bytes)?;
    let (number, rest) = batch_number_at(rest)?;
    Some(((key, number), rest))
}

impl<A: Allocator + Clone> Record<A> for Edge<A> {
    ghost reading = { λ version. edge_at };

    ghost spelling = { edge_text };

    fn read<'b>(
        alloc: &A,
        _version: FormatVersion,
        bytes: &'b [u8],
    ) -> Result<Option<(Edge<A>, &'b [u8])>, AllocError> {
        match edge_at(bytes) {
            Some(((key, number), rest)) => {
                Ok(Some((Edge::new(alloc.clone()?, key, number)?, rest)))
            }
            None => Ok(None),
        }
    }

    fn write(&self, out: &mut Vec<u8, A>) -> Result<(), AllocError> {
        let mut text = Filled::<264>::new();
        text.put_key(self.key());
        text.put_u64(self.number());
        out.extend_from_slice(text.text())?;
        Ok(())
    }
}
