//! The division of entries into tables and blocks.

ghost use Rattle.std.specs.Prelude.{◌≤◌, length, map, IfOk};
ghost use Rattle.std.specs.Vec.Iter.{into_iter_items};
ghost use Rattle.lsm_table.specs.Division.{IsInput, IsTables};
ghost use Rattle.lsm_table.specs.Counting.{EndsTable, EndTables};
ghost use Rattle.lsm_table.specs.Filled.{AreNextBlocks};

use crate::counting::table_lens;
use crate::filling::Filling;
use crate::image::Image;
use lsm_codec::Entry;
use std::alloc::{AllocError, Allocator};
use std::vec::IntoIter;

/// The first `len` of the entries that are left, in blocks.
fn next_blocks<A: Allocator>(
    alloc: &A,
    left: &mut IntoIter<Entry<A>, A>,
    len: usize,
) -> Result<Vec<Vec<Entry<A>, A>, A>, AllocError>
where
    A: Clone,
    requires few { len ≤ 3200 }
    requires inside { len ≤ length (into_iter_items left.old) }
    ensures { IfOk result
        (λ made. AreNextBlocks (map (λ b. b.items) made.items) len (into_iter_items left.old)
        (into_iter_items left.new)) }
{
    let mut filling = Filling::new(alloc.clone()?)?;
    for _place in 0..len {
        let Some(entry) = left.next() else {
            break;
        };
        filling.add(alloc, entry)?;
    }
    Ok(filling.finish()?)
}

/// The table of the first `len` of the entries that are left.
fn next_image<A: Allocator>(
    alloc: A,
    left: &mut IntoIter<Entry<A>, A>,
    len: usize,
) -> Result<Image<A>, AllocError>
where
    A: Clone,
    requires input { IsInput (into_iter_items left.old) }
    requires ends { EndsTable (into_iter_items left.old) len }
    ensures { IfOk result
        (λ image. AreNextBlocks image len (into_iter_items left.old) (into_iter_items left.new)) }
{
    let blocks = next_blocks(&alloc, left, len)?;
    Ok(Image::new(alloc, blocks, len as u32)?)
}

/// The tables of the entries that are left; `lens` says how many each of them has.
fn next_images<A: Allocator>(
    alloc: &A,
    left: &mut IntoIter<Entry<A>, A>,
    lens: &[usize],
) -> Result<Vec<Image<A>, A>, AllocError>
where
    A: Clone,
    requires input { IsInput (into_iter_items left.old) }
    requires lens { EndTables (into_iter_items left.old) lens.now }
    ensures { IfOk result (λ made. IsTables (into_iter_items left.old) made.items) }
{
    let mut images = Vec::new(alloc.clone()?);
    for len in lens {
        images.push(next_image(alloc.clone()?, left, *len)?)?;
    }
    Ok(images)
}

/// The tables of the entries, which are sorted by key, and of a key the newer first, at most 33 of them. Contracts see the
/// division: joined, the tables are the entries; the blocks of each are filled in order; no key is in two tables; and a
/// table ends where with all entries of the next key it would pass 64 data blocks or 3,200 entries. Each entry is moved
/// once into its block.
pub fn images<A: Allocator>(
    alloc: A,
    entries: Vec<Entry<A>, A>,
) -> Result<Vec<Image<A>, A>, AllocError>
where
    A: Clone,
    requires { IsInput entries.items }
    ensures { IfOk result (λ made. IsTables entries.items made.items) }
{
    let lens = table_lens(alloc.clone()?, &entries)?;
    let mut left = entries.into_iter();
    Ok(next_images(&alloc, &mut left, &lens)?)
}
