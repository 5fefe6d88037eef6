//! How the images of a result are placed.

ghost use Rattle.std.specs.Prelude.{◌≡◌, ◌<◌, ◌≤◌, ◌+◌, ◌^◌, ◌⊎◌, ◌++◌, ◌∷◌, [], List, length, IfOk, IfErr, OnOk, OnErr, Err};
ghost use Rattle.lsm_device.specs.declared.refusal.Refusal.TheVariants.{NoMemory, NoSpace};
ghost use Rattle.lsm_extent.specs.Area.{HasNoFit, handed_out, given_back};
ghost use Rattle.lsm_table.specs.Division.{IsTable};
ghost use Rattle.lsm_table.specs.Extents.{extent_size};
ghost use Rattle.lsm_levels.specs.Tables.{Table};
ghost use Rattle.lsm_jobs.specs.Placing.{extent_of, all_handed_out, all_given_back, AreHandedOut, IsPlaced, ArePlaced, FindNoRoom};

use crate::ending::give_back;
use lsm_device::Refusal;
use lsm_extent::Extents;
use lsm_levels::PlacedTable;
use lsm_table::Image;
use std::alloc::Allocator;

/// How many blocks the extent of an image takes.
fn extent_blocks<A: Allocator>(image: &Image<A>) -> u32
    ensures value { result ≡ extent_size image.now }
    ensures some { 0 < result }
    ensures table { IsTable image.now }
{
    let _data = image.data_blocks();
    let _index = image.index_blocks();
    image.extent_blocks() as u32
}

/// Places an image under a number, in the lowest free run of its blocks.
fn place<A: Allocator + Clone>(
    alloc: &A,
    image: &Image<A>,
    number: u64,
    extents: &mut Extents<A>,
) -> Result<PlacedTable<A>, Refusal>
    requires { number ≤ 2 ^ 63 }
    ensures placed { IfOk result (λ t. IsPlaced number extents.old image.now t) }
    ensures taken { IfOk result (λ t. extents.new ≡ handed_out (extent_of t) extents.old) }
    ensures undone { IfOk result (λ t. given_back (extent_of t) extents.new ≡ extents.old) }
    ensures held { IfOk result
        (λ t. (others : List Table) → AreHandedOut others extents.old
        → AreHandedOut (others ++ t ∷ []) extents.new) }
    ensures no_space { result ≡ Err NoSpace → HasNoFit extents.old (extent_size image.now) }
    ensures refusals { IfErr result (λ refusal. (refusal ≡ NoSpace) ⊎ (refusal ≡ NoMemory)) }
    ensures unchanged { OnErr result (extents.new ≡ extents.old) }
{
    let blocks = extent_blocks(image);
    let own = alloc.clone()?;
    extents.partition();
    let extent = extents.take(blocks)?;
    match PlacedTable::of_image(own, image, number, extent.first) {
        Ok(table) => Ok(table),
        Err(refusal) => {
            extents.give(extent);
            Err(refusal)
        }
    }
}

/// Places images one after the other, under the numbers from one on. Where one is refused, those before it are placed.
fn place_each<A: Allocator + Clone>(
    alloc: &A,
    images: &[Image<A>],
    number: u64,
    extents: &mut Extents<A>,
    tables: &mut Vec<PlacedTable<A>, A>,
) -> Result<(), Refusal>
    requires none { tables.old.items ≡ [] }
    requires numbers { number + length images.now ≤ 2 ^ 63 + 1 }
    ensures held { AreHandedOut tables.new.items extents.new }
    ensures undone { all_given_back tables.new.items extents.new ≡ extents.old }
    ensures placed { OnOk result (ArePlaced number extents.old images.now tables.new.items) }
    ensures taken { OnOk result (extents.new ≡ all_handed_out tables.new.items extents.old) }
    ensures no_space { result ≡ Err NoSpace → FindNoRoom extents.old images.now }
    ensures refusals { IfErr result (λ refusal. (refusal ≡ NoSpace) ⊎ (refusal ≡ NoMemory)) }
{
    for (i, image) in images.iter().enumerate() {
        tables.reserve(1)?;
        let table = place(alloc, image, number + i as u64, extents)?;
        tables.push_reserved(table);
    }
    Ok(())
}

/// Places images one after the other, under the numbers from one on, all or none.
pub(crate) fn place_all<A: Allocator + Clone>(
    alloc: &A,
    images: &[Image<A>],
    number: u64,
    extents: &mut Extents<A>,
) -> Result<Vec<PlacedTable<A>, A>, Refusal>
    requires numbers { number + length images.now ≤ 2 ^ 63 + 1 }
    ensures placed { IfOk result (λ tables. ArePlaced number extents.old images.now tables.items) }
    ensures taken { IfOk result (λ tables. extents.new ≡ all_handed_out tables.items extents.old) }
    ensures held { IfOk result (λ tables. AreHandedOut tables.items extents.new) }
    ensures no_space { result ≡ Err NoSpace → FindNoRoom extents.old images.now }
    ensures refusals { IfErr result (λ refusal. (refusal ≡ NoSpace) ⊎ (refusal ≡ NoMemory)) }
    ensures unchanged { OnErr result (extents.new ≡ extents.old) }
{
    let mut tables = Vec::new(alloc.clone()?);
    match place_each(alloc, images, number, extents, &mut tables) {
        Ok(()) => Ok(tables),
        Err(refusal) => {
            give_back(&tables, extents);
            Err(refusal)
        }
    }
}
