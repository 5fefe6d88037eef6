// Which subsets of pending writes are kept by the crashes that are tried.
ghost use Rattle.std.specs.Prelude.{◌≡◌, ◌++◌, ◌∷◌, [], true, false, map, replicate, IfOk, OnOk};
ghost use Rattle.lsm_explore.specs.Masks.{each_mask, three_masks, masks_for, every_second, is_skipped};

use std::alloc::{AllocError, Allocator};

/// The most pending writes of which each subset is tried.
const MOST_WRITES: usize = 12;

/// The masks that are tried where `pending` writes pend.
pub(crate) fn masks_for<A: Allocator + Clone>(
    alloc: &A,
    pending: usize,
) -> Result<Vec<Vec<bool, A>, A>, AllocError>
    ensures { IfOk result (λ masks. map (λ mask. mask.items) masks.items ≡ masks_for pending) }
{
    if is_skipped(pending) {
        three_masks(alloc, pending)
    } else {
        each_mask(alloc, pending)
    }
}

/// Whether more writes pend than those of which each subset is tried.
pub(crate) fn is_skipped(pending: usize) -> bool
    ensures { result ≡ is_skipped pending }
{
    pending > MOST_WRITES
}

// Each subset of `pending` writes.
fn each_mask<A: Allocator + Clone>(
    alloc: &A,
    pending: usize,
) -> Result<Vec<Vec<bool, A>, A>, AllocError>
    ensures { IfOk result (λ masks. map (λ mask. mask.items) masks.items ≡ each_mask pending) }
{
    let mut masks = Vec::new(alloc.clone()?);
    masks.push(Vec::new(alloc.clone()?))?;
    for _ in 0..pending {
        masks = longer(alloc, &masks)?;
    }
    Ok(masks)
}

// Each of these masks with a write more that is dropped, and then each with one that is kept.
fn longer<A: Allocator + Clone>(
    alloc: &A,
    masks: &[Vec<bool, A>],
) -> Result<Vec<Vec<bool, A>, A>, AllocError>
    ensures { IfOk result (λ more. map (λ mask. mask.items) more.items
        ≡ map (λ mask. mask ++ false ∷ []) (map (λ mask. mask.items) masks.now)
        ++ map (λ mask. mask ++ true ∷ []) (map (λ mask. mask.items) masks.now)) }
{
    let mut more = Vec::new(alloc.clone()?);
    add_longer(alloc, &mut more, masks, false)?;
    add_longer(alloc, &mut more, masks, true)?;
    Ok(more)
}

// Adds each of these masks with a place more.
fn add_longer<A: Allocator + Clone>(
    alloc: &A,
    more: &mut Vec<Vec<bool, A>, A>,
    masks: &[Vec<bool, A>],
    last: bool,
) -> Result<(), AllocError>
    ensures { OnOk result (map (λ mask. mask.items) more.new.items
        ≡ map (λ mask. mask.items) more.old.items
        ++ map (λ mask. mask ++ last ∷ []) (map (λ mask. mask.items) masks.now)) }
{
    for mask in masks {
        let mut copy = Vec::from_slice(alloc.clone()?, mask)?;
        copy.push(last)?;
        more.push(copy)?;
    }
    Ok(())
}

// No write, all, and every second one from the first on.
fn three_masks<A: Allocator + Clone>(
    alloc: &A,
    pending: usize,
) -> Result<Vec<Vec<bool, A>, A>, AllocError>
    ensures { IfOk result (λ masks. map (λ mask. mask.items) masks.items ≡ three_masks pending) }
{
    let mut masks = Vec::new(alloc.clone()?);
    masks.push(Vec::new(alloc.clone()?))?;
    masks.push(all_kept(alloc.clone()?, pending)?)?;
    masks.push(every_second(alloc.clone()?, pending)?)?;
    Ok(masks)
}

// `pending` writes, all kept.
fn all_kept<A: Allocator>(alloc: A, pending: usize) -> Result<Vec<bool, A>, AllocError>
    ensures { IfOk result (λ mask. mask.items ≡ replicate pending true) }
{
    let mut mask = Vec::new(alloc);
    for _ in 0..pending {
        mask.push(true)?;
    }
    Ok(mask)
}

// `pending` writes, of which every second one from the first on is kept.
fn every_second<A: Allocator>(alloc: A, pending: usize) -> Result<Vec<bool, A>, AllocError>
    ensures { IfOk result (λ mask. mask.items ≡ every_second true pending) }
{
    let mut mask = Vec::new(alloc);
    let mut keep = true;
    for _ in 0..pending {
        mask.push(keep)?;
        keep = !keep;
    }
    Ok(mask)
}
