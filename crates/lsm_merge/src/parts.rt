//! What a merge keeps of a range of keys.

ghost use Rattle.std.specs.Prelude.{◌≡◌, IfOk, IfErr};
ghost use Rattle.lsm_merge.specs.Keeping.{in_order};
ghost use Rattle.lsm_merge.specs.Loops.{shown};
ghost use Rattle.lsm_merge.specs.Inputs.{AreRuns, items_of, kept_of};
ghost use Rattle.lsm_mem.specs.Versions.{joined};
ghost use Rattle.lsm_merge.specs.Ranges.{shown_key, within};

use crate::input::{Input, within};
use crate::keeping::{keep, shared};
use crate::merging::{merge_two, referred};
use lsm_codec::Entry;
use lsm_device::Refusal;
use std::alloc::{AllocError, Allocator};

/// The entries of runs with keys in a range, in order; of those with one key and number that of the newest run.
/// Each half of the runs is merged by itself, so an entry is compared once for each doubling of the runs.
fn merge<'a, A: Allocator + Clone>(
    alloc: &A,
    runs: &'a [Vec<Entry<A>, A>],
    from: Option<&[u8]>,
    to: Option<&[u8]>,
) -> Result<Vec<&'a Entry<A>, A>, AllocError>
    requires { AreRuns (items_of runs.now) }
    ensures { IfOk result (λ v. shown v.items
        ≡ in_order (within (shown_key from.entry) (shown_key to.entry)
        (joined (items_of runs.now)))) }
{
    match runs {
        [] => Ok(Vec::new(alloc.clone()?)),
        [run] => Ok(referred(alloc.clone()?, within(run, from, to))?),
        _ => {
            let (newer, older) = runs.split_at(runs.len() / 2);
            let newer = merge(alloc, newer, from, to)?;
            let older = merge(alloc, older, from, to)?;
            Ok(merge_two(alloc.clone()?, &newer, &older)?)
        }
    }
}

/// The entries that the merge keeps of a range of keys.
pub(crate) fn kept_part<A: Allocator + Clone>(
    alloc: A,
    input: &Input<A>,
    from: Option<&[u8]>,
    to: Option<&[u8]>,
) -> Result<Vec<Entry<A>, A>, AllocError>
    ensures { IfOk result (λ v. v.items
        ≡ within (shown_key from.entry) (shown_key to.entry) (kept_of input.now)) }
{
    let entries = merge(&alloc, input.runs(), from, to)?;
    let kept = keep(&alloc, &entries, input.cuts(), input.is_bottom())?;
    Ok(shared(alloc, &kept)?)
}

/// The entries that the merge keeps of a range of keys, from a key on and below a key, in order: those that are,
/// for some cut, the newest of their key numbered at most the cut; of two with one key and number that of the newer run;
/// with nothing older below, no delete without an older kept put of its key. They share the memory of the entries of the
/// input. Fails with NoMemory alone.
pub fn part<A: Allocator + Clone>(
    alloc: A,
    input: &Input<A>,
    from: Option<&[u8]>,
    to: Option<&[u8]>,
) -> Result<Vec<Entry<A>, A>, Refusal>
    ensures value { IfOk result
        (λ v. v.items ≡ within (shown_key from.entry) (shown_key to.entry) (kept_of input.now)) }
    ensures memory { IfErr result (λ refusal. refusal ≡ Refusal.NoMemory) }
{
    Ok(kept_part(alloc, input, from, to)?)
}
