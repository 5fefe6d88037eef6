//! Where a merge is cut into parts.

ghost use Rattle.std.specs.Prelude.{◌≡◌, ◌≤◌, ◌<◌, ◌+◌, length, IfOk, OnOk, IfErr, ◌-◌, ◌*◌, ◌/◌, ◌⊎◌, Err, reverse};
ghost use Rattle.lsm_codec.specs.Keys.{IsKey};
ghost use Rattle.lsm_merge.specs.Inputs.{AreRuns, items_of};
ghost use Rattle.lsm_codec.specs.Versions.{AreOrdered};
ghost use Rattle.lsm_merge.specs.Parts.{longest, is_above_first, with_border, first_borders, borders_of, Ascending};
ghost use Rattle.lsm_device.specs.declared.refusal.Refusal.TheVariants.{BadLimit, NoMemory};

use crate::input::Input;
use lsm_codec::{Entry, Key};
use lsm_device::Refusal;
use std::alloc::{AllocError, Allocator};
use std::cmp::Ordering;

/// The entries of the longest run, of equally long ones the first.
fn longest<A: Allocator>(runs: &[Vec<Entry<A>, A>]) -> &[Entry<A>]
    requires { AreRuns (items_of runs.now) }
    ensures value { result.now ≡ longest (items_of runs.now) }
    ensures ordered { AreOrdered result.now }
{
    let Some((run, others)) = runs.split_first() else {
        return &[];
    };
    let best = longest(others);
    if run.len() < best.len() { best } else { run }
}

/// Whether the key is above the last of these.
fn is_above_last<A: Allocator>(key: &[u8], keys: &[Key<A>]) -> bool
    ensures { result ≡ is_above_first key.now (reverse keys.now) }
{
    match keys.last() {
        Some(last) => last.as_slice().cmp(key) == Ordering::Less,
        None => true,
    }
}

/// The place where part `i` of `parts` begins in a list of `len` entries: i * len / parts, rounded down.
fn place(i: usize, len: usize, parts: usize) -> usize
    requires parts { 0 < parts }
    requires within { i < parts }
    requires small { parts ≤ 8 }
    requires some { 0 < len }
    ensures value { result ≡ i * len / parts }
    ensures inside { result < len }
{
    i * (len / parts) + i * (len % parts) / parts
}

/// Adds a border, unless it is not above the last one.
fn add_border<A: Allocator + Clone>(
    alloc: &A,
    key: &[u8],
    borders: &mut Vec<Key<A>, A>,
) -> Result<(), AllocError>
    requires { IsKey key.now }
    ensures { OnOk result (borders.new.items ≡ with_border borders.old.items key.now) }
{
    if !is_above_last(key, borders) {
        return Ok(());
    }
    borders.push(Key::from_slice(alloc.clone()?, key)?)?;
    Ok(())
}

/// The borders of a run that is not empty, cut into `parts` parts.
fn borders_of_run<A: Allocator + Clone>(
    alloc: &A,
    run: &[Entry<A>],
    parts: u8,
) -> Result<Vec<Key<A>, A>, AllocError>
    requires some { 0 < length run.now }
    requires parts { (1 ≤ parts) × (parts ≤ 8) }
    ensures { IfOk result (λ v. v.items ≡ first_borders run.now parts (parts - 1)) }
{
    let mut borders = Vec::new(alloc.clone()?);
    for i in 0..parts - 1 {
        let key = run[place(i as usize + 1, run.len(), parts as usize)].key();
        add_border(alloc, key, &mut borders)?;
    }
    Ok(borders)
}

/// Where to cut an input into `parts` parts, as keys.
pub(crate) fn border_keys<A: Allocator + Clone>(
    alloc: &A,
    input: &Input<A>,
    parts: u8,
) -> Result<Vec<Key<A>, A>, Refusal>
    ensures limit { (parts < 1) ⊎ (8 < parts) → result ≡ Err BadLimit }
    ensures memory { 1 ≤ parts → parts ≤ 8 → IfErr result (λ refusal. refusal ≡ NoMemory) }
    ensures value { IfOk result (λ v. v.items ≡ borders_of input.now parts) }
    ensures ascending { IfOk result (λ v. Ascending v.items) }
    ensures few { IfOk result (λ v. length v.items < 8) }
{
    if parts < 1 || parts > 8 {
        return Err(Refusal::BadLimit);
    }
    let run = longest(input.runs());
    if run.is_empty() {
        return Ok(Vec::new(alloc.clone()?));
    }
    Ok(borders_of_run(alloc, run, parts)?)
}

/// The bytes of keys.
fn bytes_of<A: Allocator + Clone>(
    alloc: &A,
    keys: &[Key<A>],
) -> Result<Vec<Vec<u8, A>, A>, AllocError>
    ensures { IfOk result (λ v. items_of v.items ≡ keys.now) }
{
    let mut all = Vec::new(alloc.clone()?);
    for key in keys {
        all.push(Vec::from_slice(alloc.clone()?, key.as_slice())?)?;
    }
    Ok(all)
}

/// Where to cut an input into 1 to 8 parts: the keys, ascending, with which all parts but the first begin. With n entries
/// in the longest run they are the keys of its entries at i * n / parts, equal ones once; with no entry there are none. Fails
/// with BadLimit for another number of parts, and with NoMemory where memory runs out.
pub fn borders<A: Allocator + Clone>(
    alloc: &A,
    input: &Input<A>,
    parts: u8,
) -> Result<Vec<Vec<u8, A>, A>, Refusal>
    ensures limit { (parts < 1) ⊎ (8 < parts) → result ≡ Err BadLimit }
    ensures memory { 1 ≤ parts → parts ≤ 8 → IfErr result (λ refusal. refusal ≡ NoMemory) }
    ensures value { IfOk result (λ v. items_of v.items ≡ borders_of input.now parts) }
{
    let keys = border_keys(alloc, input, parts)?;
    Ok(bytes_of(alloc, &keys)?)
}
