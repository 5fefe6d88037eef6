//! A merge, each of its parts on a thread of its own.

ghost use Rattle.std.specs.Prelude.{ℕ, ◌≡◌, ◌<◌, ◌≤◌, ◌+◌, ◌⊎◌, [], length, IfOk, IfErr, Err, slice_index_or};
ghost use Rattle.std.specs.Arc.{arc_value};
ghost use Rattle.lsm_merge.specs.Divisions.{AreTablesAt};
ghost use Rattle.lsm_merge.specs.Inputs.{kept_of};
ghost use Rattle.lsm_merge.specs.Parts.{part_of, start_of, end_of, Ascending};
ghost use Rattle.lsm_merge.specs.Ranges.{shown_key};
ghost use Rattle.lsm_device.specs.declared.refusal.Refusal.TheVariants.{BadLimit, NoMemory};
ghost use Rattle.lsm_table.specs.Division.{IsInput, IsTables};

use crate::cutting::border_keys;
use crate::dividing::divided;
use crate::gates::{Gate, OpenGate};
use crate::input::Input;
use crate::parts::kept_part;
use lsm_codec::{Entry, Key};
use lsm_device::Refusal;
use lsm_table::Image;
use std::alloc::{AllocError, Allocator, Global};
use std::marker::Model;
use std::sync::Arc;
use std::thread;
use std::thread::Threads;

/// The result of a merge: its input, the keys at which what is kept of it is divided, and the tables of that. Input and tables
/// are shared, so that a job holds them without a copy. Contracts see all three.
#[derive(Drop)]
pub struct Built<A: Allocator = Global> {
    input: Arc<Input<A>, A>,
    divisions: Vec<Key<A>, A>,
    images: Arc<Vec<Image<A>, A>, A>,
}

impl<A: Allocator> Model for Built<A> {
    ghost use Rattle.std.specs.Arc.{arc_value};
    ghost use Rattle.lsm_merge.specs.Divisions.{AreTablesAt};
    ghost use Rattle.lsm_merge.specs.Inputs.{kept_of};
    ghost use Rattle.lsm_merge.specs.Results.{MergeResult};

    ghost Value = { MergeResult };

    ghost view = { λ b. record { input = arc_value b.input; divisions = b.divisions.items; images = (arc_value b.images).items } };

    ghost invariant = { λ b. AreTablesAt b.divisions.items (kept_of (arc_value b.input)) (arc_value b.images).items };
}

impl<A: Allocator> Built<A> {
    /// The input of the merge.
    pub fn input(&self) -> &Input<A>
        ensures { result.now ≡ self.now.input }
    {
        &self.input
    }

    /// The keys at which what is kept of the input is divided; none where it was built whole.
    pub fn divisions(&self) -> &[Key<A>]
        ensures { result.now ≡ self.now.divisions }
    {
        &self.divisions
    }

    /// The tables of what is kept of the input, divided at these keys.
    pub fn images(&self) -> &Arc<Vec<Image<A>, A>, A>
        ensures same { (arc_value result.now).items ≡ self.now.images }
        ensures kept { AreTablesAt self.now.divisions (kept_of self.now.input) self.now.images }
    {
        &self.images
    }
}

/// Where the part of this number begins: with the border before it, or with the first key.
fn start_of<A: Allocator>(borders: &[Key<A>], i: usize) -> Option<&[u8]>
    requires { i ≤ length borders.now }
    ensures { shown_key result ≡ start_of borders.now i }
{
    if i == 0 {
        return None;
    }
    Some(borders[i - 1].as_slice())
}

/// Where it ends: before the next border, or after the last key.
fn end_of<A: Allocator>(borders: &[Key<A>], i: usize) -> Option<&[u8]>
    ensures { shown_key result ≡ end_of borders.now i }
{
    match borders.get(i) {
        Some(border) => Some(border.as_slice()),
        None => None,
    }
}

/// What the merge keeps of the part of this number.
fn numbered_part<A: Allocator + Clone>(
    alloc: A,
    input: &Input<A>,
    borders: &[Key<A>],
    i: usize,
) -> Result<Vec<Entry<A>, A>, AllocError>
    requires { i ≤ length borders.now }
    ensures { IfOk result (λ v. v.items ≡ part_of borders.now (kept_of input.now) i) }
{
    kept_part(alloc, input, start_of(borders, i), end_of(borders, i))
}

/// The parts one after another.
fn joined<A: Allocator + Clone>(
    alloc: A,
    input: &Input<A>,
    borders: &[Key<A>],
    parts: Vec<Result<Vec<Entry<A>, A>, AllocError>, A>,
) -> Result<Vec<Entry<A>, A>, AllocError>
    requires ascending { Ascending borders.now }
    requires len { length parts.items ≡ length borders.now + 1 }
    requires each { (i : ℕ) (d : _) → i < length parts.items
        → IfOk (slice_index_or parts.items i d)
        (λ v. v.items ≡ part_of borders.now (kept_of input.now) i) }
    ensures { IfOk result (λ v. v.items ≡ kept_of input.now) }
{
    let mut all = Vec::new(alloc);
    for part in parts {
        all.append(&mut part?)?;
    }
    Ok(all)
}

/// What the merge keeps, each part on a thread of its own.
fn merge_parts<R: Threads + Sync, A: Allocator + Clone + Send + Sync, G: Gate>(
    rt: &R,
    alloc: &A,
    input: &Input<A>,
    parts: u8,
    gate: &G,
) -> Result<Vec<Entry<A>, A>, Refusal>
    ensures limit { (parts < 1) ⊎ (8 < parts) → result ≡ Err BadLimit }
    ensures memory { 1 ≤ parts → parts ≤ 8 → IfErr result (λ refusal. refusal ≡ NoMemory) }
    ensures value { IfOk result (λ v. v.items ≡ kept_of input.now) }
    ensures divides { IfOk result (λ v. IsInput v.items) }
{
    // A key keeps at most one entry for each cut.
    let _ = input.cuts();
    let borders = border_keys(alloc, input, parts)?;
    let cuts = borders.as_slice();
    let merge = |i: usize| -> Result<Vec<Entry<A>, A>, AllocError>
        requires { (i ≤ length cuts.now) × (length cuts.now < 8) }
        ensures { IfOk result (λ v. v.items ≡ part_of cuts.entry.now (kept_of input.entry.now) i) }
    {
        gate.enter(i as u32);
        numbered_part(alloc.clone()?, input, cuts, i)
    };
    let merged = thread::map_indices(rt, alloc.clone()?, cuts.len() + 1, &merge)?;
    Ok(joined(alloc.clone()?, input, cuts, merged)?)
}

/// What the merge keeps of all keys.
fn whole<A: Allocator + Clone>(alloc: A, input: &Input<A>) -> Result<Vec<Entry<A>, A>, AllocError>
    ensures value { IfOk result (λ v. v.items ≡ kept_of input.now) }
    ensures divides { IfOk result (λ v. IsInput v.items) }
{
    // A key keeps at most one entry for each cut.
    let _ = input.cuts();
    Ok(kept_part(alloc, input, None, None)?)
}

/// The result of a merge that keeps these entries.
fn built_of<A: Allocator + Clone>(
    alloc: A,
    input: Arc<Input<A>, A>,
    entries: Vec<Entry<A>, A>,
    divisions: Vec<Key<A>, A>,
) -> Result<Built<A>, AllocError>
    requires kept { entries.items ≡ kept_of (arc_value input) }
    requires divides { IsInput entries.items }
    ensures input { IfOk result (λ b. b.input ≡ arc_value input) }
    ensures divisions { IfOk result (λ b. b.divisions ≡ divisions.items) }
    ensures tables { IfOk result
        (λ b. AreTablesAt divisions.items (kept_of (arc_value input)) b.images) }
{
    let images = divided(&alloc, entries, &divisions)?;
    let images = Arc::new(alloc, images)?;
    Ok(Built {
        input,
        divisions,
        images,
    })
}

/// As `build`, but the thread of each part enters the gate before it merges, with the number of the part, counted from 0.
pub fn build_gated<R: Threads + Sync, A: Allocator + Clone + Send + Sync, G: Gate>(
    rt: &R,
    alloc: A,
    input: Arc<Input<A>, A>,
    parts: u8,
    gate: &G,
) -> Result<Built<A>, Refusal>
    ensures limit { (parts < 1) ⊎ (8 < parts) → result ≡ Err BadLimit }
    ensures memory { 1 ≤ parts → parts ≤ 8 → IfErr result (λ refusal. refusal ≡ NoMemory) }
    ensures input { IfOk result (λ b. b.input ≡ arc_value input) }
    ensures divisions { IfOk result (λ b. b.divisions ≡ []) }
    ensures tables { IfOk result (λ b. IsTables (kept_of (arc_value input)) b.images) }
{
    let entries = merge_parts(rt, &alloc, &input, parts, gate)?;
    let none = Vec::new(alloc.clone()?);
    Ok(built_of(alloc, input, entries, none)?)
}

/// The tables of what a merge keeps, with its input, merged in 1 to 8 parts, each on a thread of its own, or by the caller
/// where no thread can be started. The tables are the same for every number of parts, and divided at no key. Fails with
/// BadLimit for another number, and with NoMemory where memory runs out. What is kept shares the memory of the
/// input.
pub fn build<R: Threads + Sync, A: Allocator + Clone + Send + Sync>(
    rt: &R,
    alloc: A,
    input: Arc<Input<A>, A>,
    parts: u8,
) -> Result<Built<A>, Refusal>
    ensures limit { (parts < 1) ⊎ (8 < parts) → result ≡ Err BadLimit }
    ensures memory { 1 ≤ parts → parts ≤ 8 → IfErr result (λ refusal. refusal ≡ NoMemory) }
    ensures input { IfOk result (λ b. b.input ≡ arc_value input) }
    ensures divisions { IfOk result (λ b. b.divisions ≡ []) }
    ensures tables { IfOk result (λ b. IsTables (kept_of (arc_value input)) b.images) }
{
    build_gated(rt, alloc, input, parts, &OpenGate)
}

/// As `build`, but what the merge keeps is divided at keys: the entries before the first key have tables of their own, and so
/// have those from each key to the next, and those from the last one on. A key that is not above the one before it divides
/// nothing, nor does one that all entries are before, or no entry is. Fails as `build`.
pub fn build_divided<R: Threads + Sync, A: Allocator + Clone + Send + Sync>(
    rt: &R,
    alloc: A,
    input: Arc<Input<A>, A>,
    parts: u8,
    divisions: Vec<Key<A>, A>,
) -> Result<Built<A>, Refusal>
    ensures limit { (parts < 1) ⊎ (8 < parts) → result ≡ Err BadLimit }
    ensures memory { 1 ≤ parts → parts ≤ 8 → IfErr result (λ refusal. refusal ≡ NoMemory) }
    ensures input { IfOk result (λ b. b.input ≡ arc_value input) }
    ensures divisions { IfOk result (λ b. b.divisions ≡ divisions.items) }
    ensures tables { IfOk result
        (λ b. AreTablesAt divisions.items (kept_of (arc_value input)) b.images) }
{
    let entries = merge_parts(rt, &alloc, &input, parts, &OpenGate)?;
    Ok(built_of(alloc, input, entries, divisions)?)
}

/// As `build_divided`, but merged in one part by the caller, with no thread. Fails with NoMemory alone.
pub fn build_here<A: Allocator + Clone>(
    alloc: A,
    input: Arc<Input<A>, A>,
    divisions: Vec<Key<A>, A>,
) -> Result<Built<A>, Refusal>
    ensures memory { IfErr result (λ refusal. refusal ≡ NoMemory) }
    ensures input { IfOk result (λ b. b.input ≡ arc_value input) }
    ensures divisions { IfOk result (λ b. b.divisions ≡ divisions.items) }
    ensures tables { IfOk result
        (λ b. AreTablesAt divisions.items (kept_of (arc_value input)) b.images) }
{
    let entries = whole(alloc.clone()?, &input)?;
    Ok(built_of(alloc, input, entries, divisions)?)
}
