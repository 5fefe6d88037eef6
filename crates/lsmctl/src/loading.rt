//! Rows are loaded: read a line at a time, and committed in batches as large as a batch may be.

ghost use Rattle.std.specs.Prelude.{◌≡◌, ◌⊎◌, ◌<◌, ◌∷◌, ◌++◌, [], Some, None, IfOk, IfErr, OnOk, OnErr, MatchResult, if◌then◌else◌};
ghost use Rattle.lsm_device.specs.declared.refusal.Refusal.TheVariants.{BatchTooBig, NoMemory};
ghost use Rattle.lsm_language.specs.Faults.{mistake, reason_of, refusal};
ghost use Rattle.lsm_language.specs.Rows.{row_said};
ghost use Rattle.lsmctl.specs.Commits.{AddsNot};
ghost use Rattle.lsmctl.specs.Loading.{AddsWaiting, ArePut, AreRead, CommitsWaiting, Fits, IsLoaded, RefusesLastSync, Takes, TakesNot, WaitingRefused, is_refused, none_loaded, rows_waiting};

use lsm_codec::{Batch, Op};
use lsm_device::{Device, Refusal};
use lsm_language::{MOST_ROW, ProgramError, Unread, Usage, beginning, next_line, read_row};
use lsm_progress::{Milestone, Progress};
use lsm_store::Store;
use lsm_upkeep::{Upkeep, write};
use std::alloc::Global;
use std::io::BufRead;

/// How far a loading is.
#[derive(Drop)]
pub struct Loading {
    // The rows that were read and wait to be committed.
    batch: Option<Batch>,
    // How many rows were read, and how many of them were committed.
    read: u64,
    loaded: u64,
}

/// What came of a loading: how many rows are in the store, synced, and why it ended before the end of the input, if it did.
#[derive(Drop)]
pub struct Loaded {
    pub rows: u64,
    pub ended: Result<(), ProgramError>,
}

/// Puts the rows of an input into a store, in their order, and syncs them. It ends at the end of the input, at a line that is
/// no row, or at a failed commit; what was before that is in the store. It fails itself where the sync does. It tells `progress`
/// after each row how many are committed.
pub fn load_rows<D: Device, I: BufRead, P: Progress>(
    alloc: Global,
    store: &mut Store<D>,
    input: &mut I,
    progress: &mut P,
) -> Result<Loaded, Refusal>
    ensures loads { IfOk result
        (λ loaded. IsLoaded (I.remaining input.old) loaded store.old store.new) }
    ensures refused { IfErr result (RefusesLastSync (I.remaining input.old) store.old) }
{
    let mut loading = Loading {
        batch: None,
        read: 0,
        loaded: 0,
    };
    let ended = load_all(alloc, store, input, &mut loading, progress);
    store.sync()?;
    Ok(Loaded {
        rows: loading.loaded,
        ended,
    })
}

// Reads rows to the end and commits them. What was read before a line that is no row is committed too.
fn load_all<D: Device, I: BufRead, P: Progress>(
    alloc: Global,
    store: &mut Store<D>,
    input: &mut I,
    loading: &mut Loading,
    progress: &mut P,
) -> Result<(), ProgramError>
    requires { loading.old ≡ none_loaded }
    ensures { ArePut (I.remaining input.old) result loading.new store.old store.new }
{
    let read = read_rows(alloc, store, input, loading, progress);
    if is_refused(&read) {
        return read;
    }
    commit_waiting(alloc, store, loading)?;
    read
}

fn is_refused(ended: &Result<(), ProgramError>) -> bool
    ensures { result ≡ is_refused ended.now }
{
    matches!(
        ended,
        Err(ProgramError::Refused(_) | ProgramError::Failed(_))
    )
}

// Reads rows to the end of the input, and commits all but the last of them.
fn read_rows<D: Device, I: BufRead, P: Progress>(
    alloc: Global,
    store: &mut Store<D>,
    input: &mut I,
    loading: &mut Loading,
    progress: &mut P,
) -> Result<(), ProgramError>
    requires { loading.old ≡ none_loaded }
    ensures { AreRead (I.remaining input.old) result loading.new store.old store.new }
{
    let mut line = Vec::new(alloc);
    for _ in 0..u64::MAX {
        if !next_line(input, MOST_ROW, &mut line)? {
            return Ok(());
        }
        let row = row_in(alloc, loading.read, &line)?;
        take(alloc, store, loading, row)?;
        progress.reached(Milestone::Loaded {
            rows: loading.loaded,
        });
    }
    Err(ProgramError::Refused(Refusal::Exhausted))
}

// The row of a line, after `before` others.
fn row_in(alloc: Global, before: u64, line: &[u8]) -> Result<Op, ProgramError>
    ensures { MatchResult result (λ row. row_said line.now ≡ Some row)
        (λ e. ((reason_of e ≡ mistake) × (row_said line.now ≡ None))
        ⊎ (reason_of e ≡ refusal NoMemory)) }
{
    match read_row(alloc, line) {
        Ok(row) => Ok(row),
        Err(Unread::Malformed) => {
            let line = String::from_utf8_lossy(alloc, beginning(line))?;
            let number = before.saturating_add(1);
            Err(ProgramError::Usage(Usage::Row { number, line }))
        }
        Err(Unread::NoMemory) => Err(ProgramError::Refused(Refusal::NoMemory)),
    }
}

// Takes a row to those that wait. Where they fill a batch, that is committed first.
fn take<D: Device>(
    alloc: Global,
    store: &mut Store<D>,
    loading: &mut Loading,
    row: Op,
) -> Result<(), Refusal>
    requires { loading.old.read < 18446744073709551615 }
    ensures { MatchResult result (λ _. Takes row loading.old store.old loading.new store.new)
        (λ e. TakesNot loading.old store.old e loading.new store.new) }
{
    if fits(loading, &row)? {
        loading.read += 1;
        return Ok(());
    }
    commit_waiting(alloc, store, loading)?;
    loading.batch = Some(Batch::new(alloc, row)?);
    loading.read += 1;
    Ok(())
}

// Adds a row to the batch of those that wait, if there is one and it takes the row.
fn fits(loading: &mut Loading, row: &Op) -> Result<bool, Refusal>
    ensures fits { Fits row.now result loading.old loading.new }
    ensures refused { IfErr result (λ e. e ≡ NoMemory) }
{
    match &mut loading.batch {
        Some(batch) => has_taken(batch, row),
        None => Ok(false),
    }
}

// Adds a row to a batch, unless the batch would get too big.
fn has_taken(batch: &mut Batch, row: &Op) -> Result<bool, Refusal>
    ensures added { IfOk result
        (λ taken. batch.new ≡ (if taken then batch.old ++ row.now ∷ [] else batch.old)) }
    ensures same { OnErr result (batch.new ≡ batch.old) }
    ensures refused { IfErr result (λ e. e ≡ NoMemory) }
{
    match add_to(batch, row) {
        Ok(()) => Ok(true),
        Err(Refusal::BatchTooBig) => Ok(false),
        Err(refusal) => Err(refusal),
    }
}

fn add_to(batch: &mut Batch, row: &Op) -> Result<(), Refusal>
    ensures added { OnOk result (batch.new ≡ batch.old ++ row.now ∷ []) }
    ensures same { OnErr result (batch.new ≡ batch.old) }
    ensures refused { IfErr result (λ e. (e ≡ BatchTooBig) ⊎ (e ≡ NoMemory)) }
{
    match row.value() {
        Some(value) => batch.put(row.key(), value),
        None => batch.delete(row.key()),
    }
}

// Commits the rows that wait, if there are any.
fn commit_waiting<D: Device>(
    alloc: Global,
    store: &mut Store<D>,
    loading: &mut Loading,
) -> Result<(), Refusal>
    ensures { MatchResult result (λ _. CommitsWaiting loading.old store.old loading.new store.new)
        (λ e. WaitingRefused loading.old store.old e loading.new store.new) }
{
    commit_batch(alloc, store, &loading.batch)?;
    loading.batch = None;
    loading.loaded = loading.read;
    Ok(())
}

fn commit_batch<D: Device>(
    alloc: Global,
    store: &mut Store<D>,
    waiting: &Option<Batch>,
) -> Result<(), Refusal>
    ensures { MatchResult result (λ _. AddsWaiting waiting.now store.old store.new)
        (λ e. AddsNot (rows_waiting waiting.now) store.old e store.new) }
{
    match waiting {
        Some(batch) => {
            write(alloc, store, &mut Upkeep::at_once(), None, batch)?;
            Ok(())
        }
        None => Ok(()),
    }
}
