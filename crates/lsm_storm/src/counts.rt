// What is counted when a storm has ended.
ghost use Rattle.std.specs.Prelude.{◌≡◌, ◌*◌, ◌≤◌, length, None, IfErr, IfOk};
ghost use Rattle.lsm_mem.specs.Paging.{pairs_in};
ghost use Rattle.lsm_store.specs.Backing.{IsBacked};
ghost use Rattle.lsm_machine.specs.RecoveryPoints.{present_map};
ghost use Rattle.lsm_trail.specs.Entries.{is_number, told_in};
ghost use Rattle.lsm_storm.specs.Storms.{is_commit, is_accepted, accepted_in, is_piece, pieces_in, keys_in, IsStormRefusal};

use lsm_device::{MemDevice, Refusal};
use lsm_lives::{Call, Reply, Step};
use lsm_store::{At, Store};
use lsm_trail::{Trail, TrailEntry};

/// What a storm did.
#[derive(Clone, Copy)]
pub struct Counts {
    /// The commits in the trail that were accepted.
    pub commits: u64,
    /// The batches of the store.
    pub batches: u64,
    /// The rows of a whole scan.
    pub rows: u64,
    /// The pieces of work in the trail: those of the workers, since the clients do none.
    pub pieces: u64,
}

/// The most rows of a page.
const ROWS: u64 = 64;

/// The most pages that a whole scan takes.
const PAGES: u32 = 65_536;

// Whether an entry is a commit, under guards or without.
fn is_commit(entry: &TrailEntry) -> bool
    ensures { result ≡ is_commit entry.now.step }
{
    matches!(
        entry.step(),
        Step::Call(Call::Commit(_) | Call::CommitIf(_, _))
    )
}

// Whether an entry was answered with a number.
fn is_numbered(entry: &TrailEntry) -> bool
    ensures { result ≡ is_number (told_in entry.now.reply entry.now.result) }
{
    matches!(entry.reply(), Reply::Number(_))
}

// Whether an entry is a commit that was answered with a number.
fn is_accepted(entry: &TrailEntry) -> bool
    ensures { result ≡ is_accepted entry.now }
{
    is_commit(entry) && is_numbered(entry)
}

/// How many commits in a trail were answered with a number.
pub(crate) fn accepted_in(trail: &Trail) -> u64
    ensures { result ≡ accepted_in trail.now.log }
{
    let mut count = 0;
    for entry in trail.entries() {
        count += u64::from(is_accepted(entry));
    }
    count
}

// Whether an entry is a piece of work.
fn is_piece(entry: &TrailEntry) -> bool
    ensures { result ≡ is_piece entry.now }
{
    !entry.is_call()
}

/// How many entries of a trail are pieces of work.
pub(crate) fn pieces_in(trail: &Trail) -> u64
    ensures { result ≡ pieces_in trail.now.log }
{
    let mut count = 0;
    for entry in trail.entries() {
        count += u64::from(is_piece(entry));
    }
    count
}

/// How many rows a whole scan of a store has.
pub(crate) fn rows_in(store: &mut Store<MemDevice>) -> Result<u64, Refusal>
    requires { IsBacked store.old }
    ensures rows { IfOk result (λ rows. rows ≡ keys_in store.old) }
    ensures refused { IfErr result IsStormRefusal }
{
    let rows = rows_from(store, &[], PAGES)?;
    Ok(rows)
}

// How many rows it has from a key on, in at most `pages` pages.
fn rows_from(store: &mut Store<MemDevice>, from: &[u8], pages: u32) -> Result<u64, Refusal>
    requires { IsBacked store.old }
    ensures rows { IfOk result
        (λ rows. rows ≡ length (pairs_in (present_map store.old.state.points) from.now None)) }
    ensures few { IfOk result (λ rows. rows ≤ 64 * pages) }
    ensures refused { IfErr result IsStormRefusal }
{
    if pages == 0 {
        return Err(Refusal::BadLimit);
    }
    let page = store.scan(At::Now, from, None, ROWS)?;
    let rows = page.rows().len() as u64;
    match page.next_key() {
        Some(key) => Ok(rows + rows_from(store, key, pages - 1)?),
        None => Ok(rows),
    }
}
