//! One line of a script.

ghost use Rattle.std.specs.Prelude.{[], map, option_and_then, option_map};
ghost use Rattle.lsm_language.specs.Changes.{changes_said};
ghost use Rattle.lsm_language.specs.Guards.{condition_of};
ghost use Rattle.lsm_language.specs.Words.{Reads};
ghost use Rattle.lsm_language.specs.Lines.{means, line_said, behind_said, commit_said, guarded_said, if_said, some_said, other_said, bare_said, one_said, two_said, piece_said, get_said, scan_said, end_said, at_said, crash_said, places_said, place_said};

use crate::guards::{guards_of, read_guard};
use crate::keyed::Keyed;
use crate::operations::{batch_of, read_changes};
use crate::words::{Unread, after, bytes, number_in, words_of};
use lsm_device::Refusal;
use lsm_lives::{Call, Work};
use lsm_store::At;
use std::alloc::Global;

/// What a line says.
#[derive(Drop)]
pub enum Line {
    /// A call of the store.
    Call(Call),
    /// A piece of work on the store's jobs.
    Work(Work),
    /// A commit whose guards or operations can't be formed: no call is made, and this refusal is the reply.
    NoBatch(Refusal),
    /// Sets the fuse of a life.
    Fuse(u64),
    /// Ends a life by a crash.
    Crash(Kept),
}

/// The pending writes that a crash keeps.
#[derive(Drop)]
pub enum Kept {
    /// All of them.
    All,
    /// Those whose place is true. A place that is missing is false.
    Places(Vec<bool>),
}

/// Reads the words of a line, parted by one space.
pub fn read_line(alloc: Global, line: &str) -> Result<Line, Unread>
    ensures { Reads means (line_said line.now) result }
{
    let words = words_of(alloc, line)?;
    let Some((name, rest)) = words.split_first() else {
        return Err(Unread::Malformed);
    };
    match *name {
        "commit" => commit(alloc, rest),
        _ => read_behind(alloc, name, rest),
    }
}

// Reads a line that is no `commit`, from its first word and the others.
fn read_behind(alloc: Global, name: &str, rest: &[&str]) -> Result<Line, Unread>
    ensures { Reads means (behind_said name.now (map (λ word. word.now) rest.now)) result }
{
    match name {
        "if" => commit_if(alloc, rest),
        _ => read_other(alloc, name, rest),
    }
}

// Reads a line that commits nothing, from its first word and the others.
fn read_other(alloc: Global, name: &str, rest: &[&str]) -> Result<Line, Unread>
    ensures { Reads means (other_said name.now (map (λ word. word.now) rest.now)) result }
{
    match rest {
        [] => read_bare(name),
        [word] => read_one(alloc, name, word),
        [first, second] => read_two(alloc, name, first, second),
        [from, to, limit] => read_scan(alloc, name, At::Now, from, to, limit),
        [from, to, limit, at] => scan_at(alloc, name, at, from, to, limit),
        _ => Err(Unread::Malformed),
    }
}

fn scan_at(
    alloc: Global,
    name: &str,
    at: &str,
    from: &str,
    to: &str,
    limit: &str,
) -> Result<Line, Unread>
    ensures { Reads means
        (option_and_then (λ at. scan_said name.now at from.now to.now limit.now) (at_said at.now))
        result }
{
    read_scan(alloc, name, snapshot(at)?, from, to, limit)
}

// Reads a line of one word.
fn read_bare(name: &str) -> Result<Line, Unread>
    ensures { Reads means (bare_said name.now) result }
{
    match name {
        "sync" => Ok(Line::Call(Call::Sync)),
        "snapshot" => Ok(Line::Call(Call::Snapshot)),
        "rotate" => Ok(Line::Call(Call::Rotate)),
        "room" => Ok(Line::Call(Call::Room)),
        "take" => Ok(Line::Work(Work::Take)),
        _ => Err(Unread::Malformed),
    }
}

// Reads a line of two words.
fn read_one(alloc: Global, name: &str, word: &str) -> Result<Line, Unread>
    ensures { Reads means (one_said name.now word.now) result }
{
    match name {
        "syncto" => Ok(Line::Call(Call::SyncTo(number_in(word)?))),
        "get" => read_get(alloc, At::Now, word),
        "release" => Ok(Line::Call(Call::Release(number_in(word)?))),
        "fuse" => Ok(Line::Fuse(number_in(word)?)),
        "crash" => crash(alloc, word),
        _ => read_piece(name, number_in(word)?),
    }
}

// Reads a line of a piece of work on a job, and of nothing besides.
fn read_piece(name: &str, job: u64) -> Result<Line, Unread>
    ensures { Reads means (piece_said name.now job) result }
{
    match name {
        "read" => Ok(Line::Work(Work::Read(job))),
        "write" => Ok(Line::Work(Work::Write(job))),
        "install" => Ok(Line::Work(Work::Install(job))),
        "drop" => Ok(Line::Work(Work::Drop(job))),
        _ => Err(Unread::Malformed),
    }
}

// Reads a line of three words.
fn read_two(alloc: Global, name: &str, first: &str, second: &str) -> Result<Line, Unread>
    ensures { Reads means (two_said name.now first.now second.now) result }
{
    match name {
        "get" => read_get(alloc, snapshot(second)?, first),
        "build" => {
            let job = number_in(first)?;
            let parts = number_in(second)?;
            Ok(Line::Work(Work::Build { job, parts }))
        }
        "accept" => {
            let job = number_in(first)?;
            let result = number_in(second)?;
            Ok(Line::Work(Work::Accept { job, result }))
        }
        _ => Err(Unread::Malformed),
    }
}

fn commit(alloc: Global, words: &[&str]) -> Result<Line, Unread>
    ensures { Reads means (commit_said (map (λ word. word.now) words.now)) result }
{
    let changes = read_changes(alloc, words)?;
    let Some((first, rest)) = changes.split_first() else {
        return Err(Unread::Malformed);
    };
    match batch_of(alloc, first, rest) {
        Ok(batch) => Ok(Line::Call(Call::Commit(batch))),
        Err(Refusal::NoMemory) => Err(Unread::NoMemory),
        Err(refusal) => Ok(Line::NoBatch(refusal)),
    }
}

// Reads guards up to the word `then`, and the operations after it.
fn commit_if(alloc: Global, words: &[&str]) -> Result<Line, Unread>
    ensures { Reads means (if_said [] (map (λ word. word.now) words.now)) result }
{
    let mut guards = Vec::new(alloc);
    for (place, word) in words.iter().enumerate() {
        if *word == "then" {
            return guarded(alloc, &guards, &words[place + 1..]);
        }
        guards.push(read_guard(alloc, word)?)?;
    }
    Err(Unread::Malformed)
}

// Reads the operations after guards. The guards are formed before the batch.
fn guarded(alloc: Global, guards: &[Keyed], words: &[&str]) -> Result<Line, Unread>
    ensures { Reads means (option_and_then (some_said (guarded_said (map condition_of guards.now)))
        (changes_said (map (λ word. word.now) words.now))) result }
{
    let changes = read_changes(alloc, words)?;
    let Some((first, rest)) = changes.split_first() else {
        return Err(Unread::Malformed);
    };
    let guards = match guards_of(alloc, guards) {
        Ok(guards) => guards,
        Err(Refusal::NoMemory) => return Err(Unread::NoMemory),
        Err(refusal) => return Ok(Line::NoBatch(refusal)),
    };
    match batch_of(alloc, first, rest) {
        Ok(batch) => Ok(Line::Call(Call::CommitIf(guards, batch))),
        Err(Refusal::NoMemory) => Err(Unread::NoMemory),
        Err(refusal) => Ok(Line::NoBatch(refusal)),
    }
}

fn read_get(alloc: Global, at: At, key: &str) -> Result<Line, Unread>
    ensures { Reads means (get_said at key.now) result }
{
    Ok(Line::Call(Call::Get(at, bytes(alloc, key)?)))
}

fn read_scan(
    alloc: Global,
    name: &str,
    at: At,
    from: &str,
    to: &str,
    limit: &str,
) -> Result<Line, Unread>
    ensures { Reads means (scan_said name.now at from.now to.now limit.now) result }
{
    match name {
        "scan" => {
            let from = bytes(alloc, from)?;
            let to = end_in(alloc, to)?;
            let limit = number_in(limit)?;
            Ok(Line::Call(Call::Scan {
                at,
                from,
                to,
                limit,
            }))
        }
        _ => Err(Unread::Malformed),
    }
}

// Where a scan ends.
fn end_in(alloc: Global, word: &str) -> Result<Option<Vec<u8>>, Unread>
    ensures { Reads (option_map (λ bytes. bytes.items)) (end_said word.now) result }
{
    match word {
        "end" => Ok(None),
        _ => Ok(Some(bytes(alloc, word)?)),
    }
}

// The snapshot that a word `@S` names.
fn snapshot(word: &str) -> Result<At, Unread>
    ensures { Reads (λ at. at) (at_said word.now) result }
{
    let Some(number) = after(word, '@') else {
        return Err(Unread::Malformed);
    };
    Ok(At::Snap(number_in(number)?))
}

// The crash that keeps the pending writes that a word says: `none`, `all`, or a digit 0 or 1 for each.
fn crash(alloc: Global, word: &str) -> Result<Line, Unread>
    ensures { Reads means (crash_said word.now) result }
{
    match word {
        "all" => Ok(Line::Crash(Kept::All)),
        "none" => Ok(Line::Crash(Kept::Places(Vec::new(alloc)))),
        "" => Err(Unread::Malformed),
        _ => Ok(Line::Crash(Kept::Places(places(alloc, word)?))),
    }
}

fn places(alloc: Global, word: &str) -> Result<Vec<bool>, Unread>
    ensures { Reads (λ places. places.items) (places_said word.now) result }
{
    let mut places = Vec::new(alloc);
    for digit in word.as_bytes() {
        places.push(place(*digit)?)?;
    }
    Ok(places)
}

fn place(digit: u8) -> Result<bool, Unread>
    ensures { Reads (λ place. place) (place_said digit) result }
{
    match digit {
        b'0' => Ok(false),
        b'1' => Ok(true),
        _ => Err(Unread::Malformed),
    }
}
