//! What the program is asked to do, once every word is read.

ghost use Rattle.std.specs.Prelude.{◌≡◌, ◌⊎◌, [], ◌∷◌, Some, None, MatchResult, map, option_map};
ghost use Rattle.lsm_device.specs.declared.refusal.Refusal.TheVariants.{NoMemory};
ghost use Rattle.lsm_codec.specs.Answers.{Answers, or_then, key_refusal, value_refusal};
ghost use Rattle.lsm_codec.specs.Words.{bytes_said};
ghost use Rattle.lsm_language.specs.Faults.{reason_of, mistake, refusal};
ghost use Rattle.lsm_language.specs.Guards.{condition_of};
ghost use Rattle.lsm_language.specs.Numbers.{number_said};
ghost use Rattle.lsm_language.specs.Lines.{means};
ghost use Rattle.lsm_language.specs.Requests.{bytes_in, limits_reason, load_reason, number_in, old_in, old_said, or_else, page_reason, put_if_refusal, said_reason};
ghost use Rattle.lsm_language.specs.Scripts.{script_said};

use crate::geometry::Geometry;
use crate::guards::guard;
use crate::keyed::Keyed;
use crate::line::Line;
use crate::load::Load;
use crate::number::parse_number;
use crate::program_error::{ProgramError, Usage};
use crate::script::{Kind, read_script};
use crate::subcommand::Subcommand;
use lsm_codec::{Batch, Guard, Op, unword};
use lsm_device::Refusal;
use std::alloc::Global;

/// What is asked for, of which file.
#[derive(Drop)]
pub enum Request<'a> {
    /// Make an empty store.
    Format {
        file: &'a str,
        geometry: Geometry,
    },
    /// Commit a batch that puts, and sync it.
    Put {
        file: &'a str,
        batch: Batch,
    },
    /// Commit a batch that puts where guards are true, and sync it.
    PutIf {
        file: &'a str,
        guards: Vec<Guard>,
        batch: Batch,
    },
    /// Commit a batch of deletes alone, and sync it.
    Delete {
        file: &'a str,
        batch: Batch,
    },
    /// Look up a key.
    Get {
        file: &'a str,
        key: Vec<u8>,
    },
    /// Print the first `limit` keys with their values, from a key on.
    Scan {
        file: &'a str,
        from: Vec<u8>,
        limit: u64,
    },
    /// Tell the numbers of the store.
    Stat {
        file: &'a str,
    },
    /// Check whether the file holds the image of a store.
    Check {
        file: &'a str,
    },
    /// Merge all tables into the last level.
    Compact {
        file: &'a str,
    },
    /// Print all rows.
    Dump {
        file: &'a str,
    },
    /// Put the rows that standard input has.
    Load {
        file: &'a str,
    },
    /// Answer the lines that standard input has, as they come.
    Serve {
        file: &'a str,
    },
    /// Make the steps of a script.
    Replay {
        file: &'a str,
        script: Vec<Line>,
    },
    /// Make the lives of a script, on a device in memory.
    Lives {
        geometry: Geometry,
        script: Vec<Line>,
    },
    /// Stop the steps of a script, on a device in memory, at each write and sync, and crash them by each mask; and so each opening
    /// after that.
    Explore {
        geometry: Geometry,
        script: Vec<Line>,
    },
    /// Let clients and workers share a store in memory, in threads.
    Storm {
        load: Load,
    },
    /// Let clients count together, in threads.
    Tally {
        load: Load,
    },
}

impl<'a> Request<'a> {
    ghost use Rattle.lsm_language.specs.Requests.{reason_for, Says};

    /// Reads numbers and bytes from the left, then the text of the script, then tests the limits, then forms guards and batch.
    pub fn read(
        alloc: Global,
        subcommand: Subcommand<'a>,
        text: &[u8],
    ) -> Result<Request<'a>, ProgramError>
        ensures { MatchResult result
            (λ r. (reason_for subcommand.entry text.now ≡ None) × Says subcommand.entry text.now r)
            (λ e. (reason_for subcommand.entry text.now ≡ Some (reason_of e))
            ⊎ (reason_of e ≡ refusal NoMemory)) }
    {
        match subcommand {
            Subcommand::Format { file, sectors, log } => {
                let geometry = geometry_in(alloc, sectors, log)?;
                Ok(Request::Format { file, geometry })
            }
            Subcommand::Put { file, key, value } => {
                let batch = put_in(alloc, key, value)?;
                Ok(Request::Put { file, batch })
            }
            Subcommand::PutIf {
                file,
                key,
                old,
                new,
            } => {
                let (guards, batch) = put_if_in(alloc, key, old, new)?;
                Ok(Request::PutIf {
                    file,
                    guards,
                    batch,
                })
            }
            Subcommand::Delete { file, key } => {
                let batch = delete_in(alloc, key)?;
                Ok(Request::Delete { file, batch })
            }
            Subcommand::Get { file, key } => {
                let key = bytes(alloc, key, "KEY")?;
                Ok(Request::Get { file, key })
            }
            Subcommand::Scan { file, from, limit } => {
                let from = bytes(alloc, from, "FROM")?;
                let limit = limit_in(alloc, limit)?;
                Ok(Request::Scan { file, from, limit })
            }
            Subcommand::Stat { file } => Ok(Request::Stat { file }),
            Subcommand::Check { file } => Ok(Request::Check { file }),
            Subcommand::Compact { file } => Ok(Request::Compact { file }),
            Subcommand::Dump { file } => Ok(Request::Dump { file }),
            Subcommand::Load { file } => Ok(Request::Load { file }),
            Subcommand::Serve { file } => Ok(Request::Serve { file }),
            Subcommand::Replay { file } => {
                let script = read_script(alloc, Kind::Steps, text)?;
                Ok(Request::Replay { file, script })
            }
            Subcommand::Lives { sectors, log } => {
                let (geometry, script) = scripted(alloc, Kind::Lives, sectors, log, text)?;
                Ok(Request::Lives { geometry, script })
            }
            Subcommand::Explore { sectors, log } => {
                let (geometry, script) = scripted(alloc, Kind::Steps, sectors, log, text)?;
                Ok(Request::Explore { geometry, script })
            }
            Subcommand::Storm {
                clients,
                commits,
                workers,
            } => {
                let load = load_in(alloc, clients, commits, workers)?;
                Ok(Request::Storm { load })
            }
            Subcommand::Tally { clients, tries } => {
                let load = tally_in(alloc, clients, tries)?;
                Ok(Request::Tally { load })
            }
        }
    }
}

// The sizes of a store that two words say.
fn geometry_in(alloc: Global, sectors: &str, log: &str) -> Result<Geometry, ProgramError>
    ensures { let reason = or_else (said_reason (number_said sectors.now))
        (or_else (said_reason (number_said log.now))
        (limits_reason (number_in sectors.now) (number_in log.now))) in
        MatchResult result
        (λ g. (reason ≡ None) × (number_said sectors.now ≡ Some g.sectors)
        × (number_said log.now ≡ Some g.log_sectors))
        (λ e. (reason ≡ Some (reason_of e)) ⊎ (reason_of e ≡ refusal NoMemory)) }
{
    let sectors = number(alloc, sectors, "SECTORS")?;
    let log_sectors = number(alloc, log, "LOG")?;
    Ok(Geometry::new(sectors, log_sectors)?)
}

// The batch that puts the value of one word under the key of another.
fn put_in(alloc: Global, key: &str, value: &str) -> Result<Batch, ProgramError>
    ensures { let reason = or_else (said_reason (bytes_said key.now))
        (or_else (said_reason (bytes_said value.now))
        (option_map refusal
        (or_then (key_refusal (bytes_in key.now)) (value_refusal (bytes_in value.now))))) in
        MatchResult result
        (λ b. (reason ≡ None)
        × (b ≡ record { key = bytes_in key.now; value = Some (bytes_in value.now) } ∷ []))
        (λ e. (reason ≡ Some (reason_of e)) ⊎ (reason_of e ≡ refusal NoMemory)) }
{
    let key = bytes(alloc, key, "KEY")?;
    let value = bytes(alloc, value, "VALUE")?;
    let batch = put_batch(alloc, &key, &value)?;
    Ok(batch)
}

// The guard that the key of one word has the value of another, or none, and the batch that puts the value of a third under it.
fn put_if_in(
    alloc: Global,
    key: &str,
    old: &str,
    new: &str,
) -> Result<(Vec<Guard>, Batch), ProgramError>
    ensures { let reason = or_else (said_reason (bytes_said key.now))
        (or_else (said_reason (old_said old.now))
        (or_else (said_reason (bytes_said new.now))
        (option_map refusal
        (put_if_refusal (bytes_in key.now) (old_in old.now) (bytes_in new.now))))) in
        MatchResult result
        (λ r. (reason ≡ None)
        × (r.0.items ≡ record { key = bytes_in key.now; value = old_in old.now } ∷ [])
        × (r.1 ≡ record { key = bytes_in key.now; value = Some (bytes_in new.now) } ∷ []))
        (λ e. (reason ≡ Some (reason_of e)) ⊎ (reason_of e ≡ refusal NoMemory)) }
{
    let key = bytes(alloc, key, "KEY")?;
    let value = old_value(alloc, old)?;
    let new = bytes(alloc, new, "NEW")?;
    Ok(put_if(alloc, &Keyed { key, value }, &new)?)
}

fn put_if(alloc: Global, wanted: &Keyed, new: &[u8]) -> Result<(Vec<Guard>, Batch), Refusal>
    ensures { let reason = put_if_refusal wanted.now.key.items (condition_of wanted.now).value
        new.now in
        MatchResult result
        (λ r. (reason ≡ None) × (r.0.items ≡ condition_of wanted.now ∷ [])
        × (r.1 ≡ record { key = wanted.now.key.items; value = Some new.now } ∷ []))
        (λ e. (reason ≡ Some e) ⊎ (e ≡ NoMemory)) }
{
    let mut guards = Vec::new(alloc);
    guards.push(guard(alloc, wanted)?)?;
    let batch = put_batch(alloc, &wanted.key, new)?;
    Ok((guards, batch))
}

// The batch that deletes the key of a word.
fn delete_in(alloc: Global, key: &str) -> Result<Batch, ProgramError>
    ensures { let reason = or_else (said_reason (bytes_said key.now))
        (option_map refusal (key_refusal (bytes_in key.now))) in
        MatchResult result
        (λ b. (reason ≡ None) × (b ≡ record { key = bytes_in key.now; value = None } ∷ []))
        (λ e. (reason ≡ Some (reason_of e)) ⊎ (reason_of e ≡ refusal NoMemory)) }
{
    let key = bytes(alloc, key, "KEY")?;
    let batch = delete_batch(alloc, &key)?;
    Ok(batch)
}

// The rows of a page that a word allows: 1 to 64.
fn limit_in(alloc: Global, limit: &str) -> Result<u64, ProgramError>
    ensures { let reason = or_else (said_reason (number_said limit.now))
        (page_reason (number_in limit.now)) in
        MatchResult result (λ n. (reason ≡ None) × (number_said limit.now ≡ Some n))
        (λ e. (reason ≡ Some (reason_of e)) ⊎ (reason_of e ≡ refusal NoMemory)) }
{
    let limit = number(alloc, limit, "LIMIT")?;
    if !(1..=64).contains(&limit) {
        return Err(ProgramError::Refused(Refusal::BadLimit));
    }
    Ok(limit)
}

// The sizes of a store that two words say, and a script of this kind.
fn scripted(
    alloc: Global,
    kind: Kind,
    sectors: &str,
    log: &str,
    text: &[u8],
) -> Result<(Geometry, Vec<Line>), ProgramError>
    ensures { let reason = or_else (said_reason (number_said sectors.now))
        (or_else (said_reason (number_said log.now))
        (or_else (said_reason (script_said kind text.now))
        (limits_reason (number_in sectors.now) (number_in log.now)))) in
        MatchResult result
        (λ r. (reason ≡ None) × (number_said sectors.now ≡ Some r.0.sectors)
        × (number_said log.now ≡ Some r.0.log_sectors)
        × (script_said kind text.now ≡ Some (map means r.1.items)))
        (λ e. (reason ≡ Some (reason_of e)) ⊎ (reason_of e ≡ refusal NoMemory)) }
{
    let sectors = number(alloc, sectors, "SECTORS")?;
    let log_sectors = number(alloc, log, "LOG")?;
    let script = read_script(alloc, kind, text)?;
    let geometry = Geometry::new(sectors, log_sectors)?;
    Ok((geometry, script))
}

// What three words let clients and workers do.
fn load_in(alloc: Global, clients: &str, commits: &str, workers: &str) -> Result<Load, ProgramError>
    ensures { let reason = or_else (said_reason (number_said clients.now))
        (or_else (said_reason (number_said commits.now))
        (or_else (said_reason (number_said workers.now))
        (load_reason (number_in clients.now) (number_in commits.now)
        (number_in workers.now)))) in
        MatchResult result
        (λ l. (reason ≡ None) × (number_said clients.now ≡ Some l.clients)
        × (number_said commits.now ≡ Some l.commits)
        × (number_said workers.now ≡ Some l.workers))
        (λ e. (reason ≡ Some (reason_of e)) ⊎ (reason_of e ≡ refusal NoMemory)) }
{
    let clients = number(alloc, clients, "CLIENTS")?;
    let commits = number(alloc, commits, "COMMITS")?;
    let workers = number(alloc, workers, "WORKERS")?;
    Ok(Load::new(clients, commits, workers)?)
}

// How many clients count together, and how often each tries: as clients and commits of a storm without workers.
fn tally_in(alloc: Global, clients: &str, tries: &str) -> Result<Load, ProgramError>
    ensures { let reason = or_else (said_reason (number_said clients.now))
        (or_else (said_reason (number_said tries.now))
        (load_reason (number_in clients.now) (number_in tries.now) 0)) in
        MatchResult result
        (λ l. (reason ≡ None) × (number_said clients.now ≡ Some l.clients)
        × (number_said tries.now ≡ Some l.commits) × (l.workers ≡ 0))
        (λ e. (reason ≡ Some (reason_of e)) ⊎ (reason_of e ≡ refusal NoMemory)) }
{
    let clients = number(alloc, clients, "CLIENTS")?;
    let tries = number(alloc, tries, "TRIES")?;
    Ok(Load::new(clients, tries, 0)?)
}

// The number that the word at a place says.
fn number(alloc: Global, word: &str, place: &'static str) -> Result<u64, ProgramError>
    ensures { MatchResult result (λ n. number_said word.now ≡ Some n)
        (λ e. ((number_said word.now ≡ None) × (reason_of e ≡ mistake))
        ⊎ (reason_of e ≡ refusal NoMemory)) }
{
    match parse_number(word) {
        Some(number) => Ok(number),
        None => {
            let word = String::from_str(alloc, word)?;
            Err(ProgramError::Usage(Usage::Number { place, word }))
        }
    }
}

// The bytes that the word at a place says.
fn bytes(alloc: Global, word: &str, place: &'static str) -> Result<Vec<u8>, ProgramError>
    ensures { MatchResult result (λ b. bytes_said word.now ≡ Some b.items)
        (λ e. ((bytes_said word.now ≡ None) × (reason_of e ≡ mistake))
        ⊎ (reason_of e ≡ refusal NoMemory)) }
{
    match unword(alloc, word)? {
        Some(bytes) => Ok(bytes),
        None => {
            let word = String::from_str(alloc, word)?;
            Err(ProgramError::Usage(Usage::Bytes { place, word }))
        }
    }
}

// The value that a key is to have, as the word OLD says it: `absent` for none.
fn old_value(alloc: Global, word: &str) -> Result<Option<Vec<u8>>, ProgramError>
    ensures { MatchResult result
        (λ v. old_said word.now ≡ Some (option_map (λ bytes. bytes.items) v))
        (λ e. ((old_said word.now ≡ None) × (reason_of e ≡ mistake))
        ⊎ (reason_of e ≡ refusal NoMemory)) }
{
    if word == "absent" {
        return Ok(None);
    }
    match unword(alloc, word)? {
        Some(bytes) => Ok(Some(bytes)),
        None => {
            let word = String::from_str(alloc, word)?;
            Err(ProgramError::Usage(Usage::Old { word }))
        }
    }
}

fn put_batch(alloc: Global, key: &[u8], value: &[u8]) -> Result<Batch, Refusal>
    ensures { Answers (or_then (key_refusal key.now) (value_refusal value.now)) result
        (λ b. b ≡ record { key = key.now; value = Some value.now } ∷ []) }
{
    let put = Op::put(alloc, key, value)?;
    Ok(Batch::new(alloc, put)?)
}

fn delete_batch(alloc: Global, key: &[u8]) -> Result<Batch, Refusal>
    ensures { Answers (key_refusal key.now) result
        (λ b. b ≡ record { key = key.now; value = None } ∷ []) }
{
    let delete = Op::delete(alloc, key)?;
    Ok(Batch::new(alloc, delete)?)
}
