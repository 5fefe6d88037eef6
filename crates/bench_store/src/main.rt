//! How fast a store is for its user: each workload compared with the raw system calls that it must make. And how fast
//! merges alone are. The words say what is measured:
//!
//! - `FILE RUNS`: all workloads on the file of a path, RUNS times;
//! - `upkeep FILE KEYS RUNS`: loads of KEYS keys, with all rotations and jobs, by the job that comes next and by the policy;
//! - `gets FILE KEYS RUNS`: gets and pages of a store of KEYS keys, from the device and from the cache;
//! - `rounds FILE RUNS`: changes of rounds, of sessions whose trails are full;
//! - `workers FILE KEYS RUNS`: a fill by one client without a worker, and with one;
//! - `merges`: merges of runs in memory.
//!
//! With `answers` the workloads are done in small, in memory, where their answers alone are looked at; with no words merges are
//! measured before that.
#![tactic(auto)]

mod clients;
mod clock;
mod keys;
mod measuring;
mod merging;
mod puts;
mod raw;
mod reads;
mod report;
mod runs;
mod settling;
mod sizes;
mod subject;
mod workers;
mod workloads;

use crate::merging::time_merges;
use crate::runs::{check, compare};
use crate::sizes::{FULL, Sizes};
use crate::workloads::{BESIDE, KEPT, LOOKS, ROUNDS, WORKLOADS, Workload};
use anyhow::{Error, Result};
use lsm_device::Refusal;
use std::env;
use std::fs::{File, Files};
use std::process::ExitCode;
use std::rt::Clock;
use std::sync::Wait;
use std::thread::Threads;

/// How many runs on a file are made, where no word says so.
const RUNS: u32 = 5;

/// What is told of a refusal.
pub(crate) fn told(refusal: Refusal) -> Error {
    Error::msg(refusal.name())
}

/// The number that the word of a place spells, or another where there is no word.
fn number(words: &[String], place: usize, default: u32) -> Result<u32> {
    match words.get(place) {
        Some(word) => Ok(word.parse::<u32>()?),
        None => Ok(default),
    }
}

/// Measures workloads on the file of the second word; if `has_keys`, of as many keys as the third says, in a store that they
/// leave half empty.
fn measure_named<R: Files<File = File> + Clock + Threads + Wait + Print + AllocGlobal + Sync>(
    rt: &R,
    words: &[String],
    workloads: &[Workload],
    has_keys: bool,
) -> Result<bool> {
    let Some(path) = words.get(1) else {
        return Err(Error::msg("the path of a file is missing"));
    };
    let mut sizes = FULL;
    let mut place = 2;
    if has_keys {
        sizes = Sizes {
            sectors: 262_144,
            keys: number(words, 2, FULL.keys)?,
            ..FULL
        };
        place = 3;
    }
    compare(rt, path, sizes, workloads, number(words, place, RUNS)?)
}

/// Measures what the words say, merges or workloads on a file, or merges and the answers of all workloads without a word. Returns
/// whether all answers were right.
fn measure<R: Files<File = File> + Clock + Threads + Wait + Print + Eprint + AllocGlobal + Sync>(
    rt: &R,
    words: &[String],
) -> Result<bool> {
    let Some(what) = words.first() else {
        time_merges(rt)?;
        return check(rt);
    };
    match what.as_str() {
        "merges" => time_merges(rt)?,
        "answers" => return check(rt),
        "upkeep" => return measure_named(rt, words, KEPT, true),
        "gets" => return measure_named(rt, words, LOOKS, true),
        "rounds" => return measure_named(rt, words, ROUNDS, false),
        "workers" => return measure_named(rt, words, BESIDE, true),
        file => return compare(rt, file, FULL, WORKLOADS, number(words, 1, RUNS)?),
    }
    Ok(true)
}

fn main(rt: HostRuntime) -> Result<ExitCode> {
    let mut words = Vec::new(rt.alloc());
    for word in env::args(&rt)?.skip(1) {
        words.push(word)?;
    }
    if measure(&rt, &words)? {
        return Ok(ExitCode::SUCCESS);
    }
    println!(rt; "wrong answers")?;
    Ok(ExitCode::FAILURE)
}
