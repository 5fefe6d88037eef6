//! Hostile use of a store: one call of its device fails, one growth of memory is refused, or its image is invalid. Its
//! answers agree with those of a plain machine. After the word `stores` it fills stores at random instead.
#![tactic(auto)]

mod attacked;
mod checks;
mod deeds;
mod explorations;
mod faults;
mod filling;
mod foreign;
mod front_doors;
mod growths;
mod lives;
mod old_images;
mod openings;
mod replays;
mod scripts;
mod sessions;
mod spots;
mod sweeps;
mod tally;

use crate::filling::fill;
use crate::sweeps::{Extent, Found, sweep_all, sweep_one};
use crate::tally::Tally;
use anyhow::Result;
use std::env;
use std::process::ExitCode;
use std::sync::Wait;
use std::thread::Threads;

/// Of all cases the part, in ten-thousandths, that is tried where no argument says so.
const PART: u64 = 500;

/// The number that the word of a place spells, where there is one.
fn number(words: &[String], place: usize) -> Result<Option<u64>> {
    match words.get(place) {
        Some(word) => Ok(Some(word.parse::<u64>()?)),
        None => Ok(None),
    }
}

/// Tells on standard error how much was tried of something.
fn tell<R: Eprint>(rt: &R, what: &str, tally: &Tally) -> Result<()> {
    let Tally {
        cases,
        failed,
        refused,
        openings,
        tables: _,
    } = tally;
    eprintln!(rt;
        "{what}: {cases} cases, {failed} calls failed, {refused} growths refused, {openings} openings"
    )?;
    Ok(())
}

/// Tells on standard error what was tried, and each first difference.
fn tell_all<R: Eprint>(rt: &R, found: &Found) -> Result<()> {
    tell(rt, "one call fails", &found.faults)?;
    tell(rt, "one growth is refused", &found.growths)?;
    tell(rt, "openings and checks", &found.openings)?;
    tell(rt, "sessions", &found.sessions)?;
    tell(rt, "replays and explorations", &found.replays)?;
    tell(rt, "foreign images", &found.images)?;
    tell(rt, "random lives", &found.lives)?;
    tell(rt, "old images", &found.old_images)?;
    tell(rt, "lives of a front door", &found.front_doors)?;
    for difference in found.differences.iter() {
        eprintln!(rt; "{difference:?}")?;
    }
    Ok(())
}

/// Tries the part of all cases that the words say, or that of one list, and tells whether there was no difference.
fn sweep<R: Threads + Wait + Print + Eprint + AllocGlobal + Sync>(
    rt: &R,
    words: &[String],
) -> Result<bool> {
    let alloc = rt.alloc();
    let extent = Extent::of(number(words, 0)?.unwrap_or(PART));
    let swept = match number(words, 1)? {
        Some(place) => sweep_one(
            rt,
            alloc,
            extent,
            usize::try_from(place).unwrap_or(usize::MAX),
        ),
        None => sweep_all(rt, alloc, extent),
    };
    let Ok(found) = swept else {
        return Ok(false);
    };
    tell_all(rt, &found)?;
    let differences = found.differences.len();
    println!(rt; "{}: {differences} differences", found.told())?;
    Ok(differences == 0)
}

fn main(rt: HostRuntime) -> Result<ExitCode> {
    let mut words = Vec::new(rt.alloc());
    for word in env::args(&rt)?.skip(1) {
        words.push(word)?;
    }
    let is_well = match words.first() {
        Some(first) if first.as_str() == "stores" => fill(&rt, &words)?,
        _ => sweep(&rt, &words)?,
    };
    if is_well {
        return Ok(ExitCode::SUCCESS);
    }
    Ok(ExitCode::FAILURE)
}
