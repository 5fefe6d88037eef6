//! How fast the front door is, with all that it does besides: keys of 16 bytes in an order that looks random are put once, put again, put
//! again by way of a buffer, got, and read in order. Its words are the path of a file, which is made anew, how many keys there are, how many bytes each value has,
//! and how many sectors a log region has. Of each workload it prints how many a second there were, and the longest wait for one.
//!
//! With no words it does so with few keys, and prints how many values were right alone.
#![tactic(auto)]

mod workloads;

use crate::workloads::{Sizes, Timing, measure};
use anyhow::Result;
use std::env;
use std::process::ExitCode;

/// The number that the word of a place spells, or another where there is no word.
fn number(words: &[String], place: usize, default: u32) -> Result<u32> {
    match words.get(place) {
        Some(word) => Ok(word.parse::<u32>()?),
        None => Ok(default),
    }
}

fn print_rate<R: Print>(rt: &R, what: &str, timing: Timing) -> Result<()> {
    println!(rt;
        "{what}: {} a second, longest {} microseconds",
        timing.rate(),
        timing.longest / 1_000
    )?;
    Ok(())
}

fn main(rt: HostRuntime) -> Result<ExitCode> {
    let mut words = Vec::new(rt.alloc());
    for word in env::args(&rt)?.skip(1) {
        words.push(word)?;
    }
    let sizes = Sizes {
        keys: number(&words, 1, 2_000)?,
        value_bytes: number(&words, 2, 100)?,
        log_sectors: number(&words, 3, 1_024)?,
    };
    let path = match words.first() {
        Some(path) => path.as_str(),
        None => "bench.img",
    };
    let timings = measure(&rt, path, sizes)?;
    if !words.is_empty() {
        print_rate(&rt, "fill", timings.fill)?;
        print_rate(&rt, "overwrite", timings.overwrite)?;
        print_rate(&rt, "overwrite, buffered", timings.buffered)?;
        print_rate(&rt, "get", timings.gets)?;
        print_rate(&rt, "rows", timings.rows)?;
        println!(rt;
            "{} tables, {} blocks free",
            timings.tables, timings.free_blocks
        )?;
    }
    println!(rt;
        "{} of {} values are right, {} rows",
        timings.right, sizes.keys, timings.row_count
    )?;
    if timings.right == sizes.keys && timings.row_count == sizes.keys {
        return Ok(ExitCode::SUCCESS);
    }
    Ok(ExitCode::FAILURE)
}
