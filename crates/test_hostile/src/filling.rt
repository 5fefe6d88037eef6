//! Stores that are fed with random streams until they are full, rescued by deletes, and fed again; and stores that were once stuck.

use anyhow::Result;
use test_random_stores::{Feeding, Tally, feed_all, try_all};

/// What the words after the first say: the seed of the first store; how many stores there are; how many batches each gets in a round at
/// most, for each MiB that its tables may take; its sectors and those of a log region, where 0 stands for several sizes; how many calls of
/// the device fail in a round, of one store in 25; how many rows are replaced one by one in a store that was once stuck, where 0 leaves out
/// all of these; and whether other calls come between the batches, where 0 says no.
fn numbers_in(words: &[String]) -> Result<[u64; 8]> {
    let mut numbers: [u64; 8] = [1, 100, 1_000, 0, 0, 20, 200, 0];
    for (number, word) in numbers.iter_mut().zip(words.iter().skip(1)) {
        *number = word.parse::<u64>()?;
    }
    Ok(numbers)
}

/// Fills the stores that the words say, and tells whether none of them went wrong. Standard error has each one that did, and counts.
pub(crate) fn fill<R: Print + Eprint + AllocGlobal>(rt: &R, words: &[String]) -> Result<bool> {
    let [
        seed,
        stores,
        lines,
        sectors,
        log_sectors,
        strikes,
        replaced,
        mixed,
    ] = numbers_in(words)?;
    let feeding = Feeding {
        seed,
        apart: 1,
        stores,
        lines: u32::try_from(lines).unwrap_or(u32::MAX),
        sectors: u32::try_from(sectors).unwrap_or(u32::MAX),
        log_sectors: u16::try_from(log_sectors).unwrap_or(0),
        strikes: u32::try_from(strikes).unwrap_or(u32::MAX),
        is_mixed: mixed != 0,
    };
    let mut tally = Tally::new(rt.alloc());
    feed_all(rt, feeding, &mut tally);
    try_all(rt, u32::try_from(replaced).unwrap_or(u32::MAX), &mut tally);
    for (store, trouble) in tally.troubles.iter() {
        eprintln!(rt; "store {store}: {trouble:?}")?;
    }
    eprintln!(rt;
        "{} stores, {} refusals, {} stopped by a call that failed, {} wedged",
        tally.stores, tally.refusals, tally.stops, tally.wedged
    )?;
    println!(rt; "{}", tally.told())?;
    Ok(tally.wedged == 0)
}
