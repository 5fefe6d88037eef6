//! The options that are proposed for rows.

use crate::subject::{Subject, begun_in};
use corwaphi::Options;
use lsm_device::MemDevice;

/// The cache, the sectors and the log sectors for so many rows.
fn proposed(rows: u64, key_bytes: u32, value_bytes: u32) -> (u32, u32, u16) {
    let options = Options::for_rows(rows, key_bytes, value_bytes);
    (options.cache, options.sectors, options.log_sectors)
}

#[test]
fn small_and_large_stores_are_within_the_limits(rt: HostRuntime) {
    const SMALL: &[(u64, u32)] = &[(0, 0), (1, u32::MAX), (100, 20)];
    const LARGE: &[(u64, u32)] = &[(u64::MAX, u32::MAX), (u64::MAX, 0), (3_276_801, 1)];
    for &(rows, bytes) in SMALL {
        assert!(rt; proposed(rows, bytes, bytes) == (256, 8_192, 128));
    }
    for &(rows, bytes) in LARGE {
        assert!(rt; proposed(rows, bytes, bytes) == (4_096, 1_048_576, 2_042));
    }
}

// Of 200,000 rows with 128 bytes 31 lie in a block: 6,452 blocks, and 788 for 197 tables.
#[test]
fn rows_take_less_than_half_of_their_store(rt: HostRuntime) {
    assert!(rt; proposed(200_000, 16, 100) == (527, 134_960, 2_042));
    assert!(rt; proposed(18_300, 16, 100) == (256, 14_662, 916));
}

/// Puts so many rows with keys of 2 bytes and values of 2,048. It tells how many were taken.
fn fill(db: &mut Subject<MemDevice>, rows: u16) -> u16 {
    for number in 0..rows {
        if db.put(&number.to_be_bytes(), &[7; 2_048]).is_err() {
            return number;
        }
    }
    rows
}

#[test]
fn a_store_takes_the_rows_that_it_is_for(rt: HostRuntime) {
    let options = Options::for_rows(1_500, 2, 2_048);
    let mut db = begun_in(&rt, options.sectors, options.log_sectors);
    assert!(rt; fill(&mut db, 1_500) == 1_500);
}
