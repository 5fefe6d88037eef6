//! Random lives of a [`corwaphi::Db`], with calls that fail and crashes after them, compared with a plain list of rows.

use crate::tally::Tally;
use std::alloc::Global;
use test_random_stores::{Feeding, feed_all};

/// How a store is led: of each one calls fail, since the seeds are those of such stores.
const LED: Feeding = Feeding {
    seed: 18,
    apart: 25,
    stores: 0,
    lines: 20,
    sectors: 8_192,
    log_sectors: 0,
    strikes: 4,
    is_mixed: true,
};

/// Leads `stores` stores through three rounds, and returns what came of them.
pub(crate) fn sweep<R: AllocGlobal>(
    rt: &R,
    alloc: Global,
    stores: u64,
    tally: &mut Tally,
) -> test_random_stores::Tally {
    let mut led = test_random_stores::Tally::new(alloc);
    feed_all(rt, Feeding { stores, ..LED }, &mut led);
    tally.count_stores(&led);
    led
}
