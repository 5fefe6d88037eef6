//! Flushes that come before merges.

use crate::asks::{Ask, Exchange, Outcome};
use crate::sessions::{Deeds, lead};
use crate::setup::small;

// Client 1, whose turns begin at slot 1, takes a flush into slot 0 and then a merge into slot 1.
const BEFORE_A_MERGE: &[Exchange] = &[
    (0, Ask::Put(0x61), Outcome::Number(1)),
    (0, Ask::Rotate, Outcome::Done),
    (0, Ask::Work, Outcome::Idle),
    (0, Ask::Put(0x62), Outcome::Number(2)),
    (0, Ask::Rotate, Outcome::Done),
    (1, Ask::Due, Outcome::Did),
    (1, Ask::Take(1), Outcome::Did),
    (1, Ask::Due, Outcome::Lent(2)),
];

// Client 0, whose turns begin at slot 0, takes a merge into it and then a flush into slot 1.
const BEHIND_A_MERGE: &[Exchange] = &[
    (0, Ask::Put(0x61), Outcome::Number(1)),
    (0, Ask::Rotate, Outcome::Done),
    (0, Ask::Work, Outcome::Idle),
    (0, Ask::Put(0x62), Outcome::Number(2)),
    (0, Ask::Take(1), Outcome::Did),
    (0, Ask::Rotate, Outcome::Done),
    (0, Ask::Due, Outcome::Did),
    (0, Ask::Due, Outcome::Lent(3)),
];

#[test]
fn the_next_piece_is_of_the_flush(rt: HostRuntime) {
    const TABLES: &[&[Exchange]] = &[BEFORE_A_MERGE, BEHIND_A_MERGE];
    for &table in TABLES {
        let store = small(&rt, rt.alloc());
        let left = lead(&rt, rt.alloc(), store, (2, 64), Deeds::Asks(table));
        assert!(rt; left.store.jobs().turn_at(1).is_some());
    }
}
