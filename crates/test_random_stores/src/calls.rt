//! Other calls than commits of a stream, which come between them.

use crate::asking::{ask_then, compact, feed_alone, feed_if, page_through, sync_some};
use crate::comparing::RowQuery;
use crate::draws::Draws;
use crate::guards::drawn_key;
use crate::stream::{KEYS, Stream};
use crate::subject::Subject;
use crate::trouble::Trouble;
use crate::wrong::make_wrong;

/// One batch in this number has another call after it.
const BATCHES: u32 = 4;

/// At most this number of snapshots is held.
const HELD: usize = 4;

/// The calls that come between batches, if any do.
#[derive(Clone, Copy)]
pub(crate) struct Calls {
    pub draws: Draws,
    pub is_mixed: bool,
}

impl Calls {
    /// Those of a seed.
    pub fn new(seed: u64, is_mixed: bool) -> Calls {
        Calls {
            draws: Draws::new(!seed),
            is_mixed,
        }
    }

    /// Makes another call, after one batch in `BATCHES`.
    pub fn may_make(&mut self, subject: &mut Subject, stream: &mut Stream) -> Result<(), Trouble> {
        if !self.is_mixed || self.draws.below(BATCHES) != 0 {
            return Ok(());
        }
        make(&mut self.draws, subject, stream)
    }
}

fn make(draws: &mut Draws, subject: &mut Subject, stream: &mut Stream) -> Result<(), Trouble> {
    match draws.below(32) {
        0..=5 => feed_if(subject, stream, draws),
        6..=8 => feed_alone(subject, stream),
        9..=11 => subject.ask(drawn_value(subject, draws)),
        12..=13 => subject.ask(drawn_range(draws)),
        14..=18 => ask_then(subject, draws),
        19..=20 => sync_some(subject, draws),
        21..=24 => subject.hold(HELD),
        25 => subject.let_one_go(draws.place(subject.held_count())),
        26 => compact(subject),
        27 => page_through(subject, stream, draws.below(KEYS)),
        _ => make_wrong(subject, draws),
    }
}

/// The value of a key.
pub(crate) fn drawn_value(subject: &Subject, draws: &mut Draws) -> RowQuery {
    RowQuery::Value(drawn_key(&subject.book, draws))
}

/// The rows of a range: from the first key on, or from one in the middle, up to another one, or to the end.
pub(crate) fn drawn_range(draws: &mut Draws) -> RowQuery {
    let any = draws.below(KEYS);
    let from = draws.one_of(&[0, any, any]);
    let wide = draws.one_of(&[1, 100, 5_000]);
    let to = from.saturating_add(draws.below(wide));
    if draws.below(10) == 0 || to >= KEYS {
        return RowQuery::Range(from, None);
    }
    RowQuery::Range(from, Some(to))
}
