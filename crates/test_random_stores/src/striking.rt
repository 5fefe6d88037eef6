//! Stores of whose device calls fail.

use crate::book::Collected;
use crate::calls::Calls;
use crate::opening::Failure;
use crate::risking::risk_all;
use crate::stream::Stream;
use crate::subject::{Subject, Went};
use crate::trouble::Trouble;

/// At most this number of batches is made until the call fails.
const TURNS: u32 = 12;

/// The next batch: of two one deletes a row, and one is of a stream.
fn next_batch(subject: &Subject, stream: &mut Stream, turn: u32) -> Result<Collected, Trouble> {
    if turn % 2 == 0 {
        return Ok(subject.delete_of(stream.key())?);
    }
    subject.gathered(stream)
}

/// Makes batches and syncs each, and merges all tables down after every fourth, until a call fails. Returns the batch that a crash may
/// leave or not; `None` where no write and no sync failed.
fn risked(subject: &mut Subject, stream: &mut Stream) -> Result<Option<Collected>, Trouble> {
    for turn in 0..TURNS {
        let gathered = next_batch(subject, stream, turn)?;
        if let Went::Unsure = subject.risk(&gathered)? {
            return Ok(Some(gathered));
        }
        if turn % 4 == 1 {
            subject.compact();
        }
    }
    Ok(None)
}

/// Lets one call fail, and a crash come.
fn strike<R: AllocGlobal>(
    rt: &R,
    subject: Subject,
    (stream, calls): (&mut Stream, &mut Calls),
    failure: Failure,
) -> Result<Subject, Trouble> {
    let mut subject = subject.armed(rt, failure)?;
    if calls.is_mixed {
        let pending = risk_all(&mut subject, stream, &mut calls.draws)?;
        let mut subject = subject.crashed(rt, &mut stream.draws)?;
        pending.settle(&mut subject)?;
        return Ok(subject);
    }
    let last = risked(&mut subject, stream)?;
    let mut subject = subject.crashed(rt, &mut stream.draws)?;
    subject.settle(last)?;
    Ok(subject)
}

/// Lets `count` calls fail, each after an opening, or within every fourth one: the first call, and then each time one a fixed number of
/// calls later.
pub(crate) fn strike_all<R: AllocGlobal>(
    rt: &R,
    subject: Subject,
    (stream, calls): (&mut Stream, &mut Calls),
    count: u32,
) -> Result<Subject, Trouble> {
    let apart = stream.draws.one_of(&[1, 17, 61, 149]);
    let mut subject = subject;
    for turn in 0..count {
        let failure = Failure {
            after: u64::from(turn.wrapping_mul(apart)),
            in_opening: turn % 4 == 3,
            kept: turn % 2 == 0,
        };
        subject = strike(rt, subject, (&mut *stream, &mut *calls), failure)?;
    }
    Ok(subject)
}
