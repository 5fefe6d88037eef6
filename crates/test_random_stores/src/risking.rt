//! Calls of a store, one of which fails at its device.

use crate::book::{Collected, has_put};
use crate::calls::{drawn_range, drawn_value};
use crate::comparing::RowQuery;
use crate::draws::Draws;
use crate::guards::drawn_guards;
use crate::pending::Pending;
use crate::stream::Stream;
use crate::subject::Subject;
use crate::trouble::Trouble;
use lsm_device::Refusal;

/// At most this number of calls is made until one fails.
const TURNS: u32 = 24;

/// Makes calls, of which few are syncs, until one fails. Returns what a crash may leave.
pub(crate) fn risk_all(
    subject: &mut Subject,
    stream: &mut Stream,
    draws: &mut Draws,
) -> Result<Pending, Trouble> {
    let mut pending = Pending::of(subject.alloc, subject)?;
    for _ in 0..TURNS {
        if !risk(subject, &mut pending, stream, draws)? {
            pending.stop();
            break;
        }
    }
    Ok(pending)
}

/// Makes a call, and tells whether the store goes on.
fn risk(
    subject: &mut Subject,
    pending: &mut Pending,
    stream: &mut Stream,
    draws: &mut Draws,
) -> Result<bool, Trouble> {
    match draws.below(12) {
        0 => risk_sync(subject, pending, 0),
        1 => {
            let back = draws.below(4);
            risk_sync(subject, pending, back)
        }
        2 => risk_read(subject, drawn_value(subject, draws)),
        3 => risk_read(subject, drawn_range(draws)),
        4 => {
            subject.compact();
            Ok(true)
        }
        5 | 6 => risk_if(subject, pending, stream, draws),
        7 => {
            let gathered = subject.delete_of(stream.key())?;
            risk_write(subject, pending, &gathered)
        }
        _ => {
            let gathered = subject.gathered(stream)?;
            risk_write(subject, pending, &gathered)
        }
    }
}

/// Syncs all batches, or all but some of the last ones.
fn risk_sync(subject: &mut Subject, pending: &mut Pending, back: u32) -> Result<bool, Trouble> {
    let number = subject.db.batch_count().saturating_sub(u64::from(back));
    let told = if back == 0 {
        subject.db.sync()
    } else {
        subject.db.sync_to(number)
    };
    match told {
        Ok(()) => {
            pending.sync_to(number);
            Ok(true)
        }
        Err(Refusal::Io | Refusal::Stopped) => Ok(false),
        Err(refusal) => Err(Trouble::Call(refusal)),
    }
}

/// Reads. One that fails changes nothing.
fn risk_read(subject: &mut Subject, query: RowQuery) -> Result<bool, Trouble> {
    match subject.ask(query) {
        Ok(()) | Err(Trouble::Call(Refusal::Io)) => Ok(true),
        Err(Trouble::Call(Refusal::Stopped)) => Ok(false),
        Err(trouble) => Err(trouble),
    }
}

fn risk_write(
    subject: &mut Subject,
    pending: &mut Pending,
    gathered: &Collected,
) -> Result<bool, Trouble> {
    let told = subject.db.write(&gathered.batch);
    hear(subject, pending, told, gathered)
}

/// Commits the next batch of a stream under guards, of which one may be false.
fn risk_if(
    subject: &mut Subject,
    pending: &mut Pending,
    stream: &mut Stream,
    draws: &mut Draws,
) -> Result<bool, Trouble> {
    let guarded = drawn_guards(subject.alloc, &subject.book, draws)?;
    let gathered = subject.gathered(stream)?;
    let told = subject.db.write_if(&guarded.guards, &gathered.batch);
    match (told, guarded.false_at) {
        (Ok(_), Some(_)) => Err(Trouble::Guards),
        (Err(Refusal::GuardFailed(found)), Some(place)) if u32::from(found) == place => Ok(true),
        (told, _) => hear(subject, pending, told, &gathered),
    }
}

/// Notes how a batch went. One that met a call which failed may be left by a crash.
fn hear(
    subject: &mut Subject,
    pending: &mut Pending,
    told: Result<u64, Refusal>,
    gathered: &Collected,
) -> Result<bool, Trouble> {
    match told {
        Ok(_) => {
            subject.book.note(&gathered.deeds);
            pending.add(subject.alloc, &gathered.deeds)?;
            Ok(true)
        }
        Err(Refusal::Io) => {
            pending.add(subject.alloc, &gathered.deeds)?;
            Ok(false)
        }
        Err(Refusal::Stopped) => Ok(false),
        Err(Refusal::NoSpace) if has_put(&gathered.deeds) => Ok(true),
        Err(refusal) => Err(Trouble::Delete(refusal)),
    }
}
