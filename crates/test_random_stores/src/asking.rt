//! Calls of a store: guarded batches, single puts and deletes, reads at snapshots, pages, syncs.

use crate::book::Book;
use crate::calls::{drawn_range, drawn_value};
use crate::comparing::{ended, matched};
use crate::draws::Draws;
use crate::guards::drawn_guards;
use crate::stream::Stream;
use crate::subject::Subject;
use crate::trouble::Trouble;
use corwaphi::Pages;
use lsm_device::Refusal;

/// At most this number of pages is read.
const PAGES: u32 = 12;

/// Commits the next batch of a stream under guards. It is added just if all of them are true, and else refused by the first false one.
pub(crate) fn feed_if(
    subject: &mut Subject,
    stream: &mut Stream,
    draws: &mut Draws,
) -> Result<(), Trouble> {
    let guarded = drawn_guards(subject.alloc, &subject.book, draws)?;
    let gathered = subject.gathered(stream)?;
    let told = subject.db.write_if(&guarded.guards, &gathered.batch);
    match (told, guarded.false_at) {
        (Ok(_), Some(_)) => return Err(Trouble::Guards),
        (Err(Refusal::GuardFailed(found)), Some(place)) if u32::from(found) == place => {}
        (told, _) => {
            subject.hear(told, &gathered.deeds)?;
        }
    }
    Ok(())
}

/// Makes the next operation of a stream as a put or a delete.
pub(crate) fn feed_alone(subject: &mut Subject, stream: &mut Stream) -> Result<(), Trouble> {
    let deed = stream.next()?;
    let key = subject.book.key(deed.key)?;
    let told = match deed.value {
        Some(length) => subject.db.put(&key, &subject.book.next_value(length)?),
        None => subject.db.delete(&key),
    };
    subject.hear(told, &[deed])?;
    Ok(())
}

/// Compares a value or a range at one of the snapshots that are held, or all its rows.
pub(crate) fn ask_then(subject: &mut Subject, draws: &mut Draws) -> Result<(), Trouble> {
    let place = draws.place(subject.held_count());
    let query = if draws.below(3) == 0 {
        drawn_range(draws)
    } else {
        drawn_value(subject, draws)
    };
    subject.ask_held(place, query)
}

/// Syncs all batches, or those up to a number.
pub(crate) fn sync_some(subject: &mut Subject, draws: &mut Draws) -> Result<(), Trouble> {
    if draws.below(3) == 0 {
        return Ok(subject.db.sync()?);
    }
    let back = draws.one_of(&[0, 1, 30, 3_000]);
    let number = subject.db.batch_count().saturating_sub(u64::from(back));
    Ok(subject.db.sync_to(number)?)
}

/// Merges all tables down, as far as there is room.
pub(crate) fn compact(subject: &mut Subject) -> Result<(), Trouble> {
    subject.compact();
    Ok(())
}

/// Reads rows from the key of a number on page by page, with a batch of the stream after each page. A snapshot is held meanwhile, since
/// pages have one too.
pub(crate) fn page_through(
    subject: &mut Subject,
    stream: &mut Stream,
    from: u32,
) -> Result<(), Trouble> {
    subject.hold(usize::MAX)?;
    let book = subject.book.copy()?;
    let pages = subject.db.pages(&book.key(from)?, None)?;
    turn_pages(subject, stream, (&book, from), pages)?;
    let last = subject.held_count().saturating_sub(1);
    subject.let_one_go(last)
}

fn turn_pages(
    subject: &mut Subject,
    stream: &mut Stream,
    (book, from): (&Book, u32),
    pages: Pages,
) -> Result<(), Trouble> {
    let mut pages = pages;
    let mut next = from;
    for _ in 0..PAGES {
        let Some(page) = pages.next_page(&mut subject.db)? else {
            return ended(book, next, None, Trouble::Range);
        };
        let Some(behind) = matched(book, &page, next)? else {
            return Err(Trouble::Range);
        };
        next = behind;
        subject.feed(stream)?;
    }
    pages.end(&mut subject.db);
    Ok(())
}
