//! What a crash may leave of a store.

use crate::book::Book;
use crate::stream::Deed;
use crate::subject::Subject;
use crate::trouble::Trouble;
use std::alloc::Global;

/// What a crash may leave: what a store had at an opening, and a beginning of the batches since then.
pub(crate) struct Pending {
    book: Book,
    /// How many batches there were at the opening, and how many are synced.
    number: u64,
    synced: u64,
    /// Those since the opening, and after them the one that was under way when a call failed.
    batches: Vec<Vec<Deed>>,
    /// Whether a call failed that stops the store.
    is_stopped: bool,
}

impl Drop for Pending {
    fn drop(self) {
        let Pending {
            book: _,
            number: _,
            synced: _,
            batches: _,
            is_stopped: _,
        } = self;
    }
}

impl Pending {
    /// What a store that was just opened has, all of it synced.
    pub fn of(alloc: Global, subject: &Subject) -> Result<Pending, Trouble> {
        let number = subject.db.batch_count();
        Ok(Pending {
            book: subject.book.copy()?,
            number,
            synced: number,
            batches: Vec::new(alloc),
            is_stopped: false,
        })
    }

    /// Adds a batch that a crash may leave.
    pub fn add(&mut self, alloc: Global, deeds: &[Deed]) -> Result<(), Trouble> {
        self.batches.push(Vec::from_slice(alloc, deeds)?)?;
        Ok(())
    }

    /// The batches up to this number are synced.
    pub fn sync_to(&mut self, number: u64) {
        self.synced = self.synced.max(number);
    }

    /// A call has failed that stops the store.
    pub fn stop(&mut self) {
        self.is_stopped = true;
    }

    /// Compares all rows of a store that a crash left.
    pub fn settle(self, subject: &mut Subject) -> Result<(), Trouble> {
        let Pending {
            book,
            number,
            synced,
            batches,
            is_stopped,
        } = self;
        let left = subject.db.batch_count();
        let most = number.saturating_add(batches.len() as u64);
        if left < synced || left > most {
            return Err(Trouble::Left(left));
        }
        if is_stopped {
            subject.course.count_stop();
        }
        subject.book = noted(book, left.saturating_sub(number), &batches);
        subject.compare()
    }
}

/// What a book has after the first `count` batches.
fn noted(book: Book, count: u64, batches: &[Vec<Deed>]) -> Book {
    let mut book = book;
    let mut rest = count;
    for deeds in batches {
        if rest > 0 {
            book.note(deeds);
            rest -= 1;
        }
    }
    book
}
