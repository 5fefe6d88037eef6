//! A store, and what it is to hold.

use crate::book::{Book, Collected, has_put};
use crate::comparing::{RowQuery, compare};
use crate::draws::Draws;
use crate::opening::{Failure, armed, begun, crashed, opened, synced};
use crate::stream::{Deed, Stream};
use crate::tally::Course;
use crate::trouble::Trouble;
use corwaphi::Db;
use lsm_device::{MemDevice, Refusal};
use lsm_store::At;
use std::alloc::{AllocError, Global};

/// How a batch went.
#[derive(Clone, Copy)]
pub(crate) enum Went {
    Taken,
    /// There was no room for its puts, or while a snapshot is held for its deletes.
    Full,
    /// A call of the device failed: a crash may leave it, or not.
    Unsure,
}

/// A store, with the values that its keys are to have.
pub(crate) struct Subject {
    pub alloc: Global,
    pub db: Db<MemDevice>,
    pub book: Book,
    /// The snapshots that are held.
    held: Vec<Held>,
    /// How often it was stopped and opened.
    pub course: Course,
}

/// A snapshot, and what the book had when it was taken.
struct Held {
    number: u64,
    book: Book,
}

impl Drop for Held {
    fn drop(self) {
        let Held { number: _, book: _ } = self;
    }
}

impl Drop for Subject {
    fn drop(self) {
        let Subject {
            alloc: _,
            db: _,
            book: _,
            held: _,
            course: _,
        } = self;
    }
}

impl Subject {
    /// An empty store of `sectors` sectors, with log regions of `log_sectors` sectors, and keys of `key_len` bytes.
    pub fn new<R: AllocGlobal>(
        rt: &R,
        sectors: u32,
        log_sectors: u16,
        key_len: u32,
    ) -> Result<Subject, Trouble> {
        let book = Book::new(rt.alloc(), key_len)?;
        let db = begun(rt, sectors, log_sectors)?;
        Ok(Subject::of(rt.alloc(), db, book, Course::of(0)))
    }

    fn of(alloc: Global, db: Db<MemDevice>, book: Book, course: Course) -> Subject {
        Subject {
            alloc,
            db,
            book,
            held: Vec::new(alloc),
            course,
        }
    }

    /// Its parts, but for snapshots, which end with the store.
    fn apart(self) -> (Db<MemDevice>, Book, Course) {
        let Subject {
            alloc: _,
            db,
            book,
            held: _,
            course,
        } = self;
        (db, book, course)
    }

    /// The store, synced and opened anew.
    pub fn reopened<R: AllocGlobal>(self, rt: &R) -> Result<Subject, Trouble> {
        let (db, book, course) = self.apart();
        let db = opened(rt, synced(db)?)?;
        Ok(Subject::of(rt.alloc(), db, book, course.and_opening()))
    }

    /// The store, synced and opened anew on a device of which a call fails.
    pub fn armed<R: AllocGlobal>(self, rt: &R, failure: Failure) -> Result<Subject, Trouble> {
        let (db, book, course) = self.apart();
        let db = armed(rt, db, failure)?;
        Ok(Subject::of(rt.alloc(), db, book, course.and_opening()))
    }

    /// The store as a crash leaves it, opened anew.
    pub fn crashed<R: AllocGlobal>(self, rt: &R, draws: &mut Draws) -> Result<Subject, Trouble> {
        let (db, book, course) = self.apart();
        let db = crashed(rt, db, draws)?;
        Ok(Subject::of(rt.alloc(), db, book, course.and_opening()))
    }

    /// The next batch of a stream.
    pub fn gathered(&self, stream: &mut Stream) -> Result<Collected, Trouble> {
        let mut gathered = self.book.one(stream.next()?)?;
        for _ in 1..stream.length() {
            let deed = stream.next()?;
            if !self.book.add(&mut gathered, deed)? {
                stream.give_back(deed)?;
                break;
            }
        }
        Ok(gathered)
    }

    fn all(&self, deeds: &[Deed]) -> Result<Collected, Trouble> {
        let [first, rest @ ..] = deeds else {
            return Err(Trouble::Call(Refusal::BadKey));
        };
        let mut gathered = self.book.one(*first)?;
        for deed in rest {
            if !self.book.add(&mut gathered, *deed)? {
                return Err(Trouble::Call(Refusal::BatchTooBig));
            }
        }
        Ok(gathered)
    }

    /// Notes how a batch went that was to be committed.
    pub fn hear(&mut self, told: Result<u64, Refusal>, deeds: &[Deed]) -> Result<Went, Trouble> {
        let puts = has_put(deeds);
        match told {
            Ok(_) => {
                self.book.note(deeds);
                Ok(Went::Taken)
            }
            Err(Refusal::NoSpace) if puts || !self.held.is_empty() => Ok(Went::Full),
            Err(refusal) if puts => Err(Trouble::Put(refusal)),
            Err(refusal) => Err(Trouble::Delete(refusal)),
        }
    }

    fn commit(&mut self, gathered: &Collected) -> Result<Went, Trouble> {
        let told = self.db.write(&gathered.batch);
        self.hear(told, &gathered.deeds)
    }

    /// Commits the next batch of a stream.
    pub fn feed(&mut self, stream: &mut Stream) -> Result<Went, Trouble> {
        let gathered = self.gathered(stream)?;
        self.commit(&gathered)
    }

    /// Commits operations as one batch.
    pub fn make_all(&mut self, deeds: &[Deed]) -> Result<Went, Trouble> {
        let gathered = self.all(deeds)?;
        self.commit(&gathered)
    }

    /// Makes one operation, which is to be taken.
    pub fn make(&mut self, key: u32, value: Option<u32>) -> Result<(), Trouble> {
        let gathered = self.book.one(Deed { key, value })?;
        match self.commit(&gathered)? {
            Went::Taken => Ok(()),
            Went::Full | Went::Unsure => Err(Trouble::Put(Refusal::NoSpace)),
        }
    }

    /// Commits a batch and syncs it, where a call of the device may fail.
    pub fn risk(&mut self, gathered: &Collected) -> Result<Went, Trouble> {
        match self.db.write(&gathered.batch) {
            Ok(_) => Ok(self.sync_risked(&gathered.deeds)),
            Err(Refusal::Io | Refusal::Stopped) => Ok(Went::Unsure),
            Err(Refusal::NoSpace) if has_put(&gathered.deeds) => Ok(Went::Full),
            Err(refusal) => Err(Trouble::Delete(refusal)),
        }
    }

    fn sync_risked(&mut self, deeds: &[Deed]) -> Went {
        if self.db.sync().is_err() {
            return Went::Unsure;
        }
        self.book.note(deeds);
        Went::Taken
    }

    /// A batch that deletes the first key from a number on.
    pub fn delete_of(&self, from: u32) -> Result<Collected, Refusal> {
        let key = self.book.next_number(from).unwrap_or(from);
        self.book.one(Deed { key, value: None })
    }

    /// Merges all tables down.
    pub fn compact(&mut self) -> bool {
        self.db.compact()
    }

    /// The numbers of the keys that have values.
    pub fn keys(&self) -> Result<Vec<u32>, AllocError> {
        self.book.keys()
    }

    /// Compares all rows, where the last batch, if one is given, is there or not.
    pub fn settle(&mut self, last: Option<Collected>) -> Result<(), Trouble> {
        match last {
            Some(gathered) => self.compare_with(&gathered.deeds),
            None => self.compare(),
        }
    }

    fn compare_with(&mut self, last: &[Deed]) -> Result<(), Trouble> {
        self.course.count_stop();
        match self.compare() {
            Err(Trouble::Rows) => {
                self.book.note(last);
                self.compare()
            }
            told => told,
        }
    }

    /// Takes a snapshot, where fewer than `most` are held. As long as one is, deletes may find no room either.
    pub fn hold(&mut self, most: usize) -> Result<(), Trouble> {
        if self.held.len() < most {
            let book = self.book.copy()?;
            let number = self.db.snapshot()?;
            self.held.push(Held { number, book })?;
        }
        Ok(())
    }

    /// Compares all rows of each snapshot that is held, and releases it.
    pub fn let_go(&mut self) -> Result<(), Trouble> {
        for _ in 0..self.held.len() {
            self.let_one_go(0)?;
        }
        Ok(())
    }

    /// Compares all rows of the snapshot at a place among those that are held, if there is one, and releases it.
    pub fn let_one_go(&mut self, place: usize) -> Result<(), Trouble> {
        self.ask_held(place, RowQuery::All)?;
        if place < self.held.len() {
            let held = self.held.swap_remove(place);
            self.db.release(held.number)?;
        }
        Ok(())
    }

    /// How many snapshots are held.
    pub fn held_count(&self) -> usize {
        self.held.len()
    }

    /// Compares what is asked for at the snapshot at a place among those that are held, if there is one.
    pub fn ask_held(&mut self, place: usize, query: RowQuery) -> Result<(), Trouble> {
        match self.held.get(place) {
            Some(held) => compare(
                self.alloc,
                &mut self.db,
                &held.book,
                At::Snap(held.number),
                query,
            ),
            None => Ok(()),
        }
    }

    /// Compares what is asked for of the present rows.
    pub fn ask(&mut self, query: RowQuery) -> Result<(), Trouble> {
        compare(self.alloc, &mut self.db, &self.book, At::Now, query)
    }

    /// Compares all rows.
    pub fn compare(&mut self) -> Result<(), Trouble> {
        self.ask(RowQuery::All)
    }
}
