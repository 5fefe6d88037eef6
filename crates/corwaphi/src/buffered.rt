//! A store whose writes are gathered in memory, and committed many at a time.

ghost use Rattle.std.specs.Prelude.{◌≡◌, [], None, Some, MatchResult, option_map};
ghost use Rattle.lsm_codec.specs.Answers.{UnlessNoMemory, key_refusal, or_then, value_refusal};
ghost use Rattle.lsm_codec.specs.Map.{Operation};
ghost use Rattle.lsm_machine.specs.Calls.{Done, Get, Number, Value, reply_of};
ghost use Rattle.lsm_machine.specs.declared.asked.At.TheVariants.{Now};
ghost use Rattle.lsm_store.specs.Serving.{Serves};
ghost use Rattle.corwaphi.specs.Buffering.{Buffers, Commits, IsNotBuffered, Syncs, last_on, operations_of};

use crate::Db;
use crate::buffer::{begun, last_on, took_delete, took_put};
use crate::pages::copied;
use lsm_codec::{Batch, Op};
use lsm_device::{Device, Refusal};
use std::marker::Model;

/// A store whose puts and deletes wait in memory until they are worth a commit, which brings all of them at once: for callers that write
/// much and need no sequence number for each write. A hundred small puts take some 26 sectors of the log so, and else a hundred.
///
/// What waits is in no file: it is lost if the program ends before [`commit`](BufferedDb::commit) or [`sync`](BufferedDb::sync), not only in
/// a power cut. A commit comes by itself where some 16 KiB wait. What waits is committed whole or not at all, and [`get`](BufferedDb::get)
/// sees it. Contracts see the store, and the operations that wait.
pub struct BufferedDb<D: Device> {
    db: Db<D>,
    waiting: Option<Batch>,
}

// One call at each exit of a caller.
impl<D: Device + Drop> Drop for BufferedDb<D> {
    fn drop(self) {
        let BufferedDb { db: _, waiting: _ } = self;
    }
}

impl<D: Device> Model for BufferedDb<D> {
    ghost use Rattle.std.specs.Coded.{codes};
    ghost use Rattle.lsm_codec.specs.Map.{map_code};
    ghost use Rattle.corwaphi.specs.Buffering.{Buffered, operations_of};

    ghost Value = { Buffered };

    ghost coded = { Prim.hlevel (codes, map_code) };

    ghost view = { λ b. record { store = b.db; waiting = operations_of b.waiting } };
}

impl<D: Device> BufferedDb<D> {
    /// A store of which nothing waits.
    pub fn on(db: Db<D>) -> BufferedDb<D>
        ensures { result ≡ record { store = db; waiting = [] } }
    {
        BufferedDb { db, waiting: None }
    }

    /// Puts a value under a key. Fails with `BadKey` for a key outside 1 to 255 bytes, with `BadValue` for a value above 2,048 bytes, and
    /// with `NoMemory`; and as [`Db::write`] where what waits was to be committed before. The put doesn't wait then, and the others still
    /// do.
    pub fn put(&mut self, key: &[u8], value: &[u8]) -> Result<(), Refusal>
        ensures { MatchResult result
            (λ _. Buffers (record { key = key.now; value = Some value.now }) self.old self.new)
            (λ e. IsNotBuffered (or_then (key_refusal key.now) (value_refusal value.now)) e self.old
            self.new) }
    {
        if took_put(&mut self.waiting, key, value)? {
            return Ok(());
        }
        let operation = Op::put(self.db.alloc(), key, value)?;
        self.begin(operation)
    }

    /// Deletes a key. Fails with `BadKey` for a key outside 1 to 255 bytes, with `NoMemory`, and as [`Db::write`] where what waits was to
    /// be committed before. The delete doesn't wait then, and the others still do.
    pub fn delete(&mut self, key: &[u8]) -> Result<(), Refusal>
        ensures { MatchResult result
            (λ _. Buffers (record { key = key.now; value = None }) self.old self.new)
            (λ e. IsNotBuffered (key_refusal key.now) e self.old self.new) }
    {
        if took_delete(&mut self.waiting, key)? {
            return Ok(());
        }
        let operation = Op::delete(self.db.alloc(), key)?;
        self.begin(operation)
    }

    // Has an operation wait alone, after a commit of those that do.
    fn begin(&mut self, operation: Op) -> Result<(), Refusal>
        ensures { MatchResult result
            (λ _. Buffers operation self.old self.new)
            (λ e. IsNotBuffered None e self.old self.new) }
    {
        let next = begun(self.db.alloc(), operation)?;
        self.commit()?;
        self.waiting = Some(next);
        Ok(())
    }

    /// Commits what waits as one batch, and returns its sequence number; where nothing waits, that of the last batch. Fails as
    /// [`Db::write`], and what waits goes on to wait. After `Io` a crash may leave it.
    pub fn commit(&mut self) -> Result<u64, Refusal>
        ensures { Commits self.old (reply_of Number result) self.new }
    {
        let Some(batch) = &self.waiting else {
            return Ok(self.db.batch_count());
        };
        let number = self.db.write(batch)?;
        self.waiting = None;
        Ok(number)
    }

    /// Commits what waits, and makes all batches durable. Fails as [`commit`](BufferedDb::commit) and [`Db::sync`].
    pub fn sync(&mut self) -> Result<(), Refusal>
        ensures { Syncs self.old (reply_of (λ _. Done) result) self.new }
    {
        self.commit()?;
        self.db.sync()
    }

    /// The value of a key, `None` where it has none, with what waits, all of which is searched. Where an operation on the key waits, it
    /// fails only with `NoMemory`; else as [`Db::get`].
    pub fn get(&mut self, key: &[u8]) -> Result<Option<Vec<u8>>, Refusal>
        ensures waiting { (operation : Operation)
            → last_on key.now self.old.waiting ≡ Some operation
            → (self.new ≡ self.old)
            × UnlessNoMemory result (λ value. option_map (λ v. v.items) value ≡ operation.value) }
        ensures committed { last_on key.now self.old.waiting ≡ None
            → (self.new.waiting ≡ self.old.waiting)
            × Serves self.old.store (Get Now key.now)
            (reply_of (λ value. Value (option_map (λ v. v.items) value)) result)
            self.new.store }
    {
        match last_on(&self.waiting, key) {
            Some(operation) => Ok(copied(self.db.alloc(), operation.value)?),
            None => self.db.get(key),
        }
    }

    /// The store, and what waits: to read rows and for all else that a [`Db`] does, after a commit.
    pub fn into_parts(self) -> (Db<D>, Option<Batch>)
        ensures store { result.0 ≡ self.store }
        ensures waiting { operations_of result.1 ≡ self.waiting }
    {
        let BufferedDb { db, waiting } = self;
        (db, waiting)
    }
}
