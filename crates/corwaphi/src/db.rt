// A store that makes room by itself.
ghost use Rattle.std.specs.Prelude.{◌≡◌, ◌⊎◌, ℕ, false, None, Some, Err, MatchResult, IfErr, IfOk, IsTrue, option_map};
ghost use Rattle.lsm_codec.specs.Answers.{or_then, key_refusal, value_refusal};
ghost use Rattle.lsm_device.specs.Calls.{faults_after};
ghost use Rattle.lsm_device.specs.Disk.{seen};
ghost use Rattle.lsm_device.specs.Medium.{disk};
ghost use Rattle.lsm_device.specs.Refusals.{is_no_fault};
ghost use Rattle.lsm_root.specs.CrashState.{CrashState};
ghost use Rattle.lsm_open.specs.Image.{StandFor};
ghost use Rattle.lsm_open.specs.Recovering.{FailsToOpen, IsOpeningRefusal};
ghost use Rattle.lsm_open.specs.RefusedOpenings.{opening_refusal};
ghost use Rattle.lsm_root.specs.Layout.{IsDeviceSize};
ghost use Rattle.lsm_store.specs.Backing.{machine_of};
ghost use Rattle.lsm_machine.specs.Calls.{Get, Scan, Snapshot, Release, Sync, SyncTo, Number, Done, Value, Rows, reply_of};
ghost use Rattle.lsm_store.specs.Memory.{is_cache_size};
ghost use Rattle.lsm_machine.specs.RecoveryPoints.{batch_count};
ghost use Rattle.lsm_store.specs.Serving.{IsRefusedBehindSync, IsUncalled, Serves};
ghost use Rattle.lsm_store.specs.Stats.{stat_answer};
ghost use Rattle.lsm_machine.specs.declared.asked.At.TheVariants.{Now, Snap};
ghost use Rattle.lsm_upkeep.specs.Compacting.{is_compacted};
ghost use Rattle.lsm_upkeep.specs.Steps.{IsUpkept};
ghost use Rattle.lsm_upkeep.specs.Writing.{Writes};
ghost use Rattle.corwaphi.specs.Opening.{OpensDb};
ghost use Rattle.corwaphi.specs.Upkeep.{CompactsWhole};
ghost use Rattle.corwaphi.specs.Writing.{WritesOne};

use crate::opening::readied;
use crate::operating::{delete, put};
use crate::{OpenOnError, Options};
use lsm_codec::{Batch, Guard};
use lsm_device::{Device, Refusal};
use lsm_policy::Policy;
use lsm_store::{At, Page, Stat, Store};
use lsm_upkeep::{Upkeep, compact_all, keep_up, write};
use std::alloc::Global;
use std::marker::Model;

/// A store that makes room by itself: an ordered map from keys to values on a device.
///
/// Keys have 1 to 255 bytes and values at most 2,048. The next sync makes what was written durable. After a write or a sync of the
/// device has failed every call that can fail returns `Stopped`; then open the device ([`into_device`](Db::into_device)) again.
/// Contracts see it as the store that it is.
pub struct Db<D: Device> {
    alloc: Global,
    store: Store<D>,
    upkeep: Upkeep,
}

// One call at each exit of a caller.
impl<D: Device + Drop> Drop for Db<D> {
    fn drop(self) {
        let Db {
            alloc: _,
            store: _,
            upkeep: _,
        } = self;
    }
}

impl<D: Device> Model for Db<D> {
    ghost use Rattle.std.specs.Coded.{codes};
    ghost use Rattle.lsm_codec.specs.Map.{map_code};
    ghost use Rattle.lsm_store.specs.Backing.{StoreView};

    ghost Value = { StoreView };

    ghost coded = { Prim.hlevel (codes, map_code) };

    ghost view = { λ d. d.store };
}

impl<D: Device> Db<D> {
    /// Opens the store on a device, also after a crash, with the cache that the options say. A flush that waits is finished, and a log is
    /// opened where none is open, as far as there is room and memory for it: so openings with writes between them go on for ever.
    ///
    /// Fails as `Store::open`, with an error that holds refusal and device: with `BadLimit` for a cache outside 1 to 4,096 blocks, with
    /// `BadGeometry` for a device of another size than its store or outside the limits, with `NoMemory` and `Io`, and with `NotAStore`,
    /// `BadSuper`, `BadManifest`, `BadTable` or `Exhausted` for what the device holds.
    pub fn on<R: AllocGlobal>(rt: &R, device: D, options: Options) -> Result<Db<D>, OpenOnError<D>>
        ensures opens { IfOk result (λ db. OpensDb options.cache (D.medium device) db) }

        // Where it fails: with BadLimit for the cache before any device call, and else with what an opening fails with, for what the
        // device holds, NoMemory or Io. Nothing that a crash left is lost then.
        ensures size { IsTrue (is_cache_size options.cache)
            → (IsDeviceSize (D.medium device).size → ⊥)
            → result ≡ Err (record { refusal = Refusal.BadGeometry; device = device }) }
        ensures cache { is_cache_size options.cache ≡ false
            → result ≡ Err (record { refusal = Refusal.BadLimit; device = device }) }
        ensures refused { IsTrue (is_cache_size options.cache)
            → IfErr result (λ e. IsOpeningRefusal e.refusal) }
        ensures refusal { IsTrue (is_cache_size options.cache) → IsDeviceSize (D.medium device).size
            → IsTrue (D.medium device).lasting.tells → MatchResult result
            (λ db. opening_refusal (seen (disk (D.medium device))) ≡ None)
            (λ e. (opening_refusal (seen (disk (D.medium device))) ≡ Some e.refusal)
            ⊎ ((e.refusal ≡ Refusal.NoMemory) ⊎ (e.refusal ≡ Refusal.Io))) }
        ensures fails { IsTrue (is_cache_size options.cache) → (log_sectors : ℕ) (left : CrashState)
            → IsTrue (D.medium device).lasting.tells
            → StandFor log_sectors left (seen (disk (D.medium device)))
            → IfErr result (λ e. FailsToOpen (D.medium device) log_sectors left e.refusal
            (D.medium e.device)) }

        // The error is Io exactly where a device call faulted. It comes before any device call, or after a sync as the first one.
        ensures faults { IfErr result
            (λ e. (D.medium e.device).calls.faults
            ≡ faults_after (is_no_fault e.refusal) (D.medium device).calls.faults) }
        ensures called { IsTrue (is_cache_size options.cache) → IsDeviceSize (D.medium device).size
            → IfErr result (λ e. IsUncalled e.refusal (D.medium device) (D.medium e.device)
            ⊎ IsRefusedBehindSync (D.medium device) e.refusal (D.medium e.device)) }
        ensures same_size { IfErr result (λ e. (D.medium e.device).size ≡ (D.medium device).size) }
        ensures same_lasting { IfErr result
            (λ e. (D.medium e.device).lasting ≡ (D.medium device).lasting) }
    {
        match Store::open(rt.alloc(), device, options.cache) {
            Ok(store) => Ok(Db::of(rt.alloc(), readied(rt.alloc(), store))),
            Err((refusal, device)) => Err(OpenOnError { refusal, device }),
        }
    }

    fn of(alloc: Global, store: Store<D>) -> Db<D>
        ensures { result ≡ store }
    {
        Db {
            alloc,
            store,
            upkeep: Upkeep::new(),
        }
    }

    /// Adds a batch, whole or not at all, and returns its sequence number. The next sync makes it durable.
    ///
    /// A batch is taken only where its entries will find room in tables. Where room lacks, tables are merged down first, and where the log
    /// has no room another one is opened; so it may take longer, and sync. Fails with `Stopped`; with `NoSpace` where it puts values that
    /// find no room though all tables were merged down as far as they go, or where no log with room could be opened; with `Exhausted` where
    /// 2^63 batches were added; with `NoMemory`; and with `Io`. Of these only `Io` stops the store. A refused batch is not there, but after
    /// `Io` a crash may leave it. A batch of deletes finds room, unless a snapshot is live.
    pub fn write(&mut self, batch: &Batch) -> Result<u64, Refusal>
        ensures writes { Writes None batch.now self.old (reply_of Number result) self.new }
    {
        write(self.alloc, &mut self.store, &mut self.upkeep, None, batch)
    }

    /// Adds a batch where the present map meets each of these guards, and returns its sequence number. They are tested in the commit
    /// itself, after all that is done to make room.
    ///
    /// Fails as [`write`](Db::write); with `TooManyGuards` for more than 16; with `GuardFailed` and the place of the first guard that
    /// is false, counted from 0; and with `Io` or `BadTable` for a read, which leaves the store running. `NoSpace` comes before the
    /// guards are tested.
    pub fn write_if(&mut self, guards: &[Guard], batch: &Batch) -> Result<u64, Refusal>
        ensures writes { Writes (Some guards.now) batch.now self.old
            (reply_of Number result) self.new }
    {
        write(
            self.alloc,
            &mut self.store,
            &mut self.upkeep,
            Some(guards),
            batch,
        )
    }

    /// Puts a value under a key, and returns the sequence number of the batch. Fails with `BadKey` for a key outside 1 to 255 bytes,
    /// with `BadValue` for a value above 2,048 bytes, and as [`write`](Db::write).
    pub fn put(&mut self, key: &[u8], value: &[u8]) -> Result<u64, Refusal>
        ensures writes { WritesOne (or_then (key_refusal key.now) (value_refusal value.now))
            (record { key = key.now; value = Some value.now }) self.old
            (reply_of Number result) self.new }
    {
        put(self.alloc, &mut self.store, &mut self.upkeep, key, value)
    }

    /// Deletes a key, and returns the sequence number of the batch. Fails with `BadKey` for a key outside 1 to 255 bytes, and
    /// as [`write`](Db::write).
    pub fn delete(&mut self, key: &[u8]) -> Result<u64, Refusal>
        ensures writes { WritesOne (key_refusal key.now) (record { key = key.now; value = None })
            self.old (reply_of Number result) self.new }
    {
        delete(self.alloc, &mut self.store, &mut self.upkeep, key)
    }

    /// The value of a key, `None` where it has none.
    ///
    /// Fails with `Stopped`, with `BadKey` where the key has no byte or more than 255, with `Io`, with `BadTable` where a table on the
    /// device is invalid, and, where the key has a value, with `NoMemory`. That changes nothing.
    pub fn get(&mut self, key: &[u8]) -> Result<Option<Vec<u8>>, Refusal>
        ensures serves { Serves self.old (Get Now key.now)
            (reply_of (λ value. Value (option_map (λ v. v.items) value)) result) self.new }
    {
        self.store.get(At::Now, key)
    }

    /// The value that a key had when a snapshot was taken. Fails as [`get`](Db::get), and with `NoSuchSnapshot`, after `BadKey`.
    pub fn get_at(&mut self, snapshot: u64, key: &[u8]) -> Result<Option<Vec<u8>>, Refusal>
        ensures serves { Serves self.old (Get (Snap snapshot) key.now)
            (reply_of (λ value. Value (option_map (λ v. v.items) value)) result) self.new }
    {
        self.store.get(At::Snap(snapshot), key)
    }

    /// The first `limit` rows in the order of keys, from the key `from` on, up to the key `to` where one is given, which is outside.
    ///
    /// Fails with `Stopped`, with `BadLimit` for a `limit` outside 1 to 64, with `BadRange` where `from` is above `to`, with
    /// `NoSuchSnapshot`, with `Io`, with `BadTable` where a table on the device is invalid, and with `NoMemory`. That changes nothing.
    pub fn page(
        &mut self,
        at: At,
        from: &[u8],
        to: Option<&[u8]>,
        limit: u64,
    ) -> Result<Page, Refusal>
        ensures serves { Serves self.old
            (Scan at from.now (option_map (λ to. to.now) to.entry) limit)
            (reply_of Rows result) self.new }
    {
        self.store.scan(at, from, to, limit)
    }

    /// Takes a snapshot of the present map, and returns its number. It lives until it is released, or the store is closed.
    ///
    /// Fails with `Stopped`, with `TooManySnapshots` where 32 are live, with `Exhausted` where 2^63 were taken, and with
    /// `NoMemory`.
    pub fn snapshot(&mut self) -> Result<u64, Refusal>
        ensures serves { Serves self.old Snapshot (reply_of Number result) self.new }
    {
        self.store.snapshot()
    }

    /// Forgets the snapshot of a number, which is not given again. Fails with `Stopped` and with `NoSuchSnapshot`.
    pub fn release(&mut self, snapshot: u64) -> Result<(), Refusal>
        ensures serves { Serves self.old (Release snapshot) (reply_of (λ _. Done) result) self.new }
    {
        self.store.release(snapshot)
    }

    /// Makes all batches durable, with one sync of the device. Fails with `Stopped`, and with `Io`, which stops the store.
    pub fn sync(&mut self) -> Result<(), Refusal>
        ensures serves { Serves self.old Sync (reply_of (λ _. Done) result) self.new }
    {
        self.store.sync()
    }

    /// Makes the batches up to this sequence number durable: with one sync of the device, or none where they already are. Fails with
    /// `Stopped`, with `NoSuchBatch` where the number is above the last batch's, and with `Io`, which stops the store.
    pub fn sync_to(&mut self, number: u64) -> Result<(), Refusal>
        ensures serves { Serves self.old (SyncTo number) (reply_of (λ _. Done) result) self.new }
    {
        self.store.sync_to(number)
    }

    /// The numbers of the store. Fails with `Stopped`.
    pub fn stat(&self) -> Result<Stat, Refusal>
        ensures { result ≡ stat_answer (machine_of self.now) }
    {
        self.store.stat()
    }

    /// How many batches there are, which is the last one's sequence number: also of a stopped store.
    pub fn batch_count(&self) -> u64
        ensures { result ≡ batch_count self.now.state.points }
    {
        self.store.batch_count()
    }

    /// Merges all tables into the last level, where deletes have nothing more to delete and small tables are joined. Returns whether all
    /// are there then. What is in memory stays there. A merge that fails is skipped: the store goes on as it then is.
    pub fn compact(&mut self) -> bool
        ensures compacts { CompactsWhole self.old self.new }
        ensures upkept { IsUpkept self.old self.new }
        ensures compacted { result ≡ is_compacted (machine_of self.new) }
    {
        self.upkeep.finish_begun(self.alloc, &mut self.store);
        keep_up(self.alloc, &mut self.store, &Policy::new());
        compact_all(self.alloc, &mut self.store)
    }

    // That of which keys are copied.
    pub(crate) fn alloc(&self) -> Global {
        self.alloc
    }

    /// Gives the device back, also of a stopped store. What was not synced may be lost in a crash.
    pub fn into_device(self) -> D
        ensures { D.medium result ≡ self.device }
    {
        let Db {
            alloc: _,
            store,
            upkeep: _,
        } = self;
        store.into_device()
    }
}
