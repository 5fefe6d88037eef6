// An open log: how it begins, what it says of itself, and what is kept of it whoever calls the device.
ghost use Rattle.std.specs.Prelude.{◌≡◌, ◌<◌, ◌≤◌, ◌^◌, ◌+◌, [], ℕ, List, length, false, All, sum_by, replicate};
ghost use Rattle.lsm_codec.specs.BatchText.{IsBatch, sectors_of};
ghost use Rattle.lsm_device.specs.Areas.{IsOutside, area, disk_in};
ghost use Rattle.lsm_device.specs.Disk.{Disk, Write, seen, synced};
ghost use Rattle.lsm_device.specs.Outcomes.{Leaves};
ghost use Rattle.lsm_device.specs.Runs.{grown};
ghost use Rattle.lsm_log.specs.Batches.{IsBetween};
ghost use Rattle.lsm_log.specs.declared.log.Log.{Log as LogOf};
ghost use Rattle.lsm_log.specs.Opened.{IsOpen, IsFree, HasNoneAbove, NoneAboveIn, IsGrownBy, AreNumbers, batches_in, is_above};

use crate::Log;

impl Log {
    /// A log with no batch yet, of the sectors from `start` on. The region must be free: no sector of the epoch is
    /// there, and nothing pends. Epoch and first number are at least 1, the epoch at most 2^63, the number one more.
    pub fn new(start: u32, sectors: u32, epoch: u64, first: u64) -> Log
        requires { start + sectors < 2 ^ 32 }
        ensures open { AreNumbers epoch first 0 → (d : Disk) → IsFree start sectors epoch d
            → IsOpen result d }
        ensures none { (d : Disk) → IsFree start sectors epoch d → batches_in result (seen d) ≡ [] }
        ensures region { (result.start ≡ start) × (result.sectors ≡ sectors) }
        ensures numbers { (result.epoch ≡ epoch) × (result.first ≡ first) × (result.next ≡ first) }
        ensures empty { result.used ≡ 0 }
    {
        Log {
            start,
            sectors,
            epoch,
            first,
            next: first,
            used: 0,
        }
    }

    /// The first sector of the region.
    pub fn start(&self) -> u32
        ensures { result ≡ self.now.start }
    {
        self.start
    }

    /// How many sectors the region has.
    pub fn sectors(&self) -> u32
        ensures { result ≡ self.now.sectors }
    {
        self.sectors
    }

    /// The epoch of the log's sectors.
    pub fn epoch(&self) -> u64
        ensures { result ≡ self.now.epoch }
    {
        self.epoch
    }

    /// The number that the first batch has or will have.
    pub fn first(&self) -> u64
        ensures { result ≡ self.now.first }
    {
        self.first
    }

    /// The number that the next batch will have.
    pub fn next(&self) -> u64
        ensures { result ≡ self.now.next }
    {
        self.next
    }

    /// How many sectors the batches so far take.
    pub fn used(&self) -> u32
        ensures value { result ≡ self.now.used }
        ensures within { result ≤ self.now.sectors }
    {
        self.used
    }

    /// What holds of an open log, whoever calls the device.
    pub fn laws(&self)
        // A crash leaves all durable batches, and of the others a prefix.
        ensures crash { (d : Disk) → IsOpen self.now d →
            Leaves (λ image. IsBetween (batches_in self.now d.stands) (batches_in self.now (seen d))
            (batches_in self.now image)) d }

        // The log counts what reads return.
        ensures next { (d : Disk) → IsOpen self.now d
            → self.now.next ≡ self.now.first + length (batches_in self.now (seen d)) }
        ensures used { (d : Disk) → IsOpen self.now d
            → self.now.used ≡ sum_by sectors_of (batches_in self.now (seen d)) }
        ensures whole { (d : Disk) → IsOpen self.now d
            → All IsBatch (batches_in self.now (seen d)) }

        // A sync makes all batches durable; the log stays open.
        ensures sync { (d : Disk) → IsOpen self.now d → IsOpen self.now (synced d) }

        // Writes outside the region change nothing.
        ensures elsewhere { (d : Disk) → IsOpen self.now d
            → (ws : List Write) → All (IsOutside self.now.start self.now.sectors) ws
            → IsOpen self.now (grown ws d)
            × (batches_in self.now (seen (grown ws d)) ≡ batches_in self.now (seen d)) }

        // It stays open while its region stays as it was, whatever became of the rest of the device.
        ensures same_region { (old new : Disk) → IsOpen self.now old
            → length new.stands ≡ length old.stands
            → disk_in self.now.start self.now.sectors new
            ≡ disk_in self.now.start self.now.sectors old
            → IsOpen self.now new
            × (batches_in self.now (seen new) ≡ batches_in self.now (seen old))
            × (batches_in self.now new.stands ≡ batches_in self.now old.stands) }

        // So it does where its region was synced, and then all its batches are durable.
        ensures synced_region { (old new : Disk) → IsOpen self.now old
            → length new.stands ≡ length old.stands
            → disk_in self.now.start self.now.sectors new
            ≡ synced (disk_in self.now.start self.now.sectors old)
            → IsOpen self.now new
            × (batches_in self.now (seen new) ≡ batches_in self.now (seen old))
            × (batches_in self.now new.stands ≡ batches_in self.now (seen old)) }
    {}
}

/// What holds of the epochs of an area of log regions, whoever calls the device. A region where nothing pends is free for
/// every epoch above those of its sectors, and a sector of zeros is of none.
pub fn epoch_laws()
    ensures free { (generation from count start sectors epoch : ℕ) (d : Disk)
        → HasNoneAbove generation (area from count d.stands) → from ≤ start
        → start + sectors ≤ from + count
        → generation < epoch → (disk_in start sectors d).pending ≡ []
        → start + sectors ≤ length d.stands
        → IsFree start sectors epoch d }
    ensures blank { (generation : ℕ) → is_above generation (replicate 512 0) ≡ false }
    ensures later { (low high : ℕ) (sectors : List (List ℕ)) → low ≤ high → HasNoneAbove low sectors
        → HasNoneAbove high sectors }

    // Crashes and syncs bring no other epoch, nor do writes elsewhere, nor a log whose epoch is not above.
    ensures crash { (generation from count : ℕ) (d : Disk) → NoneAboveIn generation from count d
        → Leaves (λ image. HasNoneAbove generation (area from count image)) d }
    ensures sync { (generation from count : ℕ) (d : Disk) → NoneAboveIn generation from count d
        → NoneAboveIn generation from count (synced d) }
    ensures elsewhere { (generation from count : ℕ) (d : Disk) (ws : List Write)
        → NoneAboveIn generation from count d
        → All (IsOutside from count) ws → NoneAboveIn generation from count (grown ws d) }
    ensures by_log { (generation from count : ℕ) (d new : Disk) (log : LogOf)
        → NoneAboveIn generation from count d
        → log.epoch ≤ generation → IsGrownBy log d new → NoneAboveIn generation from count new }
{}
