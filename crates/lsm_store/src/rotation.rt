// A rotation: the open log is closed and a new one opened, and memory is sealed, so that a flush can put it into tables.
ghost use Rattle.std.specs.Prelude.{◌≡◌, ◌<◌, ◌≤◌, ◌^◌, [], Some, None, option_map, IsTrue, IfOk, IfErr, OnOk, OnErr};
ghost use Rattle.std.specs.Arc.{arc_value};
ghost use Rattle.lsm_cache.specs.Recency.{Cached};
ghost use Rattle.lsm_device.specs.Calls.{AtMost};
ghost use Rattle.lsm_device.specs.Refusals.{is_no_fault};
ghost use Rattle.lsm_open.specs.Layout.{layout_of};
ghost use Rattle.lsm_open.specs.Placements.{contents_for};
ghost use Rattle.lsm_open.specs.Recovering.{placed_in};
ghost use Rattle.lsm_open.specs.Switching.{IsRotated};
ghost use Rattle.lsm_open.specs.ToldTables.{records_of};
ghost use Rattle.lsm_machine.specs.Calls.{Rotate, Done, reply_of};
ghost use Rattle.lsm_store.specs.Memory.{AreConsistent, IsInside, LieWithin, numbered_layout, state_of, view_of};
ghost use Rattle.lsm_machine.specs.RecoveryPoints.{batch_count};
ghost use Rattle.lsm_machine.specs.Refusals.{refusal};
ghost use Rattle.lsm_store.specs.Serving.{Serves};

use crate::memory::Memory;
use lsm_device::{Device, Refusal};
use lsm_levels::Levels;
use lsm_mem::Mem;
use lsm_open::{Regions, table_records};
use lsm_root::NextRoot;
use std::alloc::Allocator;
use std::mem::replace;

// The root of the generation of these regions, whose manifest names the tables of levels. It takes all memory that its
// installation needs.
fn next_root<A: Allocator + Clone>(
    regions: &Regions<A>,
    levels: &Levels<A>,
    sectors: u32,
) -> Result<NextRoot<A>, Refusal>
    requires { LieWithin sectors (layout_of regions.now) levels.now }
    ensures root { IfOk result (λ root. root ≡ record {
      size = sectors;
      log = regions.now.log_sectors;
      manifest = contents_for
          (placed_in (layout_of regions.now) levels.now (records_of levels.now));
    }) }
    ensures refused { IfErr result (λ e. e ≡ Refusal.NoMemory) }
{
    let alloc = regions.closed.allocator();
    let records = table_records(alloc.clone()?, levels)?;
    let runs = levels.runs().len() as u8;
    let manifest = regions.manifest(alloc.clone()?, runs, &records)?;
    NextRoot::prepare(alloc.clone()?, sectors, regions.log_sectors, &manifest)
}

impl<A: Allocator + Clone> Memory<A> {
    // The regions after a rotation. The next manifest has the present number of the next table.
    fn rotated_regions(&self) -> Result<Regions<A>, Refusal>
        requires waits { self.now.regions.closed.items ≡ [] }
        requires log_high { self.now.regions.log_sectors ≤ 2048 }
        requires generation_high { self.now.regions.generation < 2 ^ 63 }
        requires count_high { self.now.count ≤ 2 ^ 63 }
        ensures regions { IfOk result
            (λ next. IsRotated (numbered_layout self.now) self.now.count (layout_of next)) }
        ensures refused { IfErr result (λ e. e ≡ Refusal.NoMemory) }
    {
        let alloc = self.allocator().clone()?;
        let mut next = self.regions.rotated(alloc, self.count)?;
        next.next_table = self.next_table;
        Ok(next)
    }

    // Seals memory, and begins an empty one. Where memory is refused, nothing has changed.
    fn seal(&mut self) -> Result<(), Refusal>
        ensures sealed { OnOk result (option_map arc_value self.new.sealed ≡ Some self.old.mem) }
        ensures begun { OnOk result
            (self.new ≡ record self.old { mem = []; sealed = self.new.sealed }) }
        ensures unchanged { OnErr result (self.new ≡ self.old) }
        ensures refused { IfErr result (λ e. e ≡ Refusal.NoMemory) }
    {
        let begun = Mem::new(self.allocator().clone()?)?;
        let full = replace(&mut self.mem, begun);
        match full.seal() {
            Ok(sealed) => {
                self.sealed = Some(sealed);
                Ok(())
            }
            Err(full) => {
                self.mem = full;
                Err(Refusal::NoMemory)
            }
        }
    }
}

/// Closes the open log, if one is open, opens a new one and seals memory. All batches are synced.
pub(crate) fn rotate<D: Device, A: Allocator + Clone>(
    device: &mut D,
    memory: &mut Memory<A>,
) -> Result<(), Refusal>
    requires kept { AreConsistent memory.old }
    requires inside { IsInside (D.medium device.old).size memory.old }
    ensures serves { (cache : Cached)
        → Serves (view_of (D.medium device.old) memory.old cache) Rotate
        (reply_of (λ _. Done) result) (view_of (D.medium device.new) memory.new cache) }
    ensures numbered { OnOk result (memory.new.regions.next_table ≡ memory.old.next_table) }
    ensures opens { OnOk result
        (IsRotated (numbered_layout memory.old) (batch_count (state_of memory.old).points)
        (layout_of memory.new.regions)) }

    // Unless a call of the device failed, nothing has changed: all memory is taken before.
    ensures untouched { IfErr result
        (λ e. IsTrue (is_no_fault e) → (memory.new ≡ memory.old) × (device.new ≡ device.old)) }
    ensures calls { AtMost 0 42 2 (D.medium device.old).calls (D.medium device.new).calls }
    ensures kept { AreConsistent memory.new }
    ensures inside { IsInside (D.medium device.new).size memory.new }
{
    memory.check_rotate()?;
    let regions = memory.rotated_regions()?;
    let root = next_root(&regions, &memory.levels, device.sectors())?;
    memory.seal()?;
    match root.install(device) {
        Ok(()) => {
            memory.rotate_to(regions);
            Ok(())
        }
        Err(_) => {
            memory.stop_in_rotation();
            Err(Refusal::Io)
        }
    }
}
