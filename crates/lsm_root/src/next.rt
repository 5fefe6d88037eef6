// The next root is prepared, and then written.
ghost use Rattle.std.specs.Prelude.{◌≡◌, ◌⊎◌, ◌↔◌, ◌<◌, ◌≤◌, ◌^◌, ◌+◌, IsTrue, IfOk, OnOk, OnErr, IfErr, Err, is_ok};
ghost use Rattle.lsm_codec.specs.Manifests.{IsManifestOf, sector_count};
ghost use Rattle.lsm_codec.specs.declared.superblock.FormatVersion.TheVariants.{Two};
ghost use Rattle.lsm_device.specs.Calls.{faults_after, AtMost};
ghost use Rattle.lsm_device.specs.History.{EachSince};
ghost use Rattle.lsm_device.specs.Disk.{seen};
ghost use Rattle.lsm_device.specs.Medium.{disk};
ghost use Rattle.lsm_device.specs.Outcomes.{Leaves};
ghost use Rattle.lsm_device.specs.Refusals.{faultless, is_no_fault};
ghost use Rattle.lsm_root.specs.Counted.{CallsMade};
ghost use Rattle.lsm_root.specs.Installed.{IsReady, IsOldOrNew, IsInstalled, KeepsBehind, KeepsOthers};
ghost use Rattle.lsm_root.specs.Layout.{IsGeometry, LieInside};
ghost use Rattle.lsm_root.specs.Roots.{Stands};

use crate::writer::switch;
use lsm_codec::{FormatVersion, LAST_NUMBER, Manifest, Superblock};
use lsm_device::{Device, Fault, Refusal};
use std::alloc::{Allocator, Global};
use std::marker::Model;

/// The root of the next generation, with all that is to be written of it, in version 2 of the format. Contracts see the size of the
/// device, LOG and what the manifest says.
#[derive(Drop)]
pub struct NextRoot<A: Allocator = Global> {
    superblock: Superblock,
    text: Vec<u8, A>,
}

impl<A: Allocator> Model for NextRoot<A> {
    ghost use Rattle.lsm_root.specs.Planned.{Planned, planned, IsPrepared};

    ghost Value = { Planned };

    ghost view = { λ r. planned r.superblock r.text.items };

    ghost invariant = { λ r. IsPrepared r.superblock r.text.items };
}

impl<A: Allocator> NextRoot<A> {
    /// Takes all memory that the installation of the manifest's root needs, for a device of `sectors` sectors. Up to generation 2^63
    /// the manifest must be within its limits, each record with the deletes of its table, and the tables in the data area. No device is
    /// called. `Exhausted` exactly where the generation is above 2^63; else the only error is `NoMemory`.
    pub fn prepare(
        alloc: A,
        sectors: u32,
        log_sectors: u16,
        manifest: &Manifest<A>,
    ) -> Result<NextRoot<A>, Refusal>
        requires geometry { IsGeometry sectors log_sectors }
        requires valid { manifest.now.generation ≤ 2 ^ 63 → IsManifestOf Two manifest.now }
        requires inside { manifest.now.generation ≤ 2 ^ 63
            → LieInside sectors log_sectors manifest.now.tables }
        ensures prepared { IfOk result
            (λ next. next ≡ record { size = sectors; log = log_sectors; manifest = manifest.now }) }
        ensures exhausted { (result ≡ Err Refusal.Exhausted) ↔ (2 ^ 63 < manifest.now.generation) }
        ensures refused { IfErr result
            (λ refusal. (refusal ≡ Refusal.Exhausted) ⊎ (refusal ≡ Refusal.NoMemory)) }
    {
        let generation = manifest.generation();
        if generation > LAST_NUMBER {
            return Err(Refusal::Exhausted);
        }
        let text = manifest.encode(alloc)?;
        let superblock = Superblock {
            version: FormatVersion::Two,
            generation,
            sectors,
            log_sectors,
            manifest_sectors: manifest.sectors(),
        };
        Ok(NextRoot { superblock, text })
    }

    /// Replaces the device's root by this one: the manifest's sectors, which are at most 41, a sync, the superblock, a sync.
    /// A crash at any moment leaves the old root, which may be of version 1, or this one, where its generation comes next. It
    /// takes no memory.
    pub fn install<D: Device>(&self, device: &mut D) -> Result<(), Fault>
        requires same_device { (D.medium device.old).size ≡ self.now.size }

        // Where its generation comes next, a crash at any moment leaves the old root, and after it what a crash may have left
        // when the call began, or this root, and then all that pended is durable.
        ensures any_moment { IsTrue (D.medium device.old).lasting.tells
            → IsReady (D.medium device.old).size self.now.log self.now.manifest.generation
            (disk (D.medium device.old)) → EachSince
            (Leaves (IsOldOrNew (disk (D.medium device.old))
            (Stands self.now.log self.now.manifest)))
            (D.medium device.old).history (D.medium device.new).history }

        // After the root's sectors nothing is written, but what pended may become durable.
        ensures behind { IsTrue (D.medium device.old).lasting.tells
            → IsReady (D.medium device.old).size self.now.log self.now.manifest.generation
            (disk (D.medium device.old)) → EachSince (KeepsBehind (disk (D.medium device.old)))
            (D.medium device.old).history (D.medium device.new).history }
        ensures installed { IsTrue (D.medium device.old).lasting.tells
            → IsReady (D.medium device.old).size self.now.log self.now.manifest.generation
            (disk (D.medium device.old)) → OnOk result
            (IsInstalled (disk (D.medium device.old)) (Stands self.now.log self.now.manifest)
            (disk (D.medium device.new))) }

        // It writes its superblock and the sectors of its manifest alone.
        ensures others { IsTrue (D.medium device.old).lasting.tells → OnOk result
            (KeepsOthers self.now.manifest (seen (disk (D.medium device.old)))
            (disk (D.medium device.new)).stands) }

        // The next generation may be installed.
        ensures next { IsTrue (D.medium device.old).lasting.tells
            → IsReady (D.medium device.old).size self.now.log self.now.manifest.generation
            (disk (D.medium device.old)) → OnOk result
            (IsReady (D.medium device.new).size self.now.log (self.now.manifest.generation + 1)
            (disk (D.medium device.new))) }
        ensures counts { AtMost 0 42 2 (D.medium device.old).calls (D.medium device.new).calls }
        ensures made { OnOk result
            (CallsMade (sector_count self.now.manifest + 1) 2 (D.medium device.old).calls
            (D.medium device.new).calls) }
        ensures faults { (D.medium device.new).calls.faults
            ≡ faults_after (is_ok result) (D.medium device.old).calls.faults }
        ensures stops { OnErr result (IsTrue (D.medium device.new).calls.last_faulted) }
        ensures same_size { (D.medium device.new).size ≡ (D.medium device.old).size }
        ensures same_lasting { (D.medium device.new).lasting ≡ (D.medium device.old).lasting }
    {
        let superblock = &self.superblock;
        let sector = superblock.encode();
        switch(
            device,
            superblock.generation,
            &self.text,
            superblock.manifest_sectors,
            &sector,
        )?;
        Ok(())
    }
}

/// Prepares the manifest's root and installs it. A crash at any moment leaves the old root or the new one. `Exhausted` comes
/// before any device call, exactly where the generation is above 2^63.
pub fn install<A: Allocator, D: Device>(
    alloc: A,
    device: &mut D,
    log_sectors: u16,
    manifest: &Manifest<A>,
) -> Result<(), Refusal>
    requires geometry { IsGeometry (D.medium device.old).size log_sectors }
    requires ready { IsTrue (D.medium device.old).lasting.tells
        → IsReady (D.medium device.old).size log_sectors manifest.now.generation
        (disk (D.medium device.old)) }
    requires valid { manifest.now.generation ≤ 2 ^ 63 → IsManifestOf Two manifest.now }
    requires inside { manifest.now.generation ≤ 2 ^ 63
        → LieInside (D.medium device.old).size log_sectors manifest.now.tables }

    // A crash at any moment leaves the old root, and after it what a crash may have left when the call began, or the
    // new root, and then all that pended is durable.
    ensures any_moment { IsTrue (D.medium device.old).lasting.tells → EachSince
        (Leaves (IsOldOrNew (disk (D.medium device.old)) (Stands log_sectors manifest.now)))
        (D.medium device.old).history (D.medium device.new).history }

    // After the root's sectors nothing is written, but what pended may become durable.
    ensures behind { IsTrue (D.medium device.old).lasting.tells
        → EachSince (KeepsBehind (disk (D.medium device.old)))
        (D.medium device.old).history (D.medium device.new).history }
    ensures installed { IsTrue (D.medium device.old).lasting.tells → OnOk result
        (IsInstalled (disk (D.medium device.old)) (Stands log_sectors manifest.now)
        (disk (D.medium device.new))) }

    // The next generation may be installed.
    ensures next { IsTrue (D.medium device.old).lasting.tells → OnOk result
        (IsReady (D.medium device.new).size log_sectors (manifest.now.generation + 1)
        (disk (D.medium device.new))) }
    ensures exhausted { (result ≡ Err Refusal.Exhausted) ↔ (2 ^ 63 < manifest.now.generation) }
    ensures refused { IfErr result
        (λ refusal. (refusal ≡ Refusal.Exhausted)
        ⊎ ((refusal ≡ Refusal.NoMemory) ⊎ (refusal ≡ Refusal.Io))) }

    // Unless a call of it failed, the device wasn't called.
    ensures untouched { IfErr result
        (λ refusal. IsTrue (is_no_fault refusal) → device.new ≡ device.old) }
    ensures counts { AtMost 0 42 2 (D.medium device.old).calls (D.medium device.new).calls }
    ensures made { OnOk result
        (CallsMade (sector_count manifest.now + 1) 2 (D.medium device.old).calls
        (D.medium device.new).calls) }
    ensures faults { (D.medium device.new).calls.faults
        ≡ faults_after (faultless result) (D.medium device.old).calls.faults }
    ensures stops { IfErr result
        (λ refusal. refusal ≡ Refusal.Io → IsTrue (D.medium device.new).calls.last_faulted) }
    ensures same_size { (D.medium device.new).size ≡ (D.medium device.old).size }
    ensures same_lasting { (D.medium device.new).lasting ≡ (D.medium device.old).lasting }
{
    let next = NextRoot::prepare(alloc, device.sectors(), log_sectors, manifest)?;
    next.install(device)?;
    Ok(())
}
