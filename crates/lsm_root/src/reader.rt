// The root is read.
ghost use Rattle.std.specs.Prelude.{◌≡◌, ◌⊎◌, ◌≤◌, ◌+◌, ◌^◌, IsTrue, IfOk, IfErr, Some};
ghost use Rattle.lsm_codec.specs.Manifests.{IsManifest, manifest_of};
ghost use Rattle.lsm_codec.specs.Superblocks.{IsSuperblock};
ghost use Rattle.lsm_device.specs.Areas.{area};
ghost use Rattle.lsm_device.specs.Calls.{faults_after, AtMost};
ghost use Rattle.lsm_device.specs.Disk.{seen};
ghost use Rattle.lsm_device.specs.Medium.{disk};
ghost use Rattle.lsm_device.specs.Refusals.{faultless};
ghost use Rattle.lsm_root.specs.Layout.{IsGeometry, LieInside};
ghost use Rattle.lsm_root.specs.Loaded.{Tells, TellsSuperblock, TellsCounted, TellsManifest, Reads, refusal_of};
ghost use Rattle.lsm_root.specs.Installed.{IsNext};
ghost use Rattle.lsm_root.specs.Pieces.{joined};
ghost use Rattle.lsm_root.specs.Roots.{Root, Names, reading_of, in_slot, may_follow, follows, newer, superblock_in, root_with, root_of};

use crate::inside::lie_inside;
use crate::writer::{AREA_SECTORS, SUPERBLOCKS};
use lsm_codec::{FormatVersion, Manifest, Superblock};
use lsm_device::{Device, Refusal};
use std::alloc::{Allocator, Global};

const BLANK: [u8; 512] = [0; 512];

/// What a store is loaded from.
#[derive(Drop)]
pub struct Loaded<A: Allocator = Global> {
    /// The sectors of one log region.
    pub log_sectors: u16,
    pub manifest: Manifest<A>,
}

// The superblock in a sector, if it isn't blank.
fn superblock_in(sector: &[u8; 512], slot: u64) -> Result<Option<Superblock>, Refusal>
    ensures { Reads (in_slot slot (reading_of sector.now)) result }
{
    if *sector == BLANK {
        return Ok(None);
    }
    let Some(superblock) = Superblock::decode(sector) else {
        return Err(Refusal::BadSuper);
    };
    if superblock.generation % 2 != slot {
        return Err(Refusal::BadSuper);
    }
    Ok(Some(superblock))
}

// Whether a version may come after another: version 1 doesn't come after version 2.
fn may_follow(earlier: FormatVersion, later: FormatVersion) -> bool
    ensures { result ≡ may_follow earlier later }
{
    match earlier {
        FormatVersion::One => true,
        FormatVersion::Two => match later {
            FormatVersion::One => false,
            FormatVersion::Two => true,
        },
    }
}

// Whether the later superblock follows.
fn is_followed_by(superblock: &Superblock, later: &Superblock) -> bool
    requires { superblock.now.generation ≤ 2 ^ 63 }
    ensures { result ≡ follows superblock.now later.now }
{
    later.generation == superblock.generation + 1
        && (later.sectors == superblock.sectors
            && (later.log_sectors == superblock.log_sectors
                && may_follow(superblock.version, later.version)))
}

// The newer of the two valid superblocks, or the lone one.
fn newer(even: &[u8; 512], odd: &[u8; 512]) -> Result<Superblock, Refusal>
    ensures { TellsSuperblock
        (newer (in_slot 0 (reading_of even.now)) (in_slot 1 (reading_of odd.now))) result }
{
    let even = superblock_in(even, 0)?;
    let odd = superblock_in(odd, 1)?;
    match (even, odd) {
        (None, None) => Err(Refusal::NotAStore),
        (Some(lone), None) | (None, Some(lone)) => Ok(lone),
        (Some(even), Some(odd)) => {
            if is_followed_by(&odd, &even) {
                Ok(even)
            } else if is_followed_by(&even, &odd) {
                Ok(odd)
            } else {
                Err(Refusal::BadSuper)
            }
        }
    }
}

// Reads both superblocks, and returns the one that counts.
fn read_superblock<D: Device>(device: &mut D) -> Result<Superblock, Refusal>
    requires large { 2 ≤ (D.medium device.old).size }
    ensures told { IsTrue (D.medium device.old).lasting.tells
        → TellsCounted (superblock_in (seen (disk (D.medium device.old)))) result }
    ensures fits { IfOk result IsSuperblock }
    ensures refused { IfErr result
        (λ refusal. (refusal ≡ Refusal.Io)
        ⊎ ((refusal ≡ Refusal.NotAStore) ⊎ (refusal ≡ Refusal.BadSuper))) }
    ensures unchanged { IsTrue (D.medium device.old).lasting.tells
        → (D.medium device.new).history ≡ (D.medium device.old).history }
    ensures counts { AtMost 2 0 0 (D.medium device.old).calls (D.medium device.new).calls }
    ensures faults { (D.medium device.new).calls.faults
        ≡ faults_after (faultless result) (D.medium device.old).calls.faults }
    ensures stops { IfErr result
        (λ refusal. refusal ≡ Refusal.Io → IsTrue (D.medium device.new).calls.last_faulted) }
    ensures same_size { (D.medium device.new).size ≡ (D.medium device.old).size }
    ensures same_lasting { (D.medium device.new).lasting ≡ (D.medium device.old).lasting }
{
    let mut even = BLANK;
    device.read(0, &mut even)?;
    let mut odd = BLANK;
    device.read(1, &mut odd)?;
    let superblock = newer(&even, &odd)?;
    Ok(superblock)
}

// Reads the superblock that counts; `BadGeometry` where it is not of a device of this size.
fn own_superblock<D: Device>(device: &mut D) -> Result<Superblock, Refusal>
    ensures told { IsTrue (D.medium device.old).lasting.tells
        → IfOk result (λ s. superblock_in (seen (disk (D.medium device.old))) ≡ Names s) }
    ensures why { IsTrue (D.medium device.old).lasting.tells → IfErr result (λ refusal.
        (refusal_of (root_of (seen (disk (D.medium device.old)))) ≡ Some refusal)
        ⊎ ((refusal ≡ Refusal.NoMemory) ⊎ (refusal ≡ Refusal.Io))) }
    ensures fits { IfOk result IsSuperblock }
    ensures sized { IfOk result (λ s. s.sectors ≡ (D.medium device.old).size) }
    ensures refused { IfErr result
        (λ refusal. ((root : Root) × (refusal_of root ≡ Some refusal))
        ⊎ ((refusal ≡ Refusal.NoMemory) ⊎ (refusal ≡ Refusal.Io))) }
    ensures unchanged { IsTrue (D.medium device.old).lasting.tells
        → (D.medium device.new).history ≡ (D.medium device.old).history }
    ensures counts { AtMost 2 0 0 (D.medium device.old).calls (D.medium device.new).calls }
    ensures faults { (D.medium device.new).calls.faults
        ≡ faults_after (faultless result) (D.medium device.old).calls.faults }
    ensures stops { IfErr result
        (λ refusal. refusal ≡ Refusal.Io → IsTrue (D.medium device.new).calls.last_faulted) }
    ensures same_size { (D.medium device.new).size ≡ (D.medium device.old).size }
    ensures same_lasting { (D.medium device.new).lasting ≡ (D.medium device.old).lasting }
{
    if device.sectors() < SUPERBLOCKS {
        return Err(Refusal::BadGeometry); // There is no room for two superblocks.
    }
    let superblock = read_superblock(device)?;
    if superblock.sectors != device.sectors() {
        return Err(Refusal::BadGeometry); // It is for a device of another size.
    }
    Ok(superblock)
}

// The bytes of sectors, one after the other, read by one call of the device.
fn read_text<A: Allocator + Clone, D: Device>(
    alloc: &A,
    device: &mut D,
    at: u32,
    sectors: u16,
) -> Result<Vec<u8, A>, Refusal>
    requires some { 1 ≤ sectors }
    requires within { at + sectors ≤ (D.medium device.old).size }
    ensures bytes { IsTrue (D.medium device.old).lasting.tells → IfOk result (λ text.
        text.items ≡ joined (area at sectors (seen (disk (D.medium device.old))))) }
    ensures unchanged { IsTrue (D.medium device.old).lasting.tells
        → (D.medium device.new).history ≡ (D.medium device.old).history }
    ensures refused { IfErr result
        (λ refusal. (refusal ≡ Refusal.NoMemory) ⊎ (refusal ≡ Refusal.Io)) }
    ensures counts { AtMost sectors 0 0 (D.medium device.old).calls (D.medium device.new).calls }
    ensures faults { (D.medium device.new).calls.faults
        ≡ faults_after (faultless result) (D.medium device.old).calls.faults }
    ensures stops { IfErr result
        (λ refusal. refusal ≡ Refusal.Io → IsTrue (D.medium device.new).calls.last_faulted) }
    ensures same_size { (D.medium device.new).size ≡ (D.medium device.old).size }
    ensures same_lasting { (D.medium device.new).lasting ≡ (D.medium device.old).lasting }
{
    let mut text = vec![in alloc.clone()?; 0; 512 * sectors as usize]?;
    device.read_run(at, &mut text)?;
    Ok(text)
}

// Decodes and checks the manifest text that the superblock names.
fn loaded_from<A: Allocator + Clone>(
    alloc: A,
    superblock: &Superblock,
    text: &[u8],
) -> Result<Loaded<A>, Refusal>
    requires fits { IsSuperblock superblock.now }
    ensures told { TellsManifest
        (root_with superblock.now (manifest_of superblock.now.version text.now)) result }
    ensures fits { IfOk result
        (λ l. IsGeometry superblock.now.sectors l.log_sectors × IsManifest l.manifest) }
    ensures inside { IfOk result
        (λ l. LieInside superblock.now.sectors l.log_sectors l.manifest.tables) }
{
    let Some(manifest) = Manifest::decode(alloc, superblock.version, text)? else {
        return Err(Refusal::BadManifest);
    };
    if manifest.generation() != superblock.generation {
        return Err(Refusal::BadManifest);
    }
    if !lie_inside(
        manifest.tables(),
        superblock.sectors,
        superblock.log_sectors,
    ) {
        return Err(Refusal::BadManifest);
    }
    Ok(Loaded {
        log_sectors: superblock.log_sectors,
        manifest,
    })
}

/// Reads the root, by at most 66 reads. It returns what the root of the device's sectors is: LOG and the manifest of the
/// greater generation, in the version of its superblock, with the tables that it names, or why there is none; or `NoMemory`,
/// or `Io` where a read failed.
///
/// `NotAStore` where both superblocks are blank, `BadSuper` where one is invalid or neither follows the other, `BadGeometry` where the
/// one that counts is for a device of another size, or there is no room for two, and `BadManifest` where its sectors spell no
/// manifest, one of another generation, or one with a table that isn't inside the data area.
pub fn load<A: Allocator + Clone, D: Device>(alloc: A, device: &mut D) -> Result<Loaded<A>, Refusal>
    ensures loaded { IsTrue (D.medium device.old).lasting.tells
        → Tells (root_of (seen (disk (D.medium device.old)))) result }

    // This holds of any device, whether it tells contracts what it holds or not.
    ensures fits { IfOk result
        (λ l. IsGeometry (D.medium device.old).size l.log_sectors × IsManifest l.manifest) }
    ensures inside { IfOk result
        (λ l. LieInside (D.medium device.old).size l.log_sectors l.manifest.tables) }
    ensures refused { IfErr result
        (λ refusal. ((root : Root) × (refusal_of root ≡ Some refusal))
        ⊎ ((refusal ≡ Refusal.NoMemory) ⊎ (refusal ≡ Refusal.Io))) }

    // The next generation may be installed.
    ensures next { IsTrue (D.medium device.old).lasting.tells → IfOk result (λ l.
        IsNext (D.medium device.old).size l.log_sectors (l.manifest.generation + 1)
        (superblock_in (seen (disk (D.medium device.old))))) }
    ensures unchanged { IsTrue (D.medium device.old).lasting.tells
        → (D.medium device.new).history ≡ (D.medium device.old).history }
    ensures counts { AtMost 66 0 0 (D.medium device.old).calls (D.medium device.new).calls }
    ensures faults { (D.medium device.new).calls.faults
        ≡ faults_after (faultless result) (D.medium device.old).calls.faults }
    ensures stops { IfErr result
        (λ refusal. refusal ≡ Refusal.Io → IsTrue (D.medium device.new).calls.last_faulted) }
    ensures same_size { (D.medium device.new).size ≡ (D.medium device.old).size }
    ensures same_lasting { (D.medium device.new).lasting ≡ (D.medium device.old).lasting }
{
    let superblock = own_superblock(device)?;
    let at = SUPERBLOCKS + AREA_SECTORS * (superblock.generation % 2) as u32;
    let text = read_text(&alloc, device, at, superblock.manifest_sectors)?;
    let loaded = loaded_from(alloc, &superblock, &text)?;
    Ok(loaded)
}
