//! A cursor over a run.

ghost use Rattle.std.specs.Prelude.{◌≡◌, ◌⊎◌, ◌+◌, ◌≤◌, [], Ok, false, drop, option_map, length, IfOk, IfErr, OnOk};
ghost use Rattle.std.specs.List.{AllByRecursion};
ghost use Rattle.lsm_device.specs.declared.refusal.Refusal.TheVariants.{BadTable};
ghost use Rattle.lsm_codec.specs.References.{shown};
ghost use Rattle.lsm_table.specs.Items.{items_at};
ghost use Rattle.lsm_levels.specs.Cursors.{AsksOnce, EndsWithin, EntersNext, GoesOn, Loads, Seeks, SeeksTo, blocks_from_key, first_refusal, has_item, is_passed, present, refusal_of, sought};
ghost use Rattle.lsm_levels.specs.Stored.{LiesWithin};

use crate::blocks::Blocks;
use crate::placed::PlacedBlock;
use crate::run::Run;
use lsm_cache::{BlockBytes, Cache};
use lsm_codec::VersionRef;
use lsm_device::{Device, Refusal};
use lsm_table::{Entries, EntryPlace, EntrySpan};
use std::alloc::{AllocError, Allocator, Global};
use std::marker::Model;

/// Whether an entry is passed on the way to a key: a version of a key below it.
fn is_passed(entry: &VersionRef<'_>, from: &[u8]) -> bool
    ensures { result ≡ is_passed from.now (Ok (shown entry.now)) }
{
    entry.key.cmp(from).is_lt()
}

/// Whether an item comes first from a place of a block on: an entry, or invalid bytes.
fn has_item_at(place: &EntryPlace, block: &[u8; 4_096]) -> bool
    ensures { result ≡ has_item (items_at place.now block.now) }
{
    place.entries(block).next().is_some()
}

/// The place of the first version of a block, from this place on, whose key isn't below `from`. Where none is, the place is
/// that of bytes that are no entry.
fn sought_place(block: &[u8; 4_096], place: EntryPlace, from: &[u8]) -> EntryPlace
    ensures { items_at result block.now ≡ sought from.now (items_at place block.now) }
{
    let mut at = place;
    while let Some((span, behind)) = at.first_entry(block) {
        if !is_passed(&span.entry(block), from) {
            return at;
        }
        at = behind;
    }
    if has_item_at(&at, block) {
        return at;
    }
    EntryPlace::bad(block)
}

/// The entries of a block from a place on: at most one for each byte, and one item more where the bytes after them are invalid.
fn entries_at<'b>(place: &EntryPlace, block: &'b [u8; 4_096]) -> Entries<'b>
    ensures entries { result ≡ items_at place.now block.now }
    ensures few { length (items_at place.now block.now) ≤ 4097 }
{
    place.entries(block)
}

/// A cursor over a run, at a version or past the last. It has the bytes of one block, shared with the cache, and lends the version out of
/// them. It keeps where the present entry lies, so that lending it reads nothing again. Contracts see
/// what is left of its block, the present entry first, and the blocks to come.
#[derive(Drop)]
pub(crate) struct RunCursor<'a, A: Allocator = Global> {
    blocks: Blocks<'a, A>,
    bytes: Box<BlockBytes<A>, A>,
    place: EntryPlace,
    // Where the present entry lies, and the place after it.
    present: Option<(EntrySpan, EntryPlace)>,
}

impl<'a, A: Allocator> Model for RunCursor<'a, A> {
    ghost use Rattle.std.specs.Prelude.{◌≡◌, drop, option_map, IfSome};
    ghost use Rattle.lsm_table.specs.Items.{first_version, items_at};
    ghost use Rattle.lsm_table.specs.Spans.{spanned};
    ghost use Rattle.lsm_levels.specs.Cursors.{Cursor};

    ghost Value = { Cursor };

    ghost view = { λ c. record { items = items_at c.place c.bytes.value; blocks = c.blocks } };

    ghost invariant = { λ c. (option_map (λ e. spanned e.0 c.bytes.value) c.present ≡ first_version (items_at c.place c.bytes.value))
        × IfSome c.present (λ e. items_at e.1 c.bytes.value ≡ drop 1 (items_at c.place c.bytes.value)) };
}

impl<'a, A: Allocator> RunCursor<'a, A> {
    /// A cursor before the first of these blocks. It takes memory for the bytes of a block.
    fn before(alloc: A, blocks: Blocks<'a, A>) -> Result<RunCursor<'a, A>, AllocError>
        ensures { IfOk result (λ c. c ≡ record { items = []; blocks = blocks.entry }) }
    {
        let bytes = Box::new(alloc, BlockBytes::new())?;
        let place = EntryPlace::end(bytes.as_array());
        Ok(RunCursor {
            blocks,
            bytes,
            place,
            present: None,
        })
    }

    /// The version at the cursor, `None` past the last.
    pub(crate) fn current(&self) -> Option<VersionRef<'_>>
        ensures { option_map shown result ≡ present self.now }
    {
        match &self.present {
            Some((span, _behind)) => Some(span.entry(self.bytes.as_array())),
            None => None,
        }
    }

    fn has_item(&self) -> bool
        ensures { result ≡ has_item self.now.items }
    {
        self.present.is_some() || has_item_at(&self.place, self.bytes.as_array())
    }

    /// Refuses bytes that are no entry.
    fn test(&self) -> Result<(), Refusal>
        ensures first { refusal_of result ≡ first_refusal self.now.items }
        ensures bad { IfErr result (λ refusal. refusal ≡ BadTable) }
        ensures few { length self.now.items ≤ 4097 }
    {
        let mut entries = entries_at(&self.place, self.bytes.as_array());
        if self.present.is_some() {
            return Ok(());
        }
        match entries.next() {
            Some(Err(refusal)) => Err(refusal),
            Some(Ok(_)) | None => Ok(()),
        }
    }

    /// Passes the present entry.
    fn pass(&mut self)
        ensures { self.new ≡ record { items = drop 1 self.old.items; blocks = self.old.blocks } }
    {
        self.place = match &self.present {
            Some((_span, behind)) => *behind,
            None => self.place.next(self.bytes.as_array()),
        };
        self.present = self.place.first_entry(self.bytes.as_array());
    }

    /// Passes what stands in the block before a key.
    fn pass_up_to(&mut self, from: &[u8])
        ensures { self.new ≡ record
            { items = sought from.now self.old.items; blocks = self.old.blocks } }
    {
        self.place = sought_place(self.bytes.as_array(), self.place, from);
        self.present = self.place.first_entry(self.bytes.as_array());
    }

    /// Asks for a block, and stands at its first entry.
    fn load<D: Device>(
        &mut self,
        block: PlacedBlock,
        cache: &mut Cache<A>,
        device: &mut D,
    ) -> Result<(), Refusal>
    where
        A: Clone,
        requires { EndsWithin (D.medium device.old).size block }
        ensures { Loads block self.old.blocks self.new (refusal_of result)
            (record { cache = cache.old; medium = D.medium device.old })
            (record { cache = cache.new; medium = D.medium device.new }) }
    {
        let given = cache.ask(block.name, block.sector, device, &mut self.bytes);
        self.place = EntryPlace::first(self.bytes.as_array());
        self.present = self.place.first_entry(self.bytes.as_array());
        given?;
        Ok(())
    }

    /// Goes on to the first entry of the next block, if there is one.
    fn enter_next<D: Device>(&mut self, cache: &mut Cache<A>, device: &mut D) -> Result<(), Refusal>
    where
        A: Clone,
        requires passed { has_item self.old.items ≡ false }
        requires within { AllByRecursion (EndsWithin (D.medium device.old).size) self.old.blocks }
        ensures { EntersNext self.old.blocks self.new (refusal_of result)
            (record { cache = cache.old; medium = D.medium device.old })
            (record { cache = cache.new; medium = D.medium device.new }) }
    {
        let Some(block) = self.blocks.next() else {
            return Ok(());
        };
        self.load(block, cache, device)?;
        Ok(())
    }

    fn step<D: Device>(&mut self, cache: &mut Cache<A>, device: &mut D) -> Result<(), Refusal>
    where
        A: Clone,
        requires { AllByRecursion (EndsWithin (D.medium device.old).size) self.old.blocks }
        ensures goes_on { GoesOn (drop 1 self.old.items) self.old.blocks self.new
            (refusal_of result)
            (record { cache = cache.old; medium = D.medium device.old })
            (record { cache = cache.new; medium = D.medium device.new }) }
        ensures fair { IfErr result
            (λ refusal. (refusal ≡ BadTable) ⊎ (has_item (drop 1 self.old.items) ≡ false)) }
        ensures few { OnOk result (length self.new.items ≤ 4097) }
    {
        self.pass();
        if self.has_item() {
            self.test()?;
            return Ok(());
        }
        self.enter_next(cache, device)?;
        self.test()?;
        Ok(())
    }

    /// Goes on to the next version of the run, which is of the same key and older, or of a later key. It asks for a block
    /// where the one that it keeps has no more. Fails with `Io` for a read that faulted, its last, and with
    /// `BadTable` where bytes of a block are no entry; then it is of no more use. It takes no memory.
    pub(crate) fn advance<D: Device>(
        &mut self,
        cache: &mut Cache<A>,
        device: &mut D,
    ) -> Result<(), Refusal>
    where
        A: Clone,
        requires { AllByRecursion (EndsWithin (D.medium device.old).size) self.old.blocks }
        ensures goes_on { GoesOn (drop 1 self.old.items) self.old.blocks self.new
            (refusal_of result)
            (record { cache = cache.old; medium = D.medium device.old })
            (record { cache = cache.new; medium = D.medium device.new }) }

        // The device is only read, one block at most, and the blocks to come lie within it.
        ensures asks { AsksOnce self.old.blocks (refusal_of result)
            (record { cache = cache.old; medium = D.medium device.old })
            (record { cache = cache.new; medium = D.medium device.new }) }
        ensures within { AllByRecursion (EndsWithin (D.medium device.new).size) self.new.blocks }

        // A block has at most one entry for each byte, and one item more where the bytes after them are invalid.
        ensures few { OnOk result (length self.new.items ≤ 4097) }
    {
        self.step(cache, device)?;
        Ok(())
    }

    /// Goes to the first version of the first block whose key isn't below `from`.
    fn start<D: Device>(
        &mut self,
        from: &[u8],
        cache: &mut Cache<A>,
        device: &mut D,
    ) -> Result<(), Refusal>
    where
        A: Clone,
        requires new { self.old.items ≡ [] }
        requires within { AllByRecursion (EndsWithin (D.medium device.old).size) self.old.blocks }
        ensures { Seeks from.now self.old.blocks self.new (refusal_of result)
            (record { cache = cache.old; medium = D.medium device.old })
            (record { cache = cache.new; medium = D.medium device.new }) }
    {
        let Some(block) = self.blocks.next() else {
            return Ok(());
        };
        self.load(block, cache, device)?;
        self.pass_up_to(from);
        self.test()?;
        Ok(())
    }

    fn found<D: Device>(
        run: &'a Run<A>,
        alloc: A,
        area: u32,
        from: &[u8],
        cache: &mut Cache<A>,
        device: &mut D,
    ) -> Result<RunCursor<'a, A>, Refusal>
    where
        A: Clone,
        requires { AllByRecursion (LiesWithin (D.medium device.old).size area) run.now }
        ensures { SeeksTo from.now (blocks_from_key area from.now run.now) result
            (record { cache = cache.old; medium = D.medium device.old })
            (record { cache = cache.new; medium = D.medium device.new }) }
    {
        let blocks = Blocks::from_key(run, area, from);
        let mut cursor = RunCursor::before(alloc, blocks)?;
        cursor.start(from, cache, device)?;
        Ok(cursor)
    }

    /// A cursor at the first version of a run whose key isn't below `from`, where the data area begins with the sector `area`.
    /// It takes memory for the bytes of a block first, and fails with `NoMemory` without it. At most one block is
    /// asked for: the first that doesn't end before the key, as the indexes tell. Fails with `Io` for a read that
    /// faulted, its last, and with `BadTable` where bytes of the block that come first are no entry, or none of its versions
    /// is of such a key.
    pub(crate) fn seek<D: Device>(
        run: &'a Run<A>,
        alloc: A,
        area: u32,
        from: &[u8],
        cache: &mut Cache<A>,
        device: &mut D,
    ) -> Result<RunCursor<'a, A>, Refusal>
    where
        A: Clone,
        requires { AllByRecursion (LiesWithin (D.medium device.old).size area) run.now }
        ensures sought { SeeksTo from.now (blocks_from_key area from.now run.now) result
            (record { cache = cache.old; medium = D.medium device.old })
            (record { cache = cache.new; medium = D.medium device.new }) }

        // The device is only read, one block at most, and the blocks to come lie within it.
        ensures asks { AsksOnce (blocks_from_key area from.now run.now) (refusal_of result)
            (record { cache = cache.old; medium = D.medium device.old })
            (record { cache = cache.new; medium = D.medium device.new }) }
        ensures within { IfOk result
            (λ c. AllByRecursion (EndsWithin (D.medium device.new).size) c.blocks) }
    {
        let cursor = RunCursor::found(run, alloc, area, from, cache, device)?;
        Ok(cursor)
    }
}
