//! A cursor over versions of one place: of a memtable or of a run.

ghost use Rattle.std.specs.Prelude.{◌≡◌, ◌≤◌, ◌+◌, Ok, [], drop, length, map, option_map, OnOk};
ghost use Rattle.std.specs.List.{AllByRecursion};
ghost use Rattle.lsm_codec.specs.References.{shown};
ghost use Rattle.lsm_levels.specs.Cursors.{AsksOnce, EndsWithin, GoesOn, present, refusal_of};

use crate::cursor::RunCursor;
use crate::memory::MemoryCursor;
use lsm_cache::Cache;
use lsm_codec::VersionRef;
use lsm_device::{Device, Refusal};
use lsm_mem::Range;
use std::alloc::{Allocator, Global};
use std::marker::Model;

/// What a cursor reads.
#[derive(Drop)]
enum Place<'a, A: Allocator> {
    Memory(MemoryCursor<'a, A>),
    Run(RunCursor<'a, A>),
}

/// A cursor over the versions of a memtable or of a run, at a version or past the last. Contracts see it as a cursor over a
/// run: over a memtable all of its versions are in one block, with no blocks to come.
#[derive(Drop)]
pub(crate) struct SourceCursor<'a, A: Allocator = Global> {
    place: Place<'a, A>,
}

impl<'a, A: Allocator> Model for SourceCursor<'a, A> {
    ghost use Rattle.lsm_levels.specs.Cursors.{Cursor};
    ghost use Rattle.lsm_levels.specs.SourceCursors.{cursor_in};

    ghost Value = { Cursor };

    ghost view = { λ c. cursor_in c.place };
}

impl<'a, A: Allocator> SourceCursor<'a, A> {
    /// A cursor over a range of memory, at its first version. It takes no memory.
    pub(crate) fn of_range(range: Range<'a, A>) -> SourceCursor<'a, A>
        ensures { result ≡ record { items = map (λ v. Ok v) range.entry; blocks = [] } }
    {
        SourceCursor {
            place: Place::Memory(MemoryCursor::new(range)),
        }
    }

    /// A cursor over a run, where it stands.
    pub(crate) fn of_run(cursor: RunCursor<'a, A>) -> SourceCursor<'a, A>
        ensures { result ≡ cursor.entry }
    {
        SourceCursor {
            place: Place::Run(cursor),
        }
    }

    /// The version at the cursor, `None` past the last.
    pub(crate) fn current(&self) -> Option<VersionRef<'_>>
        ensures { option_map shown result ≡ present self.now }
    {
        match &self.place {
            Place::Memory(cursor) => cursor.current(),
            Place::Run(cursor) => cursor.current(),
        }
    }

    /// Goes on to the next version. In memory that is one of the next key; in a run it may be of the same key and older, and a
    /// block is asked for where the one that is kept has no more. Fails with `Io` for a read that faulted, its last,
    /// and with `BadTable` where bytes of a block are no entry; then it is of no more use. It takes no memory.
    pub(crate) fn advance<D: Device>(
        &mut self,
        cache: &mut Cache<A>,
        device: &mut D,
    ) -> Result<(), Refusal>
    where
        A: Clone,
        requires { AllByRecursion (EndsWithin (D.medium device.old).size) self.old.blocks }
        ensures goes_on { GoesOn (drop 1 self.old.items) self.old.blocks self.new
            (refusal_of result)
            (record { cache = cache.old; medium = D.medium device.old })
            (record { cache = cache.new; medium = D.medium device.new }) }

        // The device is only read, one block at most, and the blocks to come lie within it.
        ensures asks { AsksOnce self.old.blocks (refusal_of result)
            (record { cache = cache.old; medium = D.medium device.old })
            (record { cache = cache.new; medium = D.medium device.new }) }
        ensures within { AllByRecursion (EndsWithin (D.medium device.new).size) self.new.blocks }
        ensures few { OnOk result (length self.new.items ≤ length self.old.items + 4097) }
    {
        match &mut self.place {
            Place::Memory(cursor) => {
                cursor.pass();
                Ok(())
            }
            Place::Run(cursor) => {
                cursor.advance(cache, device)?;
                Ok(())
            }
        }
    }
}
