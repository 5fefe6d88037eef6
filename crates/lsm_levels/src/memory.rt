//! A cursor over versions of a memtable.

ghost use Rattle.std.specs.Prelude.{◌≡◌, drop, option_map, slice_get};
ghost use Rattle.lsm_codec.specs.References.{shown};

use lsm_codec::VersionRef;
use lsm_mem::Range;
use std::alloc::Allocator;
use std::marker::Model;

/// A cursor over a range of a memtable, at a version or past the last. Contracts see the versions that are left, the present
/// one first.
#[derive(Drop)]
pub(crate) struct MemoryCursor<'a, A: Allocator> {
    present: Option<VersionRef<'a>>,
    rest: Range<'a, A>,
}

impl<'a, A: Allocator> Model for MemoryCursor<'a, A> {
    ghost use Rattle.std.specs.Prelude.{List};
    ghost use Rattle.lsm_codec.specs.Versions.{Version};
    ghost use Rattle.lsm_levels.specs.Passing.{versions_left};

    ghost Value = { List Version };

    ghost view = { λ c. versions_left c.present c.rest };
}

impl<'a, A: Allocator> MemoryCursor<'a, A> {
    /// A cursor at the first of these versions.
    pub(crate) fn new(range: Range<'a, A>) -> MemoryCursor<'a, A>
        ensures { result ≡ range.entry }
    {
        let mut rest = range;
        let present = rest.next();
        MemoryCursor { present, rest }
    }

    /// The version at the cursor, `None` past the last.
    pub(crate) fn current(&self) -> Option<VersionRef<'_>>
        ensures { option_map shown result ≡ slice_get self.now 0 }
    {
        self.present
    }

    /// Passes the present version.
    pub(crate) fn pass(&mut self)
        ensures { self.new ≡ drop 1 self.old }
    {
        if self.present.is_none() {
            return;
        }
        self.present = self.rest.next();
    }
}
