//! How far the blocks of a table are filled.

ghost use Rattle.std.specs.Prelude.{◌≡◌, ◌+◌, ◌≤◌, ◌<◌, ◌^◌, MatchBool};

/// The bytes of a data block.
pub(crate) const BLOCK: usize = 4_096;

/// The blocks that entries take, and the bytes used of the last one.
#[derive(Clone, Copy)]
pub(crate) struct Layout {
    pub blocks: usize,
    pub used: usize,
}

impl Layout {
    ghost use Rattle.lsm_table.specs.Counting.{with_entry};

    pub(crate) fn new() -> Layout
        ensures { result ≡ record { blocks = 1; used = 2 } }
    {
        Layout { blocks: 1, used: 2 }
    }

    /// Lays down an entry of this size after the others, and returns whether it begins a block, as it does where the last one
    /// has no room for it.
    pub(crate) fn add(&mut self, size: usize) -> bool
        requires blocks { self.old.blocks < 2 ^ 32 }
        requires used { self.old.used ≤ 4096 }
        requires size { size ≤ 2315 }
        ensures laid { self.new ≡ with_entry self.old size }
        ensures used { self.new.used ≤ 4096 }
        ensures begins { MatchBool result (4096 < self.old.used + size)
            (self.old.used + size ≤ 4096) }
    {
        let begins = self.used + size > BLOCK;
        if begins {
            self.blocks += 1;
            self.used = 2;
        }
        self.used += size;
        begins
    }
}
