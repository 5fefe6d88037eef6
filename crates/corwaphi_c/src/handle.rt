// A box as a pointer that C may keep.
ghost use Rattle.std.specs.Prelude.{◌≡◌, Option, Some};
ghost use Rattle.std.specs.Box.Ownership.{box_owns};
ghost use Rattle.std.specs.contracts.impls.GlobalAllocator.TheImpl.{ghosts};
ghost use Rattle.corwaphi_c.specs.declared.kept.Kept.{Kept as AKept};
ghost use Rattle.corwaphi_c.specs.contracts.kept.Kept.{the_row};
ghost use Rattle.corwaphi_c.specs.Keeping.{kept_coded, perhaps_coded, slot_owns};

use crate::kept::Kept;
use crate::parts::Parts;
use std::alloc::Global;
use std::marker::Model;

/// Where a call puts the store, for C to keep. What C puts into it before is let go, and owns nothing.
#[repr(C)]
#[derive(Drop)]
pub struct Slot {
    at: *mut u8,
    alloc: Global,
    ghost value: { Option AKept } by { perhaps_coded },
}

impl Model for Slot {
    ghost also_owns = { λ s. slot_owns (ghosts.dealloc_token s.alloc) s.at s.value };
}

impl Slot {
    pub(crate) fn put(&mut self, kept: Box<Kept>)
        ensures { self.new.value ≡ Some kept.value }
    {
        *self = Slot::of(Parts::of(kept));
    }

    fn of(parts: Parts<Kept, Global>) -> Slot
        ensures { result.value ≡ Some parts.value }
    {
        let Parts { ptr, alloc } = parts;
        let at = ptr as *mut u8;
        Slot { at, alloc }
    }
}

unsafe impl Send for Slot {}

/// A store of C's. It is no `Drop`, so that no call can forget it.
#[repr(C)]
pub struct Handle {
    at: *mut u8,
    alloc: Global,
    ghost value: { AKept } by { kept_coded },
}

impl Model for Handle {
    ghost also_owns = { λ h. box_owns (ghosts.dealloc_token h.alloc) the_row h.at h.value };
}

impl Handle {
    fn into_parts(self) -> Parts<Kept, Global>
        ensures { result.value ≡ self.value }
    {
        let Handle { at, alloc } = self;
        let ptr = at as *mut Kept;
        Parts { ptr, alloc }
    }

    pub(crate) fn into_box(self) -> Box<Kept>
        ensures { result.value ≡ self.value }
    {
        self.into_parts().into_box()
    }
}

unsafe impl Send for Handle {}
