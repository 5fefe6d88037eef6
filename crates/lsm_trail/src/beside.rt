// What contracts see of an entry that no code holds. It exists in proofs alone.
ghost use Rattle.std.specs.Prelude.{◌≡◌};
ghost use Rattle.std.specs.Borrow.{ftrue};
ghost use Rattle.std.specs.Coded.{codes};
ghost use Rattle.lsm_codec.specs.Map.{map_code};
ghost use Rattle.lsm_trail.specs.Entries.{Beside as Shown};

use lsm_device::Device;
use lsm_merge::{Built, Input};
use lsm_store::Store;
use std::alloc::Allocator;
use std::marker::Model;

/// Takes no bytes.
#[derive(Drop)]
pub(crate) struct Beside {
    pub(crate) ghost shown: { Shown } by { Prim.hlevel (codes, map_code) },
}

impl Model for Beside {
    ghost also_owns = { λ _. ftrue };
}

// It owns nothing.
unsafe impl Send for Beside {}

unsafe impl Sync for Beside {}

impl Beside {
    /// This.
    pub(crate) fn of() -> Beside
        ghost shown: { Shown }
        ensures { result.shown ≡ shown }
    {
        Beside {}
    }

    /// For an entry, after which the store is so.
    pub(crate) fn by_store<D: Device, A: Allocator>(_store: &Store<D, A>) -> Beside
        ghost shown: { Shown }
        ensures { result.shown ≡ shown }
    {
        Beside::of()
    }

    /// For the entry of a build, to which this input was lent.
    pub(crate) fn by_input<D: Device, A: Allocator>(
        _store: &Store<D, A>,
        _input: &Input<A>,
    ) -> Beside
        ghost shown: { Shown }
        ensures { result.shown ≡ shown }
    {
        Beside::of()
    }

    /// For the entry of an accept, which takes this result.
    pub(crate) fn by_result<D: Device, A: Allocator>(
        _store: &Store<D, A>,
        _built: &Built<A>,
    ) -> Beside
        ghost shown: { Shown }
        ensures { result.shown ≡ shown }
    {
        Beside::of()
    }
}
