// The state of a store, as its calls tell it. It exists in proofs alone.
ghost use Rattle.std.specs.Prelude.{◌≡◌};
ghost use Rattle.std.specs.Borrow.{ftrue};
ghost use Rattle.std.specs.Coded.{codes};
ghost use Rattle.lsm_codec.specs.Map.{map_code};
ghost use Rattle.lsm_machine.specs.State.{State};

use lsm_codec::Batch;
use lsm_levels::Levels;
use lsm_mem::Sealed;
use lsm_open::Regions;
use std::alloc::Allocator;
use std::marker::Model;
use std::sync::Arc;

/// Takes no bytes.
#[derive(Drop)]
pub(crate) struct Told {
    pub(crate) ghost state: { State } by { Prim.hlevel (codes, map_code) },
}

impl Model for Told {
    ghost also_owns = { λ _. ftrue };
}

// It owns nothing.
unsafe impl Send for Told {}

unsafe impl Sync for Told {}

impl Told {
    /// This state.
    pub(crate) fn of() -> Told
        ghost state: { State }
        ensures { result.state ≡ state }
    {
        Told {}
    }

    /// One that the present state decides.
    pub(crate) fn then(&self) -> Told
        ghost state: { State }
        ensures { result.state ≡ state }
    {
        Told::of()
    }

    /// One that the present state and a batch decide.
    pub(crate) fn then_by_batch<A: Allocator>(&self, _batch: &Batch<A>) -> Told
        ghost state: { State }
        ensures { result.state ≡ state }
    {
        Told::of()
    }

    /// One that the present state and a number decide.
    pub(crate) fn then_by_number(&self, _number: u64) -> Told
        ghost state: { State }
        ensures { result.state ≡ state }
    {
        Told::of()
    }

    /// One that the present state and a flag decide.
    pub(crate) fn then_by_flag(&self, _flag: bool) -> Told
        ghost state: { State }
        ensures { result.state ≡ state }
    {
        Told::of()
    }

    /// One that the parts of a store decide.
    pub(crate) fn by_parts<A: Allocator>(
        _regions: &Regions<A>,
        _sealed: &Option<Arc<Sealed<A>, A>>,
        _levels: &Levels<A>,
        _count: u64,
    ) -> Told
        ghost state: { State }
        ensures { result.state ≡ state }
    {
        Told::of()
    }
}
