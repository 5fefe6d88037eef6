// With what a session begins.

use lsm_device::Device;
use lsm_store::Store;
use std::alloc::{Allocator, Global};
use std::marker::{Brand, Model};

/// Names a session in types. The value that the lock guards and the clients have it, so that contracts know that they are of
/// one session.
pub trait SessionName {
    ghost use Rattle.lsm_trail.specs.Knowledge.{SessionId};

    ghost id: { SessionId };
}

impl SessionName for Brand {
    ghost use Rattle.lsm_trail.specs.Knowledge.{no_session};

    ghost id = { no_session };
}

/// With what a session begins.
#[derive(Drop)]
pub struct Start<D: Device, A: Allocator = Global> {
    pub store: Store<D, A>,
    /// The most entries of the trail.
    pub limit: u32,
    /// How many clients there are.
    pub clients: u32,
}

impl<D: Device, A: Allocator> Model for Start<D, A> {
    ghost use Rattle.std.specs.Coded.{codes};
    ghost use Rattle.lsm_codec.specs.Map.{map_code};
    ghost use Rattle.lsm_trail.specs.Begins.{Begin};

    ghost Value = { Begin };

    ghost coded = { Prim.hlevel (codes, map_code) };

    ghost view = { λ s. record { store = s.store; limit = s.limit; clients = s.clients } };
}
