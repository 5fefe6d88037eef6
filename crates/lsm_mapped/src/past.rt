// The disks that a device has had. They exist in proofs alone.
ghost use Rattle.std.specs.Prelude.{◌≡◌, List};
ghost use Rattle.std.specs.Borrow.{ftrue};
ghost use Rattle.std.specs.Coded.{codes};
ghost use Rattle.lsm_device.specs.Disk.{Disk};

use std::marker::Model;

/// Takes no bytes.
#[derive(Drop)]
pub(crate) struct Past {
    pub(crate) ghost disks: { List Disk } by { Prim.hlevel codes },
}

impl Model for Past {
    ghost also_owns = { λ _. ftrue };
}

impl Past {
    /// Of these disks.
    pub(crate) fn of() -> Past
        ghost disks: { List Disk }
        ensures { result.disks ≡ disks }
    {
        Past {}
    }
}
