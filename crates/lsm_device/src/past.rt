// The lives of a device in memory that crashes ended. They exist in proofs alone.
ghost use Rattle.std.specs.Prelude.{◌≡◌, List, [], ◌∷◌};
ghost use Rattle.std.specs.Borrow.{ftrue};
ghost use Rattle.lsm_device.specs.Medium.{Ended};
ghost use Rattle.lsm_device.specs.Past.{ended_code};

use crate::ending::Ending;
use std::marker::Model;

/// Takes no bytes.
#[derive(Drop)]
pub(crate) struct Past {
    pub(crate) ghost ended: { List Ended } by { ended_code },
}

impl Model for Past {
    ghost also_owns = { λ _. ftrue };
}

// It owns nothing.
unsafe impl Send for Past {}

unsafe impl Sync for Past {}

impl Past {
    ghost use Rattle.lsm_device.specs.Ending.{life_in};

    /// Of a new device.
    pub(crate) fn start() -> Past
        ensures { result.ended ≡ [] }
    {
        Past {}
    }

    /// With one life more.
    pub(crate) fn then(&self, _ending: &Ending<'_>) -> Past
        ensures { result.ended ≡ life_in _ending.now ∷ self.now.ended }
    {
        Past {}
    }
}
