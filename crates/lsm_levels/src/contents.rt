// The versions of a table. They exist in proofs alone.
ghost use Rattle.std.specs.Prelude.{◌≡◌, List};
ghost use Rattle.std.specs.Borrow.{ftrue};
ghost use Rattle.lsm_codec.specs.Versions.{Version};
ghost use Rattle.lsm_levels.specs.Contents.{versions_code};

use std::marker::Model;

/// Takes no bytes.
#[derive(Drop)]
pub(crate) struct Contents {
    pub(crate) ghost versions: { List Version } by { versions_code },
}

impl Model for Contents {
    ghost also_owns = { λ _. ftrue };
}

// It owns nothing.
unsafe impl Send for Contents {}

unsafe impl Sync for Contents {}

impl Contents {
    /// Of these versions.
    pub(crate) fn of() -> Contents
        ghost versions: { List Version }
        ensures { result.versions ≡ versions }
    {
        Contents {}
    }
}
