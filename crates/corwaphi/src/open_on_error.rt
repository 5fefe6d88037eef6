//! Why no store was opened on a device, which is handed back.

ghost use Rattle.std.specs.Prelude.{◌≡◌};

use crate::OpenDbError;
use lsm_device::Refusal;

/// Why no store was opened on a device, and the device: `?` takes the refusal, and lets the device go.
#[derive(Drop)]
pub struct OpenOnError<D> {
    pub refusal: Refusal,
    pub device: D,
}

impl<D: Drop> From<OpenOnError<D>> for Refusal {
    ghost from_gives = { λ error told. told ≡ error.refusal };

    fn from(error: OpenOnError<D>) -> Self {
        error.refusal
    }
}

impl<D: Drop> From<OpenOnError<D>> for OpenDbError {
    ghost use Rattle.corwaphi.specs.declared.open_error.OpenDbError.TheVariants.{Store};

    ghost from_gives = { λ error told. told ≡ Store error.refusal };

    fn from(error: OpenOnError<D>) -> Self {
        OpenDbError::Store(error.refusal)
    }
}
