//! Why a file can't be opened, or made, as a store.

ghost use Rattle.std.specs.Prelude.{◌≡◌};

use lsm_device::{OpenError, Refusal};
use std::io;
use thiserror::Error;

/// Why a file can't be opened, or made, as a store.
#[derive(Clone, Copy, Debug, Error)]
pub enum OpenDbError {
    /// The file can't be opened or made.
    #[error("{0}")]
    File(OpenError),
    /// The new file can't be put in its place.
    #[error("the new file can't be put in its place: {0}")]
    Place(io::Error),
    /// What the file holds is refused, or its size, or the options; or memory was wanting, or a call of the file failed.
    #[error("the store is refused: {0}")]
    Store(Refusal),
}

impl From<OpenError> for OpenDbError {
    ghost use Rattle.corwaphi.specs.declared.open_error.OpenDbError.TheVariants.{File};

    ghost from_gives = { λ error told. told ≡ File error };

    fn from(error: OpenError) -> Self {
        OpenDbError::File(error)
    }
}

impl From<Refusal> for OpenDbError {
    ghost use Rattle.corwaphi.specs.declared.open_error.OpenDbError.TheVariants.{Store};

    ghost from_gives = { λ refusal told. told ≡ Store refusal };

    fn from(refusal: Refusal) -> Self {
        OpenDbError::Store(refusal)
    }
}
