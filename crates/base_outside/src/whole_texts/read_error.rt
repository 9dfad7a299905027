ghost use Rattle.std.specs.Prelude.{◌≡◌};

use crate::streams::Failed;
use std::alloc::AllocError;

/// Why a source was not read to its end.
#[derive(Clone, Copy, PartialEq, Eq, Debug, Drop)]
pub enum ReadError {
    Memory,
    Failed,
}

impl From<AllocError> for ReadError {
    ghost use Rattle.base_outside.specs.declared.whole_texts.read_error.ReadError.TheVariants.{Memory};

    ghost from_gives = { λ _ e. e ≡ Memory };

    fn from(_: AllocError) -> ReadError {
        ReadError::Memory
    }
}

impl From<Failed> for ReadError {
    ghost use Rattle.base_outside.specs.declared.whole_texts.read_error.ReadError.TheVariants.{Failed as Source_failed};

    ghost from_gives = { λ _ e. e ≡ Source_failed };

    fn from(_: Failed) -> ReadError {
        ReadError::Failed
    }
}
