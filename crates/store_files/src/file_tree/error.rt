use std::alloc::AllocError;
use thiserror::Error;

/// Why a call on the files is refused. The files are then as before.
#[derive(Debug, PartialEq, Eq, Drop, Error)]
pub enum StoreError {
    #[error("memory ran out")]
    Memory,
    #[error("the call is answered with the status {0:#010x}")]
    Status(u32),
}

impl From<AllocError> for StoreError {
    ghost use Rattle.std.specs.Prelude.{◌≡◌};
    ghost use Rattle.store_files.specs.declared.file_tree.error.StoreError.TheVariants.{Memory};

    ghost from_gives = { λ e r. r ≡ Memory };

    fn from(_: AllocError) -> StoreError {
        StoreError::Memory
    }
}
