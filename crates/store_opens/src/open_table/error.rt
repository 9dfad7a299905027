use std::alloc::AllocError;
use thiserror::Error;

/// Why a call on the opens is refused. The opens are then as before.
#[derive(Debug, PartialEq, Eq, Drop, Error)]
pub enum OpenError {
    #[error("no memory")]
    Memory,
    #[error("the call is answered with the status {0:08x}")]
    Status(u32),
}

impl From<AllocError> for OpenError {
    ghost use Rattle.std.specs.Prelude.{◌≡◌};
    ghost use Rattle.store_opens.specs.declared.open_table.error.OpenError.TheVariants.{Memory};

    ghost from_gives = { λ e r. r ≡ Memory };

    fn from(_: AllocError) -> OpenError {
        OpenError::Memory
    }
}
