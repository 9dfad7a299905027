use spec_wire::{ChainError, HeaderError, MessageError};

/// Too few bytes are left for what was asked. `at` is the cursor's place, which stays.
#[derive(Clone, Copy, Debug, PartialEq, Eq)]
pub struct Short {
    pub at: usize,
}

impl From<Short> for MessageError {
    ghost use Rattle.std.specs.Prelude.{◌≡◌};
    ghost use Rattle.spec_wire.specs.declared.messages.error.MessageError.TheVariants as errors;

    ghost from_gives = { λ s e. e ≡ errors.Short s.at };

    fn from(short: Short) -> MessageError {
        MessageError::Short(short.at)
    }
}

impl From<Short> for HeaderError {
    ghost use Rattle.std.specs.Prelude.{◌≡◌};
    ghost use Rattle.spec_wire.specs.declared.messages.error.HeaderError.TheVariants as errors;

    ghost from_gives = { λ s e. e ≡ errors.Short };

    fn from(_short: Short) -> HeaderError {
        HeaderError::Short
    }
}

impl From<Short> for ChainError {
    ghost use Rattle.std.specs.Prelude.{◌≡◌};
    ghost use Rattle.spec_wire.specs.declared.messages.chain_error.ChainError.TheVariants as errors;

    ghost from_gives = { λ s e. e ≡ errors.Short };

    fn from(_short: Short) -> ChainError {
        ChainError::Short
    }
}
