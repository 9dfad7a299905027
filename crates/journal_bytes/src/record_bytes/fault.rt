use std::alloc::AllocError;
use thiserror::Error;
use wire_bytes::Short;

/// Why bytes give no list of records.
#[derive(Clone, Copy, Debug, PartialEq, Eq, Error)]
pub enum RecordError {
    #[error("memory ran out")]
    Memory,
    /// The place in the body where the first record would begin that is none.
    #[error("no record begins at byte {0} of the body")]
    BadRecord(usize),
}

// What keeps the bytes of one record from being read.
#[derive(Clone, Copy, Debug, PartialEq, Eq)]
pub(crate) enum Fault {
    Memory,
    Bad,
}

impl From<AllocError> for Fault {
    ghost use Rattle.std.specs.Prelude.{◌≡◌};
    ghost use Rattle.journal_bytes.specs.declared.record_bytes.fault.Fault.TheVariants as faults;

    ghost from_gives = { λ a e. e ≡ faults.Memory };

    fn from(_error: AllocError) -> Fault {
        Fault::Memory
    }
}

impl From<Short> for Fault {
    ghost use Rattle.std.specs.Prelude.{◌≡◌};
    ghost use Rattle.journal_bytes.specs.declared.record_bytes.fault.Fault.TheVariants as faults;

    ghost from_gives = { λ s e. e ≡ faults.Bad };

    fn from(_short: Short) -> Fault {
        Fault::Bad
    }
}
