use thiserror::Error;

/// What keeps bytes from being a chain of create contexts (MS-SMB2 2.2.13.2): the first break of the
/// first context that has one, in the order written here.
#[derive(Clone, Copy, Debug, PartialEq, Eq, Error)]
pub enum ChainError {
    #[error("memory ran out")]
    Memory,
    /// The fixed part, the name or the data of a context, or a context behind one that tells of a next
    /// one, doesn't fit. A context's parts must stand behind its fixed part and before the next one.
    #[error("too few bytes for a create context")]
    Short,
    /// A Next that isn't 0 and isn't a multiple of 8, or leads past the end.
    #[error("the next create context isn't at a multiple of 8 inside the chain")]
    BadNext,
    /// The name of a context whose data has another length than its kind has.
    #[error("the length of the data of the create context {0:?}")]
    BadLength([u8; 4]),
}
