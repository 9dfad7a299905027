use thiserror::Error;

/// Why bytes give no list of pieces.
#[derive(Clone, Copy, Debug, PartialEq, Eq, Error)]
pub enum PieceError {
    #[error("memory ran out")]
    Memory,
    /// The place in the body where the first piece would begin that is none.
    #[error("no piece begins at byte {0} of the body")]
    BadPiece(usize),
}
