use crate::piece_bytes::value::Piece;
use base_lists::ListOf;

/// Pieces in their order.
pub type Pieces = ListOf<Piece>;
