//! Pieces read one after the other.
ghost use Rattle.std.specs.Prelude.{◌≡◌};
ghost use Rattle.journal_bytes.specs.piece_bytes.Grammar.{ReadsPieces};
ghost use Rattle.journal_bytes.specs.piece_bytes.Meaning.{pieces_of};

use crate::piece_bytes::fault::PieceError;
use crate::piece_bytes::found::read_piece;
use crate::piece_bytes::list::Pieces;
use crate::record_bytes::Fault;
use std::alloc::Global;

/// The pieces of a body. `BadPiece` has the place of the first piece that is none.
#[tactic(auto, using(crate::proofs::piece_bytes::Walk::arrived))]
pub fn read_pieces(alloc: Global, body: &[u8]) -> Result<Pieces, PieceError>
    ensures { ReadsPieces pieces_of body.now result }
{
    let mut pieces = Pieces::new(alloc);
    let mut at = 0;
    while at < body.len() {
        let found = match read_piece(alloc, &body[at..]) {
            Ok(found) => found,
            Err(Fault::Memory) => return Err(PieceError::Memory),
            Err(Fault::Bad) => return Err(PieceError::BadPiece(at)),
        };
        at += found.end;
        if pieces.push(found.piece).is_err() {
            return Err(PieceError::Memory);
        }
    }
    Ok(pieces)
}
