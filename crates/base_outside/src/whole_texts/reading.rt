// A script from a source.
ghost use Rattle.std.specs.Prelude.{◌≡◌, ◌<◌, length, vec_len, OnOk, IfOk, IfErr};
ghost use Rattle.base_outside.specs.whole_texts.Outside.{OutsideTakes, HasRead, HasOutsideFailed};

use crate::streams::Source;
use crate::whole_texts::limits::SCRIPT_BYTES;
use crate::whole_texts::read_error::ReadError;
use std::alloc::{AllocError, Global};

/// The length in bytes of a piece that is read at once.
const PIECE: usize = 65_536;

/// Reads a source to its end, or until the script passes its limit on bytes.
pub fn read_script<S: Source>(alloc: Global, source: &mut S) -> Result<Vec<u8>, ReadError>
    ensures read { IfOk result (λ text. HasRead (S.left source.old) (S.left source.new) text.items) }
    ensures calm { OnOk result (S.faults source.new ≡ S.faults source.old) }
    ensures failed { IfErr result (λ e. HasOutsideFailed (S.faults source.old) (S.faults source.new) e) }
{
    let mut text = Vec::new(alloc);
    let mut piece = empty_piece(alloc)?;
    while text.len() <= SCRIPT_BYTES {
        let count = read_piece(source, &mut text, &mut piece)?;
        if count == 0 {
            return Ok(text);
        }
    }
    Ok(text)
}

fn empty_piece(alloc: Global) -> Result<Vec<u8>, AllocError>
    ensures { IfOk result (λ piece. 0 < vec_len piece) }
{
    vec![in alloc; 0u8; PIECE]
}

// Reads once, and adds what was read.
fn read_piece<S: Source>(
    source: &mut S,
    text: &mut Vec<u8>,
    piece: &mut [u8],
) -> Result<usize, ReadError>
    ensures read { IfOk result (λ count. OutsideTakes (S.left source.old) (S.left source.new) text.old.items text.new.items
        (length piece.old) count) }
    ensures faults { OnOk result (S.faults source.new ≡ S.faults source.old) }
    ensures failed { IfErr result (λ e. HasOutsideFailed (S.faults source.old) (S.faults source.new) e) }
{
    let count = source.read(piece)?;
    text.extend_from_slice(&piece[..count])?;
    Ok(count)
}
