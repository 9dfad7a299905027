//! Texts of requests, which the wire has in UTF-16 and the commands in UTF-8.
ghost use Rattle.std.specs.Prelude.{◌≡◌, IfOk};
ghost use Rattle.spec_exchange.specs.Texts.{leaf_of};
ghost use Rattle.spec_commands.specs.Text.{text_in};

use law_commands::same_reading_law;
use std::alloc::{AllocError, Global};
use wire_bytes::{Text, TextError, text_of_utf16};

// The text that bytes spell, where they do.
pub(crate) fn text_in(alloc: Global, bytes: &[u8]) -> Result<Option<Text>, AllocError>
    ensures { IfOk result (λ found. text_in bytes.now ≡ found) }
{
    same_reading_law();
    match text_of_utf16(alloc, bytes) {
        Ok(text) => {
            let _bytes = text.as_str().as_bytes();
            Ok(Some(text))
        }
        Err(TextError::Memory) => Err(AllocError),
        Err(TextError::OddLength(_)) => Ok(None),
        Err(TextError::LoneSurrogate(_)) => Ok(None),
    }
}

// The part of a path behind its last `\`; all of it where there is none.
pub(crate) fn leaf_of(path: &str) -> &str
    ensures { result.now ≡ leaf_of path.now }
{
    match path.rsplit_once('\\') {
        Some((_, leaf)) => return leaf,
        None => return path,
    }
}
