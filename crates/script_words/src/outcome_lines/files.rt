// The lines of files.
ghost use Rattle.std.specs.Prelude.{◌≡◌, ◌++◌, IfOk, OnOk};
ghost use Rattle.std.specs.List.{flat_map};
ghost use Rattle.std.specs.String.{string_bytes};
ghost use Rattle.sha2.specs.Sha256.{sha256};
ghost use Rattle.script_words.specs.outcome_lines.Text as text;

use crate::outcome_lines::shown::bytes_text;
use sha2::{Digest, Sha256};
use std::alloc::{AllocError, Global};
use std::fmt::Write;
use store_files::StoredFile;

/// The greatest length in bytes of a file whose bytes are shown, and not their digest.
const SHOWN_BYTES: usize = 64;

/// Adds a line for each file.
pub(crate) fn push_files(
    alloc: Global,
    out: &mut String,
    files: &[StoredFile],
) -> Result<(), AllocError>
    ensures { OnOk result (string_bytes out.new ≡ string_bytes out.old ++ flat_map text.file_line files.now) }
{
    for file in files {
        push_file(alloc, out, file)?;
    }
    Ok(())
}

#[tactic(auto, unfolding(crate::specs::outcome_lines::Text::file_line))]
fn push_file(alloc: Global, out: &mut String, file: &StoredFile) -> Result<(), AllocError>
    ensures { OnOk result (string_bytes out.new ≡ string_bytes out.old ++ text.file_line file.now) }
{
    let length = file.bytes.len();
    let shown = content_text(alloc, file.bytes.as_slice())?;
    let path = file.path.as_str();
    writeln!(out, "file {path} {length} {shown}")
}

fn content_text(alloc: Global, bytes: &[u8]) -> Result<String, AllocError>
    ensures { IfOk result (λ shown. string_bytes shown ≡ text.content_text bytes.now) }
{
    if bytes.len() <= SHOWN_BYTES {
        return bytes_text(alloc, bytes);
    }
    let digest = hex::encode(alloc, digest_of(bytes))?;
    format!(in alloc; "sha256:{digest}")
}

fn digest_of(bytes: &[u8]) -> [u8; 32]
    ensures { result ≡ sha256 bytes.now }
{
    let mut hasher = Sha256::new();
    hasher.update(bytes);
    hasher.finalize()
}
