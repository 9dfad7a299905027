//! Attributes of files (MS-FSCC 2.6): those that a CREATE gives them, and what READONLY leaves of an access (MS-FSA 2.1.5.1.1,
//! 2.1.5.1.2.1).
ghost use Rattle.std.specs.Prelude.{◌≡◌, ◌&&◌, not, true, Some};
ghost use Rattle.wire_commands.specs.values.Meaning.{create_of};
ghost use Rattle.spec_exchange.specs.Commands.{has_bit};
ghost use Rattle.spec_exchange.specs.Effects.{final_attributes, made_attributes};
ghost use Rattle.spec_exchange.specs.Files.{directory_attributes, exists, file_attributes, is_directory, is_read_only};
ghost use Rattle.spec_exchange.specs.Opens.{granted, mapped_read_only};
ghost use Rattle.spec_exchange.specs.State.{Server};
ghost use Rattle.store_files.specs.file_tree.Shown.{ShowsFiles};

use crate::verdicts::{empties, has_bit, mapped};
use store_files::Tree;
use wire_commands::CreateRequest;

/// Of a file that is made or emptied: those that are asked for, and ARCHIVE.
#[tactic(auto, unfolding(spec_exchange::specs::Files::file_attributes))]
pub fn file_attributes(asked: u32) -> u32
    ensures { result ≡ file_attributes asked }
{
    asked & 0x3127 | 0x20
}

/// Of a directory that is made: those that are asked for, without ARCHIVE and NORMAL.
#[tactic(auto, unfolding(spec_exchange::specs::Files::directory_attributes))]
pub fn directory_attributes(asked: u32) -> u32
    ensures { result ≡ directory_attributes asked }
{
    asked & 0xffff_ff5f
}

/// Of what a request makes.
pub fn made_attributes(request: &CreateRequest) -> u32
    ensures { result ≡ made_attributes (create_of request.now) }
{
    if has_bit(request.options, 0x1) {
        directory_attributes(request.attributes)
    } else {
        file_attributes(request.attributes)
    }
}

/// Of a file that is there.
#[tactic(auto, unfolding(spec_exchange::specs::Files::info_of))]
pub fn attributes_of(tree: &Tree, file: u64) -> u32
    ensures { (s : Server) → ShowsFiles tree.now s → exists s file ≡ true → result ≡ (s.basic file).attributes }
{
    tree.info(file).basic.attributes
}

/// Of a file that is there, behind a request that found it.
pub fn kept_attributes(tree: &Tree, request: &CreateRequest, file: u64) -> u32
    ensures { (s : Server) → ShowsFiles tree.now s → exists s file ≡ true
        → result ≡ final_attributes s (create_of request.now) (Some file) }
{
    if empties(request.disposition) {
        file_attributes(request.attributes)
    } else {
        attributes_of(tree, file)
    }
}

/// Whether the number is that of a read-only file that is there.
#[tactic(auto, unfolding(spec_exchange::specs::Files::is_read_only))]
pub fn is_read_only(tree: &Tree, file: u64) -> bool
    ensures { (s : Server) → ShowsFiles tree.now s → result ≡ is_read_only s file }
{
    tree.exists(file) && is_locked(tree, file)
}

// What is there is a file, and READONLY.
fn is_locked(tree: &Tree, file: u64) -> bool
    ensures { (s : Server) → ShowsFiles tree.now s → exists s file ≡ true
        → result ≡ (not (is_directory s file) && has_bit (s.basic file).attributes 0x1) }
{
    !tree.is_directory(file) && has_bit(attributes_of(tree, file), 0x1)
}

/// The access that is asked of a read-only file, whose maximal access lets no one write (MS-FSA 2.1.5.1.2.1).
#[tactic(auto, unfolding(spec_exchange::specs::Opens::mapped_read_only))]
pub fn mapped_read_only(access: u32) -> u32
    ensures { result ≡ mapped_read_only access }
{
    if has_bit(access, 0x200_0000) {
        mapped(access & 0xfdff_ffff) | 0x1f_01f9
    } else {
        mapped(access)
    }
}

/// The access that is asked of a file, or of the next one, which isn't there yet.
#[tactic(auto, unfolding(spec_exchange::specs::Opens::granted))]
pub fn granted(tree: &Tree, file: u64, access: u32) -> u32
    ensures { (s : Server) → ShowsFiles tree.now s → result ≡ granted s file access }
{
    if is_read_only(tree, file) {
        mapped_read_only(access)
    } else {
        mapped(access)
    }
}
