ghost use Rattle.std.specs.Prelude.{◌≡◌, true, []};
ghost use Rattle.spec_exchange.specs.Files.{times_at, touched, emptied_basic};
ghost use Rattle.store_files.specs.file_tree.Shown.{FileRowIs, InfoIs};

use crate::file_extents::Extents;
use spec_exchange::values::Basic;
use std::alloc::Global;
use wire_bytes::Text;

/// What is known of a file or directory beside its name and bytes.
#[derive(Clone, Copy, Debug, PartialEq, Eq)]
pub struct Info {
    pub file: u64,
    pub directory: bool,
    pub length: u64,
    /// Delete pending (MS-FSA 2.1.1.5).
    pub marked: bool,
    pub basic: Basic,
}

// One file or directory. Its key is its path in upper case, and of a directory `below` is with what the keys begin
// of what stands below it.
#[derive(Drop)]
pub struct Row {
    pub path: Text,
    // Both are kept beside the path, so that removing a file and looking below it take no memory.
    pub key: String,
    pub below: String,
    pub directory: bool,
    pub delete_pending: bool,
    pub basic: Basic,
    pub bytes: Extents,
}

// All times at one moment.
#[tactic(auto, unfolding(spec_exchange::specs::Files::times_at))]
pub fn times_at(now: u64, attributes: u32) -> Basic
    ensures { result ≡ times_at now attributes }
{
    Basic {
        created: now,
        accessed: now,
        written: now,
        changed: now,
        attributes,
    }
}

// The times behind a write.
#[tactic(auto, unfolding(spec_exchange::specs::Files::touched))]
pub fn touched(basic: Basic, now: u64) -> Basic
    ensures { result ≡ touched basic now }
{
    Basic {
        created: basic.created,
        accessed: basic.accessed,
        written: now,
        changed: now,
        attributes: basic.attributes,
    }
}

// Times and attributes of a file that a create emptied.
#[tactic(auto, unfolding(spec_exchange::specs::Files::emptied_basic))]
pub fn emptied(basic: Basic, attributes: u32, now: u64) -> Basic
    ensures { result ≡ emptied_basic basic attributes now }
{
    Basic {
        created: basic.created,
        accessed: basic.accessed,
        written: now,
        changed: now,
        attributes,
    }
}

// What is known of a row.
pub fn info_of(file: u64, row: &Row) -> Info
    ensures { InfoIs result file row.now }
{
    Info {
        file,
        directory: row.directory,
        length: row.bytes.len(),
        marked: row.delete_pending,
        basic: row.basic,
    }
}
