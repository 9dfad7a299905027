//! The bytes of a file part by part.
ghost use Rattle.std.specs.Prelude.{◌≡◌, ◌<◌, ◌≤◌, ℕ, List, length, IfSome, IfNone, true};
ghost use Rattle.spec_exchange.specs.State.{Server};
ghost use Rattle.spec_exchange.specs.Files.{exists_in};
ghost use Rattle.store_files.specs.file_extents.Parts.{up_to, IsFilePart};
ghost use Rattle.store_files.specs.file_tree.Shown.{ShowsFiles};

use crate::file_tree::tree::Tree;

impl Tree {
    /// The next bytes of a file from a place on, at most `most` of them, and where they stand: what lies between is 0, and
    /// takes no memory. None where all that follows is so.
    pub fn part_from(&self, file: u64, at: u64, most: usize) -> Option<(u64, &[u8])>
        requires { 0 < most }
        ensures sized { IfSome result (λ e. (at ≤ e.0) × (0 < length e.1.now) × (length e.1.now ≤ most)) }
        ensures some { IfSome result (λ e. (s : Server) → ShowsFiles self.now s → exists_in s.entries file ≡ true
            → IsFilePart (s.content file) at most e.0 e.1.now) }
        ensures none { IfNone result ((s : Server) → ShowsFiles self.now s → exists_in s.entries file ≡ true
            → up_to at (s.content file) ≡ s.content file) }
    {
        match self.rows.get(&file) {
            Some(row) => return row.bytes.part_from(at, most),
            None => return None,
        }
    }
}
