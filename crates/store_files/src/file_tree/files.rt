//! All files of the share, with their bytes.
ghost use Rattle.std.specs.Prelude.{◌≡◌, ◌&&◌, ◌++◌, ◌∷◌, ℕ, List, [], not, true, if◌then◌else◌, Some, IfOk, OnOk};
ghost use Rattle.store_files.specs.declared.file_tree.files.StoredFile.{StoredFile};
ghost use Rattle.std.specs.BTreeMap.{get_by_text};
ghost use Rattle.std.specs.Str.{bytes_eq};
ghost use Rattle.spec_exchange.specs.State.{Server};
ghost use Rattle.spec_exchange.specs.Files.{exists_in, path_in};
ghost use Rattle.store_files.specs.file_tree.Shown.{ShowsFiles};
ghost use Rattle.store_files.specs.file_tree.Stored.{spelled_in, AreFiles};

use crate::file_tree::index::name_path;
use crate::file_tree::tree::Tree;
use std::alloc::AllocError;
use std::collections::BTreeMap;
use wire_bytes::{Bytes, Text};

/// A file by its path, with its bytes.
#[derive(Drop)]
pub struct StoredFile {
    pub path: Text,
    pub bytes: Bytes,
}

impl Tree {
    /// All files, no directories, in byte order of their paths as they are spelled.
    pub fn files(&self) -> Result<Vec<StoredFile>, AllocError>
        ensures { IfOk result (λ v. (s : Server) → ShowsFiles self.now s → AreFiles v.items s) }
    {
        let spelled = self.spelled()?;
        let mut files = Vec::new(self.alloc);
        for (path, file) in &spelled {
            self.push_file(&mut files, path.as_str(), *file)?;
        }
        Ok(files)
    }

    // The files, no directories, by their paths as they are spelled.
    fn spelled(&self) -> Result<BTreeMap<String, u64>, AllocError>
        ensures { IfOk result (λ m. (s : Server) → ShowsFiles self.now s → (p : List ℕ) → get_by_text m p ≡ spelled_in s s.entries p) }
    {
        let mut spelled = BTreeMap::new(self.alloc);
        for (_, file) in &self.paths {
            self.spell(&mut spelled, *file)?;
        }
        Ok(spelled)
    }

    fn spell(&self, spelled: &mut BTreeMap<String, u64>, file: u64) -> Result<(), AllocError>
        ensures { OnOk result ((s : Server) → ShowsFiles self.now s → exists_in s.entries file ≡ true → (p : List ℕ)
            → get_by_text spelled.new p ≡ (if bytes_eq (path_in s.entries file) p && not (s.directory file) then Some file else get_by_text spelled.old p)) }
    {
        match self.rows.get(&file) {
            Some(row) => {
                if row.directory {
                    return Ok(());
                }
                let path = String::from_str(self.alloc, row.path.as_str())?;
                name_path(spelled, path, file)?;
                return Ok(());
            }
            None => return Ok(()),
        }
    }

    fn push_file(
        &self,
        files: &mut Vec<StoredFile>,
        path: &str,
        file: u64,
    ) -> Result<(), AllocError>
        ensures { OnOk result ((s : Server) → ShowsFiles self.now s → exists_in s.entries file ≡ true
            → (f : StoredFile) × (files.new.items ≡ files.old.items ++ f ∷ []) × (f.path ≡ path.now) × (f.bytes ≡ s.content file)) }
    {
        match self.rows.get(&file) {
            Some(row) => {
                let path = Text::from_str(self.alloc, path)?;
                let bytes = row.bytes.read(0, row.bytes.len())?;
                files.push(StoredFile {
                    path,
                    bytes: Bytes::from_vec(bytes),
                })?;
                return Ok(());
            }
            None => return Ok(()),
        }
    }
}
