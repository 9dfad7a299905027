//! The order in which a snapshot tells the files.
ghost use Rattle.std.specs.Prelude.{◌≡◌, ◌++◌, ◌∷◌, [], IfOk, OnOk};
ghost use Rattle.spec_exchange.specs.State.{Server};
ghost use Rattle.store_files.specs.file_tree.Shown.{ShowsFiles};
ghost use Rattle.store_files.specs.file_tree.Placed.{IsPathOrder};

use crate::file_tree::tree::Tree;
use std::alloc::AllocError;

impl Tree {
    /// The numbers of all files and directories in the order of their paths in upper case, so that each stands behind the
    /// directory in which it is.
    pub fn by_path(&self) -> Result<Vec<u64>, AllocError>
        ensures { IfOk result (λ v. (s : Server) → ShowsFiles self.now s → IsPathOrder v.items s) }
    {
        let _used = self.used();
        let mut order = Vec::new(self.alloc);
        for (_, file) in &self.paths {
            push_number(&mut order, *file)?;
        }
        Ok(order)
    }
}

fn push_number(order: &mut Vec<u64>, file: u64) -> Result<(), AllocError>
    ensures { OnOk result (order.new.items ≡ order.old.items ++ file ∷ []) }
{
    match order.push(file) {
        Ok(()) => return Ok(()),
        Err(_) => return Err(AllocError),
    }
}
