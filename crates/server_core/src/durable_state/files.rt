//! Records of a file alone.
ghost use Rattle.std.specs.Prelude.{◌≡◌, ◌&&◌, not, MatchResult, OnOk, Err, length};
ghost use Rattle.spec_exchange.specs.Fold.{is_file, same_target, with_record};
ghost use Rattle.spec_exchange.specs.Files.{exists};
ghost use Rattle.spec_exchange.specs.Opens.{file_has_open};
ghost use Rattle.spec_exchange.specs.State.{BasicRecord, DeleteRecord, EndRecord, Origin, RemoveRecord, RenameRecord, Server};
ghost use Rattle.spec_exchange.specs.State.{WriteRecord};
ghost use Rattle.store_files.specs.declared.file_tree.error.StoreError.TheVariants.{Memory};
ghost use Rattle.server_core.specs.durable_state.Durable.{DurableShown, is_unopened, durable_may_take};

use crate::durable_state::durable::Durable;
use server_checks::target_of;
use spec_exchange::values::Basic;
use std::alloc::AllocError;
use store_files::StoreError;

impl Durable {
    // The file is there and no directory.
    pub(crate) fn is_file(&self, file: u64) -> bool
        ensures { (s : Server) → DurableShown self.now s → result ≡ is_file s file }
    {
        self.tree.exists(file) && !self.tree.is_directory(file)
    }

    pub(crate) fn write_recorded(
        &mut self,
        file: u64,
        at: u64,
        bytes: &[u8],
        time: u64,
    ) -> Result<(), AllocError>
        ensures { (s : Server) (origin : Origin) → DurableShown self.old s
            → OnOk result (DurableShown self.new (with_record s (WriteRecord origin file at time bytes.now))) }
    {
        if !self.is_file(file) {
            return Ok(());
        }
        if bytes.is_empty() {
            return Ok(());
        }
        unless_memory(self.tree.write(file, at, bytes, time))
    }

    pub(crate) fn end_recorded(
        &mut self,
        file: u64,
        length: u64,
        time: u64,
    ) -> Result<(), AllocError>
        ensures { (s : Server) (origin : Origin) → DurableShown self.old s
            → OnOk result (DurableShown self.new (with_record s (EndRecord origin file length time))) }
    {
        if !self.is_file(file) {
            return Ok(());
        }
        unless_memory(self.tree.set_end(file, length, time))
    }

    pub(crate) fn with_basic(&mut self, file: u64, basic: &Basic) -> Result<(), AllocError>
        ensures { (s : Server) (origin : Origin) → DurableShown self.old s
            → OnOk result (DurableShown self.new (with_record s (BasicRecord origin file basic.now))) }
    {
        if !self.tree.exists(file) {
            return Ok(());
        }
        self.tree.set_basic(file, *basic);
        Ok(())
    }

    pub(crate) fn mark_recorded(&mut self, file: u64, marked: bool) -> Result<(), AllocError>
        ensures { (s : Server) (origin : Origin) → DurableShown self.old s
            → OnOk result (DurableShown self.new (with_record s (DeleteRecord origin file marked))) }
    {
        if file == 0 {
            return Ok(());
        }
        if !self.tree.exists(file) {
            return Ok(());
        }
        match self.mark(file, marked) {
            Ok(()) => Ok(()),
            Err(error) => Err(error),
        }
    }

    pub(crate) fn rename_recorded(
        &mut self,
        file: u64,
        replaced: u64,
        path: &str,
    ) -> Result<(), AllocError>
        ensures { (s : Server) (origin : Origin) → DurableShown self.old s
            → OnOk result (DurableShown self.new (with_record s (RenameRecord origin file replaced path.now))) }
    {
        if !self.may_take(file, replaced, path) {
            return Ok(());
        }
        unless_memory(self.tree.rename(file, path, true))
    }

    // The file is there, and this is what its rename takes the place of, of which nothing is open.
    fn may_take(&self, file: u64, replaced: u64, path: &str) -> bool
        ensures { (s : Server) → DurableShown self.now s → result ≡ durable_may_take s file replaced path.now }
    {
        if !self.tree.exists(file) {
            return false;
        }
        let target = target_of(file, self.tree.find(path));
        if !is_target(target, replaced) {
            return false;
        }
        self.is_unopened(target)
    }

    fn is_unopened(&self, target: Option<u64>) -> bool
        ensures { (s : Server) → DurableShown self.now s → result ≡ is_unopened s target }
    {
        match target {
            Some(target) => !self.opens.has_open(target),
            None => true,
        }
    }

    pub(crate) fn with_remove(&mut self, file: u64) -> Result<(), AllocError>
        ensures { (s : Server) (origin : Origin) → DurableShown self.old s
            → OnOk result (DurableShown self.new (with_record s (RemoveRecord origin file))) }
    {
        if !self.is_closed(file) {
            return Ok(());
        }
        let _ = self.tree.remove(file);
        Ok(())
    }

    // The file is there, and nothing of it is open.
    fn is_closed(&self, file: u64) -> bool
        ensures { (s : Server) → DurableShown self.now s → result ≡ (exists s file && not (file_has_open s file)) }
    {
        self.tree.exists(file) && !self.opens.has_open(file)
    }
}

// A rename tells the number of what it replaces, 0 where there is none.
fn is_target(target: Option<u64>, replaced: u64) -> bool
    ensures { result ≡ same_target target replaced }
{
    match target {
        Some(target) => target == replaced,
        None => replaced == 0,
    }
}

// A call that is refused changes nothing.
fn unless_memory(answer: Result<(), StoreError>) -> Result<(), AllocError>
    ensures { MatchResult result (λ _. answer ≡ Err Memory → ⊥) (λ _. answer ≡ Err Memory) }
{
    match answer {
        Ok(()) => Ok(()),
        Err(error) => match error {
            StoreError::Status(_) => Ok(()),
            StoreError::Memory => Err(AllocError),
        },
    }
}
