//! The checks of SET_INFO (MS-SMB2 3.3.5.21, MS-FSA 2.1.5.15).
ghost use Rattle.std.specs.Prelude.{◌≡◌, ◌==◌, ◌&&◌, ◌||◌, ℕ, List, true, IfOk, length};
ghost use Rattle.wire_commands.specs.values.Meaning.{command_of, message_of, setting_of};
ghost use Rattle.spec_exchange.specs.CheckOpen.{allocation_change, basic_names, changes_nothing, delete_names, file_of, open_below};
ghost use Rattle.spec_exchange.specs.CheckOpen.{rename_names, set_check, setting_check, size_change, target_of, target_refused};
ghost use Rattle.spec_exchange.specs.Commands.{Command, Rename, SetAllocation, SetBasic, SetDelete, SetEnd};
ghost use Rattle.spec_exchange.specs.Content.{same_bytes};
ghost use Rattle.spec_exchange.specs.Files.{allocated, exists, find, is_directory, may_set_attributes, may_set_times};
ghost use Rattle.spec_exchange.specs.Files.{path_of, same_basic};
ghost use Rattle.spec_exchange.specs.Opens.{file_has_open};
ghost use Rattle.spec_exchange.specs.State.{Empty, Server};
ghost use Rattle.spec_exchange.specs.Verdict.{At, PutDeletePending, PutPath, Show};
ghost use Rattle.server_checks.specs.Looks.{any_open};
ghost use Rattle.server_checks.specs.Shown.{TablesShown};
ghost use Rattle.law_server.specs.tables.Fits.{Fits};
ghost use Rattle.server_checks.specs.verdicts.Views.{change_of, path_in, path_in_setting, verdict_of};

use crate::attributes::is_read_only;
use crate::tables::Tables;
use crate::verdicts::status::{
    ACCESS_DENIED, CANNOT_DELETE, DELETE_PENDING, DIRECTORY_NOT_EMPTY, DISK_FULL,
    FILE_NOT_AVAILABLE, INVALID_DEVICE_REQUEST, INVALID_PARAMETER, OBJECT_NAME_COLLISION,
    OBJECT_PATH_NOT_FOUND,
};
use crate::verdicts::{
    Change, Verdict, altered, may_set_attributes, may_set_times, refuse, set_basic, target_of,
    told, turn_down,
};
use std::alloc::AllocError;
use wire_commands::{Basic, Message, Setting};

impl Tables {
    pub(crate) fn check_set(
        &self,
        m: &Message<'_>,
        id: u64,
        setting: &Setting,
    ) -> Result<Verdict, AllocError>
        ensures { (s : Server) → Fits s → TablesShown self.now s → s.standing id ≡ true
            → path_in (command_of m.now.command) ≡ path_in_setting (setting_of setting.now)
            → IfOk result (λ v. verdict_of (command_of m.now.command) v
            ≡ set_check s (message_of m.now) id (setting_of setting.now)) }
    {
        if self.opens.is_stale(id, m.channel_sequence) {
            return Ok(refuse(FILE_NOT_AVAILABLE));
        }
        self.check_setting(m, id, setting)
    }

    fn check_setting(
        &self,
        m: &Message<'_>,
        id: u64,
        setting: &Setting,
    ) -> Result<Verdict, AllocError>
        ensures { (s : Server) → Fits s → TablesShown self.now s → s.standing id ≡ true
            → path_in (command_of m.now.command) ≡ path_in_setting (setting_of setting.now)
            → IfOk result (λ v. verdict_of (command_of m.now.command) v
            ≡ setting_check s (message_of m.now) id (setting_of setting.now)) }
    {
        match setting {
            Setting::SetBasic { basic } => Ok(self.check_basic(m, id, basic)),
            Setting::Rename { replace, path } => self.check_rename(m, id, *replace, path.as_str()),
            Setting::SetDelete { marked } => Ok(self.check_delete(m, id, *marked)),
            Setting::SetAllocation { size } => Ok(self.check_allocation(m, id, *size)),
            Setting::SetEnd { size } => Ok(self.check_end(m, id, *size)),
            Setting::SetPosition { position } => Ok(seek(id, *position)),
            // An open's mode never changes.
            Setting::SetMode => Ok(told(id)),
        }
    }

    // ---- lengths

    fn check_end(&self, m: &Message<'_>, id: u64, size: u64) -> Verdict
        ensures { (c : Command) (s : Server) → Fits s → TablesShown self.now s → s.standing id ≡ true
            → verdict_of c result ≡ setting_check s (message_of m.now) id (SetEnd size) }
    {
        self.check_size(m, id, size, Change::PutEnd { size })
    }

    // An allocation may cut the file, and never extends it (MS-FSA 2.1.5.15.1).
    fn check_allocation(&self, m: &Message<'_>, id: u64, size: u64) -> Verdict
        ensures { (c : Command) (s : Server) → Fits s → TablesShown self.now s → s.standing id ≡ true
            → verdict_of c result ≡ setting_check s (message_of m.now) id (SetAllocation size) }
    {
        let old = self.length(self.file_of(id));
        let change = allocation(size, old);
        self.check_size(m, id, allocated(size, old), change)
    }

    fn check_size(&self, m: &Message<'_>, id: u64, size: u64, change: Change) -> Verdict
        ensures { (c : Command) (s : Server) → Fits s → TablesShown self.now s → s.standing id ≡ true
            → (changes_nothing s (file_of s id) (change_of c change) ≡ (size == length (s.content (file_of s id))))
            → verdict_of c result ≡ size_change s (message_of m.now) id size (change_of c change) }
    {
        if !self.has_access(id, 0x2) {
            return turn_down(id, ACCESS_DENIED);
        }
        let file = self.file_of(id);
        if self.is_directory(file) {
            return turn_down(id, INVALID_DEVICE_REQUEST);
        }
        if self.is_replayed_at(m, file, size) {
            return told(id);
        }
        if self.tree.passes_room(file, size) {
            return turn_down(id, DISK_FULL);
        }
        altered(id, change)
    }

    // A replayed request, where the file has this length.
    fn is_replayed_at(&self, m: &Message<'_>, file: u64, size: u64) -> bool
        ensures { (s : Server) → TablesShown self.now s → exists s file ≡ true
            → result ≡ (m.now.replay && (size == length (s.content file))) }
    {
        m.replay && size == self.length(file)
    }

    // ---- times and attributes

    fn check_basic(&self, m: &Message<'_>, id: u64, asked: &Basic) -> Verdict
        ensures { (c : Command) (s : Server) → Fits s → TablesShown self.now s → s.standing id ≡ true
            → verdict_of c result ≡ setting_check s (message_of m.now) id (SetBasic asked.now) }
    {
        if !self.has_access(id, 0x100) {
            return turn_down(id, ACCESS_DENIED);
        }
        let file = self.file_of(id);
        let old = self.basic(file);
        let basic = set_basic(&old, asked);
        if m.replay && same_basic(&basic, &old) {
            return told(id);
        }
        match self.basic_names(file, asked) {
            Some(status) => turn_down(id, status),
            None => altered(id, Change::PutBasic { basic }),
        }
    }

    // What no file of this kind can be told (MS-FSA 2.1.5.15.2).
    #[tactic(auto, unfolding(spec_exchange::specs::CheckOpen::basic_names))]
    fn basic_names(&self, file: u64, asked: &Basic) -> Option<u32>
        ensures { (s : Server) → TablesShown self.now s → exists s file ≡ true → result ≡ basic_names s file asked.now }
    {
        if self.may_set(file, asked) {
            None
        } else {
            Some(INVALID_PARAMETER)
        }
    }

    fn may_set(&self, file: u64, asked: &Basic) -> bool
        ensures { (s : Server) → TablesShown self.now s → exists s file ≡ true
            → result ≡ (may_set_attributes (is_directory s file) asked.now.attributes && may_set_times asked.now) }
    {
        may_set_attributes(self.is_directory(file), asked.attributes) && may_set_times(asked)
    }

    // ---- delete pending

    fn check_delete(&self, m: &Message<'_>, id: u64, pending: bool) -> Verdict
        ensures { (c : Command) (s : Server) → Fits s → TablesShown self.now s → s.standing id ≡ true
            → verdict_of c result ≡ setting_check s (message_of m.now) id (SetDelete pending) }
    {
        if !self.has_access(id, 0x1_0000) {
            return turn_down(id, ACCESS_DENIED);
        }
        let file = self.file_of(id);
        if m.replay && self.is_marked(file, pending) {
            return told(id);
        }
        match self.delete_names(file, pending) {
            Some(status) => turn_down(id, status),
            None => altered(id, Change::PutDeletePending { pending }),
        }
    }

    // The file is so already.
    fn is_marked(&self, file: u64, pending: bool) -> bool
        ensures { (s : Server) → TablesShown self.now s → exists s file ≡ true
            → result ≡ changes_nothing s file (PutDeletePending pending) }
    {
        if self.is_pending(file) {
            pending
        } else {
            !pending
        }
    }

    #[tactic(auto, unfolding(spec_exchange::specs::CheckOpen::delete_names))]
    fn delete_names(&self, file: u64, pending: bool) -> Option<u32>
        ensures { (s : Server) → TablesShown self.now s → exists s file ≡ true → result
            ≡ delete_names s file pending }
    {
        if !pending {
            return None;
        }
        if file == 0 {
            return Some(ACCESS_DENIED);
        }
        if self.tree.is_full(file) {
            return Some(DIRECTORY_NOT_EMPTY);
        }
        if is_read_only(&self.tree, file) {
            return Some(CANNOT_DELETE);
        }
        None
    }

    // ---- names

    fn check_rename(
        &self,
        m: &Message<'_>,
        id: u64,
        replace: bool,
        path: &str,
    ) -> Result<Verdict, AllocError>
        ensures { (c : Command) (s : Server) → Fits s → TablesShown self.now s → s.standing id ≡ true → path_in c
            ≡ path.now → IfOk result (λ v. verdict_of c v
            ≡ setting_check s (message_of m.now) id (Rename replace path.now)) }
    {
        if !self.has_access(id, 0x1_0000) {
            return Ok(turn_down(id, ACCESS_DENIED));
        }
        let file = self.file_of(id);
        let found = self.tree.find(path);
        let replaced = target_of(file, found);
        if m.replay && self.is_named(file, replaced, path) {
            return Ok(told(id));
        }
        match self.rename_names(file, replace, path, found)? {
            Some(status) => Ok(turn_down(id, status)),
            None => Ok(altered(id, Change::PutPath { replaced })),
        }
    }

    // The file stands at this path already.
    fn is_named(&self, file: u64, replaced: Option<u64>, path: &str) -> bool
        ensures { (s : Server) → TablesShown self.now s
            → result ≡ changes_nothing s file (PutPath replaced path.now) }
    {
        match replaced {
            Some(_) => false,
            None => same_bytes(path.as_bytes(), self.tree.path(file).as_bytes()),
        }
    }

    #[tactic(auto, unfolding(spec_exchange::specs::CheckOpen::rename_names))]
    fn rename_names(
        &self,
        file: u64,
        replace: bool,
        path: &str,
        found: Option<u64>,
    ) -> Result<Option<u32>, AllocError>
        ensures { (s : Server) → Fits s → TablesShown self.now s → exists s file ≡ true → found ≡ find s path.now
            → IfOk result (λ r. r ≡ rename_names s file replace path.now) }
    {
        if file == 0 {
            return Ok(Some(ACCESS_DENIED));
        }
        if self.tree.stands_below(file, path) {
            return Ok(Some(INVALID_PARAMETER));
        }
        if !self.tree.has_parent(path) {
            return Ok(Some(OBJECT_PATH_NOT_FOUND));
        }
        if self.tree.has_pending_parent(path) {
            return Ok(Some(DELETE_PENDING));
        }
        if found.is_some() && !replace {
            return Ok(Some(OBJECT_NAME_COLLISION));
        }
        if self.is_target_refused(file, found) {
            return Ok(Some(ACCESS_DENIED));
        }
        if self.is_open_below(file)? {
            return Ok(Some(ACCESS_DENIED));
        }
        Ok(None)
    }

    // What would be replaced is a directory, or open.
    fn is_target_refused(&self, file: u64, found: Option<u64>) -> bool
        ensures { (s : Server) (path : List ℕ) → TablesShown self.now s → found ≡ find s path
            → result ≡ target_refused s (target_of file (find s path)) }
    {
        match target_of(file, found) {
            Some(target) => self.is_taken(target),
            None => false,
        }
    }

    // A directory, or a file that has an open.
    fn is_taken(&self, file: u64) -> bool
        ensures { (s : Server) → TablesShown self.now s → exists s file ≡ true
            → result ≡ (is_directory s file || file_has_open s file) }
    {
        self.is_directory(file) || self.opens.has_open(file)
    }

    // An open of a file that stands below the directory.
    fn is_open_below(&self, directory: u64) -> Result<bool, AllocError>
        ensures { (s : Server) → TablesShown self.now s → exists s directory ≡ true → IfOk result (λ b. b
            ≡ (is_directory s directory && open_below s s.entries (path_of s directory))) }
    {
        let below = self.tree.below(directory)?;
        Ok(self.has_any_open(&below))
    }

    fn has_any_open(&self, files: &[u64]) -> bool
        ensures { (s : Server) → TablesShown self.now s → result ≡ any_open s files.now }
    {
        for file in files {
            if self.opens.has_open(*file) {
                return true;
            }
        }
        false
    }
}

fn seek(id: u64, position: u64) -> Verdict
    ensures { (c : Command) → verdict_of c result ≡ Show id (At position) Empty }
{
    Verdict::Seek { id, position }
}

// What an allocation does to a file of this length.
fn allocation(size: u64, old: u64) -> Change
    ensures { (c : Command) (s : Server) (f : ℕ) → old ≡ length (s.content f) → change_of c result ≡ allocation_change s f size }
{
    if size < old {
        Change::PutEnd { size }
    } else {
        Change::PutNothing
    }
}

#[tactic(auto, unfolding(spec_exchange::specs::Files::allocated))]
fn allocated(size: u64, old: u64) -> u64
    ensures { result ≡ allocated size old }
{
    size.min(old)
}

#[tactic(auto, unfolding(spec_exchange::specs::Files::same_basic))]
fn same_basic(a: &Basic, b: &Basic) -> bool
    ensures { result ≡ same_basic a.now b.now }
{
    a.created == b.created
        && (a.accessed == b.accessed
            && (a.written == b.written && (a.changed == b.changed && a.attributes == b.attributes)))
}

fn same_bytes(a: &[u8], b: &[u8]) -> bool
    ensures { result ≡ same_bytes a.now b.now }
{
    a == b
}
