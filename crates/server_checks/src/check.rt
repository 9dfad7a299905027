//! The ordered checks of a message; the first that applies answers (MS-SMB2 3.3.5.2).
ghost use Rattle.std.specs.Prelude.{◌≡◌, ◌==◌, ◌||◌, true, false, None, is_some, IfOk, IsOk, Bool};
ghost use Rattle.wire_commands.specs.values.Meaning.{command_of, message_of};
ghost use Rattle.spec_exchange.specs.Check.{check, command_check, formed, has_session, on_open, owed};
ghost use Rattle.spec_exchange.specs.Check.{tree_command, with_tree};
ghost use Rattle.spec_exchange.specs.Commands.{Ioctl, form, is_setup, no_file};
ghost use Rattle.spec_exchange.specs.State.{Server};
ghost use Rattle.server_checks.specs.Looks.{HasItsSession, IsOnOpen, open_command};
ghost use Rattle.server_checks.specs.Shown.{TablesShown};
ghost use Rattle.law_server.specs.tables.Fits.{Fits};
ghost use Rattle.server_checks.specs.verdicts.Views.{verdict_of};

use crate::tables::Tables;
use crate::verdicts::status::{
    FILE_CLOSED, NETWORK_NAME_DELETED, NOT_SUPPORTED, USER_SESSION_DELETED,
};
use crate::verdicts::{Verdict, file_named, form, is_setup, refuse};
use std::alloc::AllocError;
use wire_commands::{Command, Message};

// The FileId of 16 bytes FF, by which an IOCTL names no open.
const NO_FILE: u64 = 0xffff_ffff_ffff_ffff;

impl Tables {
    /// What the checks of a message come to. A SESSION_SETUP meets neither the check of the session nor what the second one
    /// says of signing and sealing. Where memory runs out there is no verdict; that never comes before the checks of the
    /// session and of signing.
    pub fn check(&self, m: &Message<'_>) -> Result<Verdict, AllocError>
        ensures verdict { (s : Server) → Fits s → TablesShown self.now s
            → IfOk result (λ v. verdict_of (command_of m.now.command) v ≡ check s (message_of m.now)) }
        ensures absent { (s : Server) → TablesShown self.now s
            → (is_setup (command_of m.now.command) || has_session s (message_of m.now)) ≡ false → IsOk result }
        ensures faulty { is_some m.now.fault ≡ true → IsOk result }
    {
        if is_setup(&m.command) {
            return self.check_owed(m);
        }
        if self.has_session(m) {
            return self.check_owed(m);
        }
        Ok(refuse(USER_SESSION_DELETED))
    }

    // The id names a live session with a channel on this connection.
    fn has_session(&self, m: &Message<'_>) -> bool
        ensures { (s : Server) → TablesShown self.now s → result ≡ has_session s (message_of m.now) }
    {
        self.sessions.is_on(m.session_id, m.connection)
    }

    // The request is signed or sealed as owed.
    fn check_owed(&self, m: &Message<'_>) -> Result<Verdict, AllocError>
        ensures verdict { (s : Server) → Fits s → TablesShown self.now s → HasItsSession s (message_of m.now)
            → IfOk result (λ v. verdict_of (command_of m.now.command) v ≡ owed s (message_of m.now) m.now.fault) }
        ensures faulty { is_some m.now.fault ≡ true → IsOk result }
    {
        match m.fault {
            Some(status) => Ok(refuse(status)),
            None => self.check_form(m),
        }
    }

    // The body reads and keeps its form.
    fn check_form(&self, m: &Message<'_>) -> Result<Verdict, AllocError>
        ensures { (s : Server) → Fits s → TablesShown self.now s → HasItsSession s (message_of m.now)
            → IfOk result (λ v. verdict_of (command_of m.now.command) v
            ≡ formed s (message_of m.now) (form (command_of m.now.command))) }
    {
        match form(&m.command) {
            Some(status) => Ok(refuse(status)),
            None => self.check_command(m),
        }
    }

    fn check_command(&self, m: &Message<'_>) -> Result<Verdict, AllocError>
        ensures { (s : Server) → Fits s → TablesShown self.now s → HasItsSession s (message_of m.now)
            → form (command_of m.now.command) ≡ None → IfOk result (λ v. verdict_of (command_of m.now.command) v
            ≡ command_check s (message_of m.now) (command_of m.now.command)) }
    {
        match &m.command {
            Command::Unreadable { status } => Ok(refuse(*status)),
            Command::Aside { status } => Ok(refuse(*status)),
            Command::Setup(request) => Ok(self.check_setup(m, request)),
            Command::Logoff => Ok(Verdict::EndSession {
                session: m.session_id,
                quiet: false,
            }),
            Command::TreeConnect { share } => Ok(self.check_tree(m, share.as_str())),
            _ => self.check_with_tree(m),
        }
    }

    // A request on a tree: it is there.
    fn check_with_tree(&self, m: &Message<'_>) -> Result<Verdict, AllocError>
        ensures { (s : Server) → Fits s → TablesShown self.now s → s.present m.now.session_id ≡ true
            → form (command_of m.now.command) ≡ None → IfOk result (λ v. verdict_of (command_of m.now.command) v
            ≡ with_tree s (message_of m.now)) }
    {
        match self.sessions.tree(m.session_id, m.tree_id) {
            Some(pipes) => self.check_in_tree(m, pipes),
            None => Ok(refuse(NETWORK_NAME_DELETED)),
        }
    }

    fn check_in_tree(&self, m: &Message<'_>, pipes: bool) -> Result<Verdict, AllocError>
        ensures { (s : Server) → Fits s → TablesShown self.now s → s.present m.now.session_id ≡ true
            → form (command_of m.now.command) ≡ None → IfOk result (λ v. verdict_of (command_of m.now.command) v
            ≡ tree_command s (message_of m.now) pipes (command_of m.now.command)) }
    {
        match &m.command {
            Command::Unreadable { status } => Ok(refuse(*status)),
            Command::TreeDisconnect => Ok(Verdict::DropTree),
            Command::Create(request) => Ok(self.check_create(m, request, pipes)),
            Command::Ioctl { file, code, room } => self.check_ioctl_in_tree(m, *file, *code, *room),
            _ => self.check_named(m),
        }
    }

    // An IOCTL may name no open.
    fn check_ioctl_in_tree(
        &self,
        m: &Message<'_>,
        file: u64,
        code: u32,
        room: u32,
    ) -> Result<Verdict, AllocError>
        ensures { (pipes : Bool) (s : Server) → Fits s → TablesShown self.now s → form (command_of m.now.command) ≡ None
            → command_of m.now.command ≡ Ioctl file code room
            → IfOk result (λ v. verdict_of (command_of m.now.command) v
            ≡ tree_command s (message_of m.now) pipes (command_of m.now.command)) }
    {
        if names_none(file) {
            return Ok(self.check_free_ioctl(code, room));
        }
        self.check_named(m)
    }

    // A request that names an open.
    fn check_named(&self, m: &Message<'_>) -> Result<Verdict, AllocError>
        ensures { (pipes : Bool) (s : Server) → Fits s → TablesShown self.now s
            → form (command_of m.now.command) ≡ None → IsOnOpen (command_of m.now.command)
            → IfOk result (λ v. verdict_of (command_of m.now.command) v
            ≡ tree_command s (message_of m.now) pipes (command_of m.now.command)) }
    {
        match file_named(&m.command) {
            Some(id) => self.check_open_of(m, id),
            None => Ok(refuse(NOT_SUPPORTED)),
        }
    }

    // The open stands in this session, as one of this tree.
    fn check_open_of(&self, m: &Message<'_>, id: u64) -> Result<Verdict, AllocError>
        ensures { (s : Server) → Fits s → TablesShown self.now s → form (command_of m.now.command) ≡ None
            → IfOk result (λ v. verdict_of (command_of m.now.command) v
            ≡ on_open s (message_of m.now) id (open_command s (message_of m.now) id (command_of m.now.command))) }
    {
        let is_of_tree = self.opens.is_of_tree(id, m.session_id, m.tree_id);
        if is_of_tree {
            return self.check_on_open(m, id);
        }
        Ok(refuse(FILE_CLOSED))
    }

    fn check_on_open(&self, m: &Message<'_>, id: u64) -> Result<Verdict, AllocError>
        ensures { (s : Server) → Fits s → TablesShown self.now s → form (command_of m.now.command) ≡ None
            → s.standing id ≡ true → IfOk result (λ v. verdict_of (command_of m.now.command) v
            ≡ open_command s (message_of m.now) id (command_of m.now.command)) }
    {
        // All commands on an open in one place, where the open is known to stand in this session. Each call has its
        // command's own checks.
        match &m.command {
            Command::Close { query, .. } => Ok(self.check_close(id, *query)),
            Command::Flush { .. } => Ok(self.check_flush(id)),
            Command::Read {
                at,
                size,
                minimum,
                ..
            } => self.check_read(id, *at, *size, *minimum),
            Command::Write { at, bytes, .. } => self.check_write(m, id, *at, bytes),
            Command::Lock {
                index,
                number,
                elements,
                ..
            } => self.check_lock(id, *index, *number, elements),
            Command::Ioctl { code, room, .. } => Ok(self.check_ioctl(m, id, *code, *room)),
            Command::ListDirectory {
                class,
                restart,
                single,
                pattern,
                room,
                ..
            } => { self.check_list(id, *class, *restart, *single, pattern.as_str(), *room) }
            Command::QueryFile { class, room, .. } => self.check_file_query(id, *class, *room),
            Command::QueryVolume { class, room, .. } => Ok(self.check_volume_query(
                id, *class, *room,
            )),
            Command::SetInfo { setting, .. } => self.check_set(m, id, setting),
            _ => Ok(refuse(NOT_SUPPORTED)),
        }
    }
}

// The file of an IOCTL names no open.
fn names_none(file: u64) -> bool
    ensures { result ≡ (file == no_file) }
{
    file == NO_FILE
}
