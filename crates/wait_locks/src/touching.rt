//! Which waiters an event may let go.
ghost use Rattle.std.specs.Prelude.{◌≡◌, ◌==◌, ℕ, false, not, true};
ghost use Rattle.law_server.specs.tables.Fits.{Fits};
ghost use Rattle.law_waiting.specs.held.Untouched.{leaves_file, leaves_waiters};
ghost use Rattle.server_checks.specs.Shown.{TablesShown};
ghost use Rattle.server_checks.specs.event_heard.Heard.{heard_event};
ghost use Rattle.spec_crypto.specs.tokens.Tokens.{Users};
ghost use Rattle.spec_exchange.specs.CheckOpen.{file_of};
ghost use Rattle.spec_exchange.specs.State as model;
ghost use Rattle.spec_world.specs.Ends.{Logons};
ghost use Rattle.wait_locks.specs.Settled.{may_free};
ghost use Rattle.wire_commands.specs.values.Meaning.{command_of};

use server_checks::{ServerEvent, Tables};
use wire_commands::Command;

/// Of which file a step may let waiters go, as long as no open expires in it.
#[derive(Clone, Copy, Debug)]
pub(crate) enum Touched {
    Nothing,
    File(u64),
    All,
}

impl Touched {
    /// Whether whoever waits for this file may go.
    pub(crate) fn may_free(&self, file: u64) -> bool
        ensures { result ≡ may_free self.now file }
    {
        match self {
            Touched::Nothing => false,
            Touched::File(touched) => file == *touched,
            Touched::All => true,
        }
    }
}

/// Of an event.
pub(crate) fn touched_by(tables: &Tables, event: &ServerEvent<'_>) -> Touched
    ensures { (users : Users) (L : Logons) (s : model.Server) (f : ℕ) → TablesShown tables.now s → may_free result f ≡ false
        → leaves_waiters s f (heard_event users L s event.now) ≡ true }
{
    match event {
        ServerEvent::Message { message } => touched_by_command(tables, &message.command),
        _ => Touched::All,
    }
}

// A request that takes a range, a session, a tree or an open away touches more than itself.
fn touched_by_command(tables: &Tables, command: &Command<'_>) -> Touched
    ensures { (s : model.Server) (f : ℕ) → TablesShown tables.now s → may_free result f ≡ false
        → leaves_file s f (command_of command.now) ≡ true }
{
    match command {
        Command::Lock { file, .. } => touched_by_lock(tables, *file),
        Command::Read { .. } => Touched::Nothing,
        Command::Write { .. } => Touched::Nothing,
        Command::Flush { .. } => Touched::Nothing,
        Command::QueryFile { .. } => Touched::Nothing,
        Command::SetInfo { .. } => Touched::Nothing,
        Command::ListDirectory { .. } => Touched::Nothing,
        _ => Touched::All,
    }
}

// One whose open doesn't stand is refused, and names no file.
fn touched_by_lock(tables: &Tables, id: u64) -> Touched
    ensures { (s : model.Server) (f : ℕ) → TablesShown tables.now s → may_free result f ≡ false → not (f == file_of s id) ≡ true }
{
    if !tables.opens.stands(id) {
        return Touched::All;
    }
    Touched::File(tables.file_of(id))
}
