//! The server as its connections see it.
use crate::conn::Progress;
use crate::frame_messages::Checked;
use crate::served::error::ServeError;
use base_outside::Standing;
use server_checks::ServerEvent;
use std::alloc::{AllocError, Global};
use wire_bytes::Bytes;

/// The error response (MS-SMB2 2.2.2).
const ERROR: [u8; 9] = [9, 0, 0, 0, 0, 0, 0, 0, 0];

/// The server's answer to a message: the ids and the status for the response's header, and what stands behind it.
#[derive(Drop, Debug)]
pub struct Reply {
    pub status: u32,
    pub session: u64,
    pub tree: u32,
    pub body: Bytes,
    /// The open that a CREATE made, attached or told again.
    pub file: Option<u128>,
    pub progress: Progress,
    /// Files, the set of opens or ranges changed.
    pub acted: bool,
}

impl Reply {
    ghost use Rattle.std.specs.Prelude.{◌≡◌, IfOk};
    ghost use Rattle.conn_core.specs.served.Refusing.{IsMessageRefused};

    /// The answer to a message that has no event, as a SESSION_SETUP for which no random bytes are left: a status that isn't
    /// a success, and the message's own ids.
    #[tactic(auto, unfolding(spec_wire::specs::messages::Places::le))]
    pub fn refused(alloc: Global, checked: &Checked, status: u32) -> Result<Reply, AllocError>
        ensures { IfOk result (λ r. IsMessageRefused checked.now status r) }
    {
        Ok(Reply {
            status,
            session: checked.header.session,
            tree: checked.header.tree,
            body: Bytes::from_slice(alloc, &ERROR)?,
            file: None,
            progress: Progress::Stays,
            acted: false,
        })
    }
}

/// A server that takes one event at a time.
pub trait Serve {
    ghost use Rattle.std.specs.Prelude.{◌≡◌, ℕ, List, Option, None, Some, Err, IfOk};
    ghost use Rattle.spec_crypto.specs.tokens.Tokens.{Users};
    ghost use Rattle.spec_exchange.specs.State.{Record, Server};
    ghost use Rattle.spec_world.specs.Ends.{Logons};
    ghost use Rattle.conn_core.specs.served.Serving.{Halts, IsServerServed, IsServerShort, ServerServes, StopsAtFault};
    ghost use Rattle.conn_core.specs.declared.served.error.ServeError.TheVariants as errors;

    /// With these users it shows a state of the model, logons, and the records that were written.
    ghost shows: { Self → Users → Server → Logons → List Record → Type 0 };

    /// The count of the disk's faults at which it stopped.
    ghost stopped: { Self → Option ℕ };

    /// The count of its disk's faults.
    ghost faults: { Self → ℕ };

    /// Answers a message, or a connection that is made or lost, at a moment in units of 100 nanoseconds since 1601. At
    /// `Memory` nothing has changed but that one open may have expired; at `Unanswered` the event stands. A server stops only
    /// where its disk fails, at its count of faults then, which rose; from then on each event answers `Stopped` with that count and
    /// changes nothing, neither the server nor its disk, and of what it shows nothing is told.
    fn event(&mut self, now: u64, event: ServerEvent<'_>) -> Result<Reply, ServeError>
        ensures short { IfOk result (λ r. IsServerShort r) }
        ensures serves { (users : Users) (s : Server) (L : Logons) (records : List Record)
            → shows self.old users s L records → IsServerServed event.entry
            → ServerServes (shows self.new users) users s L records now event.entry result }
        ensures halts { (users : Users) (s : Server) (L : Logons) (records : List Record)
            → shows self.old users s L records → Halts (stopped self.old) (stopped self.new) result }
        ensures halted { (count : ℕ) → stopped self.old ≡ Some count
            → (result ≡ Err (errors.Stopped count)) × (self.new ≡ self.old) }
        ensures fault { (users : Users) (s : Server) (L : Logons) (records : List Record)
            → shows self.old users s L records → stopped self.old ≡ None → (count : ℕ) → result ≡ Err (errors.Stopped count)
            → StopsAtFault (faults self.old) (faults self.new) count }
        ensures stops { (count : ℕ) → result ≡ Err (errors.Stopped count) → stopped self.new ≡ Some count };

    /// The count of the disk's faults at which it stopped.
    fn stop_count(&self) -> Option<u64>
        ensures { result ≡ stopped self.now };

    /// What a connection has at the server, for its link alone.
    fn standing(&self, connection: u32) -> Standing;
}
