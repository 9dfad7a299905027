//! What a SESSION_SETUP comes to for its logon (MS-SMB2 3.3.5.5) is told by its verdict alone: a challenge, the end of the logon
//! in a session or a channel, or nothing.
//!
//! The law is a public function with an empty body, whose contract is the statement.

ghost use Rattle.std.specs.Prelude.{◌≡◌, ◌==◌, ℕ, None, false};
ghost use Rattle.spec_exchange.specs.Check.{check};
ghost use Rattle.spec_exchange.specs.Commands.{Setup, SetupRequest};
ghost use Rattle.spec_exchange.specs.State.{Message, Server, ServerEvent};
ghost use Rattle.spec_exchange.specs.Status.{more_processing_required, success};
ghost use Rattle.spec_exchange.specs.Step.{carried_out, ruling, ruling_without_room};
ghost use Rattle.spec_exchange.specs.Verdict.{Refuse};
ghost use Rattle.server_core.specs.logon_progress.Progress.{ruled_progress};
ghost use Rattle.server_checks.specs.setups.Setups.{progress_of};

/// What the reply to an event says of a logon is what the ruling on it says, where its records fit the journal and where they
/// don't. A SESSION_SETUP that is refused has a status that is neither a success nor asks for more.
pub fn progress_law()
    ensures ruled { (s : Server) (now : ℕ) (e : ServerEvent)
        → progress_of e (carried_out s now (ruling s e)).reply ≡ ruled_progress s (ruling s e) }
    ensures lesser { (s : Server) (now : ℕ) (e : ServerEvent)
        → progress_of e (carried_out s now (ruling_without_room (ruling s e))).reply ≡ ruled_progress s (ruling s e) }
    ensures refused { (s : Server) (m : Message) (request : SetupRequest) (status : ℕ) → m.command ≡ Setup request → m.fault ≡ None
        → check s m ≡ Refuse status → ((status == success) ≡ false) × ((status == more_processing_required) ≡ false) }
{}
