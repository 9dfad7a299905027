//! What of a SESSION_SETUP counts for its answer.
ghost use Rattle.std.specs.Prelude.{◌≡◌, ℕ, Bool, false};
ghost use Rattle.spec_exchange.specs.Commands.{Setup, SetupRequest};
ghost use Rattle.spec_exchange.specs.State.{Heard, Message, Server};
ghost use Rattle.spec_exchange.specs.Step.{step};
ghost use Rattle.spec_crypto.specs.tokens.Tokens.{Users};
ghost use Rattle.spec_world.specs.Ends.{Logons};
ghost use Rattle.server_checks.specs.setups.Setups.{in_the_making, setup_message, with_verified};
ghost use Rattle.server_checks.specs.declared.setups.setup.SetupHeard.{SetupHeard};

/// Where the session isn't live, the step of a SESSION_SETUP is the same whether or not its signature counts as the session's.
/// So a server may look for it among live sessions alone.
pub fn absent_law()
    ensures { (s : Server) (now : ℕ) (m : Message) (r : SetupRequest) (verified : Bool) → m.command ≡ Setup r
        → s.present m.session_id ≡ false → step s now (Heard (with_verified m r verified)) ≡ step s now (Heard m) }
{}

/// Where nothing is in the making on its connection, it is the same whatever its token would show of what was.
/// So a server may forget a challenge as soon as nothing is in the making.
pub fn unmade_law()
    ensures { (users : Users) (s : Server) (L : Logons) (now : ℕ) (h : SetupHeard)
        → step s now (Heard (setup_message users (in_the_making s L) s h)) ≡ step s now (Heard (setup_message users L s h)) }
{}
