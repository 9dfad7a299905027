//! The event of a message, where its connection isn't at hand.
ghost use Rattle.std.specs.Prelude.{◌≡◌, ℕ, List, None, Option, Some, slice_get, true};
ghost use Rattle.spec_crypto.specs.tokens.Tokens.{Users};
ghost use Rattle.spec_exchange.specs.State.{Record, Server};
ghost use Rattle.spec_world.specs.Settings.{ServerSettings};
ghost use Rattle.spec_world.specs.Ends.{Logons, ServerEnd};
ghost use Rattle.spec_world.specs.Hearing as hearing;
ghost use Rattle.conn_core.specs.declared.frame_messages.checked.Checked.{Checked};
ghost use Rattle.conn_core.specs.frame_messages.Checking.{HasMessage, IsDenied, ShowsGoing};
ghost use Rattle.conn_core.specs.served.Serving.{Onward, StopsAtFault};
ghost use Rattle.conn_core.specs.message_replies.Replying.{has_message_event};
ghost use Rattle.conn_core.specs.requests.Asking.{IsRequestTold};
ghost use Rattle.conn_core.specs.frame_events.Dealing.{AreShortIf, GivesFor, stop_in};
ghost use Rattle.conn_core.specs.frame_events.Telling.{ToldGives};

use crate::frame_messages::CheckedFrame;
use crate::requests::{Told, event};
use crate::served::{Reply, Serve, ServeError};
use std::alloc::{AllocError, Global};

/// Gives the server what a message asks of it, by what its connection tells. A message of which nothing is asked has no answer.
pub fn ask<S: Serve>(
    server: &mut S,
    alloc: Global,
    now: u64,
    frame: &CheckedFrame,
    at: usize,
    told: &Told,
) -> Option<Result<Reply, ServeError>>
    requires { HasMessage frame.now at }
    ensures tells { (z : ServerSettings) (before : Option ℕ) (s : Server) (L : Logons) (records : List Record) (m : Checked)
        → Onward (S.shows server.old z.users) before (S.stopped server.old) s L records
        → slice_get frame.now.messages.items at ≡ Some m → IsDenied m.fault → has_message_event m ≡ true
        → ToldGives (Onward (S.shows server.new z.users) before (S.stopped server.new)) z now s L records told.now m
        frame.now.bytes.items result }
    ensures gives { (z : ServerSettings) (before : Option ℕ) (s : Server) (L : Logons) (records : List Record) (f : ServerEnd)
        (m : Checked) (c : hearing.Checked)
        → Onward (S.shows server.old z.users) before (S.stopped server.old) s L records → IsRequestTold f c told.now
        → slice_get frame.now.messages.items at ≡ Some m → ShowsGoing frame.now.bytes.items m c → has_message_event m ≡ true
        → GivesFor (Onward (S.shows server.new z.users) before (S.stopped server.new)) z told.now.connection now told.now.fresh
        s L records f c result }
    ensures short { AreShortIf result }
    ensures stops { (count : ℕ) → stop_in result ≡ Some count → S.stopped server.new ≡ Some count }
    ensures fault { (users : Users) (s : Server) (L : Logons) (records : List Record) → S.shows server.old users s L records
        → S.stopped server.old ≡ None → (count : ℕ) → stop_in result ≡ Some count
        → StopsAtFault (S.faults server.old) (S.faults server.new) count }
{
    match event(frame, alloc, at, told) {
        Err(AllocError) => Some(Err(ServeError::Memory)),
        Ok(None) => None,
        Ok(Some(event)) => Some(server.event(now, event)),
    }
}
