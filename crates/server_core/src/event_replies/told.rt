//! The reply of an answer.
ghost use Rattle.std.specs.Prelude.{◌≡◌, MatchResult};
ghost use Rattle.server_core.specs.event_replies.Told.{IsBookTold, IsUntold};
ghost use Rattle.wire_commands.specs.values.Meaning.{body_of};
ghost use Rattle.conn_core.specs.served.Serving.{created_in};

use crate::event_replies::progress::{Logon, progress_for};
use conn_core::{Progress, Reply};
use server_effects::Answer;
use std::alloc::Global;
use wire_bytes::Bytes;
use wire_commands::{Body, Command, WriteError, reply_body};

/// The most bytes of a body that fits a frame.
const LONGEST: usize = 1_113_984;

fn file_in(body: &Body) -> Option<u128>
    ensures { result ≡ created_in (body_of body.now) }
{
    match body {
        Body::Created(reply) => Some(reply.id),
        _ => None,
    }
}

fn reply_with(answer: &Answer, progress: Progress, body: Bytes) -> Reply
    ensures status { result.status ≡ answer.now.reply.status }
    ensures session { result.session ≡ answer.now.reply.session_id }
    ensures tree { result.tree ≡ answer.now.reply.tree_id }
    ensures body { result.body ≡ body }
    ensures file { result.file ≡ created_in (body_of answer.now.reply.body) }
    ensures progress { result.progress ≡ progress }
    ensures acted { result.acted ≡ answer.now.acted }
{
    Reply {
        status: answer.reply.status,
        session: answer.reply.session_id,
        tree: answer.reply.tree_id,
        body,
        file: file_in(&answer.reply.body),
        progress,
        acted: answer.acted,
    }
}

/// The reply of an answer, with the body for the command that was asked. `Unwritable` comes only where the answer tells nothing that
/// its connection can come to, a part of the body doesn't fit its field, or no frame holds the body; `Memory` may always come.
#[tactic(auto, using(crate::proofs::event_replies::Untold::untold, crate::proofs::event_replies::Untold::nothing_told, crate::proofs::event_replies::Untold::too_long))]
pub fn reply_from(
    alloc: Global,
    command: &Command<'_>,
    logon: &Option<Logon>,
    answer: &Answer,
) -> Result<Reply, WriteError>
    ensures { MatchResult result (λ r. IsBookTold command.now logon.now answer.now r)
        (λ e. IsUntold command.now logon.now answer.now e) }
{
    let Some(progress) = progress_for(logon, answer) else {
        return Err(WriteError::Unwritable);
    };
    match reply_body(alloc, &answer.token, command, &answer.reply) {
        Ok(body) => {
            if body.len() > LONGEST {
                return Err(WriteError::Unwritable);
            }
            Ok(reply_with(answer, progress, body))
        }
        Err(error) => Err(error),
    }
}
