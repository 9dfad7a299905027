// A server hears that a connection is made or lost.
ghost use Rattle.std.specs.Prelude.{◌≡◌, IfOk, List, None, is_none};
ghost use Rattle.spec_exchange.specs.State as model;
ghost use Rattle.spec_exchange.specs.Step.{step};
ghost use Rattle.server_core.specs.Shown.{stopped_of};
ghost use Rattle.spec_crypto.specs.tokens.Tokens.{Users};
ghost use Rattle.world_ends.specs.memory_server.Held.{HasTold, WorldHolds};
ghost use Rattle.spec_world.specs.Ends.{Logons};

use base_outside::MemDisk;
use server_checks::ServerEvent;
use server_core::Book;
use std::alloc::AllocError;

/// A connection is made: the status of the answer.
pub fn accept(book: &mut Book<MemDisk>, now: u64, connection: u32) -> Result<u32, AllocError>
    ensures { IfOk result (λ status. (users : Users) (s : model.Server) (L : Logons) (records : List model.Record)
        → WorldHolds book.old users s L records → HasTold (step s now (model.Accept connection)) book.new users L records status) }
{
    match book.server.event(now, ServerEvent::Accept { connection }) {
        Ok(answer) => Ok(answer.reply.status),
        Err(_) => Err(AllocError),
    }
}

/// A connection is lost: the status of the answer.
pub fn end(book: &mut Book<MemDisk>, now: u64, connection: u32) -> Result<u32, AllocError>
    ensures { IfOk result (λ status. (users : Users) (s : model.Server) (L : Logons) (records : List model.Record)
        → WorldHolds book.old users s L records → HasTold (step s now (model.End connection)) book.new users L records status) }
{
    match book.server.event(now, ServerEvent::End { connection }) {
        Ok(answer) => Ok(answer.reply.status),
        Err(_) => Err(AllocError),
    }
}

/// No call of its disk failed.
pub fn goes_on(book: &Book<MemDisk>) -> bool
    ensures { result ≡ is_none (stopped_of book.now.server) }
{
    book.server.stopped().is_none()
}
