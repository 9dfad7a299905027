//! The server that connections share.
ghost use Rattle.std.specs.Prelude.{◌≡◌};
ghost use Rattle.server_core.specs.disk_server.Telling.{TellsAnswer, refusal};
ghost use Rattle.server_core.specs.Shown.{stopped_of};

use crate::disk_server::asked::{logon_in, shape_in};
use crate::event_replies::{Logon, reply_from};
use crate::server::Server;
use base_outside::{Disk, Standing};
use conn_core::{Reply, Serve, ServeError};
use server_checks::ServerEvent;
use server_effects::Answer;
use std::alloc::Global;
use wire_commands::{Command, room_for};

/// A server that takes one event at a time, and looks for the room of a reply's body before it takes the event.
#[derive(Drop)]
pub struct Book<D: Disk> {
    pub alloc: Global,
    pub server: Server<D>,
}

// Room that was found is given back for the reply, whose writers find it again.
fn give_back(_room: Vec<u8>) {}

// The reply to an event that was carried out.
fn told(
    alloc: Global,
    command: &Command<'_>,
    logon: &Option<Logon>,
    answer: &Answer,
) -> Result<Reply, ServeError>
    ensures { TellsAnswer command.now logon.now answer.now result }
{
    match reply_from(alloc, command, logon, answer) {
        Ok(reply) => Ok(reply),
        Err(_) => Err(ServeError::Unanswered {
            acted: answer.acted,
        }),
    }
}

// Why a server has no answer: it has stopped, and else it found no memory.
fn refused_by<D: Disk>(server: &Server<D>) -> ServeError
    ensures { result ≡ refusal (stopped_of server.now) }
{
    match server.stopped() {
        Some(count) => ServeError::Stopped(count),
        None => ServeError::Memory,
    }
}

impl<D: Disk> Book<D> {
    ghost use Rattle.std.specs.Prelude.{◌≡◌, ℕ, Err, IfOk, List, None, Some};
    ghost use Rattle.conn_core.specs.served.Serving.{Halts, IsServerServed, IsServerShort, ServerServes, StopsAtFault};
    ghost use Rattle.conn_core.specs.declared.served.error.ServeError.TheVariants as errors;
    ghost use Rattle.spec_exchange.specs.State as model;
    ghost use Rattle.law_snapshots.specs.snapshots.Pieces.{SnapshotPiece};
    ghost use Rattle.server_core.specs.disk_server.Asked.{HasShape, BookLogonIs};
    ghost use Rattle.server_core.specs.disk_server.Shown.{ShowsOver};
    ghost use Rattle.server_core.specs.Shown.{disk_of, stopped_of};
    ghost use Rattle.spec_crypto.specs.tokens.Tokens.{Users};
    ghost use Rattle.spec_world.specs.Ends.{Logons};

    // The event, and its reply in the room that was found for it.
    fn carry(
        &mut self,
        now: u64,
        event: ServerEvent<'_>,
        command: &Command<'_>,
        logon: &Option<Logon>,
        room: Vec<u8>,
    ) -> Result<Reply, ServeError>
        requires { stopped_of self.old.server ≡ None }
        ensures short { IfOk result (λ r. IsServerShort r) }
        ensures serves { (base : List SnapshotPiece) (users : Users) (s : model.Server) (L : Logons) (records : List model.Record)
            → ShowsOver D.told D.seen D.may_leave base self.old users s L records → IsServerServed event.entry
            → HasShape event.entry command.now → BookLogonIs s L event.entry logon.now
            → ServerServes (ShowsOver D.told D.seen D.may_leave base self.new users) users s L records now event.entry result }
        ensures halts { (base : List SnapshotPiece) (users : Users) (s : model.Server) (L : Logons) (records : List model.Record)
            → ShowsOver D.told D.seen D.may_leave base self.old users s L records
            → Halts (stopped_of self.old.server) (stopped_of self.new.server) result }
        ensures fault { (base : List SnapshotPiece) (users : Users) (s : model.Server) (L : Logons) (records : List model.Record)
            → ShowsOver D.told D.seen D.may_leave base self.old users s L records → (count : ℕ) → result ≡ Err (errors.Stopped count)
            → StopsAtFault (D.faults (disk_of self.old.server)) (D.faults (disk_of self.new.server)) count }
        ensures stops { (count : ℕ) → result ≡ Err (errors.Stopped count) → stopped_of self.new.server ≡ Some count }
    {
        match self.server.event(now, event) {
            Ok(answer) => {
                give_back(room);
                told(self.alloc, command, logon, &answer)
            }
            Err(_) => Err(refused_by(&self.server)),
        }
    }

    // An event of a server that goes on: the room first.
    fn go_with(
        &mut self,
        now: u64,
        event: ServerEvent<'_>,
        logon: &Option<Logon>,
    ) -> Result<Reply, ServeError>
        requires { stopped_of self.old.server ≡ None }
        ensures short { IfOk result (λ r. IsServerShort r) }
        ensures serves { (base : List SnapshotPiece) (users : Users) (s : model.Server) (L : Logons) (records : List model.Record)
            → ShowsOver D.told D.seen D.may_leave base self.old users s L records → IsServerServed event.entry
            → BookLogonIs s L event.entry logon.now
            → ServerServes (ShowsOver D.told D.seen D.may_leave base self.new users) users s L records now event.entry result }
        ensures halts { (base : List SnapshotPiece) (users : Users) (s : model.Server) (L : Logons) (records : List model.Record)
            → ShowsOver D.told D.seen D.may_leave base self.old users s L records
            → Halts (stopped_of self.old.server) (stopped_of self.new.server) result }
        ensures fault { (base : List SnapshotPiece) (users : Users) (s : model.Server) (L : Logons) (records : List model.Record)
            → ShowsOver D.told D.seen D.may_leave base self.old users s L records → (count : ℕ) → result ≡ Err (errors.Stopped count)
            → StopsAtFault (D.faults (disk_of self.old.server)) (D.faults (disk_of self.new.server)) count }
        ensures stops { (count : ℕ) → result ≡ Err (errors.Stopped count) → stopped_of self.new.server ≡ Some count }
    {
        let command = shape_in(self.alloc, &event);
        match Vec::<u8>::with_capacity(self.alloc, room_for(&command)) {
            Ok(room) => self.carry(now, event, &command, logon, room),
            Err(_) => Err(ServeError::Memory),
        }
    }

    fn go_on(&mut self, now: u64, event: ServerEvent<'_>) -> Result<Reply, ServeError>
        requires { stopped_of self.old.server ≡ None }
        ensures short { IfOk result (λ r. IsServerShort r) }
        ensures serves { (base : List SnapshotPiece) (users : Users) (s : model.Server) (L : Logons) (records : List model.Record)
            → ShowsOver D.told D.seen D.may_leave base self.old users s L records → IsServerServed event.entry
            → ServerServes (ShowsOver D.told D.seen D.may_leave base self.new users) users s L records now event.entry result }
        ensures halts { (base : List SnapshotPiece) (users : Users) (s : model.Server) (L : Logons) (records : List model.Record)
            → ShowsOver D.told D.seen D.may_leave base self.old users s L records
            → Halts (stopped_of self.old.server) (stopped_of self.new.server) result }
        ensures fault { (base : List SnapshotPiece) (users : Users) (s : model.Server) (L : Logons) (records : List model.Record)
            → ShowsOver D.told D.seen D.may_leave base self.old users s L records → (count : ℕ) → result ≡ Err (errors.Stopped count)
            → StopsAtFault (D.faults (disk_of self.old.server)) (D.faults (disk_of self.new.server)) count }
        ensures stops { (count : ℕ) → result ≡ Err (errors.Stopped count) → stopped_of self.new.server ≡ Some count }
    {
        match logon_in(&self.server, &event) {
            Ok(logon) => self.go_with(now, event, &logon),
            Err(_) => Err(ServeError::Memory),
        }
    }
}

impl<D: Disk> Serve for Book<D> {
    ghost use Rattle.server_core.specs.disk_server.Shown.{ShowsBook};
    ghost use Rattle.server_core.specs.Shown.{disk_of, stopped_of};

    ghost shows = { λ b users s L records. ShowsBook D.told D.seen D.may_leave b users s L records };

    ghost stopped = { λ b. stopped_of b.server };

    ghost faults = { λ b. D.faults (disk_of b.server) };

    fn event(&mut self, now: u64, event: ServerEvent<'_>) -> Result<Reply, ServeError> {
        match self.server.stopped() {
            Some(count) => Err(ServeError::Stopped(count)),
            None => self.go_on(now, event),
        }
    }

    fn stop_count(&self) -> Option<u64> {
        self.server.stopped()
    }

    fn standing(&self, connection: u32) -> Standing {
        self.server.standing(connection)
    }
}

/// The same over a disk whose journal may have been written anew: what it shows stands on the disk over a snapshot, or over none.
#[derive(Drop)]
pub struct DiskBook<D: Disk> {
    pub book: Book<D>,
}

impl<D: Disk> Serve for DiskBook<D> {
    ghost use Rattle.server_core.specs.disk_server.Shown.{ShowsDisk};
    ghost use Rattle.server_core.specs.Shown.{disk_of, stopped_of};

    ghost shows = { λ b users s L records. ShowsDisk D.told D.seen D.may_leave b.book users s L records };

    ghost stopped = { λ b. stopped_of b.book.server };

    ghost faults = { λ b. D.faults (disk_of b.book.server) };

    fn event(&mut self, now: u64, event: ServerEvent<'_>) -> Result<Reply, ServeError> {
        match self.book.server.stopped() {
            Some(count) => Err(ServeError::Stopped(count)),
            None => self.book.go_on(now, event),
        }
    }

    fn stop_count(&self) -> Option<u64> {
        self.book.server.stopped()
    }

    fn standing(&self, connection: u32) -> Standing {
        self.book.server.standing(connection)
    }
}
