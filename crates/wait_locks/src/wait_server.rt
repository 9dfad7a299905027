//! The server behind its waiters, event by event (MS-SMB2 3.3.4.2, 3.3.5.14, 3.3.5.16).
use crate::later::{Later, LaterList};
use crate::waiter::Waiter;
use crate::waiters::drop_ended;
use base_outside::Disk;
use server_checks::{EventError, ServerEvent};
use server_core::Server;
use std::alloc::{AllocError, Global};

/// Which waiter a CANCEL names (MS-SMB2 3.3.5.16): with the async flag by its AsyncId.
#[derive(Drop)]
pub enum CancelTarget {
    AsyncId(u64),
    MessageId(u64),
}

/// What a server behind its waiters hears.
#[derive(Drop)]
pub enum WaitEvent<'a> {
    Serves {
        event: ServerEvent<'a>,
    },
    Cancels {
        connection: u32,
        target: CancelTarget,
    },
}

/// A server with the LOCKs that wait for it, the earliest first.
#[derive(Drop)]
pub struct WaitServer<D: Disk> {
    pub(crate) alloc: Global,
    pub(crate) server: Server<D>,
    pub(crate) waiters: Vec<Waiter>,
    pub(crate) ids_given: u64,
    pub(crate) starved: bool,
}

impl<D: Disk> WaitServer<D> {
    ghost use Rattle.std.specs.Prelude.{◌≡◌, ◌<◌, ℕ, [], Err, IfErr, IfOk, List, None, Some, false, true, vec_len, vec_capacity, map};
    ghost use Rattle.spec_exchange.specs.State as model;
    ghost use Rattle.spec_world.specs.Ends.{Logons};
    ghost use Rattle.law_waiting.specs.wait_steps.WaitStep.{WaitState, waiting_on};
    ghost use Rattle.server_checks.specs.declared.setups.error.EventError.TheVariants as errors;
    ghost use Rattle.server_core.specs.Shown.{HoldsServer, config_of, disk_of, stopped_of};
    ghost use Rattle.wait_locks.specs.Begun.{BegunBy};
    ghost use Rattle.law_waiting.specs.wait_steps.WaitStep.{staying_waiters};
    ghost use Rattle.wait_locks.specs.Kept.{waiter_of};
    ghost use Rattle.wait_locks.specs.Shown.{HoldsWaiting, TurnAnswers, own_event, wait_event};

    /// Of a server that goes on: no call of its disk has failed. Nobody waits yet.
    pub fn new(alloc: Global, server: Server<D>) -> WaitServer<D>
        ensures { (s : model.Server) (L : Logons) (records : List model.Record)
            → HoldsServer D.told D.seen D.may_leave server s L records → stopped_of server ≡ None
            → HoldsWaiting D.told D.seen D.may_leave result (waiting_on s) L records }
    {
        WaitServer {
            alloc,
            server,
            waiters: Vec::new(alloc),
            ids_given: 0,
            starved: false,
        }
    }

    /// Whether a waiter may stand that no range holds up any more, since memory ran out or the disk failed.
    pub fn starved(&self) -> bool
        ensures { (w : WaitState) (L : Logons) (records : List model.Record) → HoldsWaiting D.told D.seen D.may_leave self.now w L records
            → result ≡ w.starved }
    {
        self.starved
    }

    /// The server that they wait for.
    pub fn server(&self) -> &Server<D>
        ensures { result.now ≡ self.now.server }
    {
        &self.server
    }

    /// Hands back the disk. Whoever waits is told nothing.
    pub fn stop(self) -> D
        ensures { result ≡ disk_of self.server }
    {
        let WaitServer { server, .. } = self;
        server.stop()
    }

    /// One event, and all waiters that it lets go. The room for its responses is taken first.
    ///
    /// `Memory`: it found none; nobody was tried then, but an end dropped its connection's waiters. `DiskFault`: a step of the server
    /// met it, its own or a waiter's, and nobody is answered. `Stopped`: an earlier event met it, and nothing changes.
    pub fn event(&mut self, now: u64, event: WaitEvent<'_>) -> Result<LaterList, EventError>
        ensures step { (w : WaitState) (L : Logons) (records : List model.Record)
            → HoldsWaiting D.told D.seen D.may_leave self.old w L records
            → TurnAnswers D.told D.seen D.may_leave D.moment D.left_since D.faults self.old.server self.new w L records now false event.entry result }
        ensures stopped { (count : ℕ) → stopped_of self.old.server ≡ Some count
            → (result ≡ Err (errors.Stopped count)) × (self.new ≡ self.old) }
        ensures config { config_of self.new.server ≡ config_of self.old.server }
    {
        self.turn(now, false, event)
    }

    /// The same of an event whose LOCK isn't to wait, as one that isn't alone in its frame.
    pub fn event_at_once(&mut self, now: u64, event: WaitEvent<'_>) -> Result<LaterList, EventError>
        ensures step { (w : WaitState) (L : Logons) (records : List model.Record)
            → HoldsWaiting D.told D.seen D.may_leave self.old w L records
            → TurnAnswers D.told D.seen D.may_leave D.moment D.left_since D.faults self.old.server self.new w L records now true event.entry result }
        ensures stopped { (count : ℕ) → stopped_of self.old.server ≡ Some count
            → (result ≡ Err (errors.Stopped count)) × (self.new ≡ self.old) }
        ensures config { config_of self.new.server ≡ config_of self.old.server }
    {
        self.turn(now, true, event)
    }

    fn turn(
        &mut self,
        now: u64,
        at_once: bool,
        event: WaitEvent<'_>,
    ) -> Result<LaterList, EventError>
        ensures step { (w : WaitState) (L : Logons) (records : List model.Record)
            → HoldsWaiting D.told D.seen D.may_leave self.old w L records
            → TurnAnswers D.told D.seen D.may_leave D.moment D.left_since D.faults self.old.server self.new w L records now at_once event.entry result }
        ensures stopped { (count : ℕ) → stopped_of self.old.server ≡ Some count
            → (result ≡ Err (errors.Stopped count)) × (self.new ≡ self.old) }
        ensures config { config_of self.new.server ≡ config_of self.old.server }
    {
        match self.server.stopped() {
            Some(count) => Err(EventError::Stopped(count)),
            None => self.goes(now, at_once, event),
        }
    }

    // Of a server that goes on: the room first.
    fn goes(
        &mut self,
        now: u64,
        at_once: bool,
        event: WaitEvent<'_>,
    ) -> Result<LaterList, EventError>
        ensures step { (w : WaitState) (L : Logons) (records : List model.Record)
            → HoldsWaiting D.told D.seen D.may_leave self.old w L records
            → stopped_of self.old.server ≡ None
            → TurnAnswers D.told D.seen D.may_leave D.moment D.left_since D.faults self.old.server self.new w L records now at_once event.entry result }
        ensures config { config_of self.new.server ≡ config_of self.old.server }
    {
        match self.room() {
            Ok(finals) => self.begin(now, at_once, event, finals),
            Err(_) => {
                self.lack(&event);
                Err(EventError::Memory)
            }
        }
    }

    // Room for one waiter more, and for the final responses to all.
    fn room(&mut self) -> Result<Vec<Later>, AllocError>
        ensures same { (self.new.waiters.items ≡ self.old.waiters.items) × (self.new ≡ record self.old { waiters = self.new.waiters }) }
        ensures room { IfOk result (λ v. (v.items ≡ []) × (vec_len v < vec_capacity v)
            × (vec_len self.new.waiters < vec_capacity self.new.waiters)) }
    {
        match self.waiters.reserve(1) {
            Ok(()) => Vec::with_capacity(self.alloc, self.waiters.len() + 1),
            Err(error) => Err(error),
        }
    }

    // No event is carried out, but an end drops waiters still.
    fn lack(&mut self, event: &WaitEvent<'_>)
        ensures lists { (w : WaitState) (L : Logons) → map waiter_of self.new.waiters.items
            ≡ staying_waiters (map waiter_of self.old.waiters.items) (wait_event (config_of self.old.server).users L w.server event.now) }
        ensures rest { self.new ≡ record self.old { waiters = self.new.waiters; starved = true } }
    {
        drop_ended(&mut self.waiters, event);
        self.starved = true;
    }

    // The event itself, and then those that it lets go.
    fn begin(
        &mut self,
        now: u64,
        at_once: bool,
        event: WaitEvent<'_>,
        mut finals: Vec<Later>,
    ) -> Result<LaterList, EventError>
        requires { (finals.items ≡ []) × (vec_len finals < vec_capacity finals)
            × (vec_len self.old.waiters < vec_capacity self.old.waiters) }
        ensures step { (w : WaitState) (L : Logons) (records : List model.Record)
            → HoldsWaiting D.told D.seen D.may_leave self.old w L records
            → stopped_of self.old.server ≡ None
            → TurnAnswers D.told D.seen D.may_leave D.moment D.left_since D.faults self.old.server self.new w L records now at_once event.entry result }
        ensures config { config_of self.new.server ≡ config_of self.old.server }
    {
        match self.carry(now, at_once, event, &mut finals) {
            Ok(own) => match self.try_all(now, &mut finals) {
                Ok(()) => Ok(LaterList { own, finals }),
                Err(error) => Err(error),
            },
            Err(error) => Err(error),
        }
    }
}
