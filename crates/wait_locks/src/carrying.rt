//! What an event itself comes to, before waiters are tried.
ghost use Rattle.std.specs.Prelude.{◌≡◌};
ghost use Rattle.law_waiting.specs.wait_steps.WaitStep.{own_reply};
ghost use Rattle.server_checks.specs.event_heard.Heard.{heard_event};
ghost use Rattle.spec_crypto.specs.tokens.Tokens.{Users};
ghost use Rattle.spec_exchange.specs.State as model;
ghost use Rattle.spec_world.specs.Ends.{Logons};

use crate::held::would_begin;
use crate::later::{Later, OwnAnswer, cancelled_to, pending_to, turned_away};
use crate::wait_server::{CancelTarget, WaitEvent, WaitServer};
use crate::waiter::Waiter;
use crate::waiters::{drop_by, named, sent_before};
use base_outside::Disk;
use server_checks::{EventError, ServerEvent};
use wire_commands::Message;

/// To whom an event's own response goes: its connection, and the MessageId where it is a request.
#[derive(Clone, Copy)]
pub(crate) struct Asker {
    pub connection: u32,
    pub message: u64,
}

// Of an event of the server.
fn asker_of(event: &ServerEvent<'_>) -> Asker
    ensures { (users : Users) (L : Logons) (s : model.Server) (r : model.Reply) → own_reply (heard_event users L s event.now) r
        ≡ record { connection = result.connection; message = result.message; async_id = 0; reply = r } }
{
    match event {
        ServerEvent::Accept { connection } => Asker {
            connection: *connection,
            message: 0,
        },
        ServerEvent::Message { message } => Asker {
            connection: message.connection,
            message: message.message_id,
        },
        ServerEvent::Setup { setup } => Asker {
            connection: setup.connection,
            message: setup.message_id,
        },
        ServerEvent::End { connection } => Asker {
            connection: *connection,
            message: 0,
        },
        ServerEvent::Stop => Asker {
            connection: 0,
            message: 0,
        },
    }
}

impl<D: Disk> WaitServer<D> {
    ghost use Rattle.std.specs.Prelude.{◌≡◌, ◌<◌, [], List, None, Some, length, map, slice_index_or, vec_capacity, vec_len};
    ghost use Rattle.spec_exchange.specs.State as model;
    ghost use Rattle.spec_world.specs.Ends.{Logons};
    ghost use Rattle.law_waiting.specs.wait_steps.WaitStep.{WaitState, Serves, let_in, taken_in, waiter_named};
    ghost use Rattle.server_checks.specs.declared.event_heard.event.ServerEvent.TheVariants as events;
    ghost use Rattle.server_checks.specs.event_heard.Heard.{heard_event};
    ghost use Rattle.server_core.specs.Shown.{config_of, stopped_of};
    ghost use Rattle.wait_locks.specs.Begun.{BegunBy, CancelIs, LetInIs, ServedBy};
    ghost use Rattle.wait_locks.specs.Kept.{kept_message, waiter_of};
    ghost use Rattle.wait_locks.specs.declared.waiter.Waiter.{Waiter};
    ghost use Rattle.wait_locks.specs.Shown.{HoldsWaiting, Places, own_event, target_of, wait_event};

    pub(crate) fn carry(
        &mut self,
        now: u64,
        at_once: bool,
        event: WaitEvent<'_>,
        finals: &mut Vec<Later>,
    ) -> Result<Option<OwnAnswer>, EventError>
        requires { (finals.old.items ≡ []) × (vec_len finals.old < vec_capacity finals.old)
            × (vec_len self.old.waiters < vec_capacity self.old.waiters) }
        ensures step { (w : WaitState) (L : Logons) (records : List model.Record)
            → HoldsWaiting D.told D.seen D.may_leave self.old w L records
            → stopped_of self.old.server ≡ None
            → BegunBy D.told D.seen D.may_leave D.moment D.left_since D.faults self.old.server self.new finals.new.items w L records now at_once (own_event event.entry)
            (wait_event (config_of self.old.server).users L w.server event.entry) result }
        ensures config { config_of self.new.server ≡ config_of self.old.server }
    {
        match event {
            WaitEvent::Cancels { connection, target } => {
                self.cancel(connection, &target, finals);
                Ok(None)
            }
            WaitEvent::Serves { event } => self.serve(now, at_once, event, finals),
        }
    }

    // A CANCEL: the waiter leaves, and no slot keeps that (MS-SMB2 3.3.5.16).
    fn cancel(&mut self, connection: u32, target: &CancelTarget, finals: &mut Vec<Later>)
        requires { vec_len finals.old < vec_capacity finals.old }
        ensures lists { CancelIs connection (target_of target.now) (waiter_named connection (target_of target.now) (map waiter_of self.old.waiters.items))
            self.old self.new finals.old.items finals.new.items }
        ensures rest { self.new ≡ record self.old { waiters = self.new.waiters } }
    {
        match named(self.waiters.as_slice(), connection, target) {
            Some(place) => {
                let waiter = self.waiters.remove(place);
                finals.push_reserved(cancelled_to(&waiter));
            }
            None => {}
        }
    }

    // An event of the server: a LOCK that would wait begins to.
    fn serve(
        &mut self,
        now: u64,
        at_once: bool,
        event: ServerEvent<'_>,
        finals: &mut Vec<Later>,
    ) -> Result<Option<OwnAnswer>, EventError>
        requires { (finals.old.items ≡ []) × (vec_len finals.old < vec_capacity finals.old)
            × (vec_len self.old.waiters < vec_capacity self.old.waiters) }
        ensures step { (w : WaitState) (L : Logons) (records : List model.Record)
            → HoldsWaiting D.told D.seen D.may_leave self.old w L records
            → stopped_of self.old.server ≡ None
            → BegunBy D.told D.seen D.may_leave D.moment D.left_since D.faults self.old.server self.new finals.new.items w L records now at_once event.entry
            (Serves (heard_event (config_of self.old.server).users L w.server event.entry)) result }
        ensures config { config_of self.new.server ≡ config_of self.old.server }
    {
        match event {
            ServerEvent::Message { message } => self.hear(now, at_once, message, finals),
            other => self.to_server(now, other),
        }
    }

    // A request: a LOCK that would wait begins to, unless it is to be answered at once.
    fn hear(
        &mut self,
        now: u64,
        at_once: bool,
        message: Message<'_>,
        finals: &mut Vec<Later>,
    ) -> Result<Option<OwnAnswer>, EventError>
        requires { (finals.old.items ≡ []) × (vec_len finals.old < vec_capacity finals.old)
            × (vec_len self.old.waiters < vec_capacity self.old.waiters) }
        ensures step { (w : WaitState) (L : Logons) (records : List model.Record)
            → HoldsWaiting D.told D.seen D.may_leave self.old w L records
            → stopped_of self.old.server ≡ None
            → BegunBy D.told D.seen D.may_leave D.moment D.left_since D.faults self.old.server self.new finals.new.items w L records now at_once
            (events.Message message.entry)
            (Serves (heard_event (config_of self.old.server).users L w.server (events.Message message.entry))) result }
        ensures config { config_of self.new.server ≡ config_of self.old.server }
    {
        if at_once {
            return self.to_server(now, ServerEvent::Message { message });
        }
        match would_begin(self.server.tables(), &message) {
            Some(waiter) => Ok(Some(self.let_in(&waiter, finals))),
            None => self.to_server(now, ServerEvent::Message { message }),
        }
    }

    // It becomes the last waiter, or takes the place of the one that it repeats; where there is no place, it is turned away.
    fn let_in(&mut self, waiter: &Waiter, finals: &mut Vec<Later>) -> OwnAnswer
        requires { (vec_len finals.old < vec_capacity finals.old) × (vec_len self.old.waiters < vec_capacity self.old.waiters) }
        ensures lists { (w : WaitState) → map waiter_of self.old.waiters.items ≡ w.waiters → self.old.ids_given ≡ w.ids_given
            → LetInIs (let_in w (kept_message waiter.now) []) self.new finals.old.items finals.new.items result }
        ensures rest { self.new ≡ record self.old { waiters = self.new.waiters; ids_given = self.new.ids_given } }
    {
        if self.ids_given >= u64::MAX {
            return turned_away(self.alloc, waiter);
        }
        match sent_before(self.waiters.as_slice(), waiter) {
            Some(place) => self.replace(place, waiter, finals),
            None => self.take_behind(waiter),
        }
    }

    // It comes behind all, where there is a place.
    fn take_behind(&mut self, waiter: &Waiter) -> OwnAnswer
        requires { (vec_len self.old.waiters < vec_capacity self.old.waiters) × (self.old.ids_given < 0xffff_ffff_ffff_ffff) }
        ensures lists { (w : WaitState) (before : List Later) → map waiter_of self.old.waiters.items ≡ w.waiters
            → self.old.ids_given ≡ w.ids_given
            → LetInIs (taken_in w (kept_message waiter.now) [] None) self.new before before result }
        ensures rest { self.new ≡ record self.old { waiters = self.new.waiters; ids_given = self.new.ids_given } }
    {
        if self.waiters.len() >= 1024 {
            return turned_away(self.alloc, waiter);
        }
        self.ids_given += 1;
        let new = waiter.with_id(self.ids_given);
        self.waiters.push_reserved(new);
        pending_to(self.alloc, &new)
    }

    // It takes the place of the one that it repeats, which is cancelled.
    fn replace(&mut self, place: usize, waiter: &Waiter, finals: &mut Vec<Later>) -> OwnAnswer
        requires { (vec_len finals.old < vec_capacity finals.old) × (place < length self.old.waiters.items)
            × (self.old.ids_given < 0xffff_ffff_ffff_ffff) }
        ensures lists { (w : WaitState) (d : Waiter) → map waiter_of self.old.waiters.items ≡ w.waiters → self.old.ids_given ≡ w.ids_given
            → Places waiter.now self.old.waiters.items place
            → LetInIs (taken_in w (kept_message waiter.now) [] (Some (waiter_of (slice_index_or self.old.waiters.items place d)))) self.new
            finals.old.items finals.new.items result }
        ensures rest { self.new ≡ record self.old { waiters = self.new.waiters; ids_given = self.new.ids_given } }
    {
        self.ids_given += 1;
        let new = waiter.with_id(self.ids_given);
        let old = self.waiters[place];
        self.waiters[place] = new;
        finals.push_reserved(cancelled_to(&old));
        pending_to(self.alloc, &new)
    }

    // The server's own step; an end drops waiters before it.
    fn to_server(
        &mut self,
        now: u64,
        event: ServerEvent<'_>,
    ) -> Result<Option<OwnAnswer>, EventError>
        ensures step { (w : WaitState) (L : Logons) (records : List model.Record)
            → HoldsWaiting D.told D.seen D.may_leave self.old w L records
            → stopped_of self.old.server ≡ None
            → ServedBy D.told D.seen D.may_leave D.moment D.left_since D.faults self.old.server self.new w L records now event.entry result }
        ensures config { config_of self.new.server ≡ config_of self.old.server }
    {
        drop_by(&mut self.waiters, &event);
        let asker = asker_of(&event);
        match self.server.event(now, event) {
            Ok(answer) => Ok(Some(OwnAnswer {
                connection: asker.connection,
                message: asker.message,
                async_id: 0,
                answer,
            })),
            Err(error) => {
                self.starved = true;
                Err(error)
            }
        }
    }
}
