//! Waiters are tried, from the front.
ghost use Rattle.std.specs.Prelude.{◌≡◌, ◌+◌, ◌<◌, List, None, drop, length, map, slice_index_or, take, vec_capacity, vec_len};
ghost use Rattle.spec_exchange.specs.State as model;
ghost use Rattle.spec_world.specs.Ends.{Logons};
ghost use Rattle.server_checks.specs.declared.event_heard.event.ServerEvent.{ServerEvent};
ghost use Rattle.wait_locks.specs.Kept.{kept_message, waiter_of};
ghost use Rattle.wait_locks.specs.declared.waiter.Waiter.{Waiter};
ghost use Rattle.wait_locks.specs.Rounds.{AllTried, IsFewer, IsRest, NextIs, RoundIs};
ghost use Rattle.server_core.specs.Shown.{HoldsServer, config_of, stopped_of};
ghost use Rattle.wire_commands.specs.values.Meaning.{message_of};

use crate::later::{Later, later_to};
use crate::wait_server::WaitServer;
use crate::waiters::first_free;
use base_outside::Disk;
use server_checks::{EventError, ServerEvent};
use wire_commands::Message;

/// What became of the first waiter that no range holds up, where one is.
pub(crate) enum Round {
    AllHeld,
    Went,
    Lacks,
    Fails(u64),
}

impl<D: Disk> WaitServer<D> {
    // It goes to the server.
    fn send(
        &mut self,
        now: u64,
        place: usize,
        message: Message<'_>,
        finals: &mut Vec<Later>,
    ) -> Round
        requires place { place < length self.old.waiters.items }
        requires room { vec_len finals.old < vec_capacity finals.old }
        ensures step { (own : ServerEvent) (s : model.Server) (L : Logons) (records : List model.Record) (d : Waiter)
            → HoldsServer D.told D.seen D.may_leave self.old.server s L records → stopped_of self.old.server ≡ None
            → message_of message.entry ≡ kept_message (slice_index_or self.old.waiters.items place d)
            → RoundIs D.told D.seen D.may_leave D.moment D.left_since D.faults now own self.old self.new finals.old.items finals.new.items result s L records
            (map waiter_of (take place self.old.waiters.items)) (waiter_of (slice_index_or self.old.waiters.items place d))
            (map waiter_of (drop (place + 1) self.old.waiters.items)) }
        ensures rest { IsRest self.old self.new }
        ensures fewer { IsFewer result (vec_len self.old.waiters) (vec_len self.new.waiters) }
    {
        match self.server.event(now, ServerEvent::Message { message }) {
            Ok(answer) => {
                let waiter = self.waiters.remove(place);
                finals.push_reserved(later_to(&waiter, answer.reply));
                Round::Went
            }
            Err(EventError::Memory) => Round::Lacks,
            Err(EventError::DiskFault(count)) => Round::Fails(count),
            Err(EventError::Stopped(count)) => Round::Fails(count),
        }
    }

    // With a copy of its message, and the room for its response.
    fn try_at(&mut self, now: u64, place: usize, finals: &mut Vec<Later>) -> Round
        requires { place < length self.old.waiters.items }
        ensures step { (own : ServerEvent) (s : model.Server) (L : Logons) (records : List model.Record) (d : Waiter)
            → HoldsServer D.told D.seen D.may_leave self.old.server s L records → stopped_of self.old.server ≡ None
            → RoundIs D.told D.seen D.may_leave D.moment D.left_since D.faults now own self.old self.new finals.old.items finals.new.items result s L records
            (map waiter_of (take place self.old.waiters.items)) (waiter_of (slice_index_or self.old.waiters.items place d))
            (map waiter_of (drop (place + 1) self.old.waiters.items)) }
        ensures rest { IsRest self.old self.new }
        ensures fewer { IsFewer result (vec_len self.old.waiters) (vec_len self.new.waiters) }
    {
        let waiter = self.waiters[place];
        match finals.reserve(1) {
            Ok(()) => match waiter.message(self.alloc) {
                Ok(message) => self.send(now, place, message, finals),
                Err(_) => Round::Lacks,
            },
            Err(_) => Round::Lacks,
        }
    }

    // The first that no range holds up.
    fn try_next(&mut self, now: u64, finals: &mut Vec<Later>) -> Round
        ensures step { (own : ServerEvent) (s : model.Server) (L : Logons) (records : List model.Record)
            → HoldsServer D.told D.seen D.may_leave self.old.server s L records → stopped_of self.old.server ≡ None
            → NextIs D.told D.seen D.may_leave D.moment D.left_since D.faults now own self.old self.new finals.old.items finals.new.items result s L records }
        ensures rest { IsRest self.old self.new }
        ensures fewer { IsFewer result (vec_len self.old.waiters) (vec_len self.new.waiters) }
    {
        match first_free(self.server.tables(), self.waiters.as_slice()) {
            Some(place) => self.try_at(now, place, finals),
            None => Round::AllHeld,
        }
    }

    /// From the front, until a range holds up each that is left.
    pub(crate) fn try_all(&mut self, now: u64, finals: &mut Vec<Later>) -> Result<(), EventError>
        ensures step { (own : ServerEvent) (s : model.Server) (L : Logons) (records : List model.Record)
            → HoldsServer D.told D.seen D.may_leave self.old.server s L records → stopped_of self.old.server ≡ None
            → AllTried D.told D.seen D.may_leave D.moment D.left_since D.faults now own self.old self.new finals.old.items finals.new.items result s L records }
        ensures config { (config_of self.new.server) ≡ (config_of self.old.server) }
        ensures rest { (self.new.alloc ≡ self.old.alloc) × (self.new.ids_given ≡ self.old.ids_given) }
    {
        'rounds: loop {
            match self.try_next(now, finals) {
                Round::Went => {}
                Round::AllHeld => {
                    self.starved = false;
                    return Ok(());
                }
                Round::Lacks => {
                    self.starved = true;
                    return Ok(());
                }
                Round::Fails(count) => {
                    self.starved = true;
                    return Err(EventError::DiskFault(count));
                }
            }
        }
    }
}
