// What is on its way is changed.
ghost use Rattle.std.specs.Prelude.{◌≡◌, ℕ, ◌^◌, ◌∷◌, nat_lt, List, length, MatchResult, slice_get};
ghost use Rattle.spec_exchange.specs.Table.{is_filled};
ghost use Rattle.spec_world.specs.Events.{flipped};
ghost use Rattle.world_steps.specs.Changes.{ChangesDown, ChangesFront, ChangesUp, PutDown, PutUp, change_of, coming_in};
ghost use Rattle.world_steps.specs.Changes.{coming_to, has_open_end};
ghost use Rattle.world_steps.specs.Lists.{ChangedAt};
ghost use Rattle.world_steps.specs.Parts.{IsWorldMemory};
ghost use Rattle.world_steps.specs.Steps.{Tampers};

use crate::cutting::is_open;
use crate::moments::later;
use crate::parting::is_served;
use std::collections::VecDeque;
use wire_bytes::Bytes;
use world_ends::{Channel, Down, Up, World, WorldError};

/// Frames on their way are below it.
const MOST: usize = 1 << 60;

/// What becomes of a frame on its way.
#[derive(Drop)]
pub enum Change {
    Replaced(Bytes),
    /// From a place on, exclusive or with a mask; behind the end of one of them nothing changes.
    Flipped { at: u32, mask: Bytes },
}

/// Changes the byte at a place, where there is one; the next place.
fn flip_one(bytes: &mut [u8], place: usize, m: u8) -> usize
    ensures { (ms : List ℕ) → flipped result ms bytes.new ≡ flipped place (m ∷ ms) bytes.old }
{
    let within = place < bytes.len();
    if within {
        bytes[place] ^= m;
        place + 1
    } else {
        place
    }
}

/// Changes bytes from a place on, by exclusive or with a mask. Behind the end of one of them nothing changes.
fn flip(bytes: &mut [u8], at: usize, mask: &[u8])
    ensures { bytes.new ≡ flipped at mask.now bytes.old }
{
    let mut place = at;
    for m in mask {
        place = flip_one(bytes, place, *m);
    }
}

fn altered(bytes: Vec<u8>, change: Change) -> Vec<u8>
    ensures { result.items ≡ change_of change bytes.items }
{
    match change {
        Change::Replaced(new) => new.into_vec(),
        Change::Flipped { at, mask } => {
            let mut bytes = bytes;
            flip(&mut bytes, at as usize, mask.as_slice());
            bytes
        }
    }
}

fn is_short(bytes: &[u8]) -> bool
    ensures { result ≡ nat_lt (length bytes.now) (2 ^ 60) }
{
    bytes.len() < MOST
}

/// A frame that is too long counts as memory that ran out.
fn put_up(up: &mut VecDeque<Up>, token: u64, bytes: Vec<u8>) -> Result<(), WorldError>
    ensures { MatchResult result (λ _. PutUp up.old.items token bytes.items up.new.items) (λ e. IsWorldMemory e) }
{
    if !is_short(&bytes) {
        return Err(WorldError::Memory);
    }
    let there = up.push_front(Up { token, bytes }).is_ok();
    if there {
        Ok(())
    } else {
        Err(WorldError::Memory)
    }
}

fn put_down(down: &mut VecDeque<Down>, place: u64, bytes: Vec<u8>) -> Result<(), WorldError>
    ensures { MatchResult result (λ _. PutDown down.old.items place bytes.items down.new.items) (λ e. IsWorldMemory e) }
{
    if !is_short(&bytes) {
        return Err(WorldError::Memory);
    }
    let there = down.push_front(Down { place, bytes }).is_ok();
    if there {
        Ok(())
    } else {
        Err(WorldError::Memory)
    }
}

/// The front of what goes up.
fn change_up(up: &mut VecDeque<Up>, change: Change) -> Result<(), WorldError>
    ensures { MatchResult result (λ _. ChangesUp (change_of change) up.old.items up.new.items) (λ e. IsWorldMemory e) }
{
    match up.pop_front() {
        Some(front) => {
            let bytes = altered(front.bytes, change);
            put_up(up, front.token, bytes)
        }
        None => Err(WorldError::Memory),
    }
}

/// The front of what comes down.
fn change_down(down: &mut VecDeque<Down>, change: Change) -> Result<(), WorldError>
    ensures { MatchResult result (λ _. ChangesDown (change_of change) down.old.items down.new.items) (λ e. IsWorldMemory e) }
{
    match down.pop_front() {
        Some(front) => {
            let bytes = altered(front.bytes, change);
            put_down(down, front.place, bytes)
        }
        None => Err(WorldError::Memory),
    }
}

fn change_front(channel: &mut Channel, up: bool, change: Change) -> Result<(), WorldError>
    ensures { MatchResult result (λ _. ChangesFront up (change_of change) channel.old channel.new) (λ e. IsWorldMemory e) }
{
    if up {
        change_up(&mut channel.up, change)
    } else {
        change_down(&mut channel.down, change)
    }
}

fn change_at(
    channels: &mut Vec<Channel>,
    k: u32,
    up: bool,
    change: Change,
) -> Result<(), WorldError>
    ensures { MatchResult result
        (λ _. ChangedAt (ChangesFront up (change_of change)) k channels.old.items channels.new.items) (λ e. IsWorldMemory e) }
{
    let at = k as usize;
    let within = at < channels.len();
    if within {
        change_front(&mut channels[at], up, change)
    } else {
        Err(WorldError::Memory)
    }
}

/// Whether the end that is to hear what goes up, or comes down, is open.
fn is_hearing(channels: &[Channel], k: u32, up: bool) -> bool
    ensures { result ≡ has_open_end up (slice_get channels.now k) }
{
    if up {
        is_served(channels, k)
    } else {
        is_open(channels, k)
    }
}

fn has_ups(up: &VecDeque<Up>) -> bool
    ensures { result ≡ is_filled up.now.items }
{
    up.front().is_some()
}

fn has_downs(down: &VecDeque<Down>) -> bool
    ensures { result ≡ is_filled down.now.items }
{
    down.front().is_some()
}

fn has_any(channel: &Channel, up: bool) -> bool
    ensures { result ≡ coming_to up channel.now }
{
    if up {
        has_ups(&channel.up)
    } else {
        has_downs(&channel.down)
    }
}

/// Whether something goes up, or comes down.
pub fn is_coming(channels: &[Channel], k: u32, up: bool) -> bool
    ensures { result ≡ coming_in up (slice_get channels.now k) }
{
    match channels.get(k as usize) {
        Some(channel) => has_any(channel, up),
        None => false,
    }
}

/// The front of what goes up, or comes down, becomes another one.
pub fn tamper(world: &mut World, k: u32, up: bool, change: Change) -> Result<(), WorldError>
    ensures { Tampers world.old k up change world.new result }
{
    if !is_hearing(&world.channels, k, up) {
        return Err(WorldError::NoChannel(k));
    }
    if !is_coming(&world.channels, k, up) {
        return Err(WorldError::NothingThere(k));
    }
    match change_at(&mut world.channels, k, up, change) {
        Ok(()) => {
            later(world, 1);
            Ok(())
        }
        Err(why) => Err(why),
    }
}
