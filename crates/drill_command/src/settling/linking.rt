// A channel is linked, and a connection is drained.
ghost use Rattle.std.specs.Prelude.{◌≡◌, ◌&&◌, ◌||◌, length, slice_get};
ghost use Rattle.spec_exchange.specs.Network as network;
ghost use Rattle.spec_world.specs.Courses as courses;
ghost use Rattle.world_steps.specs.events.Coming.{EventComesTo};
ghost use Rattle.drill_command.specs.settling.Linked.{Links};
ghost use Rattle.drill_command.specs.settling.Parts.{count_at, count_in};
ghost use Rattle.drill_command.specs.settling.Tests.{frames_in, linking_in, more_in, serving_in, taking_in};

use world_steps::events::step;
use world_steps::{
    Channel, World, WorldError, WorldEvent, go, is_coming, is_open, is_ready, is_served,
};

/// A dialog has four requests, of which each takes one turn.
const TURNS_OF_A_DIALOG: u32 = 8;

/// So many turns empty both lists of a connection.
const TURNS_OF_A_DRAIN: u32 = 64;

pub(crate) fn both(a: bool, b: bool) -> bool
    ensures { result ≡ (a && b) }
{
    a && b
}

pub(crate) fn either(a: bool, b: bool) -> bool
    ensures { result ≡ (a || b) }
{
    a || b
}

// ---- what is tested

fn is_linking(channels: &[Channel], k: u32) -> bool
    ensures { result ≡ linking_in (slice_get channels.now k) }
{
    let open = both(is_open(channels, k), is_served(channels, k));
    both(open, !is_ready(channels, k))
}

fn may_serve(channels: &[Channel], k: u32) -> bool
    ensures { result ≡ serving_in (slice_get channels.now k) }
{
    both(is_served(channels, k), is_coming(channels, k, true))
}

fn may_take(channels: &[Channel], k: u32) -> bool
    ensures { result ≡ taking_in (slice_get channels.now k) }
{
    both(is_open(channels, k), is_coming(channels, k, false))
}

/// Something is on its way.
pub(crate) fn has_frames(channels: &[Channel], k: u32) -> bool
    ensures { result ≡ frames_in (slice_get channels.now k) }
{
    either(is_coming(channels, k, true), is_coming(channels, k, false))
}

/// Both ends are open, and something is on its way.
fn has_more(channels: &[Channel], k: u32) -> bool
    ensures { result ≡ more_in (slice_get channels.now k) }
{
    let open = both(is_open(channels, k), is_served(channels, k));
    both(open, has_frames(channels, k))
}

// ---- one event

fn serve_one(world: &mut World, k: u32) -> Result<(), WorldError>
    ensures { EventComesTo (λ z c. courses.went z c (network.Serve k)) world.old world.new result }
{
    go(world, WorldEvent::Serve(k))
}

fn take_one(world: &mut World, k: u32) -> Result<(), WorldError>
    ensures { EventComesTo (λ z c. courses.went z c (network.Take k)) world.old world.new result }
{
    go(world, WorldEvent::Take(k))
}

pub(crate) fn open_one(world: &mut World, k: u32) -> Result<(), WorldError>
    ensures { EventComesTo (λ z c. courses.went z c (network.Open k)) world.old world.new result }
{
    go(world, WorldEvent::Open(k))
}

pub(crate) fn cut_one(world: &mut World, k: u32) -> Result<(), WorldError>
    ensures { EventComesTo (λ z c. courses.went z c (network.Cut k)) world.old world.new result }
{
    go(world, WorldEvent::Cut(k))
}

pub(crate) fn drop_one(world: &mut World, k: u32) -> Result<(), WorldError>
    ensures { EventComesTo (λ z c. courses.went z c (network.Drop k)) world.old world.new result }
{
    go(world, WorldEvent::Drop(k))
}

pub(crate) fn push_one(world: &mut World, k: u32) -> Result<(), WorldError>
    ensures { EventComesTo (λ z c. courses.went_push z c k) world.old world.new result }
{
    go(world, WorldEvent::Push(k))
}

// ---- link

fn turn(world: &mut World, k: u32) -> Result<(), WorldError>
    ensures { EventComesTo (λ z c. courses.went z (courses.went z c (network.Serve k)) (network.Take k)) world.old world.new result }
{
    match serve_one(world, k) {
        Ok(()) => take_one(world, k),
        Err(why) => Err(why),
    }
}

/// A connection is served and taken in turn, so many times at most, until its channel is ready or an end is closed.
fn link_on(world: &mut World, turns: u32, k: u32) -> Result<(), WorldError>
    ensures { EventComesTo (λ z c. courses.linking z turns c k) world.old world.new result }
{
    if turns == 0 {
        return Ok(());
    }
    if !is_linking(&world.channels, k) {
        return Ok(());
    }
    match turn(world, k) {
        Ok(()) => link_on(world, turns - 1, k),
        Err(why) => Err(why),
    }
}

/// One that may not be opened is served and taken as it stands.
pub(crate) fn link_in(world: &mut World, k: u32) -> Result<(), WorldError>
    ensures { EventComesTo (λ z c. courses.link z c k) world.old world.new result }
{
    match open_one(world, k) {
        Ok(()) => link_on(world, TURNS_OF_A_DIALOG, k),
        Err(why) => Err(why),
    }
}

/// A connection is opened, then served and taken in turn until its channel is ready or an end is closed. It refuses as `Open` does; the
/// world is as before then. Behind `Memory` it isn't used again.
pub fn link(world: &mut World, k: u32) -> Result<(), WorldError>
    ensures { Links world.old k world.new result }
{
    match step(world, WorldEvent::Open(k)) {
        Ok(()) => link_on(world, TURNS_OF_A_DIALOG, k),
        Err(why) => Err(why),
    }
}

// ---- drain

fn serve_on(world: &mut World, most: usize, k: u32) -> Result<(), WorldError>
    ensures { EventComesTo (λ z c. courses.serve_all z most c k) world.old world.new result }
{
    if most == 0 {
        return Ok(());
    }
    if !may_serve(&world.channels, k) {
        return Ok(());
    }
    match serve_one(world, k) {
        Ok(()) => serve_on(world, most - 1, k),
        Err(why) => Err(why),
    }
}

fn take_on(world: &mut World, most: usize, k: u32) -> Result<(), WorldError>
    ensures { EventComesTo (λ z c. courses.take_all z most c k) world.old world.new result }
{
    if most == 0 {
        return Ok(());
    }
    if !may_take(&world.channels, k) {
        return Ok(());
    }
    match take_one(world, k) {
        Ok(()) => take_on(world, most - 1, k),
        Err(why) => Err(why),
    }
}

fn ups_of(channel: &Channel) -> usize
    ensures { result ≡ length channel.now.up.items }
{
    channel.up.len()
}

fn downs_of(channel: &Channel) -> usize
    ensures { result ≡ length channel.now.down.items }
{
    channel.down.len()
}

fn count_on(channel: &Channel, up: bool) -> usize
    ensures { result ≡ count_at up channel.now }
{
    if up {
        ups_of(channel)
    } else {
        downs_of(channel)
    }
}

/// How many frames go up, or come down.
fn count_of(channels: &[Channel], k: u32, up: bool) -> usize
    ensures { result ≡ count_in up (slice_get channels.now k) }
{
    match channels.get(k as usize) {
        Some(channel) => count_on(channel, up),
        None => 0,
    }
}

/// The whole list that goes up.
fn serve_all(world: &mut World, k: u32) -> Result<(), WorldError>
    ensures { EventComesTo (λ z c. courses.served_all z c k) world.old world.new result }
{
    let most = count_of(&world.channels, k, true);
    serve_on(world, most, k)
}

/// The whole list that comes down.
fn take_all(world: &mut World, k: u32) -> Result<(), WorldError>
    ensures { EventComesTo (λ z c. courses.taken_all z c k) world.old world.new result }
{
    let most = count_of(&world.channels, k, false);
    take_on(world, most, k)
}

fn drain_once(world: &mut World, k: u32) -> Result<(), WorldError>
    ensures { EventComesTo (λ z c. courses.taken_all z (courses.served_all z c k) k) world.old world.new result }
{
    match serve_all(world, k) {
        Ok(()) => take_all(world, k),
        Err(why) => Err(why),
    }
}

/// So many times at most, while both ends are open and something is on its way.
fn drain_on(world: &mut World, turns: u32, k: u32) -> Result<(), WorldError>
    ensures { EventComesTo (λ z c. courses.drain z turns c k) world.old world.new result }
{
    if turns == 0 {
        return Ok(());
    }
    match drain_once(world, k) {
        Ok(()) => {
            if !has_more(&world.channels, k) {
                return Ok(());
            }
            drain_on(world, turns - 1, k)
        }
        Err(why) => Err(why),
    }
}

/// All that goes up is served and all that comes down taken, and again while both ends are open and something is on its way.
pub(crate) fn drain(world: &mut World, k: u32) -> Result<(), WorldError>
    ensures { EventComesTo (λ z c. courses.drain z 64 c k) world.old world.new result }
{
    drain_on(world, TURNS_OF_A_DRAIN, k)
}
