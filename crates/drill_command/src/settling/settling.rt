// All is served and taken until every operation is settled.
ghost use Rattle.std.specs.Prelude.{◌≡◌, ◌+◌, ◌≤◌, ◌==◌, ◌&&◌, ◌*◌, length, slice_get, not, option_map, MatchResult};
ghost use Rattle.client_steps.specs.whole_client.Shown.{ShowsClient};
ghost use Rattle.client_values.specs.outcomes.Meaning.{refusal_of};
ghost use Rattle.spec_exchange.specs.Client.{Client};
ghost use Rattle.spec_exchange.specs.Network as network;
ghost use Rattle.spec_exchange.specs.Schedules.{hangs as hangs_at, last_refusal, least};
ghost use Rattle.spec_exchange.specs.Table.{is_at};
ghost use Rattle.spec_world.specs.Courses as courses;
ghost use Rattle.world_steps.specs.events.Coming.{EventComesTo};
ghost use Rattle.drill_command.specs.settling.Parts.{DrainsAfter, FinishesAfter, LooksAt, RoundsIf, round_of};
ghost use Rattle.drill_command.specs.settling.Tests.{alone_in, apart_in, hanging_in, orphan_in, talking_in, talks as talks_at};
ghost use Rattle.world_ends.specs.Tests.{readied_in};
ghost use Rattle.world_steps.specs.notes.Noted.{Noted};
ghost use Rattle.world_steps.specs.Parts.{IsWorldMemory};
ghost use Rattle.world_steps.specs.Steps.{WorldFinishes};

use crate::settling::linking::{
    both, cut_one, drain, drop_one, either, has_frames, link_in, push_one,
};
use wire_bytes::Refusal;
use world_steps::events::{finished, note};
use world_steps::{
    Channel, ClientSide, Played, World, WorldError, finish, is_open, is_ready, is_served,
    is_watched, taken_by,
};

/// Connections count from 0 on.
const CONNECTIONS: u32 = 256;

/// Eight rounds for each of so many operations are counted in 64 bits.
const MOST_TAKEN: u64 = 0x1000_0000_0000_0000;

// ---- what is tested

fn is_talking(side: &ClientSide) -> bool
    ensures { result ≡ talks_at side.now }
{
    match side {
        ClientSide::Closed => false,
        ClientSide::Talks(_) => true,
        ClientSide::Ready(_) => false,
    }
}

fn talks(channels: &[Channel], k: u32) -> bool
    ensures { result ≡ talking_in (slice_get channels.now k) }
{
    match channels.get(k as usize) {
        Some(channel) => is_talking(&channel.client),
        None => false,
    }
}

/// The client's end alone is open, or its dialog didn't end.
fn hangs(channels: &[Channel], k: u32) -> bool
    ensures { result ≡ hanging_in (slice_get channels.now k) }
{
    let unended = either(!is_served(channels, k), talks(channels, k));
    both(is_open(channels, k), unended)
}

/// The server's end alone is open.
fn is_orphan(channels: &[Channel], k: u32) -> bool
    ensures { result ≡ orphan_in (slice_get channels.now k) }
{
    both(is_served(channels, k), !is_open(channels, k))
}

/// The client's end alone is open.
fn is_alone(channels: &[Channel], k: u32) -> bool
    ensures { result ≡ alone_in (slice_get channels.now k) }
{
    both(is_open(channels, k), !is_served(channels, k))
}

/// Both ends are closed.
fn is_apart(channels: &[Channel], k: u32) -> bool
    ensures { result ≡ apart_in (slice_get channels.now k) }
{
    both(!is_open(channels, k), !is_served(channels, k))
}

fn is_making(making: Option<u32>, k: u32) -> bool
    ensures { result ≡ is_at k making }
{
    match making {
        Some(other) => other == k,
        None => false,
    }
}

/// How many dialogs were refused.
fn refusals_of(client: &Played) -> usize
    ensures { (c : Client) → ShowsClient client.now c → length c.refusals ≡ result }
{
    client.refusals().len()
}

/// Whether no channel is ready.
fn is_cut(client: &Played) -> bool
    ensures { (c : Client) → ShowsClient client.now c → result ≡ (c.channels == 0) }
{
    client.client().table.session.channels() == 0
}

/// Whether every operation is settled.
fn is_over(world: &mut World) -> bool
    ensures { LooksAt world.old world.new result }
{
    world.client.is_settled()
}

// ---- where a dialog of a new session was refused

/// Why the last dialog was refused.
fn last_of(client: &Played) -> Option<Refusal>
    ensures { (c : Client) → ShowsClient client.now c → option_map refusal_of result ≡ last_refusal c.refusals }
{
    match client.refusals().last() {
        Some(dialog) => Some(dialog.refusal),
        None => None,
    }
}

/// It is noted, where the run is watched.
fn keep_finish(world: &mut World) -> Result<(), WorldError>
    ensures { MatchResult result (λ _. Noted world.old world.new) (λ e. IsWorldMemory e) }
{
    if is_watched(world) {
        return note(world, finished());
    }
    Ok(())
}

fn give_up(world: &mut World, why: Refusal) -> Result<(), WorldError>
    ensures { WorldFinishes world.old why world.new result }
{
    match finish(world, why) {
        Ok(()) => keep_finish(world),
        Err(why) => Err(why),
    }
}

/// The last dialog that was refused tells why all is given up.
fn finish_last(world: &mut World) -> Result<(), WorldError>
    ensures { EventComesTo (λ z d. courses.finished_by z (last_refusal d.world.values.client.refusals) d) world.old world.new result }
{
    match last_of(&world.client) {
        Some(why) => give_up(world, why),
        None => Ok(()),
    }
}

/// Where the dialog of a new session was refused since, all is given up. `refusals` is how many were refused before.
fn finish_after(world: &mut World, is_new: bool, refusals: usize) -> Result<(), WorldError>
    ensures { FinishesAfter is_new refusals world.old world.new result }
{
    let now = refusals_of(&world.client);
    // Then no session is live. With a live one, a change that was given up could act a second time after a later one.
    if both(is_new, refusals != now) {
        return finish_last(world);
    }
    Ok(())
}

// ---- each connection

fn drain_after(world: &mut World, k: u32, is_new: bool, refusals: usize) -> Result<(), WorldError>
    ensures { DrainsAfter k is_new refusals world.old world.new result }
{
    match drain(world, k) {
        Ok(()) => finish_after(world, is_new, refusals),
        Err(why) => Err(why),
    }
}

fn cut_hanging(world: &mut World, k: u32) -> Result<(), WorldError>
    ensures { EventComesTo (λ z c. courses.went_if z (hangs_at c.world.values k) c (network.Cut k)) world.old world.new result }
{
    if hangs(&world.channels, k) {
        return cut_one(world, k);
    }
    Ok(())
}

/// A connection is drained, and cut where the client's end alone is open or its dialog didn't end.
fn drain_and_cut(world: &mut World, k: u32) -> Result<(), WorldError>
    ensures { EventComesTo (λ z c. courses.drain_and_cut z c k) world.old world.new result }
{
    let is_new = is_making(world.making, k);
    let refusals = refusals_of(&world.client);
    match drain_after(world, k, is_new, refusals) {
        Ok(()) => cut_hanging(world, k),
        Err(why) => Err(why),
    }
}

fn drop_orphan(world: &mut World, k: u32) -> Result<(), WorldError>
    ensures { EventComesTo (λ z c. courses.drop_orphan z c k) world.old world.new result }
{
    if is_orphan(&world.channels, k) {
        return drop_one(world, k);
    }
    Ok(())
}

fn cut_alone(world: &mut World, k: u32) -> Result<(), WorldError>
    ensures { EventComesTo (λ z c. courses.went_if z ((c.world.values.conns k).client_open && not (c.world.values.conns k).server_open) c
        (network.Cut k)) world.old world.new result }
{
    if is_alone(&world.channels, k) {
        return cut_one(world, k);
    }
    Ok(())
}

/// A connection of which one end is closed is cut or dropped.
fn tidy(world: &mut World, k: u32) -> Result<(), WorldError>
    ensures { EventComesTo (λ z c. courses.tidy z c k) world.old world.new result }
{
    match cut_alone(world, k) {
        Ok(()) => drop_orphan(world, k),
        Err(why) => Err(why),
    }
}

/// From one connection on each is drained, so many of them.
fn drain_each(world: &mut World, k: u32, count: u32) -> Result<(), WorldError>
    requires { k + count ≤ 256 }
    ensures { EventComesTo (λ z c. courses.each (courses.drain_and_cut z) k count c) world.old world.new result }
{
    if count == 0 {
        return Ok(());
    }
    match drain_and_cut(world, k) {
        Ok(()) => drain_each(world, k + 1, count - 1),
        Err(why) => Err(why),
    }
}

fn drop_each(world: &mut World, k: u32, count: u32) -> Result<(), WorldError>
    requires { k + count ≤ 256 }
    ensures { EventComesTo (λ z c. courses.each (courses.drop_orphan z) k count c) world.old world.new result }
{
    if count == 0 {
        return Ok(());
    }
    match drop_orphan(world, k) {
        Ok(()) => drop_each(world, k + 1, count - 1),
        Err(why) => Err(why),
    }
}

fn tidy_each(world: &mut World, k: u32, count: u32) -> Result<(), WorldError>
    requires { k + count ≤ 256 }
    ensures { EventComesTo (λ z c. courses.each (courses.tidy z) k count c) world.old world.new result }
{
    if count == 0 {
        return Ok(());
    }
    match tidy(world, k) {
        Ok(()) => tidy_each(world, k + 1, count - 1),
        Err(why) => Err(why),
    }
}

// ---- a round

/// From one connection on the first of so many of which both ends are closed; the one behind them where there is none.
fn least_apart(channels: &[Channel], k: u32, count: u32) -> u32
    requires { k + count ≤ 256 }
    ensures { result ≡ least (λ j. apart_in (slice_get channels.now j)) k count }
{
    if count == 0 {
        return k;
    }
    if is_apart(channels, k) {
        return k;
    }
    least_apart(channels, k + 1, count - 1)
}

fn least_ready(channels: &[Channel], k: u32, count: u32) -> u32
    requires { k + count ≤ 256 }
    ensures { result ≡ least (λ j. readied_in (slice_get channels.now j)) k count }
{
    if count == 0 {
        return k;
    }
    if is_ready(channels, k) {
        return k;
    }
    least_ready(channels, k + 1, count - 1)
}

/// A new session is made where no channel is ready; where its dialog is refused, all is given up.
fn link_new(world: &mut World) -> Result<(), WorldError>
    ensures { EventComesTo (λ z c. courses.linked z 256 c) world.old world.new result }
{
    if !is_cut(&world.client) {
        return Ok(());
    }
    let refusals = refusals_of(&world.client);
    let k = least_apart(&world.channels, 0, CONNECTIONS);
    match link_in(world, k) {
        Ok(()) => finish_after(world, true, refusals),
        Err(why) => Err(why),
    }
}

/// A channel sends, and all of it is served and taken. Where nothing was on its way it is cut.
fn push_round(world: &mut World, k: u32) -> Result<(), WorldError>
    ensures { EventComesTo (λ z c. courses.pushed_round z c k) world.old world.new result }
{
    match push_one(world, k) {
        Ok(()) => {
            if has_frames(&world.channels, k) {
                return drain(world, k);
            }
            cut_one(world, k)
        }
        Err(why) => Err(why),
    }
}

/// The least ready channel sends.
fn push_ready(world: &mut World) -> Result<(), WorldError>
    ensures { EventComesTo (λ z c. courses.ready_round z 256 c) world.old world.new result }
{
    if is_cut(&world.client) {
        return Ok(());
    }
    let k = least_ready(&world.channels, 0, CONNECTIONS);
    push_round(world, k)
}

fn link_and_push(world: &mut World) -> Result<(), WorldError>
    ensures { EventComesTo (λ z c. courses.ready_round z 256 (courses.linked z 256 c)) world.old world.new result }
{
    match link_new(world) {
        Ok(()) => push_ready(world),
        Err(why) => Err(why),
    }
}

fn round(world: &mut World) -> Result<(), WorldError>
    ensures { EventComesTo (λ z c. round_of z c) world.old world.new result }
{
    match link_and_push(world) {
        Ok(()) => tidy_each(world, 0, CONNECTIONS),
        Err(why) => Err(why),
    }
}

/// A round where an operation is unsettled; whether there was one.
fn round_if(world: &mut World) -> Result<bool, WorldError>
    ensures { RoundsIf world.old world.new result }
{
    if is_over(world) {
        return Ok(false);
    }
    match round(world) {
        Ok(()) => Ok(true),
        Err(why) => Err(why),
    }
}

/// Rounds while an operation is unsettled, so many at most.
fn go_rounds(world: &mut World, most: u64) -> Result<(), WorldError>
    ensures { EventComesTo (λ z c. courses.rounds z 256 most c) world.old world.new result }
{
    let mut left = most;
    while left > 0 {
        match round_if(world) {
            Ok(true) => left -= 1,
            Ok(false) => return Ok(()),
            Err(why) => return Err(why),
        }
    }
    Ok(())
}

/// Eight for each operation, each connection and one more. A number that is too large counts as memory that ran out.
fn most_rounds(client: &Played) -> Result<u64, WorldError>
    ensures { MatchResult result (λ n. (c : Client) → ShowsClient client.now c → n ≡ 8 * (c.taken + 256 + 1)) (λ e. IsWorldMemory e) }
{
    let taken = taken_by(client) as u64;
    if taken >= MOST_TAKEN {
        return Err(WorldError::Memory);
    }
    Ok((taken + 257) * 8)
}

/// Each connection is drained, and cut or dropped where it hangs.
fn settle_ends(world: &mut World) -> Result<(), WorldError>
    ensures { EventComesTo (λ z c. courses.each (courses.drop_orphan z) 0 256 (courses.each (courses.drain_and_cut z) 0 256 c)) world.old
        world.new result }
{
    match drain_each(world, 0, CONNECTIONS) {
        Ok(()) => drop_each(world, 0, CONNECTIONS),
        Err(why) => Err(why),
    }
}

/// So many rounds at most behind it.
fn settle_in(world: &mut World, most: u64) -> Result<(), WorldError>
    ensures { EventComesTo (λ z c. courses.settle_below z 256 most c) world.old world.new result }
{
    match settle_ends(world) {
        Ok(()) => go_rounds(world, most),
        Err(why) => Err(why),
    }
}

/// Each connection is drained, and cut or dropped where it hangs; then there is a round while an operation is unsettled, at most eight for
/// each operation and each connection. Its only error is `Memory`.
pub fn settle(world: &mut World) -> Result<(), WorldError>
    ensures { EventComesTo (λ z c. courses.settle_below z 256 (8 * (c.world.values.client.taken + 256 + 1)) c) world.old world.new result }
{
    match most_rounds(&world.client) {
        Ok(most) => settle_in(world, most),
        Err(why) => Err(why),
    }
}
