// The server answers the front of what goes up.
ghost use Rattle.std.specs.Prelude.{MatchResult};
ghost use Rattle.world_ends.specs.declared.events.WorldEvent.TheVariants as events;
ghost use Rattle.world_steps.specs.serving.Answered.{ServeAnswers, ServeEnds, ServeGoes, ServeTakesFront};
ghost use Rattle.world_steps.specs.Parts.{IsWorldMemory};
ghost use Rattle.world_steps.specs.Steps.{WorldSteps};

use crate::serving::drawing::next_draw;
use crate::serving::fronts::{answer_on, has_front};
use crate::serving::hearing::{Reply, hear_front};
use crate::{World, WorldError, drop_end, is_served, later};
use conn_core::Conn;
use wire_bytes::Bytes;

/// The server takes the front, with the next draw.
pub(crate) fn take_front(world: &mut World, k: u32) -> Result<Reply, WorldError>
    ensures { MatchResult result (λ r. ServeTakesFront world.old k world.new r) (λ e. IsWorldMemory e) }
{
    match next_draw(&world.seed, &mut world.draws) {
        Ok(fresh) => hear_front(
            &mut world.book,
            &mut world.channels,
            &mut world.places,
            &mut world.notes,
            &world.client,
            k,
            world.moment,
            fresh,
        ),
        Err(why) => Err(why),
    }
}

/// The connection goes on.
fn go(world: &mut World, k: u32, conn: Conn, place: u64, answer: &Bytes) -> Result<(), WorldError>
    ensures { MatchResult result (λ _. ServeGoes world.old k conn place answer.now world.new) (λ e. IsWorldMemory e) }
{
    match answer_on(
        &mut world.channels,
        world.alloc,
        k,
        conn,
        place,
        answer.as_slice(),
    ) {
        Ok(()) => {
            later(world, 1);
            Ok(())
        }
        Err(_) => Err(WorldError::Memory),
    }
}

/// It ends: the server hears of it.
fn end(world: &mut World, k: u32) -> Result<(), WorldError>
    ensures { MatchResult result (λ _. ServeEnds world.old k world.new) (λ e. IsWorldMemory e) }
{
    match drop_end(&mut world.book, &mut world.channels, world.moment, k) {
        Ok(()) => {
            later(world, 1);
            Ok(())
        }
        Err(why) => Err(why),
    }
}

fn answer_with(
    world: &mut World,
    k: u32,
    conn: Conn,
    place: u64,
    answer: Option<Bytes>,
) -> Result<(), WorldError>
    ensures { MatchResult result (λ _. ServeAnswers answer world.old k conn place world.new) (λ e. IsWorldMemory e) }
{
    match answer {
        Some(answer) => go(world, k, conn, place, &answer),
        None => end(world, k),
    }
}

/// What the server made of the front.
fn answer(world: &mut World, k: u32, reply: Reply) -> Result<(), WorldError>
    ensures { MatchResult result (λ _. ServeAnswers reply.answer world.old k reply.conn reply.place world.new) (λ e. IsWorldMemory e) }
{
    answer_with(world, k, reply.conn, reply.place, reply.answer)
}

/// The server takes the front of what goes up, and answers it; or its end of the connection closes.
pub fn serve(world: &mut World, k: u32) -> Result<(), WorldError>
    ensures { WorldSteps world.old (events.Serve k) world.new result }
{
    if !is_served(&world.channels, k) {
        return Err(WorldError::NoChannel(k));
    }
    if !has_front(&world.channels, k) {
        return Err(WorldError::NothingThere(k));
    }
    match take_front(world, k) {
        Ok(reply) => answer(world, k, reply),
        Err(why) => Err(why),
    }
}
