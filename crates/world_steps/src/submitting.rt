// An operation comes.
ghost use Rattle.std.specs.Prelude.{MatchResult};
ghost use Rattle.world_ends.specs.declared.events.WorldEvent.TheVariants as events;
ghost use Rattle.world_steps.specs.Parts.{IsWorldMemory, WorldTakes};
ghost use Rattle.world_steps.specs.Steps.{WorldSteps};

use crate::happening::{happen, taken_by};
use crate::moments::later;
use crate::noting::mark;
use client_values::OpKind;
use std::alloc::Global;
use world_ends::{Event, Places, Played, World, WorldError};

/// The client takes it, or doesn't, and each operation that it took has marks.
fn take_in(
    client: &mut Played,
    places: &mut Places,
    alloc: Global,
    number: u32,
    kind: OpKind,
) -> Result<(), WorldError>
    ensures { MatchResult result (λ _. WorldTakes client.old places.old number kind client.new places.new) (λ e. IsWorldMemory e) }
{
    match happen(client, alloc, Event::Submit { number, kind }) {
        Ok(_) => {
            let taken = taken_by(client);
            mark(places, taken)
        }
        Err(why) => Err(why),
    }
}

/// An operation is submitted under a number. One that may not be taken changes nothing but the moment.
pub fn submit(world: &mut World, number: u32, kind: OpKind) -> Result<(), WorldError>
    ensures { WorldSteps world.old (events.Submit number kind) world.new result }
{
    match take_in(
        &mut world.client,
        &mut world.places,
        world.alloc,
        number,
        kind,
    ) {
        Ok(()) => {
            later(world, 1);
            Ok(())
        }
        Err(why) => Err(why),
    }
}
