// A response settles its operation, which is noted.
ghost use Rattle.std.specs.Prelude.{◌≡◌, Some, length, nat_lt, MatchResult};
ghost use Rattle.client_steps.specs.whole_client.Shown.{ShowsClient};
ghost use Rattle.wire_commands.specs.values.Meaning.{body_of};
ghost use Rattle.spec_exchange.specs.Client.{Client as Model};
ghost use Rattle.world_ends.specs.declared.world.Marks.{Marks as Noted};
ghost use Rattle.world_steps.specs.Parts.{IsWorldMemory};
ghost use Rattle.world_steps.specs.taking.Replies.{TakeAnswers, TakeNotes, TakeNotesBy, Responds};

use crate::happen;
use crate::sending::{Act, Event, Marks, Places, Played, WorldError};
use crate::taking::hearing::Response;
use std::alloc::Global;
use wire_commands::Reply;

/// How many operations a reply settled.
fn settled_in(client: &Played) -> usize
    ensures { (c : Model) → ShowsClient client.now c → length c.order ≡ result }
{
    client.order().len()
}

/// The client hears it. Connections that the client has are counted in 8 bits.
fn tell(
    client: &mut Played,
    alloc: Global,
    k: u32,
    response: &Response,
    reply: Reply,
) -> Result<Act, WorldError>
    ensures { MatchResult result
        (λ act. Responds client.old k response.now.number response.now.asking reply.status reply.body act client.new) (λ e. IsWorldMemory e) }
{
    match u8::try_from(k) {
        Ok(channel) => happen(
            client,
            alloc,
            Event::Hear {
                channel,
                number: response.number,
                asking: response.asking,
                status: reply.status,
                body: reply.body,
            },
        ),
        Err(_) => Err(WorldError::Memory),
    }
}

fn note_by(marks: &mut Marks, place: u64)
    ensures { marks.new ≡ record marks.old { by = Some place } }
{
    marks.by = Some(place);
}

/// The place of the message whose reply settled an operation. Each operation that was taken has marks.
fn note_settled(places: &mut Places, number: u32, place: u64) -> Result<(), WorldError>
    ensures { MatchResult result (λ _. TakeNotes places.old number place places.new) (λ e. IsWorldMemory e) }
{
    let at = number as usize;
    let within = at < places.marks.len();
    if within {
        note_by(&mut places.marks[at], place);
        Ok(())
    } else {
        Err(WorldError::Memory)
    }
}

fn note_if(places: &mut Places, settles: bool, number: u32, place: u64) -> Result<(), WorldError>
    ensures { MatchResult result (λ _. TakeNotesBy settles places.old number place places.new) (λ e. IsWorldMemory e) }
{
    if settles {
        return note_settled(places, number, place);
    }
    Ok(())
}

fn noted(
    places: &mut Places,
    settles: bool,
    response: &Response,
    act: Act,
) -> Result<Act, WorldError>
    ensures { MatchResult result (λ a. (a ≡ act) × TakeNotesBy settles places.old response.now.number response.now.place places.new)
        (λ e. IsWorldMemory e) }
{
    match note_if(places, settles, response.number, response.place) {
        Ok(()) => Ok(act),
        Err(why) => Err(why),
    }
}

/// The client hears it, and where it settled its operation, the place is noted.
pub(crate) fn respond(
    client: &mut Played,
    places: &mut Places,
    alloc: Global,
    k: u32,
    response: &Response,
    reply: Reply,
) -> Result<Act, WorldError>
    ensures { MatchResult result (λ act. TakeAnswers client.old places.old k response.now reply act client.new
        places.new) (λ e. IsWorldMemory e) }
{
    let before = settled_in(client);
    match tell(client, alloc, k, response, reply) {
        Ok(act) => {
            let behind = settled_in(client);
            noted(places, before < behind, response, act)
        }
        Err(why) => Err(why),
    }
}
