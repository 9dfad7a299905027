// The places of messages among those that the server took.
ghost use Rattle.std.specs.Prelude.{◌≡◌, ◌<◌, ◌≤◌, ◌/◌, ◌&&◌, length, slice_index_or, MatchResult, if◌then◌else◌};
ghost use Rattle.client_steps.specs.whole_client.Shown.{ShowsClient};
ghost use Rattle.spec_exchange.specs.Client.{Client as Model};
ghost use Rattle.spec_exchange.specs.Network.{is_own as own, op_of};
ghost use Rattle.spec_exchange.specs.Operations.{is_create as makes_open};
ghost use Rattle.client_ends.specs.ends.Shown.{token_of};
ghost use Rattle.client_values.specs.declared.operations.values.OpKind.TheVariants as kinds;
ghost use Rattle.client_values.specs.operations.Meaning.{op_of as meaning_of};
ghost use Rattle.world_steps.specs.Parts.{IsWorldMemory};
ghost use Rattle.world_steps.specs.serving.Noted.{MarksBy, MarksOne, NotesAt, ServeNotesBy, NotesOne, noted_by};

use crate::{Client, Marks, Places, Played, WorldError};
use client_values::OpKind;

/// Whether it is an operation's own request.
fn is_own(token: u64) -> bool
    ensures { result ≡ own (token_of token) }
{
    token != 0 && token % 2 == 0
}

fn both(a: bool, b: bool) -> bool
    ensures { result ≡ (a && b) }
{
    a && b
}

fn is_create_at(ops: &[OpKind], place: usize) -> bool
    requires { place < length ops.now }
    ensures { result ≡ makes_open (meaning_of (slice_index_or ops.now place (kinds.Close 0))) }
{
    ops[place].is_create()
}

fn is_create_in(core: &Client, number: u32) -> bool
    ensures { (c : Model) → ShowsClient core.now c → 0 < number → number ≤ c.taken → result ≡ makes_open (c.op number) }
{
    let ops = core.table.ops.as_slice();
    let place = (number as usize).saturating_sub(1);
    let within = place < ops.len();
    if within {
        return is_create_at(ops, place);
    }
    false
}

/// Whether an operation makes an open.
fn is_create(client: &Played, number: u32) -> bool
    ensures { (c : Model) → ShowsClient client.now c → 0 < number → number ≤ c.taken → result ≡ makes_open (c.op number) }
{
    is_create_in(client.client(), number)
}

fn noted(marks: Marks, place: u64, behind: u64, makes: bool) -> Marks
    ensures { result ≡ noted_by makes place behind marks }
{
    let first = match marks.first {
        Some(first) => Some(first),
        None => Some(place),
    };
    Marks {
        first,
        by: marks.by,
        birth: if makes { behind } else { marks.birth },
    }
}

fn note_marks(marks: &mut Vec<Marks>, number: u32, place: u64, behind: u64, makes: bool)
    ensures { number < length marks.old.items → MarksOne marks.old.items number place behind makes marks.new.items }
{
    let at = number as usize;
    let within = at < marks.len();
    if within {
        let old = marks[at];
        marks[at] = noted(old, place, behind, makes);
    }
}

/// One that acted is noted at its operation.
fn note_by(marks: &mut Vec<Marks>, acts: bool, number: u32, place: u64, behind: u64, makes: bool)
    ensures { MarksBy acts marks.old.items number place behind makes marks.new.items }
{
    if acts {
        note_marks(marks, number, place, behind, makes);
    }
}

fn note_place(places: &mut Places, number: u32, acts: bool, makes: bool) -> Result<(), WorldError>
    ensures { MatchResult result (λ _. NotesOne places.old number acts makes places.new) (λ e. IsWorldMemory e) }
{
    let place = places.served.len() as u64;
    match places.served.push(number) {
        Ok(()) => {
            let behind = places.served.len() as u64;
            note_by(&mut places.marks, acts, number, place, behind, makes);
            Ok(())
        }
        Err(_) => Err(WorldError::Memory),
    }
}

fn note_at(
    places: &mut Places,
    client: &Played,
    token: u64,
    number: u32,
    acted: bool,
) -> Result<(), WorldError>
    ensures { number ≡ token / 2
        → MatchResult result (λ _. NotesAt client.now places.old token acted places.new) (λ e. IsWorldMemory e) }
{
    let acts = both(is_own(token), acted);
    let makes = is_create(client, number);
    note_place(places, number, acts, makes)
}

/// The server took a message of this token, or none.
pub(crate) fn note_taken(
    places: &mut Places,
    client: &Played,
    token: u64,
    took: bool,
    acted: bool,
) -> Result<(), WorldError>
    ensures { MatchResult result (λ _. ServeNotesBy took client.now places.old token acted places.new) (λ e. IsWorldMemory e) }
{
    if !took {
        return Ok(());
    }
    match u32::try_from(token / 2) {
        Ok(number) => note_at(places, client, token, number, acted),
        Err(_) => Err(WorldError::Memory),
    }
}
