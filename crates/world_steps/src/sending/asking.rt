// The request of what goes out.
ghost use Rattle.std.specs.Prelude.{◌≡◌, ◌<◌, ◌≤◌, false, length, MatchResult};
ghost use Rattle.client_steps.specs.whole_client.Shown.{ShowsClient};
ghost use Rattle.wire_commands.specs.values.Meaning.{client_command_of};
ghost use Rattle.spec_exchange.specs.Client.{Client as Model};
ghost use Rattle.client_ends.specs.ends.Shown.{token_of as meant_by};
ghost use Rattle.world_steps.specs.sending.Sending.{SendingAsks, Heads, IsSendingCommandFor, IsHeadFor, IsSendingShort};
ghost use Rattle.world_steps.specs.sending.Sending.{charge_for, token_for};
ghost use Rattle.world_steps.specs.Parts.{IsWorldMemory};

use crate::{Played, WorldError};
use client_ends::{Heading, request_of};
use client_steps::Head;
use std::alloc::Global;
use wire_bytes::Request;
use wire_commands::ClientCommand;

/// The longest body that a sealed frame has room for.
const LONGEST_BODY: usize = 1_113_996;

/// Whose request it is, as a line counts tokens: twice an operation's number is its own, and one more is the request to attach its open in
/// its place.
fn token_of(number: u32, asking: bool) -> u64
    ensures { 0 < number → meant_by result ≡ token_for number asking }
{
    let twice = (number as u64) * 2;
    if asking { twice + 1 } else { twice }
}

/// The credits that an operation pays for itself.
fn own_charge(client: &Played, number: u32) -> u16
    ensures { (c : Model) → ShowsClient client.now c → 0 < number → number ≤ c.taken → result ≡ charge_for c number false }
{
    match client.client().table.rows.get(number as usize) {
        Some(row) => row.charge as u16,
        None => 1,
    }
}

/// The credits that it costs to send it. A request to attach pays one.
fn charge_of(client: &Played, number: u32, asking: bool) -> u16
    ensures { (c : Model) → ShowsClient client.now c → 0 < number → number ≤ c.taken → result ≡ charge_for c number asking }
{
    if asking {
        return 1;
    }
    own_charge(client, number)
}

fn heading_of(head: Head, charge: u16, token: u64) -> Heading
    ensures told { (result.session ≡ head.session) × (result.tree ≡ head.tree) × (result.sequence ≡ head.sequence)
        × (result.replay ≡ head.replay) }
    ensures costs { (result.charge ≡ charge) × (result.token ≡ token) }
{
    Heading {
        session: head.session,
        tree: head.tree,
        sequence: head.sequence,
        replay: head.replay,
        charge,
        token,
    }
}

fn head_for(client: &Played, number: u32, asking: bool) -> Result<Head, WorldError>
    ensures { MatchResult result (λ h. IsHeadFor client.now number asking h) (λ e. IsWorldMemory e) }
{
    match client.head(number as usize, asking) {
        Ok(head) => Ok(head),
        Err(_) => Err(WorldError::Memory),
    }
}

/// What its header tells.
fn heading_for(client: &Played, number: u32, asking: bool) -> Result<Heading, WorldError>
    ensures { MatchResult result (λ h. Heads client.now number asking h) (λ e. IsWorldMemory e) }
{
    match head_for(client, number, asking) {
        Ok(head) => {
            let charge = charge_of(client, number, asking);
            let token = token_of(number, asking);
            Ok(heading_of(head, charge, token))
        }
        Err(why) => Err(why),
    }
}

fn command_for(
    client: &Played,
    alloc: Global,
    salt: u64,
    number: u32,
    asking: bool,
) -> Result<ClientCommand<'_>, WorldError>
    ensures { MatchResult result (λ q. IsSendingCommandFor client.now salt number asking (client_command_of q)) (λ e. IsWorldMemory e) }
{
    match client.request(alloc, number as usize, asking, salt) {
        Ok(command) => Ok(command),
        Err(_) => Err(WorldError::Memory),
    }
}

fn if_short(request: Request) -> Result<Request, WorldError>
    ensures { MatchResult result (λ r. (r ≡ request) × (length request.body ≤ 1113996)) (λ e. IsWorldMemory e) }
{
    let fits = request.body.len() <= LONGEST_BODY;
    if fits {
        Ok(request)
    } else {
        Err(WorldError::Memory)
    }
}

/// A command's request, which a line can send.
fn request_with(
    alloc: Global,
    heading: &Heading,
    command: &ClientCommand<'_>,
) -> Result<Request, WorldError>
    ensures { MatchResult result (λ r. IsSendingShort heading.now (client_command_of command.now) r) (λ e. IsWorldMemory e) }
{
    match request_of(alloc, heading, command) {
        Ok(request) => if_short(request),
        Err(_) => Err(WorldError::Memory),
    }
}

fn request_under(
    client: &Played,
    alloc: Global,
    salt: u64,
    number: u32,
    asking: bool,
    heading: &Heading,
) -> Result<Request, WorldError>
    requires { Heads client.now number asking heading.now }
    ensures { MatchResult result (λ r. SendingAsks client.now salt number asking r) (λ e. IsWorldMemory e) }
{
    match command_for(client, alloc, salt, number, asking) {
        Ok(command) => request_with(alloc, heading, &command),
        Err(why) => Err(why),
    }
}

/// The request of an operation that was taken, or the one to attach its open in its place.
pub(crate) fn request_for(
    client: &Played,
    alloc: Global,
    salt: u64,
    number: u32,
    asking: bool,
) -> Result<Request, WorldError>
    ensures { MatchResult result (λ r. SendingAsks client.now salt number asking r) (λ e. IsWorldMemory e) }
{
    match heading_for(client, number, asking) {
        Ok(heading) => request_under(client, alloc, salt, number, asking, &heading),
        Err(why) => Err(why),
    }
}
