// A step is begun and kept.
ghost use Rattle.std.specs.Prelude.{OnOk};
ghost use Rattle.world_steps.specs.notes.Noted.{Noted};

use crate::beginning::{Channel, Happened, Note, Notes, Step, World, WorldEvent};
use crate::notes::fronts::{Message, first_down, first_up, last_up, nothing};
use std::alloc::AllocError;

fn step_of(happened: Happened, connection: u32, message: Message) -> Step {
    Step {
        happened,
        connection,
        operation: message.operation,
        note: Note::none(),
        bytes: message.bytes,
        ups: 0,
        downs: 0,
        client_open: false,
        server_open: false,
        ready: false,
    }
}

/// One of an operation without a message.
fn taken(number: u32) -> Message {
    Message {
        operation: number,
        bytes: 0,
    }
}

fn ups(channels: &[Channel], k: u32) -> usize {
    match channels.get(k as usize) {
        Some(channel) => channel.up.len(),
        None => 0,
    }
}

/// A push, with how many messages were on their way up.
fn pushed(world: &World, k: u32) -> Step {
    let mut step = step_of(Happened::Pushed, k, nothing());
    step.ups = ups(&world.channels, k);
    step
}

/// In a crash that keeps, the server takes the front.
fn crashed(world: &World, k: u32, kept: bool) -> Step {
    let message = if kept {
        first_up(&world.channels, k)
    } else {
        nothing()
    };
    step_of(Happened::Crashed, k, message)
}

fn begun(world: &World, event: &WorldEvent) -> Step {
    match event {
        WorldEvent::Submit { number, .. } => step_of(Happened::Submitted, 0, taken(*number)),
        WorldEvent::Open(k) => step_of(Happened::Opened, *k, nothing()),
        WorldEvent::Push(k) => pushed(world, *k),
        WorldEvent::Serve(k) => step_of(Happened::Served, *k, first_up(&world.channels, *k)),
        WorldEvent::Take(k) => step_of(Happened::Taken, *k, first_down(world, *k)),
        WorldEvent::Cut(k) => step_of(Happened::Cut, *k, nothing()),
        WorldEvent::Drop(k) => step_of(Happened::Dropped, *k, nothing()),
        WorldEvent::Restart => step_of(Happened::Restarted, 0, nothing()),
        WorldEvent::Crash { connection, kept } => crashed(world, *connection, *kept),
        WorldEvent::Wait(_) => step_of(Happened::Waited, 0, nothing()),
        WorldEvent::Forge { connection, .. } => step_of(Happened::Forged, *connection, nothing()),
        WorldEvent::Flip { connection, .. } => step_of(Happened::Flipped, *connection, nothing()),
    }
}

/// Whether each step is kept.
pub fn is_watched(world: &World) -> bool {
    world.notes.steps.is_some()
}

/// From now on each step is kept, with what it came to.
pub fn watch(world: &mut World)
    ensures { Noted world.old world.new }
{
    world.notes.steps = Some(Vec::new(world.alloc));
}

/// A step as it stands before its event.
pub fn begin_step(world: &mut World, event: &WorldEvent) -> Step
    ensures { Noted world.old world.new }
{
    world.notes.last = Note::none();
    begun(world, event)
}

/// The client gave up, behind a refused dialog.
pub fn finished() -> Step {
    step_of(Happened::Finished, 0, nothing())
}

/// Where the push sent a message, it is the last that goes up.
fn sent(channels: &[Channel], mut step: Step) -> Step {
    let sends = step.happened == Happened::Pushed && ups(channels, step.connection) > step.ups;
    if sends {
        let message = last_up(channels, step.connection);
        step.operation = message.operation;
        step.bytes = message.bytes;
    }
    step
}

/// As its connection stands behind it.
fn behind(channels: &[Channel], mut step: Step) -> Step {
    step.ups = 0;
    if let Some(channel) = channels.get(step.connection as usize) {
        step.ups = channel.up.len();
        step.downs = channel.down.len();
        step.client_open = channel.is_client_open();
        step.server_open = channel.is_server_open();
        step.ready = channel.is_ready();
    }
    step
}

fn add(notes: &mut Notes, mut step: Step) -> Result<(), AllocError> {
    step.note = notes.last;
    match &mut notes.steps {
        Some(steps) => Ok(steps.push(step)?),
        None => Ok(()),
    }
}

/// A step is kept as it stands behind its event, where the run is watched.
pub fn keep_step(world: &mut World, step: Step) -> Result<(), AllocError>
    ensures { OnOk result (Noted world.old world.new) }
{
    let step = behind(&world.channels, sent(&world.channels, step));
    add(&mut world.notes, step)
}
