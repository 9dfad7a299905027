// The events behind an operation.
ghost use Rattle.std.specs.Prelude.{◌≡◌, ◌<◌};
ghost use Rattle.script_words.specs.generator.Lines.{event_said};
ghost use Rattle.script_words.specs.generator.Making as making;

use crate::ScriptEvent;

/// An event of a script that was made.
#[derive(Clone, Copy, Debug, PartialEq, Eq)]
pub enum MadeEvent {
    Link(u32),
    Push(u32),
    Serve(u32),
    Cut(u32),
    Drop(u32),
    Restart,
    /// On connection 0: whether the records of its event stay.
    Crash(bool),
    Settle,
}

impl MadeEvent {
    /// As a script's line has it.
    pub fn event(self) -> ScriptEvent
        ensures { result ≡ event_said self }
    {
        match self {
            MadeEvent::Link(k) => ScriptEvent::Link(k),
            MadeEvent::Push(k) => ScriptEvent::Push(k),
            MadeEvent::Serve(k) => ScriptEvent::Serve(k),
            MadeEvent::Cut(k) => ScriptEvent::Cut(k),
            MadeEvent::Drop(k) => ScriptEvent::Drop(k),
            MadeEvent::Restart => ScriptEvent::Restart,
            MadeEvent::Crash(kept) => ScriptEvent::Crash {
                connection: 0,
                kept,
            },
            MadeEvent::Settle => ScriptEvent::Settle,
        }
    }
}

/// The operation is settled.
const PLAIN: &[MadeEvent] = &[MadeEvent::Settle];

/// Its request is lost with its connection.
const REQUEST_LOST: &[MadeEvent] = &[MadeEvent::Push(0), MadeEvent::Cut(0), MadeEvent::Settle];

/// Its response is lost.
const RESPONSE_LOST: &[MadeEvent] = &[
    MadeEvent::Push(0),
    MadeEvent::Serve(0),
    MadeEvent::Cut(0),
    MadeEvent::Settle,
];

/// It goes out again on a second channel, and the first is made anew.
const OTHER_CHANNEL: &[MadeEvent] = &[
    MadeEvent::Link(1),
    MadeEvent::Push(0),
    MadeEvent::Cut(0),
    MadeEvent::Push(1),
    MadeEvent::Settle,
    MadeEvent::Link(0),
    MadeEvent::Cut(1),
    MadeEvent::Drop(1),
];

/// The server restarts behind it.
const RESTARTED: &[MadeEvent] = &[
    MadeEvent::Push(0),
    MadeEvent::Serve(0),
    MadeEvent::Restart,
    MadeEvent::Cut(0),
    MadeEvent::Settle,
];

/// The server crashes in it, and its records stay.
const CRASHED_KEPT: &[MadeEvent] = &[
    MadeEvent::Push(0),
    MadeEvent::Crash(true),
    MadeEvent::Cut(0),
    MadeEvent::Settle,
];

/// They are lost.
const CRASHED_LOST: &[MadeEvent] = &[
    MadeEvent::Push(0),
    MadeEvent::Crash(false),
    MadeEvent::Cut(0),
    MadeEvent::Settle,
];

/// The events that a number below 64 chooses.
#[tactic(auto, unfolding(crate::specs::generator::Making::events_chosen))]
pub(crate) fn events_of(number: u32) -> &'static [MadeEvent]
    requires { number < 64 }
    ensures { result.now ≡ making.events_chosen number }
{
    match number {
        0..=39 => PLAIN,
        40..=47 => REQUEST_LOST,
        48..=53 => RESPONSE_LOST,
        54..=60 => OTHER_CHANNEL,
        61 => RESTARTED,
        62 => CRASHED_KEPT,
        _ => CRASHED_LOST,
    }
}
