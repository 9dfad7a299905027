//! What holds between the exchange model's client, the connections and the server's sessions, on every run: of the
//! sessions that the client accepted at most the last one is still there, and each message that waits is of one of them.
//!
//! The law is a public function with an empty body, whose contract is the statement; its definitions stand in `specs`.

ghost use Rattle.std.specs.Prelude.{List};
ghost use Rattle.spec_exchange.specs.Network.{Event, Settings, run, start};
ghost use Rattle.law_sessions.specs.sessions.Dialogs.{Dialogs};
ghost use Rattle.law_sessions.specs.sessions.Kinds.{Kinds};
ghost use Rattle.law_sessions.specs.sessions.Sessions.{Sessions};

/// On every run, behind every event, the client's session, what waits and the server's sessions fit together (each part
/// of `Sessions`): of the sessions that the client accepted at most the last one is there, and while the client's session
/// is live it is that one; each message of an operation is of a session that the client accepted, and on an open
/// connection of the live one, as is each reply there; the sequences that wait are below 32,768 and, of the live session,
/// at most the client's; each session and each open is of the client's user; and while a session is there, so is the tree
/// that its operations' messages name. And each session's tree is that of the pipes exactly where the client's share is
/// (each part of `Kinds`), and then no open stands, also behind a restart.
pub fn sessions_law()
    ensures fit { (settings : Settings) (events : List Event)
        → Sessions (run events (start settings)).client (run events (start settings)).conns
        (run events (start settings)).server }
    ensures kinds { (settings : Settings) (events : List Event)
        → Kinds (run events (start settings)).client (run events (start settings)).conns
        (run events (start settings)).server }
{}

/// On every run, behind every event, the client stays who it was, and each of its channels is closed, or ready, or in its
/// dialog (each part of `Dialogs`): a ready channel's dialog is over; an open end whose dialog is over is ready; of a
/// channel in its dialog, the message that waits is alone in its list, and nothing else waits beside it; the session in
/// the making has its dialog on its channel; and a signed SESSION_SETUP that waits, on whichever connection, is of a
/// session that the client accepted.
pub fn dialogs_law()
    ensures fit { (settings : Settings) (events : List Event)
        → Dialogs settings.who (run events (start settings)).client (run events (start settings)).conns }
{}
