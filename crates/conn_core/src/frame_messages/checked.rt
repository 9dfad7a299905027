//! The messages of a frame as the connection heard them.
use wire_bytes::{Header, Span};

/// A message of a frame. `header` is that of the frame, but for the session and the tree that a related message takes
/// over.
#[derive(Clone, Copy, Debug)]
pub struct Checked {
    pub header: Header,
    /// It is related to the message before it.
    pub related: bool,
    /// ACCESS_DENIED, where it isn't signed or sealed as owed, or stands behind a SESSION_SETUP in its frame.
    pub fault: Option<u32>,
    /// The status of the message before it, with which it fails.
    pub fails: Option<u32>,
    pub span: Span,
}

/// The messages of a frame, in order, one at least. The frame's bytes stand here once, opened in place, and FileIds that related
/// messages take over are written into them.
#[derive(Drop, Debug)]
pub struct CheckedFrame {
    pub bytes: Vec<u8>,
    pub messages: Vec<Checked>,
    pub sealed: bool,
    /// When it was heard.
    pub moment: u64,
}

impl CheckedFrame {
    ghost use Rattle.std.specs.Prelude.{◌≡◌, ◌<◌, length, Some, slice_get};
    ghost use Rattle.conn_core.specs.declared.frame_messages.checked.Checked.{Checked};
    ghost use Rattle.conn_core.specs.frame_messages.Checking.{message_in, HasMessage};

    pub(crate) fn checked(&self, at: usize) -> &Checked
        requires { at < length self.now.messages.items }
        ensures { slice_get self.now.messages.items at ≡ Some result.now }
    {
        &self.messages[at]
    }

    /// The bytes of a message, from its header on, with what pads it to the next one.
    pub(crate) fn message(&self, at: usize) -> &[u8]
        requires { HasMessage self.now at }
        ensures { (m : Checked) → slice_get self.now.messages.items at ≡ Some m → result.now ≡ message_in self.now.bytes.items m }
    {
        let span = self.messages[at].span;
        &self.bytes[span.start..span.end]
    }
}
