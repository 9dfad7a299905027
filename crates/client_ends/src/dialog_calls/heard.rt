use crate::ends::Line;
use spec_crypto::{Chosen, Keys};
use wire_bytes::{Bytes, Refusal};

/// What a dialog comes to by what it hears.
#[derive(Drop)]
pub enum Heard {
    /// Its next message goes out.
    Say(Bytes),
    /// A session is accepted, and its TREE_CONNECT goes out; or a channel is bound to a session, nothing goes out, and the
    /// channel is ready at the next call. The keys are the session's or the channel's.
    Accepted {
        keys: Keys,
        chosen: Chosen,
        tree_connect: Bytes,
    },
    /// The channel is ready, in a session and a tree.
    Ready {
        line: Line,
        session: u64,
        tree: u32,
    },
    Refused(Refusal),
}
