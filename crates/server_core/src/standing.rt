//! What a connection has at a server, for whoever waits for its peer.
use base_outside::Standing;
use server_checks::Tables;

/// The session that is live on a connection, whether an open is attached to it, over whichever of its channels, and the sum of all files'
/// lengths with their room.
pub(crate) fn standing_of(tables: &Tables, connection: u32) -> Standing {
    let session = tables.sessions.on(connection);
    let has_opens = match session {
        Some(session) => tables.opens.has_attached(session),
        None => false,
    };
    let space = tables.tree.space();
    Standing {
        session,
        has_opens,
        used: space.used,
        room: space.room,
    }
}
