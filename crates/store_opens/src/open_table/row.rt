ghost use Rattle.std.specs.Prelude.{◌≡◌, IfOk};
ghost use Rattle.store_opens.specs.open_table.Rows.{parts_of, IsMadeRow, IsOpenNewRow};

use crate::channel_sequence::Seen;
use crate::lock_replay::Slots;
use std::alloc::{AllocError, Global};
use wire_bytes::Text;

/// What a create makes an open with (MS-SMB2 3.3.1.10), and its session, tree and channel sequence, which change later.
///
/// `access` is mapped to its bits; `share` has read 1, write 2 and delete 4; `action` is superseded 0, opened 1, created 2
/// or overwritten 3. GUIDs are numbers, their first byte the lowest. `timeout` counts milliseconds.
#[derive(Clone, Copy, Debug, PartialEq, Eq)]
pub struct OpenParts {
    pub file: u64,
    pub access: u32,
    pub share: u32,
    pub options: u32,
    pub action: u32,
    pub persistent: bool,
    /// The ClientGuid.
    pub client: u128,
    /// The CreateGuid.
    pub guid: Option<u128>,
    pub session: Option<u64>,
    /// The id of the tree under which it is made, in that session.
    pub tree: u32,
    pub sequence: u16,
    pub timeout: u32,
}

/// One open.
#[derive(Drop, Debug)]
pub struct Row {
    pub file: u64,
    pub access: u32,
    pub share: u32,
    pub options: u32,
    pub action: u32,
    pub persistent: bool,
    pub client: u128,
    pub guid: Option<u128>,
    pub user: Text,
    pub timeout: u32,
    /// The session to which it is attached, and the id of the tree under which it was made or attached there.
    pub session: Option<u64>,
    pub tree: u32,
    /// The newest channel sequence that reached it.
    pub sequence: Seen,
    /// Without a session: when it expires, in 100 nanoseconds since 1601.
    pub deadline: Option<u64>,
    /// The last name that its listing gave.
    pub location: Option<Text>,
    /// The position that was set last; no read or write moves it.
    pub position: u64,
    pub slots: Slots,
}

impl Row {
    /// A row for a new open: no deadline, no listing, position 0, no slot used.
    pub fn new(alloc: Global, made: &OpenParts, user: &str) -> Result<Row, AllocError>
        ensures { IfOk result (λ r. IsOpenNewRow r made.now user.now) }
    {
        let user = Text::from_str(alloc, user)?;
        let slots = Slots::new(alloc)?;
        Ok(new_row(made, user, slots))
    }

    /// What it was made with, and its session, tree and sequence as they are.
    pub fn parts(&self) -> OpenParts
        ensures { result ≡ parts_of self.now }
    {
        OpenParts {
            file: self.file,
            access: self.access,
            share: self.share,
            options: self.options,
            action: self.action,
            persistent: self.persistent,
            client: self.client,
            guid: self.guid,
            session: self.session,
            tree: self.tree,
            sequence: self.sequence.number(),
            timeout: self.timeout,
        }
    }
}

fn new_row(made: &OpenParts, user: Text, slots: Slots) -> Row
    ensures { IsMadeRow result made.now user slots }
{
    Row {
        file: made.file,
        access: made.access,
        share: made.share,
        options: made.options,
        action: made.action,
        persistent: made.persistent,
        client: made.client,
        guid: made.guid,
        user,
        timeout: made.timeout,
        session: made.session,
        tree: made.tree,
        sequence: Seen::new(made.sequence),
        deadline: None,
        location: None,
        position: 0,
        slots,
    }
}
