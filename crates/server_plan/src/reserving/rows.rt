//! The row of a new open (MS-SMB2 3.3.5.9, 3.3.1.10).
ghost use Rattle.std.specs.Prelude.{◌≡◌, ℕ, true, IfOk, List, Some, option_map};
ghost use Rattle.wire_commands.specs.values.Meaning.{create_of, durable_of, message_of};
ghost use Rattle.spec_exchange.specs.Effects as effects;
ghost use Rattle.spec_exchange.specs.Effects.{guid_of, is_persistent, new_file, open_row};
ghost use Rattle.spec_exchange.specs.State.{Server};
ghost use Rattle.store_files.specs.file_tree.Shown.{ShowsFiles};
ghost use Rattle.store_opens.specs.open_table.Rows.{open_with};
ghost use Rattle.server_checks.specs.Shown.{TablesShown};
ghost use Rattle.server_effects.specs.Making.{RowFor};

use crate::reserving::request::timeout_of;
use server_checks::{Tables, granted};
use std::alloc::AllocError;
use store_opens::{OpenParts, Row};
use wire_commands::{CreateRequest, Durable, Message};

// The row of the open that a CREATE makes.
pub(crate) fn new_row(
    t: &Tables,
    m: &Message<'_>,
    request: &CreateRequest,
    found: Option<u64>,
    action: u32,
) -> Result<Row, AllocError>
    ensures { IfOk result (λ row. (s : Server) → TablesShown t.now s → s.present m.now.session_id ≡ true
        → RowFor s (message_of m.now) (create_of request.now) found action row) }
{
    let parts = parts_for(t, m, request, found, action);
    let user = t.user(m.session_id);
    Row::new(t.alloc, &parts, user)
}

fn parts_for(
    t: &Tables,
    m: &Message<'_>,
    request: &CreateRequest,
    found: Option<u64>,
    action: u32,
) -> OpenParts
    ensures opened { (s : Server) (user : List ℕ) → ShowsFiles t.now.tree s → user ≡ s.user m.now.session_id
        → open_with result user ≡ open_row s (message_of m.now) (create_of request.now) (new_file s found) action }
    ensures session { (result.session ≡ Some m.now.session_id) × (result.tree ≡ m.now.tree_id)
        × (result.sequence ≡ m.now.channel_sequence) }
{
    let file = file_for(t, found);
    let access = granted(&t.tree, file, request.access);
    let persistent = is_persistent(request.durable);
    let guid = guid_of(request.durable);
    let timeout = timeout_asked(request.durable);
    OpenParts {
        file,
        access,
        share: request.share,
        options: request.options,
        action,
        persistent,
        client: m.client_guid,
        guid,
        session: Some(m.session_id),
        tree: m.tree_id,
        sequence: m.channel_sequence,
        timeout,
    }
}

// The file that is found, or the number of the next one.
fn file_for(t: &Tables, found: Option<u64>) -> u64
    ensures { (s : Server) → ShowsFiles t.now.tree s → result ≡ new_file s found }
{
    match found {
        Some(file) => file,
        None => t.tree.next_file(),
    }
}

fn is_persistent(durable: Option<Durable>) -> bool
    ensures { result ≡ is_persistent (option_map durable_of durable) }
{
    match durable {
        Some(durable) => durable.persistent,
        None => false,
    }
}

fn guid_of(durable: Option<Durable>) -> Option<u128>
    ensures { result ≡ guid_of (option_map durable_of durable) }
{
    match durable {
        Some(durable) => Some(durable.guid),
        None => None,
    }
}

fn timeout_asked(durable: Option<Durable>) -> u32
    ensures { result ≡ effects.timeout_asked (option_map durable_of durable) }
{
    match durable {
        Some(durable) => timeout_of(durable.timeout),
        None => 0,
    }
}
