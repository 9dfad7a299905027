// What a header tells of the session and of the operation (MS-SMB2 2.2.1.2, 3.2.4.1).
ghost use Rattle.std.specs.Prelude.{◌≡◌, ℕ, ◌<◌, ◌&&◌, ◌||◌, length, slice_index_or};
ghost use Rattle.spec_exchange.specs.Operations.{is_change, is_create};
ghost use Rattle.spec_exchange.specs.Client.{Client, ask_message, own_message};
ghost use Rattle.client_values.specs.declared.operations.values.OpKind.TheVariants as kinds;
ghost use Rattle.client_values.specs.operations.Meaning.{op_of};
ghost use Rattle.client_rows.specs.operation_rows.Rows.{row_at};
ghost use Rattle.client_tables.specs.whole_table.Shown.{TableFits, ShowsTable};
ghost use Rattle.client_steps.specs.sent_requests.Sent.{IsHead};

use client_tables::Table;
use client_values::OpKind;

/// The SessionId, the TreeId, the ChannelSequence and SMB2_FLAGS_REPLAY_OPERATION of a request.
#[derive(Clone, Copy, Debug, PartialEq, Eq)]
pub struct Head {
    pub session: u64,
    pub tree: u32,
    pub sequence: u16,
    pub replay: bool,
}

fn is_unanswered(table: &Table, index: usize) -> bool
    requires { index < length table.now.rows.items }
    ensures { result ≡ (row_at table.now.rows.items index).unanswered }
{
    table.rows[index].unanswered
}

fn may_replay(op: &OpKind) -> bool
    ensures { result ≡ (is_create (op_of op.now) || is_change (op_of op.now)) }
{
    op.is_create() || op.is_change()
}

/// Whether an operation is of a kind that has the replay flag: a create, a write or a set-info.
fn may_replay_at(ops: &[OpKind], place: usize) -> bool
    requires { place < length ops.now }
    ensures { result ≡ (is_create (op_of (slice_index_or ops.now place (kinds.Close 0)))
        || is_change (op_of (slice_index_or ops.now place (kinds.Close 0)))) }
{
    may_replay(&ops[place])
}

fn both(a: bool, b: bool) -> bool
    ensures { result ≡ (a && b) }
{
    a && b
}

/// Whether an operation goes out with the replay flag.
fn is_replay(table: &Table, index: usize) -> bool
    requires fits { TableFits table.now }
    requires above { 0 < index }
    requires within { index < length table.now.rows.items }
    ensures { (c : Client) → ShowsTable table.now c
        → result ≡ (c.unanswered index && (is_create (c.op index) || is_change (c.op index))) }
{
    let may = may_replay_at(&table.ops, index - 1);
    let unanswered = is_unanswered(table, index);
    both(unanswered, may)
}

/// That of an operation's own request, behind the push that sends it.
pub fn own_head(table: &Table, index: usize) -> Head
    requires fits { TableFits table.now }
    requires above { 0 < index }
    requires within { index < length table.now.rows.items }
    ensures { (c : Client) (k id : ℕ) → ShowsTable table.now c → IsHead result (own_message c k id index) }
{
    let replay = is_replay(table, index);
    let sequence = table.session.sequence();
    Head {
        session: table.session.id(),
        tree: table.session.tree(),
        sequence,
        replay,
    }
}

/// That of a request to attach the open of an operation, in its place.
pub fn ask_head(table: &Table) -> Head
    ensures { (c : Client) (k id g : ℕ) → ShowsTable table.now c → IsHead result (ask_message c k id g) }
{
    Head {
        session: table.session.id(),
        tree: table.session.tree(),
        sequence: table.session.sequence(),
        replay: false,
    }
}
