//! Trees of a session, and their opens where they end (MS-SMB2 3.3.5.7, 3.3.5.8).
ghost use Rattle.std.specs.Prelude.{◌≡◌, ℕ, false};
ghost use Rattle.wire_commands.specs.values.Meaning.{body_of, message_of, reply_of};
ghost use Rattle.spec_exchange.specs.Effects as effects;
ghost use Rattle.spec_exchange.specs.Effects.{apply, close_all, opens_of_tree};
ghost use Rattle.spec_exchange.specs.State.{Server};
ghost use Rattle.spec_exchange.specs.Table.{is_filled};
ghost use Rattle.spec_exchange.specs.Status.{success};
ghost use Rattle.spec_exchange.specs.Verdict.{AddTree, DropTree};
ghost use Rattle.server_checks.specs.session_table.Logons.{LogonsStay};
ghost use Rattle.server_checks.specs.session_table.Shown.{HasTreeRoom};
ghost use Rattle.server_checks.specs.Shown.{TablesShown};
ghost use Rattle.server_effects.specs.Carried.{Carried, EffectCarries, IsEffectBare};
ghost use Rattle.server_effects.specs.Closed.{AreClosable};
ghost use Rattle.law_server.specs.tables.Fits.{Fits};

use crate::answering::{Answer, answer_with};
use crate::closing::close_one;
use server_checks::Tables;
use server_checks::status::SUCCESS;
use std::alloc::Global;
use wire_bytes::Bytes;
use wire_commands::{Body, Message, Reply};

/// The session connects to a tree of the next id.
pub fn add_tree(t: &mut Tables, m: &Message<'_>, pipes: bool) -> Answer
    requires { HasTreeRoom t.old.sessions m.now.session_id }
    ensures shows { (now : ℕ) → EffectCarries t.old t.new result (message_of m.now) now (AddTree pipes) }
    ensures bare { IsEffectBare result }
    ensures config { t.new.config ≡ t.old.config }
    ensures logons { LogonsStay t.old.sessions t.new.sessions }
{
    let tree = t.sessions.add_tree(m.session_id, pipes);
    tree_answer(t.alloc, m, tree, pipes)
}

/// The tree of the message is gone, and its opens, which are these, are closed.
pub fn drop_tree(t: &mut Tables, m: &Message<'_>, opens: &[u64]) -> Answer
    ensures shows { (now : ℕ) (s : Server) → Fits s → TablesShown t.old s
        → opens.now ≡ opens_of_tree s m.now.session_id m.now.tree_id → Carried t.new result (apply s (message_of m.now) now DropTree) }
    ensures bare { IsEffectBare result }
    ensures config { t.new.config ≡ t.old.config }
    ensures logons { LogonsStay t.old.sessions t.new.sessions }
{
    close_each(t, opens);
    t.sessions.drop_tree(m.session_id, m.tree_id);
    let acted = is_any(opens);
    answer_with(t.alloc, m, SUCCESS, Body::Empty, acted)
}

// Whether there is one.
#[tactic(auto, unfolding(spec_exchange::specs::Table::is_filled))]
fn is_any(opens: &[u64]) -> bool
    ensures { result ≡ is_filled opens.now }
{
    !opens.is_empty()
}

// Opens of one session are closed in the order of their ids.
fn close_each(t: &mut Tables, opens: &[u64])
    ensures shows { (s : Server) (session : ℕ) → Fits s → TablesShown t.old s → AreClosable s session opens.now
        → TablesShown t.new (close_all s session opens.now) }
    ensures config { t.new.config ≡ t.old.config }
    ensures logons { LogonsStay t.old.sessions t.new.sessions }
{
    for id in opens {
        close_one(t, *id);
    }
}

// What a TREE_CONNECT answers: the new tree's id stands in the header.
fn tree_answer(alloc: Global, m: &Message<'_>, tree_id: u32, pipes: bool) -> Answer
    ensures reply { reply_of result.reply
        ≡ record { status = success; session_id = m.now.session_id; tree_id = tree_id; body = effects.connected pipes } }
    ensures acted { result.acted ≡ false }
    ensures bare { IsEffectBare result }
{
    Answer {
        reply: Reply {
            status: SUCCESS,
            session_id: m.session_id,
            tree_id,
            body: connected(pipes),
        },
        acted: false,
        token: Bytes::new(alloc),
        keys: None,
        channel: None,
    }
}

// ShareType, Capabilities and MaximalAccess of a TREE_CONNECT (MS-SMB2 2.2.10): the pipes, or a continuously available disk.
fn connected(pipes: bool) -> Body
    ensures { body_of result ≡ effects.connected pipes }
{
    if pipes {
        return Body::Connected {
            kind: 2,
            capabilities: 0,
            access: 0x1f_01ff,
        };
    }
    Body::Connected {
        kind: 1,
        capabilities: 0x10,
        access: 0x1f_01ff,
    }
}
