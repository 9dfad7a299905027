//! A dialog that ends.
ghost use Rattle.std.specs.Prelude.{◌≡◌, [], ℕ, true, IfOk};
ghost use Rattle.spec_exchange.specs.State.{Message};
ghost use Rattle.crypto_sessions.specs.session_keys.Sealing.{HasCipher};
ghost use Rattle.spec_world.specs.Ends.{ClientEnd};
ghost use Rattle.client_ends.specs.ends.Shown.{EndShowsTalk};
ghost use Rattle.client_ends.specs.line_calls.Sending.{CanSend, IsRequest};
ghost use Rattle.client_ends.specs.declared.ends.dialog.Stage.TheVariants as stages;
ghost use Rattle.client_ends.specs.declared.dialog_calls.heard.Heard.TheVariants as heards;
ghost use Rattle.client_ends.specs.dialog_calls.Ending.{IsConnecting, IsTree, Readied, Remains, DialogTakes};

use crate::dialog_calls::heard::Heard;
use crate::ends::{Dialog, Line, Stage};
use crate::line_calls::send;
use crate::response_faults::Ended;
use crypto_sessions::Nonces;
use std::alloc::AllocError;
use std::mem;
use wire_bytes::{Bytes, Header, Request};
use wire_commands::{ClientCommand, body_of};

const TREE_CONNECT: u16 = 3;

/// The body of the TREE_CONNECT to the configured share. A path that doesn't fit its field counts as one without memory.
fn tree_body(d: &Dialog) -> Result<Bytes, AllocError>
    ensures { IfOk result (λ b. IsConnecting d.now.config.share b) }
{
    let share = d.config.share.copy()?;
    match body_of(d.line.alloc, &ClientCommand::TreeConnect { share }) {
        Ok(body) => Ok(body),
        Err(_) => Err(AllocError),
    }
}

/// The TREE_CONNECT of a session.
fn tree_request(d: &Dialog) -> Result<Request, AllocError>
    ensures request { (m : Message) (id : ℕ) → IsTree m id d.now.session d.now.config.share → IfOk result (λ r. IsRequest r m 1) }
    ensures sends { IfOk result (λ r. CanSend r) }
    ensures token { IfOk result (λ r. r.token ≡ 0) }
{
    let body = tree_body(d)?;
    Ok(Request {
        header: Header {
            charge: 1,
            status: 0,
            command: TREE_CONNECT,
            credits: 0,
            flags: 0,
            next: 0,
            message: 0,
            tree: 0,
            session: d.session,
            signature: [0; 16],
        },
        body,
        token: 0,
    })
}

/// The line has the keys behind the final response, and nonces of this channel.
fn take_keys(line: &mut Line, ended: &Ended, channel: u16)
    ensures { DialogTakes line.old ended.now channel line.new }
{
    line.keys = ended.keys;
    line.encrypts = ended.encrypts;
    line.nonces = Nonces::new(channel);
}

/// A session is accepted: its first channel is number 1, and its TREE_CONNECT goes out.
pub(crate) fn accept(d: &mut Dialog, ended: &Ended) -> Result<Heard, AllocError>
    ensures { (n : ClientEnd) → EndShowsTalk d.old.line n → n.keys ≡ ended.now.keys → n.encrypts ≡ ended.now.encrypts → n.channel ≡ 1
        → n.counter ≡ 0 → (ended.now.encrypts ≡ true → HasCipher ended.now.keys)
        → IfOk result (λ h. Readied d.old n ended.now d.new h) }
{
    let request = tree_request(d)?;
    take_keys(&mut d.line, ended, 1);
    match send(&mut d.line, &request) {
        Ok(tree_connect) => {
            d.stage = Stage::AskedTree;
            Ok(Heard::Accepted {
                keys: ended.keys,
                chosen: d.chosen,
                tree_connect,
            })
        }
        Err(_) => Err(AllocError),
    }
}

/// A channel is bound, under this number.
pub(crate) fn bind(d: &mut Dialog, ended: &Ended, channel: u16) -> Heard
    ensures line { DialogTakes d.old.line ended.now channel d.new.line }
    ensures stage { d.new.stage ≡ stages.Joined }
    ensures told { result ≡ heards.Accepted ended.now.keys d.old.chosen [] }
    ensures rest { Remains d.old d.new d.old.session }
{
    take_keys(&mut d.line, ended, channel);
    d.stage = Stage::Joined;
    Heard::Accepted {
        keys: ended.keys,
        chosen: d.chosen,
        tree_connect: Bytes::new(d.line.alloc),
    }
}

/// The dialog gives its line away.
pub(crate) fn ready(d: &mut Dialog, session: u64, tree: u32) -> Heard
    ensures told { result ≡ heards.Ready d.old.line session tree }
    ensures stage { d.new.stage ≡ stages.Over }
{
    let alloc = d.line.alloc;
    d.stage = Stage::Over;
    Heard::Ready {
        line: mem::replace(&mut d.line, Line::new(alloc)),
        session,
        tree,
    }
}
