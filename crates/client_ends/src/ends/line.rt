ghost use Rattle.std.specs.Prelude.{◌≡◌, ◌==◌, not, filter, option_map};
ghost use Rattle.client_ends.specs.ends.Shown.{token_of, awaited_in};

use crypto_sessions::Nonces;
use spec_crypto::{Keys, Signer};
use spec_wire::Header;
use std::alloc::{AllocError, Global};
use thiserror::Error;
use wire_credits::Purse;

/// A request that waits for its response (MS-SMB2 3.2.1.2, Connection.OutstandingRequests).
#[derive(Clone, Copy)]
pub struct Outstanding {
    /// MessageId
    pub id: u64,
    /// Whose it is: 0 is the dialog's, twice an operation's number is the operation's own, and one more is a request to
    /// attach the operation's open in its place.
    pub token: u64,
}

/// Why a request isn't sent, or a reply isn't taken.
#[derive(Clone, Copy, Debug, Error)]
pub enum LineError {
    #[error("memory ran out")]
    Memory,
    /// The charge is above the credits that are held, of which there are so many.
    #[error("the charge is above the {0} credits held")]
    NoCredit(u32),
    /// No nonce is left.
    #[error("all nonces are given")]
    Spent,
    /// A frame that doesn't open or verify, doesn't read, or answers no request that waits.
    #[error("the reply doesn't verify, doesn't read or answers nothing")]
    BadReply,
}

impl From<AllocError> for LineError {
    ghost use Rattle.std.specs.Prelude.{◌≡◌};
    ghost use Rattle.client_ends.specs.declared.ends.line.LineError.TheVariants as errors;

    ghost from_gives = { λ a e. e ≡ errors.Memory };

    fn from(_error: AllocError) -> LineError {
        LineError::Memory
    }
}

/// The client's end of a connection: its credits, the requests that wait for a response, its keys, and its nonces.
#[derive(Drop)]
pub struct Line {
    pub alloc: Global,
    pub purse: Purse,
    // A list, because an ordered map has no reserve: room is made before a credit is spent, and to add then can't
    // fail.
    pub awaited: Vec<Outstanding>,
    pub keys: Keys,
    pub encrypts: bool,
    pub nonces: Nonces,
}

/// The token of the request that waits under an id; of two under one id the later one's.
fn found_in(awaited: &[Outstanding], id: u64) -> Option<u64>
    ensures { option_map token_of result ≡ awaited_in awaited.now id }
{
    let mut found = None;
    for o in awaited {
        if id == o.id {
            found = Some(o.token);
        }
    }
    found
}

fn drop_id(awaited: &mut Vec<Outstanding>, id: u64)
    ensures { awaited.new.items ≡ filter (λ o. not (o.id == id)) awaited.old.items }
{
    awaited.retain(|o| o.id != id);
}

impl Line {
    ghost use Rattle.std.specs.Prelude.{◌≡◌, ◌≤◌, false, option_map, OnOk};
    ghost use Rattle.spec_wire.specs.credits.Ids.{counted};
    ghost use Rattle.spec_world.specs.Ends.{ClientEnd, no_client_end};
    ghost use Rattle.spec_world.specs.Sending.{spent};
    ghost use Rattle.spec_world.specs.Dialog.{paid_in};
    ghost use Rattle.client_ends.specs.ends.Shown.{token_of, awaited_in, HasEndRoom, EndKeeps, EndShowsTalk};
    ghost use Rattle.client_ends.specs.line_calls.Interim.{credited};

    /// A line without keys, on which nothing was sent. It takes no memory.
    pub fn new(alloc: Global) -> Line
        ensures shows { EndShowsTalk result no_client_end }
        ensures plain { (result.encrypts ≡ false) × (result.keys.cipher ≡ 0) }
    {
        let signing = Signer {
            key: [0; 16],
            algorithm: 1,
        };
        Line {
            alloc,
            purse: Purse::new(),
            awaited: Vec::new(alloc),
            keys: Keys {
                signing,
                to_server: [0; 32],
                to_client: [0; 32],
                cipher: 0,
                session: 0,
            },
            encrypts: false,
            nonces: Nonces::new(0),
        }
    }

    /// How many credits are held.
    pub fn credits(&self) -> u32
        ensures { result ≡ self.now.purse.held }
    {
        self.purse.held()
    }

    /// Whose request waits under an id.
    pub fn token_for(&self, id: u64) -> Option<u64>
        ensures { option_map token_of result ≡ awaited_in self.now.awaited.items id }
    {
        found_in(self.awaited.as_slice(), id)
    }

    /// Makes room for one more request that waits.
    pub fn reserve(&mut self) -> Result<(), AllocError>
        ensures room { OnOk result (HasEndRoom self.new) }
        ensures purse { self.new.purse ≡ self.old.purse }
        ensures shows { (n : ClientEnd) → EndShowsTalk self.old n → EndShowsTalk self.new n }
        ensures keeps { EndKeeps self.old self.new }
    {
        self.awaited.reserve(1)
    }

    /// Spends a charge for a request of this token, and tells its message id, which waits for a response from then on.
    /// There is room for it, and the charge is held. It takes no memory.
    #[tactic(auto, using(crate::proofs::ends::Awaited::awaited_more))]
    pub fn spend(&mut self, charge: u16, token: u64) -> u64
        requires room { HasEndRoom self.old }
        requires held { counted charge ≤ self.old.purse.held }
        ensures id { result ≡ self.old.purse.next }
        ensures shows { (n : ClientEnd) → EndShowsTalk self.old n → EndShowsTalk self.new (spent n charge (token_of token)) }
        ensures keeps { EndKeeps self.old self.new }
    {
        let Ok(id) = self.purse.spend(charge) else {
            unreachable!()
        };
        let _ = self.awaited.push(Outstanding { id, token });
        id
    }

    /// A response pays its credits in, and its id waits no more. It takes no memory.
    pub fn pay_in(&mut self, header: &Header)
        ensures shows { (n : ClientEnd) → EndShowsTalk self.old n → EndShowsTalk self.new (paid_in n header.now) }
        ensures keeps { EndKeeps self.old self.new }
    {
        self.purse.add(header.credits);
        drop_id(&mut self.awaited, header.message);
    }

    /// An interim response pays its credits in, and its id waits on. It takes no memory.
    pub fn credit(&mut self, header: &Header)
        ensures shows { (n : ClientEnd) → EndShowsTalk self.old n → EndShowsTalk self.new (credited n header.now) }
        ensures keeps { EndKeeps self.old self.new }
    {
        let granted = header.credits;
        self.purse.add(granted);
    }
}
