use crypto_sessions::{Chain, Nonces};
use spec_crypto::{Chosen, Keys, Signer};
use std::alloc::{AllocError, Global};
use wire_credits::Window;

/// The room of the first reply that says that memory ran out: a frame's length, a transform header, a header and an
/// error response.
const SPARE: usize = 4 + 52 + 64 + 9;

/// A NEGOTIATE that was answered with success.
#[derive(Clone, Copy, Debug)]
pub struct Greeting {
    /// The ClientGuid, its first byte the lowest.
    pub client: u128,
    pub chosen: Chosen,
    /// The chain behind its request and response.
    pub chain: Chain,
}

/// What a connection knows of its logon.
#[derive(Clone, Copy, Debug)]
pub struct Logon {
    pub greeting: Option<Greeting>,
    /// The chain behind an interim response.
    pub making: Option<Chain>,
    // A session's end leaves these keys, since refusals are signed by them.
    /// The keys of the session or channel that was made here.
    pub keys: Option<Keys>,
    pub encrypts: bool,
}

/// What a SESSION_SETUP comes to. Any other message leaves a connection's logon as it is.
#[derive(Clone, Copy, Debug, PartialEq, Eq)]
pub enum Progress {
    Stays,
    /// The refusal of a binding, which its session signs in the place of this connection, or nobody.
    Refused {
        signer: Option<Signer>,
    },
    /// The interim response. In a binding the session signs it, and else nobody does.
    Interim {
        signer: Option<Signer>,
    },
    /// The final response, which the new keys sign.
    Final {
        keys: Keys,
        channel: u16,
        encrypts: bool,
    },
}

/// The server's end of a connection (MS-SMB2 3.3.1.7).
#[derive(Drop)]
pub struct Conn {
    pub alloc: Global,
    pub id: u32,
    /// ServerGuid
    pub guid: [u8; 16],
    pub salt: [u8; 32],
    pub window: Window,
    /// A NEGOTIATE was heard.
    pub asked: bool,
    pub logon: Logon,
    pub nonces: Nonces,
    pub spare: Vec<u8>,
}

impl Conn {
    ghost use Rattle.std.specs.Prelude.{IfOk};
    ghost use Rattle.spec_world.specs.Ends.{first_server_end};
    ghost use Rattle.conn_core.specs.Shown.{HasSpare, ShowsEnd};

    /// The end of a connection that was just accepted. `id` is its number, `guid` the ServerGuid, and `salt` random
    /// bytes for its NEGOTIATE response. It takes the room of the first reply that says that memory ran out.
    pub fn new(alloc: Global, id: u32, guid: [u8; 16], salt: [u8; 32]) -> Result<Conn, AllocError>
        ensures shows { IfOk result (λ c. ShowsEnd id guid c (first_server_end salt)) }
        ensures spare { IfOk result (λ c. HasSpare c) }
    {
        let window = Window::new(alloc)?;
        let spare = Vec::with_capacity(alloc, SPARE)?;
        Ok(Conn {
            alloc,
            id,
            guid,
            salt,
            window,
            asked: false,
            logon: Logon {
                greeting: None,
                making: None,
                keys: None,
                encrypts: false,
            },
            nonces: Nonces::new(0),
            spare,
        })
    }
}

impl Logon {
    ghost use Rattle.std.specs.Prelude.{◌≡◌, ℕ, List, Option};
    ghost use Rattle.spec_crypto.specs.sessions.Chain.{chain};
    ghost use Rattle.spec_world.specs.Ends as ends;
    ghost use Rattle.spec_world.specs.Logon.{greeting_transcript, made_or_greeted};
    ghost use Rattle.conn_core.specs.Shown.{ShowsGreeting, ShowsMaking};

    /// What NEGOTIATE chose; where none was answered with success no cipher, and AES-CMAC.
    pub fn chosen(&self) -> Chosen
        ensures { (g : Option ends.Greeting) → ShowsGreeting self.now.greeting g → result ≡ ends.chosen_on g }
    {
        match &self.greeting {
            Some(greeting) => greeting.chosen,
            None => Chosen {
                cipher: 0,
                signing: 1,
                signing_told: false,
            },
        }
    }

    pub fn client(&self) -> u128
        ensures { (g : Option ends.Greeting) → ShowsGreeting self.now.greeting g → result ≡ ends.client_on g }
    {
        match &self.greeting {
            Some(greeting) => greeting.client,
            None => 0,
        }
    }

    pub fn signer(&self) -> Option<Signer>
        ensures { result ≡ ends.signer_on self.now.keys }
    {
        match &self.keys {
            Some(keys) => Some(keys.signing),
            None => None,
        }
    }

    /// The chain behind NEGOTIATE.
    pub fn greeted(&self) -> Chain
        ensures { (g : Option ends.Greeting) → ShowsGreeting self.now.greeting g → result ≡ chain (greeting_transcript g) }
    {
        match &self.greeting {
            Some(greeting) => greeting.chain,
            None => Chain::start(),
        }
    }

    /// The chain that a SESSION_SETUP stands behind: of what is in the making, else of NEGOTIATE alone.
    pub fn before_setup(&self) -> Chain
        ensures { (g : Option ends.Greeting) (m : Option (List (List ℕ))) → ShowsGreeting self.now.greeting g
            → ShowsMaking self.now.making m → result ≡ chain (made_or_greeted m g) }
    {
        match &self.making {
            Some(chain) => *chain,
            None => self.greeted(),
        }
    }
}
