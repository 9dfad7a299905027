//! Users and their passwords.
use std::alloc::{AllocError, Global};
use std::marker::Model;
use wire_bytes::Text;

/// A list of names and passwords, and whether their logons may come as NTLM's messages alone. The names are distinct but for
/// the case of ASCII letters. A contract sees both.
#[derive(Debug, Drop)]
pub struct Users {
    items: Vec<(Text, Text)>,
    bare: bool,
}

impl Model for Users {
    ghost use Rattle.std.specs.Prelude.{map};
    ghost use Rattle.spec_crypto.specs.tokens.Tokens as tokens;

    ghost Value = { tokens.Users };

    ghost view = { λ u. record { list = map (λ p. record { name = p.0; password = p.1 }) u.items.items; bare = u.bare } };
}

impl Users {
    ghost use Rattle.std.specs.Prelude.{◌≡◌, ◌++◌, [], ◌∷◌, map, OnOk, OnErr};

    /// No users. It takes no memory.
    pub fn new(alloc: Global, bare: bool) -> Users
        ensures { result ≡ record { list = []; bare = bare } }
    {
        Users {
            items: Vec::new(alloc),
            bare,
        }
    }

    /// Whether NTLM's messages are taken alone too, without SPNEGO around them.
    pub fn is_bare(&self) -> bool
        ensures { result ≡ self.now.bare }
    {
        self.bare
    }

    pub fn as_slice(&self) -> &[(Text, Text)]
        ensures { map (λ p. record { name = p.0; password = p.1 }) result.now ≡ self.now.list }
    {
        self.items.as_slice()
    }

    /// Adds a user at the end. Where there is no memory nothing changes.
    pub fn push(&mut self, name: Text, password: Text) -> Result<(), AllocError>
        ensures ok { OnOk result (self.new ≡ record self.old { list = self.old.list ++ record { name = name; password = password } ∷ [] }) }
        ensures err { OnErr result (self.new ≡ self.old) }
    {
        self.items.push((name, password))?;
        Ok(())
    }
}
