//! Users in their order, and which names are taken.

use crate::user_names::{add_name, is_named, key_of};
use crate::values::User;
use std::alloc::{AllocError, Global};
use std::collections::HashSet;
use std::marker::Model;

/// Users in the order in which they were given. A contract sees the list of them.
#[derive(Drop, Debug)]
pub struct UserList {
    users: Vec<User>,
    // A further name isn't compared with each earlier one, since there may be tens of thousands.
    /// The users' names in lower case. Where memory ran out one of them may be no user's.
    names: HashSet<String>,
}

impl Model for UserList {
    ghost use Rattle.std.specs.Prelude.{◌≡◌, ℕ, List, true};
    ghost use Rattle.std.specs.HashSet.{contains_text};
    ghost use Rattle.std.specs.List.{list_any};
    ghost use Rattle.std.specs.Str.{str_eq_ignore_ascii_case, str_to_ascii_lowercase};
    ghost use Rattle.script_words.specs.declared.values.User.{User};

    ghost Value = { List User };

    ghost view = { λ l. l.users.items };

    ghost invariant = { λ l. (name : List ℕ) → list_any (λ (user : User). str_eq_ignore_ascii_case user.name name) l.users.items ≡ true
        → contains_text l.names (str_to_ascii_lowercase name) ≡ true };
}

impl UserList {
    ghost use Rattle.std.specs.Prelude.{◌≡◌, ◌==◌, [], ◌∷◌, ◌++◌, length, IfOk, OnOk, OnErr};
    ghost use Rattle.script_words.specs.Settings.{is_name_taken};

    /// No users. It takes no memory.
    pub fn new(alloc: Global) -> UserList
        ensures { result ≡ [] }
    {
        UserList {
            users: Vec::new(alloc),
            names: HashSet::new(alloc),
        }
    }

    pub fn as_slice(&self) -> &[User]
        ensures { result.now ≡ self.now }
    {
        self.users.as_slice()
    }

    pub fn is_empty(&self) -> bool
        ensures { result ≡ (length self.now == 0) }
    {
        self.users.is_empty()
    }

    /// Adds one at the end. Where memory runs out nothing changes, and the user is dropped.
    pub fn push(&mut self, user: User) -> Result<(), AllocError>
        ensures ok { OnOk result (self.new ≡ self.old ++ user ∷ []) }
        ensures err { OnErr result (self.new ≡ self.old) }
    {
        let key = key_of(&user.name)?;
        add_name(&mut self.names, key)?;
        self.users.push(user)?;
        Ok(())
    }

    /// Whether a user has this name, but for the case of ASCII letters.
    pub fn is_taken(&self, alloc: Global, name: &str) -> Result<bool, AllocError>
        ensures { IfOk result (λ taken. taken ≡ is_name_taken name.now self.now) }
    {
        let key = name.to_ascii_lowercase(alloc)?;
        let known = self.names.contains(key.as_str());
        if !known {
            return Ok(false);
        }
        Ok(is_named(name, self.users.as_slice()))
    }
}
