//! The names of users, but for the case of ASCII letters.
ghost use Rattle.std.specs.Prelude.{◌≡◌, ℕ, List, true, IfOk, OnOk, OnErr, if◌then◌else◌};
ghost use Rattle.std.specs.HashSet.{contains_text};
ghost use Rattle.std.specs.Str.{bytes_eq, str_to_ascii_lowercase};
ghost use Rattle.std.specs.String.{string_bytes};
ghost use Rattle.script_words.specs.Settings.{is_name_taken};

use crate::values::User;
use std::alloc::AllocError;
use std::collections::HashSet;
use wire_bytes::Text;

/// A name in lower case.
pub(crate) fn key_of(name: &Text) -> Result<String, AllocError>
    ensures { IfOk result (λ key. string_bytes key ≡ str_to_ascii_lowercase name.now) }
{
    let mut key = name.copy()?.into_string();
    key.make_ascii_lowercase();
    Ok(key)
}

/// One key more, where it isn't there yet.
pub(crate) fn add_name(names: &mut HashSet<String>, key: String) -> Result<(), AllocError>
    ensures ok { OnOk result ((q : List ℕ) → contains_text names.new q
        ≡ (if bytes_eq (string_bytes key) q then true else contains_text names.old q)) }
    ensures err { OnErr result ((q : List ℕ) → contains_text names.new q ≡ contains_text names.old q) }
{
    match names.insert(key) {
        Ok(_) => return Ok(()),
        Err(_) => return Err(AllocError),
    }
}

/// Whether one of the users has this name.
pub(crate) fn is_named(name: &str, users: &[User]) -> bool
    ensures { result ≡ is_name_taken name.now users.now }
{
    users
        .iter()
        .any(|user| user.name.as_str().eq_ignore_ascii_case(name))
}
