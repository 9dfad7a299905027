//! Rules, and where they are looked for.
ghost use Rattle.std.specs.Prelude.{◌≡◌, ◌≤◌, ◌<◌, true, false, [], ◌∷◌, ◌++◌, length, position, IfOk, IfSome, OnOk};
ghost use Rattle.spec_exchange.specs.Texts.{is_below};
ghost use Rattle.access_lists.specs.Decide.{below};
ghost use Rattle.access_lists.specs.Index.{place_of, is_reached, reached, IsIndex};

use crate::bearing::{is_below, place_of};
use base_lists::ListOf;
use std::alloc::{AllocError, Global};
use std::marker::Model;
use wire_bytes::Text;

/// At most so many rules stand.
const MOST_RULES: usize = 1024;

/// In so many places rules are looked for.
pub(crate) const PLACES: u32 = 64;

/// One line of the rules. Rights are the sum of 1 to read, 2 to write, 4 to delete. `user` is None for all users; the path is `` for the
/// root, and bears on all that lies below it.
#[derive(Drop, Debug)]
pub struct Rule {
    pub allow: bool,
    pub user: Option<Text>,
    pub rights: u8,
    pub path: Text,
}

/// Why rules can't stand.
#[derive(Drop, Debug)]
pub enum RulesError {
    /// Memory ran out.
    Memory,
    /// There are more than 1,024.
    TooMany,
}

impl From<AllocError> for RulesError {
    ghost use Rattle.std.specs.Prelude.{◌≡◌};
    ghost use Rattle.access_lists.specs.declared.rules.RulesError.TheVariants.{Memory};

    ghost from_gives = { λ e r. r ≡ Memory };

    fn from(_: AllocError) -> RulesError {
        RulesError::Memory
    }
}

/// At most 1,024 rules, in their order. A contract sees the list of them.
#[derive(Drop, Debug)]
pub struct Rules {
    pub(crate) rules: ListOf<Rule>,
    // Of each place the numbers of the rules that are looked at there.
    pub(crate) places: ListOf<ListOf<u32>>,
}

impl Model for Rules {
    ghost use Rattle.std.specs.Prelude.{◌≤◌, List, length};
    ghost use Rattle.access_lists.specs.declared.rules.Rule.{Rule};
    ghost use Rattle.access_lists.specs.Index.{IsIndex};

    ghost Value = { List Rule };

    ghost view = { λ r. r.rules };

    ghost invariant = { λ r. (length r.rules ≤ 1024) × IsIndex r.places r.rules };
}

impl Rules {
    ghost use Rattle.std.specs.Prelude.{◌≡◌, ◌<◌, ◌↔◌, length, IfOk, IfErr};
    ghost use Rattle.access_lists.specs.declared.rules.RulesError.TheVariants.{TooMany};
    ghost use Rattle.access_lists.specs.Decide.{below};

    /// Rules in their order. Where they can't stand they are dropped.
    pub fn new(alloc: Global, rules: ListOf<Rule>) -> Result<Rules, RulesError>
        ensures ok { IfOk result (λ r. r ≡ rules) }
        ensures err { IfErr result (λ e. (e ≡ TooMany) ↔ (1024 < length rules)) }
    {
        if rules.len() > MOST_RULES {
            return Err(RulesError::TooMany);
        }
        let places = places_of(alloc, rules.as_slice())?;
        Ok(Rules { rules, places })
    }

    /// The least rule, counted from 1 on, whose path lies below a directory, at any depth: whoever its user is, and whether it allows or
    /// denies. It looks at each rule, since few directories are renamed, and takes no memory.
    pub fn below(&self, directory: &str) -> Option<u32>
        ensures { result ≡ below self.now directory.now }
    {
        first_below(self.rules.as_slice(), directory.as_bytes())
    }

    /// How many rules stand.
    pub fn len(&self) -> usize
        ensures { result ≡ length self.now }
    {
        self.rules.len()
    }
}

fn first_below(rules: &[Rule], directory: &[u8]) -> Option<u32>
    requires { length rules.now ≤ 1024 }
    ensures { result ≡ below rules.now directory.now }
{
    match place_below(rules, directory) {
        Some(place) => Some(place as u32 + 1),
        None => None,
    }
}

fn place_below(rules: &[Rule], directory: &[u8]) -> Option<usize>
    ensures is { result ≡ position (λ x. is_below directory.now x.path) rules.now }
    ensures bound { IfSome result (λ i. i < length rules.now) }
{
    rules
        .iter()
        .position(|rule| is_below(directory, rule.path.as_bytes()))
}

// Of each place the numbers of the rules that are looked at there.
fn places_of(alloc: Global, rules: &[Rule]) -> Result<ListOf<ListOf<u32>>, AllocError>
    requires { length rules.now ≤ 1024 }
    ensures { IfOk result (λ p. IsIndex p rules.now) }
{
    let mut places = ListOf::new(alloc);
    let mut place = 0;
    while place < PLACES {
        let numbers = reached(alloc, rules, place)?;
        places.push(numbers)?;
        place += 1;
    }
    Ok(places)
}

// The numbers of the rules that are looked at in a place.
fn reached(alloc: Global, rules: &[Rule], place: u32) -> Result<ListOf<u32>, AllocError>
    requires { length rules.now ≤ 1024 }
    ensures { IfOk result (λ v. v ≡ reached place 0 rules.now) }
{
    let mut numbers = ListOf::new(alloc);
    let mut i = 0;
    while i < rules.len() {
        let is_there = is_reached(rules[i].path.as_bytes(), place);
        add_if(&mut numbers, i as u32, is_there)?;
        i += 1;
    }
    Ok(numbers)
}

// Adds a number where it is to be there.
fn add_if(numbers: &mut ListOf<u32>, number: u32, is_there: bool) -> Result<(), AllocError>
    ensures there { is_there ≡ true → OnOk result (numbers.new ≡ numbers.old ++ number ∷ []) }
    ensures not { is_there ≡ false → OnOk result (numbers.new ≡ numbers.old) }
{
    if is_there {
        numbers.push(number)?;
    }
    Ok(())
}

#[tactic(auto, using(crate::proofs::Places::root_reached, crate::proofs::Places::other_reached))]
fn is_reached(path: &[u8], place: u32) -> bool
    ensures { result ≡ is_reached path.now place }
{
    path.is_empty() || place_of(path) == place
}
