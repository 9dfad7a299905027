//! What the rules decide.
ghost use Rattle.std.specs.Prelude.{◌≡◌, ◌≤◌, ◌<◌, length, is_some};
ghost use Rattle.access_lists.specs.Decide.{decided, is_denied, without, maximal};
ghost use Rattle.access_lists.specs.Walk.{told, judged, judged_one, asked_of, AreNumbers};

use crate::bearing::{bears_on, place_of};
use crate::rules::{Rule, Rules};

/// Allowed, or denied by the rule of this number, counted from 1 on.
#[derive(Clone, Copy, PartialEq, Eq, Debug)]
pub enum Verdict {
    Allowed,
    Denied(u32),
}

// The rights that are still asked.
#[derive(Clone, Copy)]
pub(crate) struct Asked {
    pub(crate) read: bool,
    pub(crate) write: bool,
    pub(crate) delete: bool,
}

/// Whether a user may do at a path what these rights ask (1 to read, 2 to write, 4 to delete; other bits count as none), or the least rule
/// that denies one of them. It takes no memory.
pub fn decide(rules: &Rules, user: &str, path: &str, rights: u8) -> Verdict
    ensures { told result ≡ decided rules.now user.now path.now rights }
{
    let place = place_of(path.as_bytes());
    let numbers = rules.places.as_slice()[place as usize].as_slice();
    walked(
        rules.rules.as_slice(),
        numbers,
        user.as_bytes(),
        path.as_bytes(),
        asked_of(rights),
    )
}

// What the rules of these numbers decide, the first of them first.
fn walked(rules: &[Rule], numbers: &[u32], user: &[u8], path: &[u8], rights: Asked) -> Verdict
    requires numbers { AreNumbers numbers.now rules.now }
    requires few { length rules.now ≤ 1024 }
    ensures { told result ≡ judged rules.now numbers.now user.now path.now rights }
{
    let mut asked = rights;
    for i in 0..numbers.len() {
        let number = numbers[i];
        match judge(&rules[number as usize], user, path, asked) {
            Some(left) => asked = left,
            None => return Verdict::Denied(number + 1),
        }
    }
    Verdict::Allowed
}

// What is asked behind a rule. None where it denies some of it.
#[tactic(auto, unfolding(crate::specs::Walk::judged_one))]
fn judge(rule: &Rule, user: &[u8], path: &[u8], asked: Asked) -> Option<Asked>
    ensures { result ≡ judged_one rule.now user.now path.now asked }
{
    if !bears_on(rule, user, path) {
        return Some(asked);
    }
    let has = asked_of(rule.rights);
    let touches = (asked.read && has.read)
        || (asked.write && has.write)
        || (asked.delete && has.delete);
    if touches && !rule.allow {
        return None;
    }
    Some(Asked {
        read: asked.read && !has.read,
        write: asked.write && !has.write,
        delete: asked.delete && !has.delete,
    })
}

fn asked_of(rights: u8) -> Asked
    ensures { result ≡ asked_of rights }
{
    Asked {
        read: rights % 2 == 1,
        write: rights / 2 % 2 == 1,
        delete: rights / 4 % 2 == 1,
    }
}

/// The greatest access mask (MS-DTYP 2.4.3) that a user has at a path. It takes no memory.
pub fn maximal(rules: &Rules, user: &str, path: &str) -> u32
    ensures { result ≡ maximal rules.now user.now path.now }
{
    let reads = without(is_denied(rules, user, path, 1), 0x21, 0x001f_01ff);
    let writes = without(is_denied(rules, user, path, 2), 0x106, reads);
    without(is_denied(rules, user, path, 4), 0x1_0040, writes)
}

fn is_denied(rules: &Rules, user: &str, path: &str, right: u8) -> bool
    requires { right < 8 }
    ensures { result ≡ is_some (decided rules.now user.now path.now right) }
{
    decide(rules, user, path, right) != Verdict::Allowed
}

// An access mask without the bits of a mask that it has.
#[tactic(auto, unfolding(crate::specs::Decide::without))]
fn without(denied: bool, mask: u32, access: u32) -> u32
    requires { mask ≤ access }
    ensures { result ≡ without denied mask access }
{
    if denied { access - mask } else { access }
}
