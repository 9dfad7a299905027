ghost use Rattle.std.specs.Prelude.{◌≡◌, ◌<◌, Option, Some, None, MatchResult};
ghost use Rattle.spec_exchange.specs.Commands.{has_bit};
ghost use Rattle.spec_exchange.specs.Opens.{is_shared, reads, writes, deletes};
ghost use Rattle.store_opens.specs.share_modes.Sharing.{conflicts, least_conflict, least_of};

use crate::share_modes::lists::{Open, OpenList};

/// The open of the least id that keeps another out.
#[derive(Clone, Copy, Debug, PartialEq, Eq)]
pub struct Violation {
    pub with: u64,
}

// The number has this bit.
#[tactic(auto, unfolding(spec_exchange::specs::Commands::has_bit))]
pub fn has_bit(number: u32, bit: u32) -> bool
    requires { 0 < bit }
    ensures { result ≡ has_bit number bit }
{
    number / bit % 2 == 1
}

// The access reads, by bits 1 and 0x20; so the others below.
#[tactic(auto, unfolding(spec_exchange::specs::Opens::reads))]
pub fn reads(access: u32) -> bool
    ensures { result ≡ reads access }
{
    has_bit(access, 0x1) || has_bit(access, 0x20)
}

#[tactic(auto, unfolding(spec_exchange::specs::Opens::writes))]
pub fn writes(access: u32) -> bool
    ensures { result ≡ writes access }
{
    has_bit(access, 0x2) || has_bit(access, 0x4)
}

#[tactic(auto, unfolding(spec_exchange::specs::Opens::deletes))]
pub fn deletes(access: u32) -> bool
    ensures { result ≡ deletes access }
{
    has_bit(access, 0x1_0000)
}

// Each way of access is among those shared.
#[tactic(auto, unfolding(spec_exchange::specs::Opens::is_shared))]
fn is_shared(access: u32, share: u32) -> bool
    ensures { result ≡ is_shared access share }
{
    (!reads(access) || has_bit(share, 0x1))
        && (!writes(access) || has_bit(share, 0x2))
        && (!deletes(access) || has_bit(share, 0x4))
}

fn conflicts(open: &Open, access: u32, share: u32) -> bool
    ensures { result ≡ conflicts open.now access share }
{
    let theirs = open.share;
    let held = open.access;
    !(is_shared(access, theirs) && is_shared(held, share))
}

/// Whether an open with this mapped access and share access may stand beside others of its file. Where not, the least
/// id of those that conflict. It takes no memory.
pub fn admits(opens: &OpenList, access: u32, share: u32) -> Result<(), Violation>
    ensures { MatchResult result (λ _. least_conflict opens.now access share ≡ None)
        (λ v. least_conflict opens.now access share ≡ Some v.with) }
{
    match least_conflict(opens.as_slice(), access, share) {
        None => Ok(()),
        Some(with) => Err(Violation { with }),
    }
}

fn least_conflict(opens: &[Open], access: u32, share: u32) -> Option<u64>
    ensures { result ≡ least_conflict opens.now access share }
{
    let mut least = None;
    for open in opens {
        if conflicts(open, access, share) {
            least = Some(least_of(open.id, least));
        }
    }
    least
}

fn least_of(id: u64, least: Option<u64>) -> u64
    ensures { result ≡ least_of id least }
{
    match least {
        Some(other) => id.min(other),
        None => id,
    }
}
