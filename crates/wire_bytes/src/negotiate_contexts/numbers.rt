use crate::byte_lists::u16_at;
use std::alloc::{AllocError, Global};
use std::marker::Model;

/// Numbers of 16 bits. A contract sees the list of them.
#[derive(Drop, Debug)]
pub struct Numbers {
    items: Vec<u16>,
}

impl Model for Numbers {
    ghost use Rattle.std.specs.Prelude.{List, ℕ};

    ghost Value = { List ℕ };

    ghost view = { λ n. n.items.items };
}

impl Numbers {
    ghost use Rattle.std.specs.Prelude.{◌≡◌, ◌+◌, ◌*◌, ◌≤◌, ◌==◌, [], ◌∷◌, ◌++◌, length, IfOk, OnOk, OnErr};
    ghost use Rattle.spec_wire.specs.messages.Offer.{ids_at, has_id};

    /// No numbers. It takes no memory.
    pub fn new(alloc: Global) -> Numbers
        ensures { result ≡ [] }
    {
        Numbers {
            items: Vec::new(alloc),
        }
    }

    /// A copy of a slice.
    pub fn from_slice(alloc: Global, items: &[u16]) -> Result<Numbers, AllocError>
        ensures { IfOk result (λ n. n ≡ items.now) }
    {
        let items = Vec::from_slice(alloc, items)?;
        Ok(Numbers { items })
    }

    pub fn as_slice(&self) -> &[u16]
        ensures { result.now ≡ self.now }
    {
        self.items.as_slice()
    }

    pub fn is_empty(&self) -> bool
        ensures { result ≡ (length self.now == 0) }
    {
        self.items.is_empty()
    }

    /// Adds a number at the end. Where memory runs out nothing changes.
    pub fn push(&mut self, number: u16) -> Result<(), AllocError>
        ensures ok { OnOk result (self.new ≡ self.old ++ number ∷ []) }
        ensures err { OnErr result (self.new ≡ self.old) }
    {
        self.items.push(number)?;
        Ok(())
    }
}

ghost use Rattle.std.specs.Prelude.{◌≡◌, ◌+◌, ◌*◌, ◌≤◌, length, IfOk};
ghost use Rattle.spec_wire.specs.messages.Offer.{ids_at, has_id};

/// Whether a number is among them.
#[tactic(auto, unfolding(spec_wire::specs::messages::Offer::has_id))]
pub(crate) fn has_number(numbers: &[u16], id: u16) -> bool
    ensures { result ≡ has_id id numbers.now }
{
    for number in numbers {
        if *number == id {
            return true;
        }
    }
    false
}

/// The `count` numbers from a place of `bytes` on.
#[tactic(auto, unfolding(spec_wire::specs::messages::Offer::ids_at))]
pub(crate) fn numbers_at(
    alloc: Global,
    bytes: &[u8],
    from: usize,
    count: u16,
) -> Result<Numbers, AllocError>
    requires { from + 2 * count ≤ length bytes.now }
    ensures { IfOk result (λ n. n ≡ ids_at bytes.now from count) }
{
    let mut numbers = Numbers::new(alloc);
    let mut at = from;
    let mut left = count;
    while left > 0 {
        numbers.push(u16_at(bytes, at))?;
        at += 2;
        left -= 1;
    }
    Ok(numbers)
}
