ghost use Rattle.std.specs.Prelude.{◌≡◌, ◌+◌, ◌<◌, ◌^◌, [], ◌∷◌, List, length, ℕ, not, nat_lt, ◌&&◌, ◌||◌, ◌==◌, if◌then◌else◌};
ghost use Rattle.store_opens.specs.share_modes.Sharing.{admit_all, CountsShown};
ghost use Rattle.store_opens.specs.declared.share_modes.lists.Open.{Open};

use crate::share_modes::lists::Open;
use crate::share_modes::sharing::{deletes, has_bit, reads, writes};

/// How many opens of a file read, write and delete, and how many deny others each. They say without a list whether a
/// new open may stand beside them.
#[derive(Clone, Copy, Debug, PartialEq, Eq)]
pub struct ShareCounts {
    readers: u64,
    writers: u64,
    deleters: u64,
    deny_read: u64,
    deny_write: u64,
    deny_delete: u64,
}

impl ShareCounts {
    /// Of no opens.
    pub fn new() -> ShareCounts
        ensures { CountsShown result [] }
    {
        ShareCounts {
            readers: 0,
            writers: 0,
            deleters: 0,
            deny_read: 0,
            deny_write: 0,
            deny_delete: 0,
        }
    }

    /// Counts one more one.
    pub fn add(&mut self, one: Open)
        ensures { (os : List Open) → length os + 1 < 2 ^ 64 → CountsShown self.old os → CountsShown self.new (one ∷ os) }
    {
        self.readers = up(self.readers, reads(one.access));
        self.writers = up(self.writers, writes(one.access));
        self.deleters = up(self.deleters, deletes(one.access));
        self.deny_read = up(self.deny_read, !has_bit(one.share, 0x1));
        self.deny_write = up(self.deny_write, !has_bit(one.share, 0x2));
        self.deny_delete = up(self.deny_delete, !has_bit(one.share, 0x4));
    }

    /// Counts one of the opens no more.
    pub fn remove(&mut self, one: Open)
        ensures { (os : List Open) → CountsShown self.old (one ∷ os) → CountsShown self.new os }
    {
        self.readers = down(self.readers, reads(one.access));
        self.writers = down(self.writers, writes(one.access));
        self.deleters = down(self.deleters, deletes(one.access));
        self.deny_read = down(self.deny_read, !has_bit(one.share, 0x1));
        self.deny_write = down(self.deny_write, !has_bit(one.share, 0x2));
        self.deny_delete = down(self.deny_delete, !has_bit(one.share, 0x4));
    }

    /// Whether an open with this mapped access and share access may stand beside all of them.
    pub fn admits(&self, access: u32, share: u32) -> bool
        ensures { (os : List Open) → CountsShown self.now os → result ≡ admit_all os access share }
    {
        let is_open = is_open_to(reads(access), self.deny_read)
            & is_open_to(writes(access), self.deny_write)
            & is_open_to(deletes(access), self.deny_delete);
        let shares = has_room_for(has_bit(share, 0x1), self.readers)
            & has_room_for(has_bit(share, 0x2), self.writers)
            & has_room_for(has_bit(share, 0x4), self.deleters);
        is_open & shares
    }
}

// Nobody denies what the new open does.
fn is_open_to(does: bool, deniers: u64) -> bool
    ensures { result ≡ not (does && nat_lt 0 deniers) }
{
    !(does && deniers > 0)
}

// The new open shares what others do.
fn has_room_for(shared: bool, users: u64) -> bool
    ensures { result ≡ (shared || (users == 0)) }
{
    shared || users == 0
}

fn up(count: u64, counts: bool) -> u64
    ensures { count + 1 < 2 ^ 64 → result ≡ (if counts then 1 else 0) + count }
{
    if counts {
        count.saturating_add(1)
    } else {
        count
    }
}

fn down(count: u64, counts: bool) -> u64
    ensures { (n : ℕ) → (if counts then 1 else 0) + n ≡ count → result ≡ n }
{
    if counts {
        count.saturating_sub(1)
    } else {
        count
    }
}
