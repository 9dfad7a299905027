//! CreateGuids of opens that expired.
ghost use Rattle.std.specs.Prelude.{◌≡◌, ◌<◌, ℕ, true, false, None, Some, OnOk, nat_lt, if◌then◌else◌};
ghost use Rattle.spec_exchange.specs.State.{Server};
ghost use Rattle.spec_exchange.specs.Step.{add_expired_guid, max_expired_guids};
ghost use Rattle.std.specs.HashSet.{contains, spare};
ghost use Rattle.spec_exchange.specs.Table.{put2};
ghost use Rattle.store_opens.specs.open_table.Shown.{pair_eq, ShowsOpens, HasExpiredRoom};
ghost use Rattle.store_opens.specs.open_table.Changes.{is_expired_in};
ghost use Rattle.store_opens.specs.open_table.Left.{IsUndatedIn};
ghost use Rattle.store_opens.specs.open_index.Index.{indexes};

use crate::open_table::leave::Taken;
use crate::open_table::table::Opens;
use std::alloc::AllocError;
use std::collections::HashSet;

// The guids are among those.
fn put_guid(expired: &mut HashSet<(u128, u128)>, client: u128, guid: u128)
    requires { 0 < spare expired.old }
    ensures { (c g : ℕ) → contains pair_eq expired.new (c, g) ≡ put2 (λ d h. contains pair_eq expired.old (d, h)) client guid true c g }
{
    let _ = expired.insert((client, guid));
}

// The guids are not among those, unless they were before.
fn forget_new(expired: &mut HashSet<(u128, u128)>, client: u128, guid: u128, was_kept: bool)
    ensures { (c g : ℕ) → contains pair_eq expired.new (c, g)
        ≡ (if was_kept then contains pair_eq expired.old (c, g) else put2 (λ d h. contains pair_eq expired.old (d, h))
        client guid false c g) }
{
    if was_kept {
        return;
    }
    let _ = expired.remove(&(client, guid));
}

impl Opens {
    /// Makes room for the guid of one more open that expires.
    pub fn reserve_expired(&mut self) -> Result<(), AllocError>
        ensures same { (s : Server) → ShowsOpens self.old s → ShowsOpens self.new s }
        ensures room { OnOk result (HasExpiredRoom self.new) }
        ensures rest { self.new ≡ record self.old { expired = self.new.expired } }
    {
        self.expired.reserve(1)
    }

    /// Keeps the CreateGuid, where there is one, of an open that expired. It takes no memory.
    pub fn expire_guid(&mut self, client: u128, guid: Option<u128>)
        requires { HasExpiredRoom self.old }
        ensures rest { self.new ≡ record self.old { expired = self.new.expired; expired_count = self.new.expired_count } }
        ensures shown { (s : Server) → ShowsOpens self.old s → nat_lt s.expired_count max_expired_guids ≡ true
            → ShowsOpens self.new (add_expired_guid s client guid) }
    {
        if let Some(guid) = guid {
            self.put_expired(client, guid);
        }
    }

    // Keeps a CreateGuid, where the count has a number for it.
    pub(crate) fn put_expired(&mut self, client: u128, guid: u128)
        requires { HasExpiredRoom self.old }
        ensures rest { self.new ≡ record self.old { expired = self.new.expired; expired_count = self.new.expired_count } }
        ensures shown { (s : Server) → ShowsOpens self.old s → s.expired_count < 0xffff_ffff
            → ShowsOpens self.new (add_expired_guid s client (Some guid)) }
    {
        put_guid(&mut self.expired, client, guid);
        self.expired_count = self.expired_count.saturating_add(1);
    }

    /// Takes back what `expire_guid` kept last, where `was_kept` tells whether these guids were among the expired ones before.
    /// It takes no memory.
    pub fn keep_guid_no_more(&mut self, client: u128, guid: Option<u128>, was_kept: bool)
        ensures rest { self.new ≡ record self.old { expired = self.new.expired; expired_count = self.new.expired_count } }
        ensures shown { (s : Server) → ShowsOpens self.old (add_expired_guid s client guid) → was_kept
            ≡ is_expired_in s client guid → ShowsOpens self.new s }
    {
        if let Some(guid) = guid {
            forget_new(&mut self.expired, client, guid, was_kept);
            self.expired_count = self.expired_count.saturating_sub(1);
        }
    }

    /// Gives up an open that was taken out when it was due: its deadline is out of the index. It takes no memory.
    pub fn give_up(&mut self, taken: Taken)
        ensures shows { (s : Server) → ShowsOpens self.old s → s.deadline taken.id ≡ None → ShowsOpens self.new s }
        ensures gone { IsUndatedIn self.new taken.row taken.id }
        ensures rest { self.new ≡ record self.old { deadlines = self.new.deadlines } }
    {
        self.forget_at(taken.row.deadline, taken.id);
    }

    // The index has no deadline of an open that left.
    fn forget_at(&mut self, deadline: Option<u64>, id: u64)
        ensures shows { (s : Server) → ShowsOpens self.old s → s.deadline id ≡ None → ShowsOpens self.new s }
        ensures gone { (d : ℕ) → deadline ≡ Some d → indexes self.new.deadlines d id ≡ false }
        ensures room { HasExpiredRoom self.old → HasExpiredRoom self.new }
        ensures rest { self.new ≡ record self.old { deadlines = self.new.deadlines } }
    {
        self.deadlines.forget(deadline, id);
    }
}
