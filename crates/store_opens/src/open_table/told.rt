//! What a snapshot tells of the table: the persistent opens, and the guids of those that expired.
ghost use Rattle.std.specs.Prelude.{◌≡◌, ◌==◌, ◌||◌, ◌++◌, ◌∷◌, [], ℕ, Bool, true, false, if◌then◌else◌, is_some, IfOk, IfSome, OnOk, OnErr, nat_eq};
ghost use Rattle.std.specs.Prelude.{Some};
ghost use Rattle.std.specs.List.{All};
ghost use Rattle.std.specs.HashMap.{get};
ghost use Rattle.std.specs.BTreeSet.{contains, IsOrdered};
ghost use Rattle.std.specs.Ordering.{nat_cmp};
ghost use Rattle.spec_exchange.specs.State.{Server};
ghost use Rattle.spec_exchange.specs.Fold.{persistent_in};
ghost use Rattle.law_server.specs.tables.Fits.{Fits};
ghost use Rattle.store_opens.specs.open_table.Shown.{ShowsOpens};
ghost use Rattle.store_opens.specs.open_table.Stood.{AreExpired, counts_each_once, keeps_in};

use crate::open_table::end::push_if;
use crate::open_table::row::Row;
use crate::open_table::table::Opens;
use std::alloc::{AllocError, Global};
use std::collections::{BTreeSet, HashMap};

impl Opens {
    /// The epoch in which ids are given.
    pub fn epoch(&self) -> u32
        ensures { (s : Server) → ShowsOpens self.now s → result ≡ s.epoch }
    {
        self.epoch
    }

    /// How many ids were given in it.
    pub fn given(&self) -> u32
        ensures { (s : Server) → ShowsOpens self.now s → result ≡ s.open_ids_given }
    {
        self.given
    }

    /// The ids of the persistent opens, in ascending order.
    pub fn ids(&self) -> Result<Vec<u64>, AllocError>
        ensures { IfOk result (λ v. (s : Server) → Fits s → ShowsOpens self.now s → v.items ≡ persistent_in s.opened s.opens) }
    {
        match persistent_ids(&self.rows, self.alloc) {
            Ok(kept) => match listed(&kept, self.alloc) {
                Ok(ids) => return Ok(ids),
                Err(_) => return Err(AllocError),
            },
            Err(_) => return Err(AllocError),
        }
    }

    /// The guids of the opens that expired, each pair once. None where one expired twice, which no server lets happen.
    pub fn guids(&self) -> Result<Option<Vec<(u128, u128)>>, AllocError>
        ensures told { IfOk result (λ o. IfSome o (λ v. (s : Server) → ShowsOpens self.now s → AreExpired v.items s)) }
        ensures none { IfOk result (λ o. is_some o ≡ counts_each_once self.now) }
    {
        if self.expired.len() as u64 != u64::from(self.expired_count) {
            return Ok(None);
        }
        let mut guids = Vec::new(self.alloc);
        for pair in &self.expired {
            push_pair(&mut guids, *pair)?;
        }
        Ok(Some(guids))
    }
}

// The ids of rows that are persistent.
fn persistent_ids(rows: &HashMap<u64, Row>, alloc: Global) -> Result<BTreeSet<u64>, AllocError>
    ensures kept { IfOk result (λ t. (q : ℕ) → contains nat_cmp t q ≡ keeps_in rows.now.entries q) }
    ensures found { All (λ e. get nat_eq rows.now e.0 ≡ Some e.1) rows.now.entries }
{
    let mut kept = BTreeSet::new(alloc);
    for (id, row) in rows.iter() {
        keep_if(&mut kept, *id, row.persistent)?;
    }
    Ok(kept)
}

// The id is one of them, where it is to be.
fn keep_if(kept: &mut BTreeSet<u64>, id: u64, is_one: bool) -> Result<(), AllocError>
    ensures { OnOk result ((q : ℕ) → contains nat_cmp kept.new q ≡ (if id == q then (is_one || contains nat_cmp kept.old q)
        else contains nat_cmp kept.old q)) }
{
    if !is_one {
        return Ok(());
    }
    match kept.insert(id) {
        Ok(_) => return Ok(()),
        Err(_) => return Err(AllocError),
    }
}

// A set as a list.
fn listed(kept: &BTreeSet<u64>, alloc: Global) -> Result<Vec<u64>, AllocError>
    ensures items { IfOk result (λ v. v.items ≡ kept.now.keys) }
    ensures ordered { IsOrdered nat_cmp kept.now }
{
    let mut ids = Vec::new(alloc);
    for id in kept {
        push_if(&mut ids, *id, true)?;
    }
    Ok(ids)
}

fn push_pair(guids: &mut Vec<(u128, u128)>, pair: (u128, u128)) -> Result<(), AllocError>
    ensures { OnOk result (guids.new.items ≡ guids.old.items ++ pair ∷ []) }
{
    match guids.push(pair) {
        Ok(()) => return Ok(()),
        Err(_) => return Err(AllocError),
    }
}
