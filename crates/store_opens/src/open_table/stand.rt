//! Opens that a snapshot tells, put back one by one with their slots and ranges, and the guids of those that expired.
ghost use Rattle.std.specs.Prelude.{◌≡◌, ◌<◌, ◌==◌, ◌&&◌, ℕ, List, not, true, false, nat_lt, nat_le, if◌then◌else◌, MatchResult, OnOk, OnErr};
ghost use Rattle.std.specs.Prelude.{nat_eq};
ghost use Rattle.std.specs.HashMap.{get};
ghost use Rattle.spec_exchange.specs.State.{Server};
ghost use Rattle.spec_exchange.specs.Table.{has};
ghost use Rattle.spec_exchange.specs.Opens.{id_of};
ghost use Rattle.spec_exchange.specs.Step.{add_expired_guid};
ghost use Rattle.law_server.specs.tables.Fits.{Fits};
ghost use Rattle.store_opens.specs.open_table.Shown.{ShowsOpens, HasOpensRoom};
ghost use Rattle.store_opens.specs.open_table.Rows.{IsRestoredRow};
ghost use Rattle.store_opens.specs.open_table.Stood.{has_free_id, has_free_name, may_stand_again, stood, with_range, with_pushed};
ghost use Rattle.store_opens.specs.open_table.Stood.{may_expire_once};
ghost use Rattle.store_opens.specs.declared.open_table.row.OpenParts.{OpenParts};

use crate::open_index::FileOpens;
use crate::open_table::row::{OpenParts, Row};
use crate::open_table::table::Opens;
use crate::share_modes::Range;
use std::alloc::AllocError;
use std::collections::HashMap;

impl Opens {
    /// How many ids of the epoch were given.
    pub fn set_given(&mut self, given: u32)
        ensures { (s : Server) → ShowsOpens self.old s → ShowsOpens self.new (record s { open_ids_given = given }) }
    {
        self.given = given;
    }

    /// Puts back a persistent open, of this epoch or an earlier one. It has no session, and no deadline before the next
    /// event. It answers false, and the table is as before, where the id wasn't given or is an open's, where it has no guid
    /// or that of an open, and where it isn't persistent. Where memory runs out the table is as before too.
    pub fn stand(&mut self, id: u64, made: &OpenParts, user: &str) -> Result<bool, AllocError>
        ensures { MatchResult result
            (λ b. (s : Server) → Fits s → ShowsOpens self.old s → (b ≡ may_stand_again s id made.now)
            × ShowsOpens self.new (if b then stood s id made.now user.now else s))
            (λ _. (s : Server) → ShowsOpens self.old s → ShowsOpens self.new s) }
    {
        if !self.may_stand_again(id, made) {
            return Ok(false);
        }
        match self.ready_to_restore(id, made, user) {
            Ok(row) => {
                self.put_stood(id, row);
                return Ok(true);
            }
            Err(_) => return Err(AllocError),
        }
    }

    fn may_stand_again(&self, id: u64, made: &OpenParts) -> bool
        ensures { (s : Server) → ShowsOpens self.now s → result ≡ may_stand_again s id made.now }
    {
        if !self.has_free_id(id) {
            return false;
        }
        if !made.persistent {
            return false;
        }
        self.has_free_name(made.client, made.guid)
    }

    // The id was given, and is no open's.
    fn has_free_id(&self, id: u64) -> bool
        ensures { (s : Server) → ShowsOpens self.now s → result ≡ has_free_id s id }
    {
        if id == 0 {
            return false;
        }
        let epoch = self.epoch;
        let given = self.given;
        let last = u64::from(epoch) * 0x1_0000_0000 + u64::from(given);
        if id > last {
            return false;
        }
        !self.stands(id)
    }

    // There is a guid, and no open of the client has it.
    fn has_free_name(&self, client: u128, guid: Option<u128>) -> bool
        ensures { (s : Server) → ShowsOpens self.now s → result ≡ has_free_name s client guid }
    {
        match guid {
            Some(guid) => return self.by_guid(client, guid).is_none(),
            None => return false,
        }
    }

    // The row stands at an id that was given before.
    fn put_stood(&mut self, id: u64, row: Row)
        requires { HasOpensRoom self.old }
        ensures { (s : Server) (p : OpenParts) (user : List ℕ) → Fits s → ShowsOpens self.old s → s.standing id ≡ false
            → has id self.old.undated.items ≡ true → IsRestoredRow row p user → ShowsOpens self.new (stood s id p user) }
    {
        self.place(id, row);
    }

    /// An open that stands locks one more range of its file, behind those that are locked. It answers false, and the table
    /// is as before, where the range's owner doesn't stand. Where memory runs out the table is as before too.
    pub fn push_range(&mut self, range: Range) -> Result<bool, AllocError>
        ensures { MatchResult result
            (λ b. (s : Server) → Fits s → ShowsOpens self.old s → (b ≡ s.standing range.owner)
            × ShowsOpens self.new (if b then with_range s range else s))
            (λ _. (s : Server) → ShowsOpens self.old s → ShowsOpens self.new s) }
    {
        if !self.stands(range.owner) {
            return Ok(false);
        }
        let file = self.file_of(range.owner);
        match push_held(&mut self.files, file, range) {
            Ok(()) => return Ok(true),
            Err(_) => return Err(AllocError),
        }
    }

    // None of these guids expired before, and there is a number for one more.
    fn may_expire_once(&self, client: u128, guid: u128) -> bool
        ensures { (s : Server) → ShowsOpens self.now s → result ≡ may_expire_once s client guid }
    {
        if self.is_expired(client, guid) {
            return false;
        }
        self.expired_count() < u32::MAX
    }

    /// Puts back the guids of an open that expired. It answers false, and the table is as before, where an open of them
    /// expired already, or where 2^32 - 1 have. Where memory runs out the table is as before too.
    pub fn restore_guid(&mut self, client: u128, guid: u128) -> Result<bool, AllocError>
        ensures { MatchResult result
            (λ b. (s : Server) → ShowsOpens self.old s → (b ≡ may_expire_once s client guid)
            × ShowsOpens self.new (if b then add_expired_guid s client (Some guid) else s))
            (λ _. (s : Server) → ShowsOpens self.old s → ShowsOpens self.new s) }
    {
        if !self.may_expire_once(client, guid) {
            return Ok(false);
        }
        match self.reserve_expired() {
            Ok(()) => {
                self.put_expired(client, guid);
                return Ok(true);
            }
            Err(_) => return Err(AllocError),
        }
    }
}

// A file that has an open has one more range, behind its others.
fn push_held(files: &mut HashMap<u64, FileOpens>, file: u64, range: Range) -> Result<(), AllocError>
    ensures ok { OnOk result ((q : ℕ) → get nat_eq files.new q ≡ (if q == file then with_pushed range (get nat_eq files.old q)
        else get nat_eq files.old q)) }
    ensures err { OnErr result ((q : ℕ) → get nat_eq files.new q ≡ get nat_eq files.old q) }
{
    match files.get_mut(&file) {
        Some(row) => row.ranges.push(range),
        None => Ok(()),
    }
}
