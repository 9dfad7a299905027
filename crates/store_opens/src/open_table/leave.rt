//! Opens that leave.
ghost use Rattle.std.specs.Prelude.{◌≡◌, ℕ, true, false, None, Some, OnOk, IfSome, IfNone};
ghost use Rattle.std.specs.Prelude.{MatchResult, nat_eq};
ghost use Rattle.spec_exchange.specs.State.{Server};
ghost use Rattle.std.specs.HashMap.{get};
ghost use Rattle.spec_exchange.specs.Opens.{drop_open};
ghost use Rattle.store_opens.specs.open_index.Held.{sharing_of};
ghost use Rattle.store_opens.specs.open_index.Index.{indexes};
ghost use Rattle.law_server.specs.tables.Fits.{Fits};
ghost use Rattle.store_opens.specs.open_table.Shown.{ShowsOpens, HasOpensRoom, HasExpiredRoom};
ghost use Rattle.store_opens.specs.open_table.Changes.{open_closed};
ghost use Rattle.store_opens.specs.open_table.Left.{Left, IsUndatedIn, IsUnlisted};
ghost use Rattle.store_opens.specs.open_index.Keep.{ClosesGuid, IsNotListed};
ghost use Rattle.store_opens.specs.open_table.Taken.{IsTaken, TakenFor, IsUndated};

use crate::open_index::{close_guid, uncount_open, unlist_in};
use crate::open_table::due::deadline_at;
use crate::open_table::row::Row;
use crate::open_table::rows::{forget_name, sharing_of};
use crate::open_table::table::Opens;
use crate::share_modes::Range;
use std::alloc::AllocError;

/// An open that was taken out, with the ranges of its file as they were.
#[derive(Drop)]
pub struct Taken {
    pub id: u64,
    pub row: Row,
    pub ranges: Vec<Range>,
}

impl Opens {
    /// Closes an open: it leaves with its ranges, and its session keeps its CreateGuid as closed. Tells whether it stood. It
    /// takes no memory.
    pub fn close(&mut self, id: u64) -> bool
        ensures told { (s : Server) → ShowsOpens self.old s → result ≡ s.standing id }
        ensures shows { (s : Server) → Fits s → ShowsOpens self.old s → s.standing id ≡ true → ShowsOpens self.new (open_closed s id) }
        ensures same { (s : Server) → ShowsOpens self.old s → s.standing id ≡ false → ShowsOpens self.new s }
        ensures gone { IfSome (get nat_eq self.old.rows id) (λ row. IsUnlisted self.new row id) }
    {
        match self.take_out(id) {
            Some(row) => {
                self.shut(row.session, row.guid);
                self.unlist(row.session, id);
                true
            }
            None => false,
        }
    }

    /// An open leaves, with its ranges. It takes no memory.
    pub fn leave(&mut self, id: u64)
        ensures shows { (s : Server) → Fits s → ShowsOpens self.old s → s.standing id ≡ true → ShowsOpens self.new (drop_open s id) }
        ensures gone { IfSome (get nat_eq self.old.rows id) (λ row. IsUnlisted self.new row id) }
    {
        if let Some(row) = self.take_out(id) {
            self.unlist(row.session, id);
        }
    }

    // The open leaves; its session's row lists it on.
    fn take_out(&mut self, id: u64) -> Option<Row>
        ensures row { result ≡ get nat_eq self.old.rows id }
        ensures left { IfSome result (λ r. Left self.old self.new id r) }
        ensures sessions { self.new.sessions ≡ self.old.sessions }
        ensures gone { IfSome result (λ row. IsUndatedIn self.new row id) }
        ensures same { IfNone result ((s : Server) → ShowsOpens self.old s → ShowsOpens self.new s) }
    {
        let deadline = deadline_at(&self.rows, id);
        self.deadlines.forget(deadline, id);
        self.take_row(id)
    }

    // The session, where there is one, keeps the CreateGuid, where there is one, as closed.
    fn shut(&mut self, session: Option<u64>, guid: Option<u128>)
        ensures closes { ClosesGuid (λ q. get nat_eq self.old.sessions q) (λ q. get nat_eq self.new.sessions q) session guid }
        ensures rest { self.new ≡ record self.old { sessions = self.new.sessions } }
    {
        close_guid(&mut self.sessions, session, guid);
    }

    // The row of the session that an open had lists it no more.
    fn unlist(&mut self, session: Option<u64>, id: u64)
        ensures shows { (s : Server) → s.session_of_open id ≡ None → ShowsOpens self.old s → ShowsOpens self.new s }
        ensures gone { IfSome session (λ x. IsNotListed (get nat_eq self.new.sessions x) id) }
        ensures rest { self.new ≡ record self.old { sessions = self.new.sessions } }
    {
        unlist_in(&mut self.sessions, session, id);
    }

    // The row leaves, with what names it and what it holds of its file.
    fn take_row(&mut self, id: u64) -> Option<Row>
        ensures row { result ≡ get nat_eq self.old.rows id }
        ensures left { IfSome result (λ r. Left self.old self.new id r) }
        ensures same { IfNone result ((s : Server) → ShowsOpens self.old s → ShowsOpens self.new s) }
        ensures room { HasOpensRoom self.old → HasOpensRoom self.new }
        ensures rest { self.new ≡ record self.old { rows = self.new.rows; guids = self.new.guids; files = self.new.files } }
    {
        match self.rows.remove(&id) {
            Some(row) => {
                let one = sharing_of(id, &row);
                forget_name(&mut self.guids, row.client, row.guid);
                uncount_open(&mut self.files, row.file, one);
                Some(row)
            }
            None => None,
        }
    }

    /// Takes an open out, to be put back by `put_back` or given up by `give_up`. Where memory runs out nothing changes.
    pub fn take(&mut self, id: u64) -> Result<Option<Taken>, AllocError>
        ensures taken { (s : Server) → Fits s → ShowsOpens self.old s → s.standing id ≡ true
            → MatchResult result (λ t. TakenFor t s id × ShowsOpens self.new (drop_open s id)) (λ _. ShowsOpens self.new s) }
        ensures room { OnOk result (HasOpensRoom self.new) }
        ensures undated { self.new.undated ≡ self.old.undated }
        ensures expired { HasExpiredRoom self.old → HasExpiredRoom self.new }
    {
        let held = self.ranges(self.file_of(id));
        let ranges = Vec::from_slice(self.alloc, held)?;
        self.reserve_row()?;
        match self.take_row(id) {
            Some(row) => Ok(Some(Taken { id, row, ranges })),
            None => Ok(None),
        }
    }

    /// Puts back an open that `take` took. It needs no memory.
    pub fn put_back(&mut self, taken: Taken)
        requires { HasOpensRoom self.old }
        ensures { (s : Server) → Fits s → ShowsOpens self.old (drop_open s taken.id) → s.standing taken.id ≡ true
            → s.session_of_open taken.id ≡ None
            → IsUndated self.old s taken.id → IsTaken taken s taken.id → ShowsOpens self.new s }
    {
        let Taken { id, row, ranges } = taken;
        let file = row.file;
        let deadline = row.deadline;
        self.place(id, row);
        self.index_again(deadline, id);
        // Last: the file's row went with its last open, and `place` makes it again.
        self.put_ranges(file, ranges);
    }

    // The deadline of an open that came back is in the index.
    fn index_again(&mut self, deadline: Option<u64>, id: u64)
        ensures whole { self.new.deadlines.is_whole ≡ true → self.old.deadlines.is_whole ≡ true }
        ensures kept { (o d : ℕ) → indexes self.old.deadlines d o ≡ true → indexes self.new.deadlines d o ≡ true }
        ensures here { self.new.deadlines.is_whole ≡ true → (d : ℕ) → deadline ≡ Some d → indexes self.new.deadlines d id ≡ true }
        ensures rest { self.new ≡ record self.old { deadlines = self.new.deadlines } }
    {
        if let Some(deadline) = deadline {
            self.deadlines.add(deadline, id);
        }
    }
}
