//! What is kept for a session: how many CreateGuids, what became of each, and its opens.
ghost use Rattle.std.specs.Prelude.{◌≡◌, ◌+◌, ◌<◌, ◌==◌, ℕ, true, false, None, Some, Bool, Option, OnOk, is_some, if◌then◌else◌, nat_eq};
ghost use Rattle.std.specs.HashMap.{get, spare};
ghost use Rattle.std.specs.BTreeSet.{contains};
ghost use Rattle.std.specs.Ordering.{nat_cmp};
ghost use Rattle.spec_exchange.specs.Table.{put};
ghost use Rattle.store_opens.specs.open_index.Keep.{SessionIs};

use std::alloc::{AllocError, Global};
use std::collections::{BTreeSet, HashMap};

/// What a session keeps of a CreateGuid: an open of it was closed, or its create was refused with this status.
#[derive(Clone, Copy, Debug, PartialEq, Eq)]
pub enum KeptCreate {
    Closed,
    Refused(u32),
}

/// What became of a CreateGuid in a session. The place of one that stands is where its close is kept.
#[derive(Clone, Copy, Debug, PartialEq, Eq)]
pub enum KeptResult {
    Standing,
    Closed,
    Refused(u32),
}

/// What is kept for one session.
#[derive(Drop)]
pub struct SessionOpens {
    /// How many CreateGuids it used; the count stands still at its end.
    pub guids: u64,
    pub results: HashMap<u128, KeptResult>,
    // A set has no reserve, so an id is listed before it is sure that its open stands. Too many do no harm: the rows
    // are asked at use.
    /// Each open that is attached to it, and perhaps some that are not.
    pub opens: BTreeSet<u64>,
    /// Each plain one of these, and perhaps some that are not.
    pub plain: BTreeSet<u64>,
}

impl SessionOpens {
    pub fn new(alloc: Global) -> SessionOpens
        ensures kept { SessionIs result (λ g. false) (λ g. None) 0 }
    {
        SessionOpens {
            guids: 0,
            results: HashMap::new(alloc),
            opens: BTreeSet::new(alloc),
            plain: BTreeSet::new(alloc),
        }
    }

    /// Makes room for what becomes of one more CreateGuid.
    pub fn reserve_result(&mut self) -> Result<(), AllocError>
        ensures kept { (closed : ℕ → Bool) (refused : ℕ → Option ℕ) (guids : ℕ)
            → SessionIs self.old closed refused guids → SessionIs self.new closed refused guids }
        ensures named { (g : ℕ) → get nat_eq self.new.results g ≡ get nat_eq self.old.results g }
        ensures opens { self.new.opens ≡ self.old.opens }
        ensures plain { self.new.plain ≡ self.old.plain }
        ensures room { OnOk result (0 < spare self.new.results) }
    {
        self.results.reserve(1)
    }

    /// Lists an open, a plain one among those too. Where there is no memory it may be listed all the same.
    pub fn list(&mut self, id: u64, is_plain: bool) -> Result<(), AllocError>
        ensures results { self.new.results ≡ self.old.results }
        ensures guids { self.new.guids ≡ self.old.guids }
        ensures listed { OnOk result (contains nat_cmp self.new.opens id ≡ true) }
        ensures as_plain { OnOk result (is_plain ≡ true → contains nat_cmp self.new.plain id ≡ true) }
        ensures others { (o : ℕ) → contains nat_cmp self.old.opens o ≡ true → contains nat_cmp self.new.opens o ≡ true }
        ensures plain { (o : ℕ) → contains nat_cmp self.old.plain o ≡ true → contains nat_cmp self.new.plain o ≡ true }
    {
        if is_plain {
            list_open(&mut self.plain, id)?;
        }
        list_open(&mut self.opens, id)
    }

    /// Lists an open no more. It takes no memory.
    pub fn unlist(&mut self, id: u64)
        ensures results { self.new.results ≡ self.old.results }
        ensures guids { self.new.guids ≡ self.old.guids }
        ensures gone { (contains nat_cmp self.new.opens id ≡ false) × (contains nat_cmp self.new.plain id ≡ false) }
        ensures others { (o : ℕ) → (o == id) ≡ false → contains nat_cmp self.new.opens o ≡ contains nat_cmp self.old.opens o }
        ensures plain { (o : ℕ) → (o == id) ≡ false → contains nat_cmp self.new.plain o ≡ contains nat_cmp self.old.plain o }
    {
        unlist_open(&mut self.opens, id);
        unlist_open(&mut self.plain, id);
    }

    /// Counts one more CreateGuid.
    pub fn count(&mut self)
        ensures kept { (closed : ℕ → Bool) (refused : ℕ → Option ℕ) (guids : ℕ)
            → SessionIs self.old closed refused guids → SessionIs self.new closed refused (guids + 1) }
        ensures results { self.new.results ≡ self.old.results }
        ensures opens { self.new.opens ≡ self.old.opens }
        ensures plain { self.new.plain ≡ self.old.plain }
    {
        self.guids = self.guids.saturating_add(1);
    }

    /// Gives the close of a CreateGuid its place.
    pub fn stand(&mut self, guid: u128)
        requires { 0 < spare self.old.results }
        ensures kept { (closed : ℕ → Bool) (refused : ℕ → Option ℕ) (guids : ℕ)
            → SessionIs self.old closed refused guids → SessionIs self.new closed refused guids }
        ensures named { is_some (get nat_eq self.new.results guid) ≡ true }
        ensures others { (g : ℕ) → is_some (get nat_eq self.old.results g) ≡ true → is_some (get nat_eq self.new.results g) ≡ true }
        ensures opens { self.new.opens ≡ self.old.opens }
        ensures plain { self.new.plain ≡ self.old.plain }
    {
        if !self.results.contains_key(&guid) {
            put_result(&mut self.results, guid, KeptResult::Standing);
        }
    }

    /// Keeps that an open of this CreateGuid, which has its place, was closed.
    pub fn close(&mut self, guid: u128)
        ensures kept { (closed : ℕ → Bool) (refused : ℕ → Option ℕ) (guids : ℕ) → is_some (get nat_eq self.old.results guid) ≡ true
            → SessionIs self.old closed refused guids → SessionIs self.new (put closed guid true) refused guids }
        ensures named { (g : ℕ) → is_some (get nat_eq self.new.results g) ≡ is_some (get nat_eq self.old.results g) }
        ensures opens { self.new.opens ≡ self.old.opens }
        ensures plain { self.new.plain ≡ self.old.plain }
    {
        if let Some(result) = self.results.get_mut(&guid) {
            *result = KeptResult::Closed;
        }
    }

    /// Keeps that the create of a CreateGuid was refused with this status.
    pub fn refuse(&mut self, guid: u128, status: u32)
        requires { 0 < spare self.old.results }
        ensures kept { (closed : ℕ → Bool) (refused : ℕ → Option ℕ) (guids : ℕ) → closed guid ≡ false
            → SessionIs self.old closed refused guids
            → SessionIs self.new closed (put refused guid (Some status)) guids }
        ensures others { (g : ℕ) → is_some (get nat_eq self.old.results g) ≡ true → is_some (get nat_eq self.new.results g) ≡ true }
        ensures opens { self.new.opens ≡ self.old.opens }
        ensures plain { self.new.plain ≡ self.old.plain }
    {
        put_result(&mut self.results, guid, KeptResult::Refused(status));
    }
}

// The result stands at a key.
fn put_result(results: &mut HashMap<u128, KeptResult>, guid: u128, result_kept: KeptResult)
    requires { 0 < spare results.old }
    ensures { (q : ℕ) → get nat_eq results.new q ≡ (if q == guid then Some result_kept else get nat_eq results.old q) }
{
    let _ = results.insert(guid, result_kept);
}

// The open isn't among those.
fn unlist_open(opens: &mut BTreeSet<u64>, id: u64)
    ensures gone { contains nat_cmp opens.new id ≡ false }
    ensures others { (o : ℕ) → (o == id) ≡ false → contains nat_cmp opens.new o ≡ contains nat_cmp opens.old o }
{
    let _ = opens.remove(&id);
}

// The open is among those.
fn list_open(opens: &mut BTreeSet<u64>, id: u64) -> Result<(), AllocError>
    ensures listed { OnOk result (contains nat_cmp opens.new id ≡ true) }
    ensures others { (o : ℕ) → contains nat_cmp opens.old o ≡ true → contains nat_cmp opens.new o ≡ true }
{
    match opens.insert(id) {
        Ok(_) => return Ok(()),
        Err(_) => return Err(AllocError),
    }
}
