ghost use Rattle.std.specs.Prelude.{◌≡◌, ◌==◌, ◌||◌, ℕ, Some, OnOk, if◌then◌else◌, nat_eq};
ghost use Rattle.std.specs.HashMap.{get};
ghost use Rattle.std.specs.HashSet as set;
ghost use Rattle.spec_exchange.specs.State.{Server};
ghost use Rattle.law_records.specs.leaving_opens.Since.{all_gone};
ghost use Rattle.law_server.specs.tables.Fits.{Fits};
ghost use Rattle.server_effects.specs.leaving_opens.Left.{HasLeft, IsPut, left_of, went_with};

use std::alloc::{AllocError, Global};
use std::collections::{HashMap, HashSet};

/// What the opens that left before make of a file.
#[derive(Copy, Clone)]
pub struct Left {
    pub(crate) opens: u64,
    pub(crate) pending: bool,
}

/// Opens that leave one behind the other: what they make of their files, and which of these go.
#[derive(Drop)]
pub struct Leaving {
    pub(crate) files: HashMap<u64, Left>,
    pub(crate) gone: HashSet<u64>,
}

impl Leaving {
    /// Before any open leaves. It takes no memory.
    pub fn new(alloc: Global) -> Leaving
        ensures { (s : Server) → Fits s → HasLeft result s s }
    {
        Leaving {
            files: HashMap::new(alloc),
            gone: HashSet::new(alloc),
        }
    }

    pub(crate) fn of(&self, file: u64) -> Left
        ensures { result ≡ left_of (get nat_eq self.now.files file) }
    {
        match self.files.get(&file) {
            Some(left) => *left,
            None => Left {
                opens: 0,
                pending: false,
            },
        }
    }

    // This is what is left of a file now, which goes or doesn't.
    pub(crate) fn put(&mut self, file: u64, left: Left, goes: bool) -> Result<(), AllocError>
        ensures { OnOk result (IsPut self.old self.new file left goes) }
    {
        put_gone(&mut self.gone, file, goes)?;
        put_left(&mut self.files, file, left)
    }

    // Whether all of these files went.
    pub(crate) fn have_gone(&self, files: &[u64]) -> bool
        ensures { result ≡ all_gone (went_with self.now) files.now }
    {
        for file in files {
            if !self.has_gone(*file) {
                return false;
            }
        }
        true
    }

    fn has_gone(&self, file: u64) -> bool
        ensures { result ≡ went_with self.now file }
    {
        self.gone.contains(&file)
    }
}

fn put_left(files: &mut HashMap<u64, Left>, file: u64, left: Left) -> Result<(), AllocError>
    ensures { OnOk result ((q : ℕ) → get nat_eq files.new q ≡ (if q == file then Some left else get nat_eq files.old q)) }
{
    match files.insert(file, left) {
        Ok(_) => Ok(()),
        Err(_) => Err(AllocError),
    }
}

fn put_gone(gone: &mut HashSet<u64>, file: u64, goes: bool) -> Result<(), AllocError>
    ensures { OnOk result ((q : ℕ) → set.contains nat_eq gone.new q
        ≡ (if q == file then goes || set.contains nat_eq gone.old q else set.contains nat_eq gone.old q)) }
{
    if !goes {
        return Ok(());
    }
    match gone.insert(file) {
        Ok(_) => Ok(()),
        Err(_) => Err(AllocError),
    }
}
