//! Trees of a session (MS-SMB2 3.3.1.9).
ghost use Rattle.std.specs.Prelude.{◌≡◌, ◌==◌, ◌<◌, ℕ, true, false, nat_lt, nat_eq, OnOk, Some, vec_len, vec_capacity};
ghost use Rattle.std.specs.HashMap.{get, hash_map_len};
ghost use Rattle.spec_exchange.specs.CheckSetup.{last_tree};
ghost use Rattle.spec_exchange.specs.State.{Server};
ghost use Rattle.spec_exchange.specs.Effects.{add_tree, without_tree};
ghost use Rattle.server_checks.specs.session_table.Shown.{ShowsSessions, HasTreeRoom, RowHasTreeRoom};
ghost use Rattle.server_checks.specs.session_table.Steps.{AddsTree, DropsTree, KeysStay, SessionRowStays};
ghost use Rattle.server_checks.specs.session_table.Changes.{tree_dropped};
ghost use Rattle.server_checks.specs.session_table.Logons.{LogonsStay};

use crate::session_table::row::SessionRow;
use crate::session_table::table::Sessions;
use spec_exchange::values::Tree;
use std::alloc::AllocError;
use std::collections::HashMap;

impl Sessions {
    /// Makes room for one more tree of a live session; of another there is none.
    pub fn reserve_tree(&mut self, session: u64) -> Result<(), AllocError>
        ensures same { (s : Server) → ShowsSessions self.old s → ShowsSessions self.new s }
        ensures room { OnOk result (HasTreeRoom self.new session) }
        ensures rest { self.new ≡ record self.old { rows = self.new.rows } }
        ensures logons { LogonsStay self.old self.new }
    {
        grow_trees(&mut self.rows, session)
    }

    /// A session connects to a tree, whose id is answered.
    pub fn add_tree(&mut self, session: u64, pipes: bool) -> u32
        requires { HasTreeRoom self.old session }
        ensures id { (s : Server) → ShowsSessions self.old s → s.present session ≡ true
            → nat_lt last_tree (s.next_tree session) ≡ false → result ≡ s.next_tree session }
        ensures shows { (s : Server) → ShowsSessions self.old s → s.present session ≡ true
            → nat_lt last_tree (s.next_tree session) ≡ false → ShowsSessions self.new (add_tree s session pipes) }
        ensures logons { LogonsStay self.old self.new }
    {
        put_tree(&mut self.rows, session, pipes)
    }

    /// A tree of a session is gone.
    pub fn drop_tree(&mut self, session: u64, tree: u32)
        ensures shows { (s : Server) → ShowsSessions self.old s → ShowsSessions self.new (tree_dropped s session tree) }
        ensures logons { LogonsStay self.old self.new }
    {
        cut_tree(&mut self.rows, session, tree);
    }
}

// There is room for one more tree of a session.
fn grow_trees(rows: &mut HashMap<u64, SessionRow>, session: u64) -> Result<(), AllocError>
    ensures others { (q : ℕ) → (q == session) ≡ false → get nat_eq rows.new q ≡ get nat_eq rows.old q }
    ensures here { SessionRowStays (get nat_eq rows.old session) (get nat_eq rows.new session) }
    ensures len { hash_map_len rows.new ≡ hash_map_len rows.old }
    ensures room { OnOk result (RowHasTreeRoom (get nat_eq rows.new session)) }
{
    match rows.get_mut(&session) {
        Some(row) => row.trees.reserve(1),
        None => Err(AllocError),
    }
}

// The session has one tree more, whose id is answered.
fn put_tree(rows: &mut HashMap<u64, SessionRow>, session: u64, pipes: bool) -> u32
    requires { RowHasTreeRoom (get nat_eq rows.old session) }
    ensures others { (q : ℕ) → (q == session) ≡ false → get nat_eq rows.new q ≡ get nat_eq rows.old q }
    ensures here { AddsTree (get nat_eq rows.old session) (get nat_eq rows.new session) pipes result }
    ensures keys { KeysStay (get nat_eq rows.old session) (get nat_eq rows.new session) }
    ensures len { hash_map_len rows.new ≡ hash_map_len rows.old }
{
    match rows.get_mut(&session) {
        Some(row) => grow_tree(row, pipes),
        None => 0,
    }
}

fn grow_tree(row: &mut SessionRow, pipes: bool) -> u32
    requires { vec_len row.old.trees < vec_capacity row.old.trees }
    ensures adds { AddsTree (Some row.old) (Some row.new) pipes result }
    ensures keys { row.new.keys ≡ row.old.keys }
{
    let id = row.next_tree.min(0xffff_ffff) as u32;
    let _ = row.trees.push(Tree { id, pipes });
    row.next_tree = row.next_tree.saturating_add(1);
    id
}

// The session has one tree less.
fn cut_tree(rows: &mut HashMap<u64, SessionRow>, session: u64, tree: u32)
    ensures others { (q : ℕ) → (q == session) ≡ false → get nat_eq rows.new q ≡ get nat_eq rows.old q }
    ensures here { DropsTree (get nat_eq rows.old session) (get nat_eq rows.new session) tree }
    ensures len { hash_map_len rows.new ≡ hash_map_len rows.old }
{
    if let Some(row) = rows.get_mut(&session) {
        cut(row, tree);
    }
}

fn cut(row: &mut SessionRow, tree: u32)
    ensures { DropsTree (Some row.old) (Some row.new) tree }
{
    retain_others(&mut row.trees, tree);
}

fn retain_others(trees: &mut Vec<Tree>, tree: u32)
    ensures { trees.new.items ≡ without_tree tree trees.old.items }
{
    trees.retain(|one| one.id != tree);
}
