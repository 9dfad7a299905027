//! A tree's end, as its opens see it.
ghost use Rattle.std.specs.Prelude.{◌≡◌, IfOk};
ghost use Rattle.std.specs.BTreeSet.{IsOrdered};
ghost use Rattle.std.specs.Ordering.{nat_cmp};
ghost use Rattle.spec_exchange.specs.Effects.{opens_of_tree, tree_opens_in};
ghost use Rattle.spec_exchange.specs.State.{Server};
ghost use Rattle.law_server.specs.tables.Fits.{Fits};
ghost use Rattle.store_opens.specs.open_table.Shown.{ShowsOpens};

use crate::open_table::end::push_if;
use crate::open_table::table::Opens;
use std::alloc::AllocError;
use std::collections::BTreeSet;

impl Opens {
    /// The opens of a session's tree, in the order of their ids.
    pub fn opens_of_tree(&self, session: u64, tree: u32) -> Result<Vec<u64>, AllocError>
        ensures { IfOk result (λ v. (s : Server) → Fits s → ShowsOpens self.now s → v.items ≡ opens_of_tree s session tree) }
    {
        match self.sessions.get(&session) {
            Some(row) => self.all_of_tree(&row.opens, session, tree),
            None => Ok(Vec::new(self.alloc)),
        }
    }

    // Those of a set that are of this tree.
    #[tactic(auto, unfolding(spec_exchange::specs::Effects::tree_opens_in))]
    fn all_of_tree(
        &self,
        opens: &BTreeSet<u64>,
        session: u64,
        tree: u32,
    ) -> Result<Vec<u64>, AllocError>
        ensures listed { IfOk result (λ v. (s : Server) → ShowsOpens self.now s
            → v.items ≡ tree_opens_in s session tree opens.now.keys) }
        ensures ordered { IsOrdered nat_cmp opens.now }
    {
        let mut found = Vec::new(self.alloc);
        for id in opens {
            push_if(&mut found, *id, self.is_of_tree(*id, session, tree))?;
        }
        Ok(found)
    }
}
