// A channel is lost.
ghost use Rattle.std.specs.Prelude.{◌≡◌};
ghost use Rattle.spec_exchange.specs.Client.{Client, cut_channel};
ghost use Rattle.client_rows.specs.declared.session_state.session.Session.{Session};
ghost use Rattle.client_rows.specs.session_state.Shown.{ClientShowsSession};
ghost use Rattle.client_tables.specs.cuts.Cutting.{CutLoses};
ghost use Rattle.client_tables.specs.whole_table.Shown.{TableFits, ShowsTable};

use crate::outstanding::lose_on_channel;
use crate::whole_table::parts::Table;

impl Table {
    /// What is outstanding on a channel is lost with it. The session itself is as it is behind the cut; all else is made so here.
    pub fn lose_channel(&mut self, channel: u8)
        requires fits { TableFits self.old }
        ensures fits { TableFits self.new }
        ensures session { self.new.session ≡ self.old.session }
        ensures loses { CutLoses self.old.rows.items self.new.rows.items }
        ensures shown { (c : Client) (was : Session) → ShowsTable (record self.old { session = was }) c
            → ClientShowsSession self.old.session (cut_channel c channel) → ShowsTable self.new (cut_channel c channel) }
    {
        lose_on_channel(
            &mut self.rows,
            &mut self.prices,
            &self.watchers,
            &mut self.out,
            channel,
        );
    }
}
