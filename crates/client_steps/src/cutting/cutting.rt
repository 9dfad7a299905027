// A channel is cut.
ghost use Rattle.std.specs.Prelude.{◌≡◌};
ghost use Rattle.spec_exchange.specs.Client.{Client};
ghost use Rattle.spec_exchange.specs.ClientStep.{cut_after};
ghost use Rattle.law_client.specs.table.Kept.{TableKept};
ghost use Rattle.client_rows.specs.session_state.Shown.{cut_told};
ghost use Rattle.client_tables.specs.whole_table.Shown.{TableFits, ShowsTable};
ghost use Rattle.client_tables.specs.attached_opens.Places.{KeepsPlaces};

use crate::cutting::ending::end_table;
use client_rows::Cut;
use client_tables::Table;

/// A channel is cut. The session ends with its last ready one, or where its ChannelSequence can't be raised.
pub fn cut(table: &mut Table, channel: u8) -> Cut
    requires fits { TableFits table.old }
    ensures fits { TableFits table.new }
    ensures places { KeepsPlaces table.old.rows.items table.new.rows.items }
    ensures shown { (c : Client) → ShowsTable table.old c → TableKept c → ShowsTable table.new (cut_after c channel) }
    ensures told { (c : Client) → ShowsTable table.old c → result ≡ cut_told c channel }
{
    match table.session.cut(channel as u32) {
        Cut::Nothing => Cut::Nothing,
        Cut::Lost => {
            table.lose_channel(channel);
            Cut::Lost
        }
        Cut::Ends => {
            end_table(table);
            Cut::Ends
        }
    }
}
