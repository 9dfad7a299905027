//! Which columns of the model's client a client in code doesn't show.
//!
//! The law is a public function with an empty body; its contract is the statement.

ghost use Rattle.std.specs.Prelude.{ℕ, List, Option};
ghost use Rattle.spec_exchange.specs.State.{Reply};
ghost use Rattle.spec_exchange.specs.Client.{Client, Stage, leave_dialog};
ghost use Rattle.spec_exchange.specs.Dialogs.{accepted, open_channel, went_on};
ghost use Rattle.client_tables.specs.declared.choice.finding.Attached.{Attached};
ghost use Rattle.client_tables.specs.declared.opens.opening.Open.{Open};
ghost use Rattle.client_tables.specs.declared.whole_table.parts.Table.{Table};
ghost use Rattle.client_tables.specs.declared.attached_opens.opened.Opened.{Opened};
ghost use Rattle.client_steps.specs.submitting.Whole.{ShowsWhole};

/// What a client in code shows it shows whatever the places of settling messages are, and behind each step of a dialog.
pub fn free_columns_law()
    ensures settled_by { (t : Table) (opens : List Attached) (known : List Opened) (marks : List Open) (c : Client)
        (places : ℕ → Option ℕ) → ShowsWhole t opens known marks c → ShowsWhole t opens known marks (record c { settled_by = places }) }
    ensures begins { (t : Table) (opens : List Attached) (known : List Opened) (marks : List Open) (c : Client) (k : ℕ)
        → ShowsWhole t opens known marks c → ShowsWhole t opens known marks (open_channel c k) }
    ensures goes_on { (t : Table) (opens : List Attached) (known : List Opened) (marks : List Open) (c : Client) (k : ℕ)
        (stage : Stage) (r : Reply) → ShowsWhole t opens known marks c → ShowsWhole t opens known marks (went_on c k stage r) }
    ensures accepts { (t : Table) (opens : List Attached) (known : List Opened) (marks : List Open) (c : Client) (k : ℕ)
        → ShowsWhole t opens known marks c → ShowsWhole t opens known marks (accepted c k) }
    ensures leaves { (t : Table) (opens : List Attached) (known : List Opened) (marks : List Open) (c : Client) (k : ℕ)
        → ShowsWhole t opens known marks c → ShowsWhole t opens known marks (leave_dialog c k) }
{}
