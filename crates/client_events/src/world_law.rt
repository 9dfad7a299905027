//! What a world needs of its client's events: what goes out at a push, that what is asked fits its fields, which events settle, and
//! what dialogs leave.
//!
//! Each law is a public function that does nothing, or calls the law that it rests on; its contract is the statement.

ghost use Rattle.std.specs.Prelude.{◌≡◌, ℕ, ◌<◌, ◌≤◌, Bool, false, List, [], Option, Some, ◌⊎◌};
ghost use Rattle.spec_commands.specs.Fits.{FitsAsked};
ghost use Rattle.spec_exchange.specs.State.{Reply};
ghost use Rattle.spec_exchange.specs.Client.{Client, Identity, Stage, ask_message, create_for, leave_dialog, own_message};
ghost use Rattle.spec_exchange.specs.ClientStep.{Asks, ClientEvent, Pick, Pushes, Sends, act, client_after, hear_act, hear_after};
ghost use Rattle.spec_exchange.specs.Dialogs.{accepted, open_channel, went_on};
ghost use Rattle.spec_exchange.specs.Network.{new_client};
ghost use Rattle.spec_exchange.specs.Schedules.{choose};
ghost use Rattle.law_client.specs.table.Kept.{TableKept};
ghost use Rattle.client_events.specs.world_law.Asking.{AsksFit};
ghost use Rattle.client_events.specs.world_law.Settled.{AreAlike, ClientSettles, SettlesNone, is_client_response};

use law_commands::operation_fits_law;

/// What goes out at a push, itself or as a request to attach its open, is an operation that was taken.
pub fn goes_out_law()
    ensures sends { (c : Client) (k g : ℕ) (slotless : List ℕ) (pick : Option Pick) → act c (Pushes k slotless pick) ≡ Sends g
        → 0 < g × g ≤ c.taken }
    ensures asks { (c : Client) (k g : ℕ) (slotless : List ℕ) (pick : Option Pick) → act c (Pushes k slotless pick) ≡ Asks g
        → 0 < g × g ≤ c.taken }
{}

/// The operation that a client picks for a push goes out, itself or as a request to attach its open, whatever credits the pick was
/// made with.
pub fn pick_law()
    ensures { (c : Client) (k credits from count : ℕ) (p : Pick) → (choose c k credits [] from count).pick ≡ Some p
        → (act c (Pushes k (choose c k credits [] from count).slotless (Some p)) ≡ Sends p.op)
        ⊎ (act c (Pushes k (choose c k credits [] from count).slotless (Some p)) ≡ Asks p.op) }
{}

/// A new client's operations keep their limits, its lock slots are at most 64 and their numbers below 16, and so behind each event of
/// a client that does so, or in one with the same operations and slots. Then the command of each operation that was taken, and of a
/// request to attach a taken create's open, can be written.
pub fn asks_fit_law()
    ensures first { (who : Identity) → AsksFit (new_client who) }
    ensures next { (c : Client) (e : ClientEvent) → AsksFit c → AsksFit (client_after c e) }
    ensures alike { (c d : Client) → d.taken ≡ c.taken → d.op ≡ c.op → d.slot_of ≡ c.slot_of → d.number_of ≡ c.number_of → AsksFit c
        → AsksFit d }
    ensures own { (c : Client) (k id g : ℕ) → AsksFit c → 0 < g → g ≤ c.taken → FitsAsked (own_message c k id g).command }
    ensures asking { (c : Client) (k id g : ℕ) → AsksFit c → 0 < create_for c g → create_for c g ≤ c.taken
        → FitsAsked (ask_message c k id g).command }
{
    operation_fits_law();
}

/// A response puts its operation behind those that a reply settled, with its place, or leaves all of these as they are; any other
/// event leaves them.
pub fn settled_by_law()
    ensures response { (c : Client) (k g : ℕ) (asking : Bool) (r : Reply) (place : ℕ)
        → SettlesNone c (hear_after c k g asking r place) ⊎ ClientSettles c g place (hear_after c k g asking r place) }
    ensures other { (c : Client) (e : ClientEvent) → is_client_response e ≡ false → SettlesNone c (client_after c e) }
{}

/// Of a reply a client looks at its status and its body alone, and of its place only to tell what settled the operation.
pub fn reply_looks_law()
    ensures after { (c : Client) (k g : ℕ) (asking : Bool) (r s : Reply) (place other : ℕ) → r.status ≡ s.status → r.body ≡ s.body
        → AreAlike (hear_after c k g asking r place) (hear_after c k g asking s other) }
    ensures acts { (c : Client) (k g : ℕ) (asking : Bool) (r s : Reply) → r.status ≡ s.status → r.body ≡ s.body
        → hear_act c k g asking r ≡ hear_act c k g asking s }
{}

/// A dialog that begins, goes on, is accepted or is left touches nothing of what a client's table holds of operations: what a choice
/// rests on stays.
pub fn dialogs_keep_law()
    ensures begins { (c : Client) (k : ℕ) → TableKept c → TableKept (open_channel c k) }
    ensures goes_on { (c : Client) (k : ℕ) (stage : Stage) (r : Reply) → TableKept c → TableKept (went_on c k stage r) }
    ensures accepts { (c : Client) (k : ℕ) → TableKept c → TableKept (accepted c k) }
    ensures leaves { (c : Client) (k : ℕ) → TableKept c → TableKept (leave_dialog c k) }
{}
