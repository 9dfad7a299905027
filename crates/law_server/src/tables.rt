//! What holds of the exchange model's server alone, on every run: its tables of opens, guids, sessions, connections,
//! ranges and files fit together.
//!
//! The law is a public function with an empty body, whose contract is the statement; its definitions stand in `specs`.

ghost use Rattle.std.specs.Prelude.{◌≡◌, List, true};
ghost use Rattle.spec_exchange.specs.Network.{Event, Settings, run, start};
ghost use Rattle.law_server.specs.tables.Fits.{Fits, all_sound};

/// On every run, behind every event, the server's tables fit together (each part of `Fits`): the opens that stand are
/// those that are listed, found by their guids and attached to sessions that are there; ids are given once; a session
/// that isn't there keeps nothing; each locked range and each open's file is there; the root is never deleted. And no
/// record of the journal makes an open that deletes the root on close.
pub fn fits_law()
    ensures fit { (settings : Settings) (events : List Event) → Fits (run events (start settings)).server }
    ensures sound { (settings : Settings) (events : List Event) → all_sound (run events (start settings)).records ≡ true }
{}
