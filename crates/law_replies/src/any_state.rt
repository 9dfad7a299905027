//! From whatever state the exchange model's server goes on, its rows and its journal stay within their fields.
//!
//! The law is a public function with an empty body, whose contract is the statement.

ghost use Rattle.law_replies.specs.any_state.Kept.{RowsKept, RowsKeptAlone, RowsKeptBehind};

/// Of a state that fits, whose rows fit: they fit behind an event at a moment of 8 bytes, and so do its records, where
/// texts of a CREATE and
/// of a rename are UTF-8 and attributes and times are within their fields, whoever asks (`stepped`); and behind an open that
/// expires alone (`alone`). They fit behind a restart on records that fit (`behind`), as those of no journal do.
pub fn kept_law()
    ensures stepped { RowsKept }
    ensures alone { RowsKeptAlone }
    ensures behind { RowsKeptBehind }
{}
