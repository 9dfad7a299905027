//! What a snapshot stands for that is written in the place of all records: pieces for files, opens, their slots and ranges,
//! guids of expired opens, and numbers. It is a room because a journal that is rewritten leans on it alone.
#![tactic(auto)]

pub mod behind;
pub mod checksums;
pub mod drafts;
pub mod examples;
pub mod restarts;
pub mod snapshots;
pub mod taking;

pub use behind::{alike_law, behind_law};
pub use checksums::{changed_byte_law, checksum_law};
pub use drafts::{compaction_law, cost_law, draft_law};
pub use restarts::restart_over_law;
pub use snapshots::{held_law, order_law, snapshot_fits_law, snapshot_law};
pub use taking::{piece_fits_law, taken_law};
