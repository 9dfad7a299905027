//! A server's state with the journal that outlives it.
use base_outside::Disk;
use journal::Journal;
use server_checks::Tables;

/// A server's state, with the journal that outlives it.
#[derive(Drop)]
pub struct ServerState<D: Disk> {
    pub journal: Journal<D>,
    pub tables: Tables,
    /// The count of faults at which a call of the disk failed.
    pub stopped: Option<u64>,
}
