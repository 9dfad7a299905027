// The server that the client's channels are tried against.
use base_outside::{Address, MemClock, MemDisk, MemRenewal, MemSink, MemSource, Net};
use log::LevelFilter;
use rand_chacha::ChaCha20Rng;
use rand_core::SeedableRng;
use serve_command::{Bound, Ending, Finished, Said, serve};
use std::alloc::{AllocError, Global};
use std::sync::Wait;
use std::thread::Threads;
use wire_bytes::Bytes;

pub(crate) const AT: Address = Address {
    ip: 0x7f00_0001,
    port: 4450,
};

/// How the server ended, and what it printed.
#[derive(Drop)]
pub(crate) struct Served {
    pub ending: Ending,
    pub sink: MemSink,
}

/// A server without settings that serves so many links, over an empty disk.
pub(crate) fn serve_links<W, N>(
    rt: &W,
    alloc: Global,
    count: usize,
    net: N,
) -> Result<Served, AllocError>
where
    W: Wait + Threads + Sync,
    N: Net + Drop,
{
    let mut source = MemSource::new(alloc, Bytes::new(alloc), Bytes::new(alloc))?;
    let mut sink = MemSink::new(alloc, Bytes::new(alloc))?;
    let empty = MemDisk::new(alloc, Bytes::new(alloc), Bytes::new(alloc))?;
    let disk = MemRenewal::new(alloc, empty, 1_048_576);
    let level = LevelFilter::Info;
    let said = Said {
        address: AT,
        bound: Some(Bound { count, level }),
    };
    let finished = serve(
        rt,
        alloc,
        &said,
        &mut source,
        &mut sink,
        disk,
        net,
        MemClock::new(0),
        ChaCha20Rng::from_seed([7; 32]),
    );
    let Finished {
        ending,
        net: _net,
        disk: _disk,
    } = finished;
    Ok(Served { ending, sink })
}
