//! What channels share beside the client.
ghost use Rattle.std.specs.Prelude.{◌≡◌, ℕ, false};

use base_outside::{Address, Net};
use std::alloc::Global;
use std::sync::atomic::{AtomicU64, Ordering};
use std::sync::{Mutex, Wait};

/// Whether a channel may read on, asked before each frame. A channel whose gate doesn't let it pass is cut. Turns of a channel are counted
/// from 0.
pub trait Gate: Send + Sync {
    /// Of a channel, the turns that it may not let pass.
    ghost bars: { Self → ℕ → ℕ → Type 0 };

    fn pass(&self, channel: u32, turn: u64) -> bool
        ensures { result ≡ false → bars self.now channel turn };
}

/// It lets each one pass.
#[derive(Clone, Copy, Debug)]
pub struct FreeGate;

impl Gate for FreeGate {
    ghost bars = { λ gate channel turn. ⊥ };

    fn pass(&self, _channel: u32, _turn: u64) -> bool {
        true
    }
}

/// A sleep looks at the low 32 bits of a count.
const LOW: u64 = 1 << 32;

/// Wakes channels that have nothing to do. It changes nothing that a contract speaks of.
#[derive(Drop)]
pub(crate) struct News {
    rings: AtomicU64,
}

impl News {
    pub(crate) fn new() -> News {
        News {
            rings: AtomicU64::new(0),
        }
    }

    /// How often it rang. Whoever is to rest counts before it looks whether there is something to do, so that it misses nothing.
    pub(crate) fn heard(&self) -> u64 {
        self.rings.load(Ordering::SeqCst)
    }

    pub(crate) fn ring(&self) {
        self.rings.fetch_add(1, Ordering::SeqCst);
        self.rings.wake_all();
    }

    /// Sleeps until it rang since.
    pub(crate) fn rest<W: Wait>(&self, rt: &W, heard: u64) {
        self.rings.park(rt, (heard % LOW) as u32);
    }
}

/// The net and the address to connect to, the seed of what channels draw, and news of each other.
#[derive(Drop)]
pub(crate) struct Outside<N: Net> {
    pub alloc: Global,
    pub net: Mutex<N>,
    pub to: Address,
    pub seed: [u8; 32],
    pub news: News,
}
