//! A clock that connections share.
use base_outside::Clock;
use std::sync::{Mutex, Wait};

/// A clock behind a lock, for one of several connections.
pub struct SharedClock<'a, W: Wait, C: Clock> {
    rt: &'a W,
    clock: &'a Mutex<C>,
}

impl<'a, W: Wait, C: Clock> SharedClock<'a, W, C> {
    pub fn new(rt: &'a W, clock: &'a Mutex<C>) -> SharedClock<'a, W, C> {
        SharedClock { rt, clock }
    }
}

impl<'a, W: Wait, C: Clock> Clock for SharedClock<'a, W, C> {
    fn now(&mut self) -> u64 {
        self.clock.lock(self.rt).now()
    }
}
