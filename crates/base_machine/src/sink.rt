// The edge to the standard library's writers.
ghost use Rattle.std.specs.Prelude.{None};

use crate::log_lines::Stamped;
use base_outside::{Failed, Printed, Sink};
use log::error;
use std::io::{Eprint, Write};
use std::time::Clock;

/// A sink over a writer of the standard library. It tells nothing of the bytes: what a real
/// terminal, pipe or file takes is trusted. A write of no byte of a piece that has some is a fault.
#[derive(Drop)]
pub struct StdSink<'a, R: Clock + Eprint, W> {
    rt: &'a R,
    writer: W,
    faults: u64,
}

impl<'a, R: Clock + Eprint, W: Write> StdSink<'a, R, W> {
    /// A sink that has not failed yet.
    pub fn new(rt: &'a R, writer: W) -> StdSink<'a, R, W> {
        StdSink {
            rt,
            writer,
            faults: 0,
        }
    }
}

impl<'a, R: Clock + Eprint, W: Write> Sink for StdSink<'a, R, W> {
    ghost written = { λ _. None };

    ghost faults = { λ s. s.faults };

    fn write(&mut self, from: &[u8]) -> Result<usize, Failed> {
        if from.is_empty() {
            return Ok(0);
        }
        match self.writer.write(from) {
            Ok(count) if count > 0 => Ok(count),
            _ => {
                self.faults = self.faults.saturating_add(1);
                Err(Failed)
            }
        }
    }

    fn explain(&mut self, printed: Printed, refusal: &str) {
        let log = Stamped::new(self.rt, printed);
        error!(log; "the settings are refused: {}", refusal.trim_end());
    }
}
