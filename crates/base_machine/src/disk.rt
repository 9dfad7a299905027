// The edge to the files of the standard library.
ghost use Rattle.std.specs.Prelude.{[]};
ghost use Rattle.base_outside.specs.streams.Faults.{CountsFault};

use base_outside::{Disk, Failed};
use std::fs::File;
use std::io;
use std::os::unix::fs::FileExt;

/// A disk over an open file. It tells nothing of the bytes: that the file keeps what was synced is
/// trusted. A sync is an fsync of data and length.
#[derive(Drop)]
pub struct StdDisk {
    file: File,
    faults: u64,
}

impl StdDisk {
    /// A disk that has not failed yet, over a file that is open for reading and writing.
    pub fn new(file: File) -> StdDisk {
        StdDisk { file, faults: 0 }
    }
}

// Counts a failure.
fn counted<T: Drop>(faults: &mut u64, answer: io::Result<T>) -> Result<T, Failed>
    ensures { CountsFault faults.old faults.new result }
{
    match answer {
        Ok(value) => Ok(value),
        Err(_) => {
            *faults = faults.saturating_add(1);
            Err(Failed)
        }
    }
}

fn size(file: &File) -> io::Result<u64> {
    Ok(file.metadata()?.len())
}

fn shorten(file: &File, length: u64) -> io::Result<()> {
    // `set_len` would lengthen a shorter file, and a cut never does.
    if length < size(file)? {
        file.set_len(length)?;
    }
    Ok(())
}

impl Disk for StdDisk {
    ghost told = { ⊥ };

    ghost seen = { λ _. [] };

    ghost may_leave = { λ _ _. Unit {0} };

    ghost moment = { λ _. 0 };

    ghost left_since = { λ _ _ _. Unit {0} };

    ghost faults = { λ d. d.faults };

    ghost counts_now = { λ _ _ _ _ _. tt };

    ghost only_now = { λ _ _ _. tt };

    ghost seen_may_stay = { λ _ _. tt };

    fn fault_count(&self) -> u64 {
        self.faults
    }

    fn length(&mut self) -> Result<u64, Failed> {
        let answer = size(&self.file);
        counted(&mut self.faults, answer)
    }

    fn read(&mut self, at: u64, into: &mut [u8]) -> Result<usize, Failed> {
        match self.file.read_at(into, at) {
            Ok(count) => Ok(count),
            Err(_) => {
                self.faults = self.faults.saturating_add(1);
                Err(Failed)
            }
        }
    }

    fn write_at(&mut self, at: u64, from: &[u8]) -> Result<(), Failed> {
        let answer = self.file.write_all_at(from, at);
        counted(&mut self.faults, answer)
    }

    fn cut(&mut self, length: u64) -> Result<(), Failed> {
        let answer = shorten(&self.file, length);
        counted(&mut self.faults, answer)
    }

    fn sync(&mut self) -> Result<(), Failed> {
        let answer = self.file.sync_all();
        counted(&mut self.faults, answer)
    }
}
