// The library's readers and writers as sources and sinks, and a file as a disk.
use base_machine::{StdDisk, StdSink, StdSource};
use base_outside::{Disk, Failed, Sink, Source};
use std::fs::OpenOptions;
use std::io;
use std::io::{ErrorKind, Read, Write};
use std::test::Fail;

// Answers once and fails from then on.
#[derive(Drop)]
struct Breaking {
    count: usize,
}

impl Read for Breaking {
    fn read(&mut self, buffer: &mut [u8]) -> io::Result<usize> {
        if self.count == 0 || buffer.is_empty() {
            return Err(io::Error::from(ErrorKind::BrokenPipe));
        }
        self.count = 0;
        buffer[0] = b'x';
        Ok(1)
    }
}

impl Write for Breaking {
    fn write(&mut self, buffer: &[u8]) -> io::Result<usize> {
        if buffer.is_empty() {
            return Err(io::Error::from(ErrorKind::BrokenPipe));
        }
        let count = self.count;
        self.count = 0;
        Ok(count.min(buffer.len()))
    }

    fn flush(&mut self) -> io::Result<()> {
        Ok(())
    }
}

#[test]
fn readers_and_writers_of_the_library_are_adapted(rt: HostRuntime) -> Result<(), Fail> {
    let mut source = StdSource::new(Breaking { count: 1 });
    let mut into = [0u8; 4];
    assert_eq!(rt; source.read(&mut into), Ok(1));
    assert_eq!(rt; into[0], b'x');
    assert_eq!(rt; source.read(&mut into), Err(Failed));
    let mut sink = StdSink::new(&rt, Breaking { count: 1 });
    assert_eq!(rt; sink.write(b"ab"), Ok(1));
    assert_eq!(rt;
        sink.write(b"b"),
        Err(Failed),
        "a write of nothing is a fault"
    );
    assert_eq!(rt; sink.write(b""), Ok(0));
    Ok(())
}

// Writes past the end and over what is there, reads and cuts.
#[test]
fn a_file_is_a_disk(rt: HostRuntime) -> Result<(), Fail> {
    let file = OpenOptions::new()
        .read(true)
        .write(true)
        .create(true)
        .open(&rt, "disk")?;
    let mut disk = StdDisk::new(file);
    assert_eq!(rt; disk.write_at(2, b"abcd"), Ok(()));
    assert_eq!(rt; disk.write_at(3, b"XY"), Ok(()));
    assert_eq!(rt; disk.sync(), Ok(()));
    let mut into = [9u8; 6];
    assert_eq!(rt; disk.read(1, &mut into), Ok(5));
    assert_eq!(rt; into, *b"\0aXYd\x09");
    assert_eq!(rt; disk.cut(4), Ok(()));
    assert_eq!(rt; disk.cut(9), Ok(()));
    assert_eq!(rt; disk.length(), Ok(4));
    assert_eq!(rt; disk.fault_count(), 0);
    Ok(())
}
