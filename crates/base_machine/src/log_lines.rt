//! Lines on standard error while a server serves.
use base_outside::Printed;
use httpdate::HttpDate;
use log::kv::Source;
use log::span::Spans;
use log::{Level, Line, Log, Metadata, Record};
use std::fmt;
use std::fmt::Display;
use std::io::Eprint;
use std::time::{Clock, SystemTime, UNIX_EPOCH};

/// A moment as RFC 3339 writes it, in UTC and to the second.
#[derive(Clone, Copy)]
struct Stamp {
    text: [u8; 20],
}

/// The place of a month's name in a year, by its last two letters, which tell all twelve apart.
fn month_of(name: &[u8]) -> [u8; 2] {
    match name {
        b"Jan" => *b"01",
        b"Feb" => *b"02",
        b"Mar" => *b"03",
        b"Apr" => *b"04",
        b"May" => *b"05",
        b"Jun" => *b"06",
        b"Jul" => *b"07",
        b"Aug" => *b"08",
        b"Sep" => *b"09",
        b"Oct" => *b"10",
        b"Nov" => *b"11",
        _ => *b"12",
    }
}

/// The stamp of a date that is written as `Sun, 06 Nov 1994 08:49:37 GMT`.
fn stamp_on(d: &[u8; 29]) -> Stamp {
    let m = month_of(&d[8..11]);
    Stamp {
        text: [
            d[12], d[13], d[14], d[15], b'-', m[0], m[1], b'-', d[5], d[6], b'T', d[17], d[18],
            d[19], d[20], d[21], d[22], d[23], d[24], b'Z',
        ],
    }
}

/// The stamp of so many seconds after the beginning of 1970. Past the year 9999 it stands still.
fn stamp_of(seconds: u64) -> Stamp {
    match HttpDate::from_unix_secs(seconds) {
        Ok(date) => stamp_on(&date.to_bytes()),
        Err(_) => Stamp {
            text: *b"9999-12-31T23:59:59Z",
        },
    }
}

/// Now, by the machine's clock; the beginning of 1970 where it can't be read.
fn stamp_now<C: Clock>(clock: &C) -> Stamp {
    match SystemTime::now(clock) {
        Ok(time) => match time.duration_since(UNIX_EPOCH) {
            Ok(since) => stamp_of(since.as_secs()),
            Err(_) => stamp_of(0),
        },
        Err(_) => stamp_of(0),
    }
}

impl Display for Stamp {
    fn fmt<W: fmt::Write>(&self, f: &mut fmt::Formatter<W>) -> fmt::Result {
        match str::from_utf8(&self.text) {
            Ok(text) => write!(f, "{text}"),
            Err(_) => Ok(()),
        }
    }
}

/// A logger that prints a record's line behind the moment, on standard error, where its level is among those that are printed. A line
/// that can't be written is lost.
#[derive(Drop)]
pub struct Stamped<'a, W: Clock + Eprint> {
    rt: &'a W,
    printed: Printed,
}

impl<'a, W: Clock + Eprint> Stamped<'a, W> {
    pub fn new(rt: &'a W, printed: Printed) -> Stamped<'a, W> {
        Stamped { rt, printed }
    }
}

fn is_printed(printed: Printed, level: Level) -> bool {
    match level {
        Level::Error => printed != Printed::Nothing,
        Level::Warn => printed == Printed::Warnings || printed == Printed::All,
        Level::Info => printed == Printed::All,
        Level::Debug | Level::Trace => false,
    }
}

impl<'a, W: Clock + Eprint> Log for Stamped<'a, W> {
    fn enabled(&self, metadata: &Metadata<'_>) -> bool {
        is_printed(self.printed, metadata.level())
    }

    fn log<D: Display, K: Source, S: Spans>(&self, record: &Record<'_, D, K, S>) {
        if is_printed(self.printed, record.level()) {
            let stamp = stamp_now(self.rt);
            let _ = eprintln!(self.rt; "{stamp} {}", Line::new(record));
        }
    }

    fn flush(&self) {}

    fn target(&self) -> &str {
        "smb311"
    }
}
