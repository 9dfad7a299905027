// What the tables share: the words of a row, read one after the other, and the ways that answers are written. A word that is missing is
// empty, and one that is no number, where one is asked for, is read as 0: both show in the answer.
use std::alloc::{AllocError, AllocFailed, Global};
use std::fmt::Write;
use wire_bytes::Text;

/// Why a row isn't answered.
#[derive(Clone, Copy)]
pub enum Fault {
    Memory,
    /// A row that no table knows, or a check that fails: what.
    Other(&'static str),
}

impl From<AllocError> for Fault {
    fn from(_error: AllocError) -> Fault {
        Fault::Memory
    }
}

impl<T: Drop> From<AllocFailed<T>> for Fault {
    fn from(_error: AllocFailed<T>) -> Fault {
        Fault::Memory
    }
}

impl Fault {
    pub fn word(self) -> &'static str {
        match self {
            Fault::Memory => "memory ran out",
            Fault::Other(what) => what,
        }
    }
}

/// The same with this program's error; in place of a `?`, which costs its caller more.
pub fn kept<T>(given: Result<T, AllocError>) -> Result<T, Fault> {
    match given {
        Ok(value) => Ok(value),
        Err(_) => Err(Fault::Memory),
    }
}

/// What is left of a row.
#[derive(Clone, Copy)]
pub struct Words<'a> {
    rest: &'a str,
}

impl<'a> Words<'a> {
    pub fn new(rest: &'a str) -> Words<'a> {
        Words { rest }
    }

    /// All that is left.
    pub fn rest(&self) -> &'a str {
        self.rest
    }

    /// What stands before the next place of this text, or all that is left.
    pub fn until(&mut self, between: &str) -> &'a str {
        let (front, rest) = self.rest.split_once(between).unwrap_or((self.rest, ""));
        self.rest = rest;
        front
    }

    /// The next word.
    pub fn next(&mut self) -> &'a str {
        self.until(" ")
    }

    /// Whether this word is the next one.
    pub fn says(&mut self, word: &str) -> bool {
        self.next() == word
    }

    pub fn number(&mut self) -> u64 {
        self.next().parse::<u64>().unwrap_or(0)
    }

    /// A number below 2^128.
    pub fn wide(&mut self) -> u128 {
        self.next().parse::<u128>().unwrap_or(0)
    }

    pub fn small(&mut self) -> u32 {
        (self.number() & 0xffff_ffff) as u32
    }

    pub fn short(&mut self) -> u16 {
        (self.number() & 0xffff) as u16
    }

    pub fn tiny(&mut self) -> u8 {
        (self.number() & 0xff) as u8
    }

    /// A status: eight hexadecimal digits.
    pub fn status(&mut self) -> u32 {
        u32::from_str_radix(self.next(), 16).unwrap_or(0)
    }

    /// The bytes of hexadecimal digits; `COUNT*DIGITS` repeats them, and `-` is none.
    pub fn bytes(&mut self, alloc: Global) -> Result<Vec<u8>, Fault> {
        let word = self.next();
        match word.split_once("*") {
            Some((count, digits)) => {
                repeated(
                    alloc,
                    count.parse::<u64>().unwrap_or(0),
                    bytes_of(alloc, digits)?,
                )
            }
            None => bytes_of(alloc, word),
        }
    }

    pub fn text(&mut self, alloc: Global) -> Result<Text, AllocError> {
        Text::from_str(alloc, self.next())
    }
}

fn bytes_of(alloc: Global, digits: &str) -> Result<Vec<u8>, Fault> {
    let digits = if digits == "-" { "" } else { digits };
    match hex::decode(alloc, digits) {
        Ok(bytes) => Ok(bytes),
        Err(_) => Err(Fault::Other("no digits")),
    }
}

fn repeated(alloc: Global, count: u64, piece: Vec<u8>) -> Result<Vec<u8>, Fault> {
    let mut bytes = Vec::new(alloc);
    for _ in 0..count {
        bytes.extend_from_slice(piece.as_slice())?;
    }
    Ok(bytes)
}

/// Puts hexadecimal digits, `-` for no bytes.
pub fn push_digits(said: &mut String, bytes: &[u8]) -> Result<(), AllocError> {
    if bytes.is_empty() {
        return said.push_str("-");
    }
    for byte in bytes {
        write!(said, "{:02x}", *byte)?;
    }
    Ok(())
}

/// Puts the bytes that a text stands for: `\n` and `\r` are line ends, `\x` and two digits any byte, and `{COUNT*PIECE}` is a piece so
/// many times.
pub fn push_unescaped(bytes: &mut Vec<u8>, alloc: Global, text: &str) -> Result<(), Fault> {
    for part in text.split("{") {
        match part.split_once("}") {
            Some((front, behind)) => {
                push_pieces(bytes, alloc, front)?;
                push_plain(bytes, behind)?;
            }
            None => push_plain(bytes, part)?,
        }
    }
    Ok(())
}

// `COUNT*PIECE`.
fn push_pieces(bytes: &mut Vec<u8>, alloc: Global, pieces: &str) -> Result<(), Fault> {
    let (count, text) = pieces.split_once("*").unwrap_or(("", pieces));
    let mut piece = Vec::new(alloc);
    push_plain(&mut piece, text)?;
    for _ in 0..count.parse::<u64>().unwrap_or(0) {
        bytes.extend_from_slice(piece.as_slice())?;
    }
    Ok(())
}

// A text without repetitions. Behind a backslash stands a letter, and behind `x` two digits.
fn push_plain(bytes: &mut Vec<u8>, text: &str) -> Result<(), Fault> {
    let mut is_escape = false;
    let mut digits = 0u8;
    let mut code = 0u8;
    for byte in text.as_bytes() {
        let byte = *byte;
        if digits > 0 {
            digits = digits.wrapping_sub(1);
            code = code.wrapping_mul(16).wrapping_add(digit_of(byte));
            if digits == 0 {
                bytes.push(code)?;
            }
        } else if !is_escape && byte == b'\\' {
            is_escape = true;
        } else if is_escape && byte == b'x' {
            is_escape = false;
            digits = 2;
        } else {
            bytes.push(if is_escape { letter_of(byte) } else { byte })?;
            is_escape = false;
        }
    }
    Ok(())
}

fn digit_of(byte: u8) -> u8 {
    match byte {
        b'0'..=b'9' => byte.wrapping_sub(b'0'),
        _ => byte.wrapping_sub(b'a').wrapping_add(10),
    }
}

fn letter_of(byte: u8) -> u8 {
    match byte {
        b'n' => b'\n',
        b'r' => b'\r',
        _ => byte,
    }
}
