use std::alloc::AllocError;
use std::error::Error;
use std::fmt;

/// Why a client's call, or a row, comes to nothing.
#[derive(Clone, Copy, Debug)]
pub enum Fault {
    Memory,
    /// What is asked for isn't there: a server, a message in a token, a request of this name; or it is another than is due.
    Other,
}

impl From<AllocError> for Fault {
    fn from(_error: AllocError) -> Fault {
        Fault::Memory
    }
}

/// The same with an error of a call; in place of a `?`, which costs its caller more.
pub fn kept<T>(given: Result<T, AllocError>) -> Result<T, Fault> {
    match given {
        Ok(value) => Ok(value),
        Err(_) => Err(Fault::Memory),
    }
}

impl Fault {
    pub fn word(self) -> &'static str {
        match self {
            Fault::Memory => "memory ran out",
            Fault::Other => "what is asked for isn't there, or another than is due",
        }
    }
}

impl fmt::Display for Fault {
    fn fmt<W: fmt::Write>(&self, f: &mut fmt::Formatter<W>) -> fmt::Result {
        f.write_str(self.word())
    }
}

impl Error for Fault {}
