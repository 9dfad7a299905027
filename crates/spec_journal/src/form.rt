// The two forms of a journal.

/// How entries stand in a journal: as length and body (mark `smb311j1`), or with the checksum of both between them (`smb311j2`).
#[derive(Clone, Copy, PartialEq, Eq, Debug)]
pub enum Form {
    Plain,
    Summed,
}
