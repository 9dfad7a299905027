//! What the exchange model's server keeps of files and opens fits its fields, on every run, and so does what it tells of them.
//!
//! Each law is a public function with an empty body, whose contract is the statement.

ghost use Rattle.law_replies.specs.fields.Bodies.{BodiesFit};
ghost use Rattle.law_replies.specs.fields.Rows.{RowsAlwaysFit};

/// On every run, each file stands under a name that is text of fewer than 2^16 bytes in UTF-16; times and attributes fit 8 and 4 bytes; no
/// file has more bytes than all may have; files' numbers are at most the last one, a CreateAction is at most 3, and a
/// timeout at most 300,000
/// milliseconds. So it is behind a restart.
pub fn rows_always_fit_law()
    ensures fit { RowsAlwaysFit }
{}

/// On every run, whatever waits at the front: a CREATE tells an id that was given, an action of at most 3, and times, sizes and a timeout
/// that fit (MS-SMB2 2.2.14); a QUERY_INFO of a file tells times and a size that fit; and a QUERY_DIRECTORY tells names
/// that are short texts,
/// in at most 1,048,583 bytes.
pub fn bodies_fit_law()
    ensures fit { BodiesFit }
{}
