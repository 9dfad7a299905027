//! The journal's records as bytes, both ways: twelve kinds, in versions 1 and 2 of the journal.

mod fault;
mod fitting;
mod fixed;
mod laws;
mod list;
mod parts;
mod putting;
mod reading;
mod value;
mod variable;
mod writing;

pub(crate) use fault::Fault;
pub use fault::RecordError;
pub use fitting::{can_write, is_short};
pub use laws::records_law;
pub use list::Records;
pub(crate) use parts::{flag_of, read_text};
pub(crate) use putting::{Put, put_fields};
pub use reading::read_records;
pub use spec_exchange::values::{Basic, Origin};
pub use value::{NewOpen, Record};
pub(crate) use writing::put_text;
pub use writing::write_records;
