//! A verdict with all the memory that its effect wants (MS-SMB2 3.3.5): what makes it ready and what carries it out agree on these
//! types and definitions.

mod ready;

pub use ready::{Ready, SetupReady};
