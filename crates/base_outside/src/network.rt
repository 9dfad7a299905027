//! The outside of what runs in threads: links to peers, nets that links come from, and clocks, as traits
//! with memory forms.
//!
//! Each link and each net counts its faults in a ghost member that code over the traits cannot raise,
//! and tells its bytes where it knows them.

mod clock;
mod end;
mod link;
mod mem_end;
mod mem_link;
mod mem_net;
mod net;
mod standing;
mod wire;

pub use clock::{Clock, MemClock};
pub use end::is_end;
pub use link::Link;
pub use mem_end::MemEnd;
pub use mem_link::MemLink;
pub use mem_net::MemNet;
pub use net::Net;
pub use standing::{News, Printed, SentName, Standing, Watch};
