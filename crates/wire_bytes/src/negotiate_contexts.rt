//! The contexts of a NEGOTIATE, request and response, both ways (MS-SMB2 2.2.3.1, 2.2.4.1): what they
//! offer or choose, and what a server chooses of an offer.

mod choice;
mod kinds;
mod numbers;
mod offer;
mod reading;
mod writing;

pub use choice::choose;
pub use numbers::Numbers;
pub use offer::Offer;
pub use reading::read_contexts;
pub use spec_crypto::{ChooseError, Chosen};
pub use spec_wire::CtxError;
pub use writing::{context_count, write_contexts};
