//! What operations cost once their open is attached, or isn't any more.

mod pricing;

pub use pricing::{attach, price_one, price_open};
