//! What never went out settles with the create, or the close, behind which its open is gone.

mod giving;
mod later;

pub use giving::give_up_opened;
pub use later::add_later;
