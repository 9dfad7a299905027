//! The lock slots of an open: a LOCK request that names one is answered again as it was when it comes a second time
//! (MS-SMB2 3.3.5.14).

mod slots;

pub use slots::Slots;
pub use spec_exchange::values::Kept;
