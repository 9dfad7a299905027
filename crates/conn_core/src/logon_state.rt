//! What a connection goes on with behind a reply (MS-SMB2 3.3.5.4, 3.3.5.5).

mod behind;

pub use behind::Behind;
