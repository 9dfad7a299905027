//! Statuses (MS-ERREF 2.3.1).

pub const SUCCESS: u32 = 0;

pub const NO_MORE_FILES: u32 = 0x8000_0006;

pub const INFO_LENGTH_MISMATCH: u32 = 0xc000_0004;

pub const INVALID_PARAMETER: u32 = 0xc000_000d;

pub const NO_SUCH_FILE: u32 = 0xc000_000f;

pub const INVALID_DEVICE_REQUEST: u32 = 0xc000_0010;

pub const END_OF_FILE: u32 = 0xc000_0011;

pub const MORE_PROCESSING_REQUIRED: u32 = 0xc000_0016;

pub const ACCESS_DENIED: u32 = 0xc000_0022;

pub const OBJECT_NAME_INVALID: u32 = 0xc000_0033;

pub const OBJECT_NAME_NOT_FOUND: u32 = 0xc000_0034;

pub const OBJECT_NAME_COLLISION: u32 = 0xc000_0035;

pub const OBJECT_PATH_NOT_FOUND: u32 = 0xc000_003a;

pub const SHARING_VIOLATION: u32 = 0xc000_0043;

pub const FILE_LOCK_CONFLICT: u32 = 0xc000_0054;

pub const LOCK_NOT_GRANTED: u32 = 0xc000_0055;

pub const DELETE_PENDING: u32 = 0xc000_0056;

pub const LOGON_FAILURE: u32 = 0xc000_006d;

pub const RANGE_NOT_LOCKED: u32 = 0xc000_007e;

pub const DISK_FULL: u32 = 0xc000_007f;

pub const INSUFFICIENT_RESOURCES: u32 = 0xc000_009a;

pub const FILE_IS_A_DIRECTORY: u32 = 0xc000_00ba;

pub const NOT_SUPPORTED: u32 = 0xc000_00bb;

pub const NETWORK_NAME_DELETED: u32 = 0xc000_00c9;

pub const BAD_NETWORK_NAME: u32 = 0xc000_00cc;

pub const REQUEST_NOT_ACCEPTED: u32 = 0xc000_00d0;

pub const DIRECTORY_NOT_EMPTY: u32 = 0xc000_0101;

pub const NOT_A_DIRECTORY: u32 = 0xc000_0103;

pub const CANNOT_DELETE: u32 = 0xc000_0121;

pub const FILE_CLOSED: u32 = 0xc000_0128;

pub const FS_DRIVER_REQUIRED: u32 = 0xc000_019c;

pub const INVALID_LOCK_RANGE: u32 = 0xc000_01a1;

pub const USER_SESSION_DELETED: u32 = 0xc000_0203;

pub const DUPLICATE_OBJECTID: u32 = 0xc000_022a;

pub const FILE_NOT_AVAILABLE: u32 = 0xc000_0467;
