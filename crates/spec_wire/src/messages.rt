//! What the bytes of SMB 3.1.1 mean (MS-SMB2 2.2): numbers in bytes, tables of fields, the header and
//! the messages. The definitions stand in `specs/`; here are the plain types that they speak of.

mod chain_error;
mod class;
mod context;
mod directory_class;
mod error;
mod file_message;
mod header;
mod message;
mod refusal;
mod session_message;

pub use chain_error::ChainError;
pub use class::{
    FileAccessInformation, FileAlignmentInformation, FileAllocationInformation,
    FileBasicInformation, FileDispositionInformation, FileEaInformation, FileEndOfFileInformation,
    FileFsDeviceInformation, FileFsFullSizeInformation, FileFsSectorSizeInformation,
    FileFsSizeInformation, FileInternalInformation, FileModeInformation,
    FileNetworkOpenInformation, FilePositionInformation, FileStandardInformation, NetworkInterface,
    ObjectIdBuffer,
};
pub use context::{CreateContexts, Dh2c, Dh2q, Dh2qReply, DiskId, MaximalAccess, ReplyContexts};
pub use directory_class::DirectoryClass;
pub use error::{HeaderError, MessageError, Part};
pub use file_message::{
    CloseRequest, CloseResponse, FlushRequest, FlushResponse, LockResponse, SetInfoResponse,
};
pub use header::{Header, Span};
pub use message::{ErrorResponse, LockElement, ReadRequest, WriteResponse};
pub use refusal::{CtxError, FrameError, TextError};
pub use session_message::{
    EchoRequest, EchoResponse, LogoffRequest, LogoffResponse, TreeConnectResponse,
    TreeDisconnectRequest, TreeDisconnectResponse,
};
