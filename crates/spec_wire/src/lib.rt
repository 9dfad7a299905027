//! What the bytes of SMB 3.1.1 mean: numbers, headers, messages and their contexts (MS-SMB2 2.2), information classes
//! (MS-FSCC 2.4, 2.5), the journal's bytes, and message ids with their credits (MS-SMB2 3.3.1.1). It is one room
//! because all of it speaks of byte lists alone, and knows nothing of ciphers or of what a server does. All other
//! definitions but the model of values, and every reader and writer of bytes, stand on it.
#![tactic(auto)]

mod credits;
mod journal;
pub mod messages;

pub use messages::{
    ChainError, CloseRequest, CloseResponse, CreateContexts, CtxError, Dh2c, Dh2q, Dh2qReply,
    DirectoryClass, DiskId, EchoRequest, EchoResponse, ErrorResponse, FileAccessInformation,
    FileAlignmentInformation, FileAllocationInformation, FileBasicInformation,
    FileDispositionInformation, FileEaInformation, FileEndOfFileInformation,
    FileFsDeviceInformation, FileFsFullSizeInformation, FileFsSectorSizeInformation,
    FileFsSizeInformation, FileInternalInformation, FileModeInformation,
    FileNetworkOpenInformation, FilePositionInformation, FileStandardInformation, FlushRequest,
    FlushResponse, FrameError, Header, HeaderError, LockElement, LockResponse, LogoffRequest,
    LogoffResponse, MaximalAccess, MessageError, NetworkInterface, ObjectIdBuffer, Part,
    ReadRequest, ReplyContexts, SetInfoResponse, Span, TextError, TreeConnectResponse,
    TreeDisconnectRequest, TreeDisconnectResponse, WriteResponse,
};
