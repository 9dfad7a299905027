//! TREE_CONNECT and CREATE with their responses (MS-SMB2 2.2.9, 2.2.10, 2.2.13, 2.2.14).
use crate::draws::create_guid;
use crate::frames::{Line, SESSION, header, push_guarded};
use crate::greeting::START;
use std::alloc::{AllocError, Global};
use wire_bytes::{
    CreateContexts, CreateRequest, CreateResponse, Dh2q, Dh2qReply, ReplyContexts,
    TreeConnectRequest, TreeConnectResponse, utf16_of, write_chain, write_create_request,
    write_create_response, write_reply_chain, write_tree_connect_request,
    write_tree_connect_response,
};

const SHARE: &str = "\\\\smb311\\data";

const PATH: &str = "disk.img";

/// The first open's id, twice.
const FILE: [u8; 16] = [1, 0, 0, 0, 1, 0, 0, 0, 1, 0, 0, 0, 1, 0, 0, 0];

pub fn tree(lines: &mut String, alloc: Global, line: &Line) -> Result<(), AllocError> {
    let units = utf16_of(alloc, SHARE)?;
    let path = units.as_slice();
    if path.len() >= 0x1_0000 {
        return lines.push_str("a long path\n");
    }
    let value = TreeConnectRequest { flags: 0, path };
    let body = write_tree_connect_request(alloc, &value);
    push_guarded(
        lines,
        alloc,
        line,
        true,
        0,
        &header(true, 3, 3, SESSION, 0),
        body,
    )
}

/// A disk that is continuously available 0x10.
pub fn tree_reply(lines: &mut String, alloc: Global, line: &Line) -> Result<(), AllocError> {
    let value = TreeConnectResponse {
        share_type: 1,
        share_flags: 0,
        capabilities: 0x10,
        maximal_access: 0x1f_01ff,
    };
    let body = write_tree_connect_response(alloc, &value);
    push_guarded(
        lines,
        alloc,
        line,
        false,
        0,
        &header(false, 3, 3, SESSION, 1),
        body,
    )
}

// A persistent open, of the server's own timeout.
fn durable() -> CreateContexts {
    CreateContexts {
        dh2q: Some(Dh2q {
            timeout: 0,
            persistent: true,
            guid: create_guid(),
        }),
        dh2c: None,
        mxac: false,
        qfid: false,
    }
}

/// A file is opened or made, for reading and writing; other writers are denied.
pub fn create(lines: &mut String, alloc: Global, line: &Line) -> Result<(), AllocError> {
    let units = utf16_of(alloc, PATH)?;
    let chain = write_chain(alloc, &durable())?;
    let name = units.as_slice();
    let contexts = chain.as_slice();
    if name.len() >= 0x1_0000 || contexts.len() >= 0x1_0000 {
        return lines.push_str("a long name\n");
    }
    let value = CreateRequest {
        requested_oplock_level: 0,
        impersonation_level: 2,
        desired_access: 0x12_019f,
        file_attributes: 0,
        share_access: 1,
        create_disposition: 3,
        create_options: 0x40,
        name,
        contexts,
    };
    let body = write_create_request(alloc, &value);
    push_guarded(
        lines,
        alloc,
        line,
        true,
        1,
        &header(true, 5, 4, SESSION, 1),
        body,
    )
}

// It is kept for a minute without a session.
fn kept() -> ReplyContexts {
    ReplyContexts {
        dh2q: Some(Dh2qReply {
            timeout: 60_000,
            persistent: true,
        }),
        mxac: None,
        qfid: None,
    }
}

/// The file was made at the moment of this event, and is empty; its one attribute is ARCHIVE, 0x20 (MS-FSA 2.1.5.1.1).
pub fn create_reply(lines: &mut String, alloc: Global, line: &Line) -> Result<(), AllocError> {
    let chain = write_reply_chain(alloc, &kept())?;
    let contexts = chain.as_slice();
    if contexts.len() >= 0x1_0000 {
        return lines.push_str("long contexts\n");
    }
    let now = START + 11;
    let value = CreateResponse {
        oplock_level: 0,
        flags: 0,
        create_action: 2,
        creation_time: now,
        last_access_time: now,
        last_write_time: now,
        change_time: now,
        allocation_size: 0,
        end_of_file: 0,
        file_attributes: 0x20,
        file_id: FILE,
        contexts,
    };
    let body = write_create_response(alloc, &value);
    push_guarded(
        lines,
        alloc,
        line,
        false,
        1,
        &header(false, 5, 4, SESSION, 1),
        body,
    )
}
