use base_outside::MemDisk;
use crypto_sessions::Users;
use server_checks::Config;
use std::alloc::{AllocError, Global};
use wire_bytes::{Bytes, Text};
use wire_commands::Address;

fn push_user(
    users: &mut Users,
    alloc: Global,
    name: &str,
    password: &str,
) -> Result<(), AllocError> {
    let name = Text::from_str(alloc, name)?;
    users.push(name, Text::from_str(alloc, password)?)
}

fn users(alloc: Global, bare: bool) -> Result<Users, AllocError> {
    let mut users = Users::new(alloc, bare);
    push_user(&mut users, alloc, "User", "Password")?;
    push_user(&mut users, alloc, "other", "word")?;
    Ok(users)
}

/// What a server is told, with so many bytes for all files, and whether it takes NTLM's messages alone too.
pub fn config(alloc: Global, room: u64, encrypts: bool, bare: bool) -> Result<Config, AllocError> {
    let share = Text::from_str(alloc, "data")?;
    Ok(Config {
        users: users(alloc, bare)?,
        share,
        room,
        encrypts,
        address: Address {
            ip: 0x7f00_0001,
            port: 445,
        },
    })
}

/// A disk of these bytes whose call k fails where byte k of the plan is 1.
pub fn disk_of(alloc: Global, bytes: &[u8], plan: &[u8]) -> Result<MemDisk, AllocError> {
    let bytes = Bytes::from_slice(alloc, bytes)?;
    MemDisk::new(alloc, bytes, Bytes::from_slice(alloc, plan)?)
}
