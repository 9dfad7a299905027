//! The most bytes that the body of a reply takes.
ghost use Rattle.std.specs.Prelude.{◌≡◌, ◌+◌, min};
ghost use Rattle.wire_commands.specs.values.Meaning.{command_of};
ghost use Rattle.wire_commands.specs.reply_shapes.Room.{reply_room};

use crate::values::Command;

// What is asked for, of which a request may ask for 1,048,576 bytes, behind a fixed part.
fn asked(size: u32) -> usize
    ensures { result ≡ 512 + min size 1048576 }
{
    if size < 0x10_0000 {
        return 512 + size as usize;
    }
    512 + 0x10_0000
}

/// The most bytes that the body of a reply to a command takes, by the law of `replies_law`; at most 1,049,088.
pub fn room_for(command: &Command<'_>) -> usize
    ensures { result ≡ reply_room (command_of command.now) }
{
    match command {
        Command::Setup(_) => 66_048,
        Command::Read { size, .. } => asked(*size),
        Command::ListDirectory { room, .. } => asked(*room),
        Command::QueryFile { room, .. } => asked(*room),
        _ => 512,
    }
}
