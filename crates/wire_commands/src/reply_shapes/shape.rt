//! A command of which only what its replies' bodies are written by is left.
ghost use Rattle.std.specs.Prelude.{◌≡◌, List, ℕ};
ghost use Rattle.spec_commands.specs.ReplyBody.{reply_body};
ghost use Rattle.wire_commands.specs.values.Meaning.{command_of};
ghost use Rattle.spec_exchange.specs.State.{Reply};

use crate::values::{Command, CreateRequest, Setting, SetupRequest, Shows};
use std::alloc::Global;
use wire_bytes::Text;

/// A SESSION_SETUP of which nothing is told. All successes of SESSION_SETUP have bodies of one form.
pub fn no_setup() -> SetupRequest {
    SetupRequest {
        readable: false,
        binding: false,
        signed: false,
        verified: false,
        previous: 0,
        cipher: 0,
        signing: 0,
        shows: Shows::Bad,
    }
}

fn no_create(alloc: Global) -> CreateRequest {
    CreateRequest {
        path: Text::new(alloc),
        access: 0,
        share: 0,
        attributes: 0,
        disposition: 0,
        options: 0,
        durable: None,
        reconnect: None,
        maximal: false,
        disk_id: false,
    }
}

/// A command whose replies have the same bodies: of the same kind, with the same numbers, without texts and lists. It takes no memory.
pub fn shape_of<'a>(alloc: Global, command: &Command<'a>) -> Command<'a>
    ensures { (token : List ℕ) (r : Reply) → reply_body token (command_of result) r ≡ reply_body token (command_of command.now) r }
{
    // The server takes the command itself, and its reply is written afterwards: this is what the writer then asks of
    // it. Texts and lists stay empty, because they would take memory.
    match command {
        Command::Unreadable { status } => Command::Unreadable { status: *status },
        Command::Aside { status } => Command::Aside { status: *status },
        Command::Setup(_) => Command::Setup(no_setup()),
        Command::Logoff => Command::Logoff,
        Command::TreeConnect { share: _ } => Command::TreeConnect {
            share: Text::new(alloc),
        },
        Command::TreeDisconnect => Command::TreeDisconnect,
        Command::Create(_) => Command::Create(no_create(alloc)),
        Command::Close { file, query } => Command::Close {
            file: *file,
            query: *query,
        },
        Command::Flush { file } => Command::Flush { file: *file },
        Command::Read {
            file,
            at,
            size,
            minimum,
            channel,
        } => Command::Read {
            file: *file,
            at: *at,
            size: *size,
            minimum: *minimum,
            channel: *channel,
        },
        Command::Write {
            file,
            at,
            bytes,
            channel,
        } => Command::Write {
            file: *file,
            at: *at,
            bytes: *bytes,
            channel: *channel,
        },
        Command::Lock {
            file,
            index,
            number,
            elements: _,
        } => Command::Lock {
            file: *file,
            index: *index,
            number: *number,
            elements: Vec::new(alloc),
        },
        Command::Ioctl { file, code, room } => Command::Ioctl {
            file: *file,
            code: *code,
            room: *room,
        },
        Command::ListDirectory {
            file,
            class,
            restart,
            single,
            pattern: _,
            room,
        } => Command::ListDirectory {
            file: *file,
            class: *class,
            restart: *restart,
            single: *single,
            pattern: Text::new(alloc),
            room: *room,
        },
        Command::QueryFile { file, class, room } => Command::QueryFile {
            file: *file,
            class: *class,
            room: *room,
        },
        Command::QueryVolume { file, class, room } => Command::QueryVolume {
            file: *file,
            class: *class,
            room: *room,
        },
        Command::SetInfo { file, setting: _ } => Command::SetInfo {
            file: *file,
            setting: Setting::SetDelete { marked: false },
        },
    }
}
