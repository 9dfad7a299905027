//! What a link is told of its connection's frames: which SESSION_SETUPs made a session or were refused, by which name. It is for lines of a
//! log and for the count of refused logons alone, and no contract speaks of it. Each message tells by its own answer, also in a sealed frame
//! and behind others: passwords could else be guessed there without being counted.
ghost use Rattle.std.specs.Prelude.{◌≤◌, length};

use base_outside::{News, SentName};
use conn_core::{Checked, CheckedFrame, Replies, Reply, ServeError, has_event};
use wire_bytes::{u16_at, u32_at};

const SESSION_SETUP: u16 = 1;

/// SMB2_SESSION_FLAG_BINDING (MS-SMB2 2.2.5)
const BINDING: u8 = 1;

const SUCCESS: u32 = 0;

/// STATUS_MORE_PROCESSING_REQUIRED (MS-ERREF 2.3.1)
const GOES_ON: u32 = 0xc000_0016;

/// STATUS_NO_MEMORY
const NO_MEMORY: u32 = 0xc000_0017;

/// Signature and MessageType of an AUTHENTICATE_MESSAGE (MS-NLMP 2.2.1.3).
const AUTHENTICATE: &[u8] = b"NTLMSSP\0\x03\0\0\0";

/// Up to where that is looked for in a token, whose other parts in front of it are short.
const SEARCHED: usize = 4096;

/// What a SESSION_SETUP asks: whether to bind the session that stands, and for whom.
#[derive(Clone, Copy)]
struct Setup {
    binding: bool,
    name: SentName,
}

fn no_name() -> SentName {
    SentName {
        units: [0; 64],
        length: 0,
    }
}

/// The AUTHENTICATE_MESSAGE in a token, and what follows it.
fn authenticate_in(token: &[u8]) -> Option<&[u8]> {
    for at in 0..token.len().min(SEARCHED) {
        let rest = &token[at..];
        if rest.starts_with(AUTHENTICATE) {
            return Some(rest);
        }
    }
    None
}

/// The user's name in an AUTHENTICATE_MESSAGE, where its fields stand and it lies within.
fn name_of(message: &[u8]) -> SentName {
    let mut name = no_name();
    if message.len() < 44 {
        return name;
    }
    let length = usize::from(u16_at(message, 36)).min(64) / 2 * 2;
    let at = u32_at(message, 40) as usize;
    if at > message.len() || length > message.len() - at {
        return name;
    }
    name.units[..length].copy_from_slice(&message[at..at + length]);
    name.length = length as u8;
    name
}

/// The security buffer of a SESSION_SETUP request, as much of it as is there (MS-SMB2 2.2.5).
fn token_of(message: &[u8]) -> &[u8]
    requires { 88 ≤ length message.now }
{
    let at = usize::from(u16_at(message, 76)).min(message.len());
    let length = usize::from(u16_at(message, 78)).min(message.len() - at);
    &message[at..at + length]
}

/// What a SESSION_SETUP asks.
fn setup_asks(message: &[u8]) -> Setup {
    if message.len() < 88 {
        return Setup {
            binding: false,
            name: no_name(),
        };
    }
    let binding = message[66] & BINDING != 0;
    let name = match authenticate_in(token_of(message)) {
        Some(found) => name_of(found),
        None => no_name(),
    };
    Setup { binding, name }
}

/// What a SESSION_SETUP brought that asked this, by its status.
fn brought_by(setup: Setup, status: u32) -> News {
    let Setup { binding, name } = setup;
    match status {
        SUCCESS if binding => News::Bound(name),
        SUCCESS => News::LoggedOn(name),
        GOES_ON => News::Nothing,
        _ => News::Refused(name),
    }
}

/// The status of an answer in a frame that goes on: its event found no memory, where it has no reply.
fn status_of(answer: &Result<Reply, ServeError>) -> u32 {
    match answer {
        Ok(reply) => reply.status,
        Err(_) => NO_MEMORY,
    }
}

/// The status of a message behind the answers of those in front of it: that with which it fails, or by the next answer, if it asks something
/// and has one. None of a message of which the server heard nothing.
fn answered(
    checked: &Checked,
    asks: bool,
    next: Option<&Result<Reply, ServeError>>,
) -> Option<u32> {
    if checked.fails.is_some() {
        return checked.fails;
    }
    if !asks {
        return None;
    }
    match next {
        Some(answer) => Some(status_of(answer)),
        None => None,
    }
}

/// What a message brought that has this status.
fn message_news(bytes: &[u8], checked: &Checked, status: u32) -> News {
    if checked.header.command != SESSION_SETUP {
        return News::Nothing;
    }
    match bytes.get(checked.span.start..checked.span.end) {
        Some(message) => brought_by(setup_asks(message), status),
        None => News::Nothing,
    }
}

/// The first of both that says something. At most one SESSION_SETUP of a frame is heard, and none stands in front of it.
fn first_of(before: Option<News>, next: News) -> News {
    match before {
        None | Some(News::Nothing) => next,
        Some(news) => news,
    }
}

/// What a frame brought by the answers to its messages; none where the server heard nothing of it.
pub(crate) fn news_of(asked: &CheckedFrame, replies: &Replies) -> Option<News> {
    let mut news = None;
    let mut place: usize = 0;
    for checked in asked.messages.as_slice() {
        let asks = has_event(checked);
        if let Some(status) = answered(checked, asks, replies.items.get(place)) {
            news = Some(first_of(news, message_news(asked.bytes.as_slice(), checked, status)));
        }
        if asks {
            place = place.saturating_add(1);
        }
    }
    news
}
