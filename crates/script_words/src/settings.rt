// The lines of settings.
ghost use Rattle.std.specs.Prelude.{◌≡◌, ◌==◌, true, false, MatchResult};
ghost use Rattle.std.specs.List.{list_any};
ghost use Rattle.std.specs.Str.{str_eq_ignore_ascii_case};
ghost use Rattle.script_words.specs.Outcome.{OutcomeGives};
ghost use Rattle.script_words.specs.Settings as settings;
ghost use Rattle.script_words.specs.declared.values.Code.TheVariants.{BadLine};
ghost use Rattle.script_words.specs.declared.values.Fault.TheVariants.{Refused};

use crate::parts::{Reading, is, is_ascii, number, short_text, text_in, word};
use crate::pieces::Pieces;
use crate::user_list::UserList;
use crate::values::{Cipher, Code, Command, Fault, Given, Setting, Signing, User};
use std::alloc::Global;
use wire_bytes::Text;

const LARGEST_ROOM: u64 = 268_435_456;

const MOST_CHANNELS: u64 = 32;

impl Command {
    pub(crate) fn serves(self) -> bool
        ensures { result ≡ settings.serves self }
    {
        matches!(self, Command::Serve)
    }

    fn runs(self) -> bool
        ensures { result ≡ settings.runs self }
    {
        matches!(self, Command::Run)
    }

    pub(crate) fn drills(self) -> bool
        ensures { result ≡ settings.drills self }
    {
        matches!(self, Command::Drill)
    }
}

/// A setting behind others; one that may not be given here is refused by its first word.
#[tactic(auto, unfolding(crate::specs::Settings::setting))]
pub(crate) fn setting(
    alloc: Global,
    command: Command,
    given: &Given,
    name: &[u8],
    line: &mut Pieces<'_>,
) -> Reading<Setting>
    ensures { OutcomeGives (λ s. (s, line.new)) result (settings.setting command given.now name.now line.old) }
{
    if is(name, "cipher") {
        unless(given.begun || given.cipher.is_some())?;
        cipher(line)
    } else if is(name, "signing") {
        unless(given.begun || given.signing.is_some())?;
        signing(line)
    } else if is(name, "room") {
        unless(given.begun || given.room.is_some())?;
        room(line)
    } else if is(name, "user") {
        unless(given.begun || (!given.users.is_empty() && !command.serves()))?;
        user(alloc, &given.users, line)
    } else if is(name, "share") {
        unless(given.begun || given.share.is_some())?;
        share(alloc, line)
    } else if is(name, "channels") {
        unless(given.begun || (given.channels.is_some() || !command.runs()))?;
        channels(line)
    } else {
        Err(Fault::Refused(Code::BadLine))
    }
}

// What may not be given here is refused.
fn unless(refused: bool) -> Reading<()>
    ensures { MatchResult result (λ _. refused ≡ false) (λ fault. (refused ≡ true) × (fault ≡ Refused BadLine)) }
{
    if refused {
        return Err(Fault::Refused(Code::BadLine));
    }
    Ok(())
}

#[tactic(auto, unfolding(crate::specs::Settings::cipher, crate::specs::Settings::cipher_of))]
fn cipher(line: &mut Pieces<'_>) -> Reading<Setting>
    ensures { OutcomeGives (λ s. (s, line.new)) result (settings.cipher line.old) }
{
    let word = word(line)?;
    if is(word, "none") {
        Ok(Setting::Cipher(Cipher::None))
    } else if is(word, "ccm") {
        Ok(Setting::Cipher(Cipher::Ccm))
    } else if is(word, "gcm") {
        Ok(Setting::Cipher(Cipher::Gcm))
    } else if is(word, "ccm256") {
        Ok(Setting::Cipher(Cipher::Ccm256))
    } else if is(word, "gcm256") {
        Ok(Setting::Cipher(Cipher::Gcm256))
    } else {
        Err(Fault::Refused(Code::BadLine))
    }
}

#[tactic(auto, unfolding(crate::specs::Settings::signing, crate::specs::Settings::signing_of))]
fn signing(line: &mut Pieces<'_>) -> Reading<Setting>
    ensures { OutcomeGives (λ s. (s, line.new)) result (settings.signing line.old) }
{
    let word = word(line)?;
    if is(word, "cmac") {
        Ok(Setting::Signing(Signing::Cmac))
    } else if is(word, "gmac") {
        Ok(Setting::Signing(Signing::Gmac))
    } else {
        Err(Fault::Refused(Code::BadLine))
    }
}

#[tactic(auto, unfolding(crate::specs::Settings::room))]
fn room(line: &mut Pieces<'_>) -> Reading<Setting>
    ensures { OutcomeGives (λ s. (s, line.new)) result (settings.room line.old) }
{
    let bytes = number(LARGEST_ROOM, line)?;
    Ok(Setting::Room(bytes))
}

#[tactic(auto, unfolding(crate::specs::Settings::user))]
fn user(alloc: Global, users: &UserList, line: &mut Pieces<'_>) -> Reading<Setting>
    ensures { OutcomeGives (λ s. (s, line.new)) result (settings.user users.now line.old) }
{
    let first = word(line)?;
    let name = user_name(alloc, users, first)?;
    let second = word(line)?;
    let password = short_text(alloc, second)?;
    Ok(Setting::User(User { name, password }))
}

fn user_name(alloc: Global, users: &UserList, word: &[u8]) -> Reading<Text>
    ensures { OutcomeGives (λ t. t) result (settings.user_name users.now word.now) }
{
    if !is_ascii(word) {
        return Err(Fault::Refused(Code::BadLine));
    }
    let Some(name) = text_in(word) else {
        return Err(Fault::Refused(Code::BadLine));
    };
    let taken = users.is_taken(alloc, name)?;
    if taken {
        return Err(Fault::Refused(Code::BadLine));
    }
    short_text(alloc, word)
}

fn same_name(a: &[u8], b: &[u8]) -> bool
    ensures { result ≡ str_eq_ignore_ascii_case a.now b.now }
{
    a.eq_ignore_ascii_case(b)
}

#[tactic(auto, unfolding(crate::specs::Settings::share))]
fn share(alloc: Global, line: &mut Pieces<'_>) -> Reading<Setting>
    ensures { OutcomeGives (λ s. (s, line.new)) result (settings.share line.old) }
{
    let word = word(line)?;
    let name = share_name(alloc, word)?;
    Ok(Setting::Share(name))
}

fn share_name(alloc: Global, word: &[u8]) -> Reading<Text>
    ensures { OutcomeGives (λ t. t) result (settings.share_name word.now) }
{
    if has_backslash(word) || same_name(word, b"IPC$") {
        return Err(Fault::Refused(Code::BadLine));
    }
    short_text(alloc, word)
}

fn has_backslash(word: &[u8]) -> bool
    ensures { result ≡ list_any (λ byte. byte == 92) word.now }
{
    word.iter().any(|byte| *byte == b'\\')
}

#[tactic(auto, unfolding(crate::specs::Settings::channels))]
fn channels(line: &mut Pieces<'_>) -> Reading<Setting>
    ensures { OutcomeGives (λ s. (s, line.new)) result (settings.channels line.old) }
{
    let count = number(MOST_CHANNELS, line)? as u32;
    if count == 0 {
        return Err(Fault::Refused(Code::BadLine));
    }
    Ok(Setting::Channels(count))
}
