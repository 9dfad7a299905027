// The lines of a script.
ghost use Rattle.std.specs.Prelude.{◌≡◌, ◌==◌, ◌&&◌, ◌+◌, ◌<◌, ◌≤◌, length, IfOk, OnOk};
ghost use Rattle.script_words.specs.Outcome.{OutcomeGives};
ghost use Rattle.script_words.specs.text_lines.Script as script;
ghost use Rattle.script_words.specs.text_lines.Views.{read_of, fault_at_line};

use crate::text_lines::limits::{SCRIPT_BYTES, SCRIPT_LINES, SCRIPT_OPERATIONS};
use crate::text_lines::line::{Line, Refusal, Script};
use crate::{
    Code, Command, Fault, Given, Pieces, Setting, Statement, UserList, is_text, statement,
};
use std::alloc::{AllocError, Global};
use std::collections::VecDeque;

/// What a script says to the command that reads it, or its first refused line. The whole text is judged.
///
/// It takes at most 268,435,456 bytes, 4,194,304 lines and 1,048,576 operations; the line that passes one of these is too long.
pub fn script(alloc: Global, command: Command, text: &[u8]) -> Result<Script, Fault<Refusal>>
    ensures { OutcomeGives read_of result (script.script command text.now) }
{
    if text.len() > SCRIPT_BYTES {
        lines(alloc, command, true, &text[..SCRIPT_BYTES])
    } else {
        lines(alloc, command, false, without_last_feed(text))
    }
}

fn without_last_feed(text: &[u8]) -> &[u8]
    ensures { result.now ≡ script.without_last_feed text.now }
{
    if text.is_empty() || text[text.len() - 1] != b'\n' {
        return text;
    }
    &text[..text.len() - 1]
}

// The lines of a text of which each feed ends one. Where it was cut, the last passes the limit.
fn lines(alloc: Global, command: Command, cut: bool, text: &[u8]) -> Result<Script, Fault<Refusal>>
    ensures { OutcomeGives read_of result (script.lines_of command cut text.now) }
{
    let mut rest = Pieces::new(text, b'\n');
    let mut progress = Progress::new(alloc);
    while let Some(line) = rest.next() {
        let past = passes(cut, &rest);
        progress.take(alloc, command, past, line)?;
    }
    Ok(Script {
        given: progress.given,
        lines: progress.lines,
    })
}

// The line before the rest passes the limit on bytes: it is the last of a text that was cut there.
fn passes(cut: bool, rest: &Pieces<'_>) -> bool
    ensures { result ≡ (cut && (length rest.now == 0)) }
{
    cut && rest.is_empty()
}

// What was read so far: how many lines, of each operation whether it is a create, the settings, and the other lines.
#[derive(Drop)]
struct Progress {
    lines: VecDeque<Line>,
    number: u64,
    creates: Vec<bool>,
    given: Given,
    ghost lines_fit: { number ≤ 4194304 },
    ghost operations_fit: { length creates.items ≤ 1048576 },
}

impl Progress {
    ghost use Rattle.std.specs.Prelude.{[]};
    ghost use Rattle.script_words.specs.text_lines.Progress.{ReadingAdvances, ReadingBegins, ReadingKeeps};

    fn new(alloc: Global) -> Progress
        ensures { ReadingBegins result }
    {
        Progress {
            lines: VecDeque::new(alloc),
            number: 0,
            creates: Vec::new(alloc),
            given: Given {
                cipher: None,
                signing: None,
                room: None,
                users: UserList::new(alloc),
                share: None,
                channels: None,
                begun: false,
            },
        }
    }

    // Reads one line more, which is refused where it passes the limit on bytes.
    fn take(
        &mut self,
        alloc: Global,
        command: Command,
        past: bool,
        line: &[u8],
    ) -> Result<(), Fault<Refusal>>
        ensures { ReadingAdvances self.old self.new result (script.at_line (self.old.number + 1)
            (script.judged command past self.old.number self.old.creates.items self.old.given line.now)) }
    {
        let said = judged(
            alloc,
            command,
            past,
            self.number,
            self.creates.as_slice(),
            &self.given,
            line,
        );
        let says = at_line(self.number + 1, said)?;
        self.keep(says)?;
        Ok(())
    }

    // Keeps what the next line says.
    fn keep(&mut self, says: Option<Statement>) -> Result<(), Fault<Refusal>>
        requires lines { self.old.number < 4194304 }
        requires operations { length self.old.creates.items + length (script.creates_said says) ≤ 1048576 }
        ensures { ReadingKeeps self.old self.new result says }
    {
        let number = self.number + 1;
        match says {
            None => {}
            Some(Statement::Setting(setting)) => give(&mut self.given, setting)?,
            Some(Statement::Operation(kind)) => {
                self.creates.push(kind.is_create())?;
                self.given.begun = true;
                let statement = Statement::Operation(kind);
                self.lines.push_back(Line { number, statement })?;
            }
            Some(Statement::Event(event)) => {
                self.given.begun = true;
                let statement = Statement::Event(event);
                self.lines.push_back(Line { number, statement })?;
            }
        }
        self.number = number;
        Ok(())
    }
}

// A setting more. Where memory runs out nothing is read any more.
fn give(given: &mut Given, setting: Setting) -> Result<(), AllocError>
    ensures { OnOk result (given.new ≡ script.given_with given.old setting) }
{
    match setting {
        Setting::Cipher(cipher) => given.cipher = Some(cipher),
        Setting::Signing(signing) => given.signing = Some(signing),
        Setting::Room(room) => given.room = Some(room),
        Setting::User(user) => given.users.push(user)?,
        Setting::Share(share) => given.share = Some(share),
        Setting::Channels(channels) => given.channels = Some(channels),
    }
    Ok(())
}

// What a line says behind so many lines, and behind operations and settings.
#[tactic(auto, unfolding(crate::specs::text_lines::Script::judged))]
fn judged(
    alloc: Global,
    command: Command,
    past: bool,
    lines: u64,
    creates: &[bool],
    given: &Given,
    line: &[u8],
) -> Result<Option<Statement>, Fault<Code>>
    requires { length creates.now ≤ 1048576 }
    ensures value { OutcomeGives (λ says. says) result (script.judged command past lines creates.now given.now line.now) }
    ensures lines_fit { OnOk result (lines < 4194304) }
    ensures operations_fit { IfOk result (λ says. length creates.now + length (script.creates_said says) ≤ 1048576) }
{
    // Limits on the text come before the words, so such a line is too long whatever it says. One operation too many
    // is told only of a line that is well formed.
    if past || lines >= SCRIPT_LINES {
        return Err(Fault::Refused(Code::TooLong));
    }
    let says = said(alloc, command, creates, given, line)?;
    if creates.len() + operations_said(&says) > SCRIPT_OPERATIONS as usize {
        return Err(Fault::Refused(Code::TooLong));
    }
    Ok(says)
}

// What a line says by itself.
#[tactic(auto, unfolding(crate::specs::text_lines::Script::said))]
fn said(
    alloc: Global,
    command: Command,
    creates: &[bool],
    given: &Given,
    line: &[u8],
) -> Result<Option<Statement>, Fault<Code>>
    requires { length creates.now ≤ 1048576 }
    ensures { OutcomeGives (λ says. says) result (script.said command creates.now given.now line.now) }
{
    if !is_text(line) {
        return Err(Fault::Refused(Code::BadLine));
    }
    if line.is_empty() || line[0] == b'#' {
        return Ok(None);
    }
    let says = statement(alloc, command, creates, given, Pieces::new(line, b' '))?;
    Ok(Some(says))
}

fn operations_said(says: &Option<Statement>) -> usize
    ensures value { result ≡ length (script.creates_said says.now) }
    ensures bound { result ≤ 1 }
{
    match says {
        Some(Statement::Operation(_)) => 1,
        _ => 0,
    }
}

fn at_line<T>(line: u64, said: Result<T, Fault<Code>>) -> Result<T, Fault<Refusal>>
    ensures { result ≡ fault_at_line line said }
{
    match said {
        Ok(value) => Ok(value),
        Err(Fault::Memory) => Err(Fault::Memory),
        Err(Fault::Refused(code)) => Err(Fault::Refused(Refusal { line, code })),
    }
}
