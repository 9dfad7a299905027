//! A text of settings without the lines that `serve` alone knows.
ghost use Rattle.std.specs.Prelude.{◌≡◌, ◌==◌, ◌++◌, ◌≤◌, ◌+◌, ◌^◌, length, replicate, IfOk, OnOk};
ghost use Rattle.std.specs.List.{count_by, list_any};
ghost use Rattle.script_words.specs.Pieces.{pieces};
ghost use Rattle.serve_command.specs.server_settings.Served as served;

use crate::server_settings::own::{Own, own_said};
use script_words::Pieces;
use std::alloc::{AllocError, Global};

/// A text for the grammar of scripts, and the settings that were taken out of it.
#[derive(Drop)]
pub(crate) struct Marked {
    pub text: Vec<u8>,
    pub own: Own,
}

fn is_control(byte: u8) -> bool
    ensures { result ≡ served.is_control byte }
{
    byte < 32 || byte == 127
}

fn is_control_among(line: &[u8]) -> bool
    ensures { result ≡ list_any served.is_control line.now }
{
    line.iter().any(|byte| is_control(*byte))
}

fn has_control(line: &[u8]) -> bool
    ensures { result ≡ served.has_control line.now }
{
    if line.is_empty() || line[0] == b'#' {
        return false;
    }
    is_control_among(line)
}

// So many bytes more, which are all the same.
fn fill(text: &mut Vec<u8>, count: usize, byte: u8) -> Result<(), AllocError>
    requires { count ≤ 2 ^ 63 }
    ensures { OnOk result (text.new.items ≡ text.old.items ++ replicate count byte) }
{
    text.resize(text.len() + count, byte)
}

fn push_line(text: &mut Vec<u8>, said: &Option<Own>, line: &[u8]) -> Result<(), AllocError>
    ensures { OnOk result (text.new.items ≡ text.old.items ++ served.as_line said.now line.now) }
{
    match said {
        Some(_) => fill(text, line.len(), b'#'),
        None => {
            if has_control(line) {
                return fill(text, line.len(), b'?');
            }
            text.extend_from_slice(line)
        }
    }
}

fn push_feed(text: &mut Vec<u8>, rest: &Pieces<'_>) -> Result<(), AllocError>
    ensures { OnOk result (text.new.items ≡ text.old.items ++ served.feed_before rest.now) }
{
    if rest.is_empty() {
        return Ok(());
    }
    text.push(b'\n')?;
    Ok(())
}

impl Marked {
    /// One line more, with its line feed where lines are left.
    fn take(&mut self, line: &[u8], rest: &Pieces<'_>) -> Result<(), AllocError>
        ensures text { OnOk result (self.new.text.items ≡ self.old.text.items
            ++ (served.as_line (served.own_said self.old.own (pieces 32 line.now)) line.now ++ served.feed_before rest.now)) }
        ensures own { OnOk result (self.new.own ≡ served.behind self.old.own (served.own_said self.old.own (pieces 32 line.now))) }
    {
        let said = own_said(&self.own, line);
        push_line(&mut self.text, &said, line)?;
        push_feed(&mut self.text, rest)?;
        self.own = said.unwrap_or(self.own);
        Ok(())
    }
}

/// The lines that `serve` alone knows are taken out of a text, which keeps its length.
pub(crate) fn mark(alloc: Global, text: &[u8]) -> Result<Marked, AllocError>
    ensures text { IfOk result (λ m. m.text.items ≡ served.marked text.now) }
    ensures own { IfOk result (λ m. m.own ≡ served.own_of text.now) }
    ensures length { IfOk result (λ m. length m.text.items ≡ length text.now) }
{
    let mut marked = Marked {
        text: Vec::with_capacity(alloc, text.len())?,
        own: Own {
            printed: None,
            patience: None,
            peers: None,
            bare: None,
        },
    };
    let mut rest = Pieces::new(text, b'\n');
    while let Some(line) = rest.next() {
        marked.take(line, &rest)?;
    }
    Ok(marked)
}

fn feeds_in(text: &[u8]) -> usize
    ensures is { result ≡ count_by (λ byte. byte == 10) text.now }
    ensures bound { result ≤ length text.now }
{
    text.iter().filter(|byte| **byte == b'\n').count()
}

/// How many lines a text has.
#[tactic(auto, unfolding(crate::specs::server_settings::Served::line_count))]
pub(crate) fn line_count(text: &[u8]) -> u64
    ensures is { result ≡ served.line_count text.now }
    ensures bound { result ≤ length text.now + 1 }
{
    let feeds = feeds_in(text) as u64;
    if text.is_empty() || text[text.len() - 1] == b'\n' {
        return feeds;
    }
    feeds + 1
}
