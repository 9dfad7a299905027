//! The lines on the connections that were served.
ghost use Rattle.std.specs.Prelude.{◌≡◌, ◌+◌, ◌++◌, OnOk};
ghost use Rattle.std.specs.String.{string_bytes};
ghost use Rattle.serve_turns.specs.link_serving.Lines.{end_level, end_word, ended_level, ended_word, ended_line, ended_lines, shown_line};

use crate::link_serving::ended::{ConnEnd, Ended};
use log::{Level, LevelFilter};
use std::alloc::AllocError;
use std::fmt::Write;

fn end_level(end: ConnEnd) -> Level
    ensures { result ≡ end_level end }
{
    match end {
        ConnEnd::BadFrame
        | ConnEnd::OutsideWindow(_)
        | ConnEnd::SecondNegotiate
        | ConnEnd::Unsealable
        | ConnEnd::Spent
        | ConnEnd::Full => Level::Warn,
        ConnEnd::LinkFault(_) | ConnEnd::Stopped(_) | ConnEnd::Memory => Level::Error,
    }
}

fn end_word(end: ConnEnd) -> &'static str
    ensures { result.now ≡ end_word end }
{
    match end {
        ConnEnd::BadFrame => "bad-frame",
        ConnEnd::OutsideWindow(_) => "outside-window",
        ConnEnd::SecondNegotiate => "second-negotiate",
        ConnEnd::Unsealable => "unsealable",
        ConnEnd::Spent => "spent",
        ConnEnd::Full => "full",
        ConnEnd::LinkFault(_) => "link-fault",
        ConnEnd::Stopped(_) => "stopped",
        ConnEnd::Memory => "memory",
    }
}

fn level_of(ended: Ended) -> Level
    ensures { result ≡ ended_level ended }
{
    match ended {
        Ended::Closed => Level::Info,
        Ended::By(end) => end_level(end),
    }
}

/// The word of an end.
pub(crate) fn word_of(ended: Ended) -> &'static str
    ensures { result.now ≡ ended_word ended }
{
    match ended {
        Ended::Closed => "closed",
        Ended::By(end) => end_word(end),
    }
}

#[tactic(auto, unfolding(crate::specs::link_serving::Lines::ended_line))]
fn push_line(out: &mut String, number: usize, ended: Ended) -> Result<(), AllocError>
    ensures { OnOk result (string_bytes out.new ≡ string_bytes out.old ++ ended_line number ended) }
{
    let level = level_of(ended).as_str();
    let word = word_of(ended);
    writeln!(out, "{level} connection {number} {word}")
}

/// Adds the line of a connection whose level the filter lets through.
fn push_shown(
    out: &mut String,
    filter: LevelFilter,
    number: usize,
    ended: Ended,
) -> Result<(), AllocError>
    ensures { OnOk result (string_bytes out.new ≡ string_bytes out.old ++ shown_line filter number ended) }
{
    if filter.allows(level_of(ended)) {
        return push_line(out, number, ended);
    }
    Ok(())
}

/// Adds a line for each connection whose level the filter lets through. Connections stand in the order
/// in which they were accepted, and are counted from 1.
pub fn push_lines(
    out: &mut String,
    filter: LevelFilter,
    connections: &[Ended],
) -> Result<(), AllocError>
    ensures { OnOk result (string_bytes out.new ≡ string_bytes out.old ++ ended_lines filter 1 connections.now) }
{
    for (at, ended) in connections.iter().enumerate() {
        push_shown(out, filter, at + 1, *ended)?;
    }
    Ok(())
}
