// A row: what the server stands on, and its events.
use crate::event_calls::{CountingDisk, Fault, disk_of, kept};
use crate::event_server::{Running, Runs, Waiting};
use crate::stage::Stage;
use crate::words::{has, number_or, option, payload};
use base_outside::MemDisk;
use std::alloc::Global;
use std::fmt::Write;

// Events that prepare others.
fn prepare<S: Runs>(stage: &mut Stage<S>, events: &str) -> Result<(), Fault> {
    for event in events.split("; ") {
        stage.prepare(event)?;
    }
    Ok(())
}

fn answer_each<S: Runs>(
    said: &mut String,
    stage: &mut Stage<S>,
    events: &str,
) -> Result<(), Fault> {
    let mut is_first = true;
    for event in events.split("; ") {
        stage.answer(event)?;
        if !is_first {
            said.push_str("; ")?;
        }
        said.push_str(stage.said())?;
        is_first = false;
    }
    Ok(())
}

// What is answered to events where the server begins on a disk, or why there is none.
fn answered<S: Runs>(
    said: &mut String,
    stage: &mut Stage<S>,
    disk: S::D,
    events: &str,
) -> Result<(), Fault> {
    stage.begin(disk)?;
    if !stage.is_begun() {
        return kept(said.push_str(stage.said()));
    }
    match events.split_once(" > ") {
        Some((before, asked)) => {
            prepare(stage, before)?;
            answer_each(said, stage, asked)
        }
        None => answer_each(said, stage, events),
    }
}

// The same on a stage of its own.
fn said_on<S: Runs>(
    said: &mut String,
    alloc: Global,
    disk: S::D,
    words: &[&str],
    events: &str,
) -> Result<(), Fault> {
    let room = number_or(words, "room", 268_435_456);
    let mut stage = Stage::<S>::new(alloc, room, has(words, "sealed"), has(words, "any"));
    answered(said, &mut stage, disk, events)
}

fn disk_in(alloc: Global, words: &[&str]) -> Result<MemDisk, Fault> {
    let bytes = payload(alloc, option(words, "disk").unwrap_or("-"))?;
    let plan = payload(alloc, option(words, "plan").unwrap_or("-"))?;
    kept(disk_of(alloc, &bytes, &plan))
}

// Tells what a front of a frame comes to, where that is another than the last one.
fn push_change(
    said: &mut String,
    last: &mut String,
    told: &str,
    length: usize,
) -> Result<(), Fault> {
    if told == last.as_str() {
        return Ok(());
    }
    let comma = if length == 0 { "" } else { ", " };
    write!(said, "{comma}{length} {told}")?;
    last.clear();
    kept(last.push_str(told))
}

// What each front of a frame comes to, on a server of its own behind the events that prepare it: the lengths from which that is another.
fn push_fronts<S: Runs<D = MemDisk>>(
    said: &mut String,
    last: &mut String,
    stage: &mut Stage<S>,
    alloc: Global,
    before: &str,
    word: &str,
    frame: &[u8],
) -> Result<(), Fault> {
    for length in 0..=frame.len() {
        let front = frame.get(..length).unwrap_or(&[]);
        stage.begin(kept(disk_of(alloc, &[], &[]))?)?;
        prepare(stage, before)?;
        stage.frame(word, front)?;
        push_change(said, last, stage.said(), length)?;
    }
    Ok(())
}

// The same of `frame DIGITS` or `sealed DIGITS`, the text of a sealed frame being cut before it is sealed.
fn cut_on<S: Runs<D = MemDisk>>(
    said: &mut String,
    alloc: Global,
    words: &[&str],
    before: &str,
    asked: &str,
) -> Result<(), Fault> {
    let (word, digits) = asked.split_once(" ").unwrap_or((asked, ""));
    let frame = payload(alloc, digits)?;
    let mut stage = Stage::<S>::new(alloc, 268_435_456, has(words, "sealed"), has(words, "any"));
    let mut last = String::new(alloc);
    push_fronts(said, &mut last, &mut stage, alloc, before, word, &frame)
}

fn said_by(said: &mut String, alloc: Global, words: &[&str], events: &str) -> Result<(), Fault> {
    if let Some((before, asked)) = events.split_once(" > cuts ") {
        return cut_on::<Running<MemDisk>>(said, alloc, words, before, asked);
    }
    if has(words, "counting") {
        return said_on::<Running<CountingDisk>>(said, alloc, CountingDisk::new(), words, events);
    }
    let disk = disk_in(alloc, words)?;
    if has(words, "waits") {
        return said_on::<Waiting<MemDisk>>(said, alloc, disk, words, events);
    }
    said_on::<Running<MemDisk>>(said, alloc, disk, words, events)
}

/// Puts what is answered to a row.
pub fn push_answer(said: &mut String, alloc: Global, given: &str) -> Result<(), Fault> {
    let (head, events) = given.split_once(" | ").unwrap_or((given, ""));
    let words: Vec<&str> = head.split(" ").collect(alloc)?;
    said_by(said, alloc, &words, events)
}
