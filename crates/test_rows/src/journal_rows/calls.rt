// Calls of a journal, by the words of a row, with `; ` between them: `append BYTES`, `epoch BYTES` where the body is one of an epoch,
// `stage BYTES`, `settle`, `reserve LENGTH`, `next`, `bodies`.
use crate::words::{Fault, Words, push_digits};
use base_outside::Disk;
use journal::{Journal, JournalError, RefusedStart};
use std::alloc::{AllocError, Global};
use std::fmt::Write;

/// Puts what is answered to the calls, or why there is no journal.
pub fn push_calls<D: Disk + Drop>(
    said: &mut String,
    alloc: Global,
    opened: Result<Journal<D>, RefusedStart<D>>,
    calls: &str,
) -> Result<(), Fault> {
    match opened {
        Ok(mut journal) => push_each(said, alloc, &mut journal, calls),
        Err(refused) => Ok(push_refusal(said, refused.cause)?),
    }
}

fn push_refusal(said: &mut String, error: JournalError) -> Result<(), AllocError> {
    write!(said, "{error:?}")
}

fn push_each<D: Disk>(
    said: &mut String,
    alloc: Global,
    journal: &mut Journal<D>,
    calls: &str,
) -> Result<(), Fault> {
    let mut is_first = true;
    for call in calls.split("; ") {
        if !is_first {
            said.push_str("; ")?;
        }
        push_call(said, alloc, journal, call)?;
        is_first = false;
    }
    Ok(())
}

fn push_call<D: Disk>(
    said: &mut String,
    alloc: Global,
    journal: &mut Journal<D>,
    call: &str,
) -> Result<(), Fault> {
    let mut words = Words::new(call);
    match words.next() {
        "append" => push_appended(said, journal, words.bytes(alloc)?.as_slice(), false),
        "epoch" => push_appended(said, journal, words.bytes(alloc)?.as_slice(), true),
        "stage" => {
            let body = words.bytes(alloc)?;
            Ok(push_done(said, journal.stage(body.as_slice(), false), "waits")?)
        }
        "settle" => Ok(push_done(said, journal.settle(), "settled")?),
        "reserve" => Ok(push_done(said, journal.reserve(words.small(), false), "room")?),
        "next" => Ok(push_next(said, journal)?),
        "bodies" => Ok(push_bodies(said, journal)?),
        _ => Err(Fault::Other("an unknown call")),
    }
}

fn push_done(
    said: &mut String,
    answer: Result<(), JournalError>,
    word: &str,
) -> Result<(), AllocError> {
    match answer {
        Ok(()) => said.push_str(word),
        Err(error) => push_refusal(said, error),
    }
}

fn push_appended<D: Disk>(
    said: &mut String,
    journal: &mut Journal<D>,
    body: &[u8],
    epoch: bool,
) -> Result<(), Fault> {
    match journal.append(body, epoch) {
        Ok(number) => Ok(write!(said, "{number}")?),
        Err(error) => Ok(push_refusal(said, error)?),
    }
}

fn push_next<D: Disk>(said: &mut String, journal: &mut Journal<D>) -> Result<(), AllocError> {
    match journal.next_body() {
        Ok(Some(body)) => push_digits(said, body.as_slice()),
        Ok(None) => said.push_str("none"),
        Err(error) => push_refusal(said, error),
    }
}

// All of them, one behind the other.
fn push_bodies<D: Disk>(said: &mut String, journal: &mut Journal<D>) -> Result<(), AllocError> {
    let list = match journal.bodies() {
        Ok(list) => list,
        Err(error) => return push_refusal(said, error),
    };
    if list.as_slice().is_empty() {
        return said.push_str("none");
    }
    let mut between = "";
    for body in list.as_slice() {
        said.push_str(between)?;
        push_digits(said, body.as_slice())?;
        between = ",";
    }
    Ok(())
}
