// The sum of a run: how many operations came out how, and what the files hold.
ghost use Rattle.std.specs.Prelude.{◌≡◌, ◌+◌, ◌<◌, ◌≤◌, ◌∷◌, length, drop, map, IfOk, IfSome};
ghost use Rattle.std.specs.String.{string_bytes};
ghost use Rattle.client_values.specs.outcomes.Meaning.{outcome_of};
ghost use Rattle.drill_command.specs.Summing as sums;

use client_values::Outcome;
use std::alloc::{AllocError, Global};
use store_files::StoredFile;

/// How an operation came out.
#[derive(Clone, Copy, PartialEq, Eq, Debug)]
pub(crate) enum Kind {
    Ok,
    Refused,
    NoSlot,
    NoOpen,
    Unknown,
}

fn was_refused(outcome: &Outcome) -> bool
    ensures { result ≡ sums.was_refused (outcome_of outcome.now) }
{
    matches!(outcome, Outcome::Refused(_))
}

fn had_no_slot(outcome: &Outcome) -> bool
    ensures { result ≡ sums.had_no_slot (outcome_of outcome.now) }
{
    matches!(outcome, Outcome::NoSlot(_))
}

fn had_no_open(outcome: &Outcome) -> bool
    ensures { result ≡ sums.had_no_open (outcome_of outcome.now) }
{
    matches!(outcome, Outcome::NoOpen(_))
}

fn is_unknown(outcome: &Outcome) -> bool
    ensures { result ≡ sums.is_unknown (outcome_of outcome.now) }
{
    matches!(outcome, Outcome::Unknown(_))
}

fn is_of(kind: Kind, outcome: &Outcome) -> bool
    ensures { result ≡ sums.is_kind kind (outcome_of outcome.now) }
{
    match kind {
        Kind::Ok => outcome.is_ok(),
        Kind::Refused => was_refused(outcome),
        Kind::NoSlot => had_no_slot(outcome),
        Kind::NoOpen => had_no_open(outcome),
        Kind::Unknown => is_unknown(outcome),
    }
}

// An outcome, with those behind it.
fn outcome_at(settled: &[Outcome], place: usize) -> &Outcome
    requires { place < length settled.now }
    ensures { drop place settled.now ≡ result.now ∷ drop (place + 1) settled.now }
{
    &settled[place]
}

fn one_of(kind: Kind, outcome: &Outcome) -> usize
    ensures value { result ≡ sums.one_if (sums.is_kind kind (outcome_of outcome.now)) }
    ensures bound { result ≤ 1 }
{
    if is_of(kind, outcome) { 1 } else { 0 }
}

/// How many came out so.
fn count_of(kind: Kind, settled: &[Outcome]) -> usize
    ensures { result ≡ sums.count_of kind (map outcome_of settled.now) }
{
    let mut count = 0;
    let mut place = 0;
    while place < settled.len() {
        let outcome = outcome_at(settled, place);
        count += one_of(kind, outcome);
        place += 1;
    }
    count
}

fn file_at(files: &[StoredFile], place: usize) -> &StoredFile
    requires { place < length files.now }
    ensures { drop place files.now ≡ result.now ∷ drop (place + 1) files.now }
{
    &files[place]
}

fn added(bytes: u64, file: &StoredFile) -> Option<u64>
    ensures { IfSome result (λ more. more ≡ bytes + length file.now.bytes) }
{
    bytes.checked_add(file.bytes.len() as u64)
}

/// How many bytes they have together; none where that is no number of 64 bits.
fn bytes_of(files: &[StoredFile]) -> Option<u64>
    ensures { IfSome result (λ bytes. bytes ≡ sums.stored_bytes files.now) }
{
    let mut bytes: u64 = 0;
    let mut place = 0;
    while place < files.len() {
        let file = file_at(files, place);
        let more = added(bytes, file)?;
        bytes = more;
        place += 1;
    }
    Some(bytes)
}

#[tactic(auto, unfolding(crate::specs::Summing::counts_line))]
fn counts_line(alloc: Global, settled: &[Outcome]) -> Result<String, AllocError>
    ensures { IfOk result (λ line. string_bytes line ≡ sums.counts_of (map outcome_of settled.now)) }
{
    let ok = count_of(Kind::Ok, settled);
    let refused = count_of(Kind::Refused, settled);
    let no_slot = count_of(Kind::NoSlot, settled);
    let no_open = count_of(Kind::NoOpen, settled);
    let unknown = count_of(Kind::Unknown, settled);
    format!(in alloc;
        "# ok {ok} refused {refused} noslot {no_slot} noopen {no_open} unknown {unknown}\n"
    )
}

#[tactic(auto, unfolding(crate::specs::Summing::files_line))]
fn files_line(alloc: Global, held: usize, bytes: u64) -> Result<String, AllocError>
    ensures { IfOk result (λ line. string_bytes line ≡ sums.files_line held bytes) }
{
    format!(in alloc; "# files {held} bytes {bytes}\n")
}

fn files_text(alloc: Global, files: &[StoredFile]) -> Result<String, AllocError>
    ensures { IfOk result (λ line. string_bytes line ≡ sums.files_line (length files.now) (sums.stored_bytes files.now)) }
{
    match bytes_of(files) {
        Some(bytes) => files_line(alloc, files.len(), bytes),
        None => Err(AllocError),
    }
}

/// The two lines. Files of 2^64 bytes or more count as memory that ran out.
pub(crate) fn summary_text(
    alloc: Global,
    settled: &[Outcome],
    files: &[StoredFile],
) -> Result<String, AllocError>
    ensures { IfOk result (λ text. string_bytes text ≡ sums.summary_text (map outcome_of settled.now) files.now) }
{
    let mut text = counts_line(alloc, settled)?;
    let line = files_text(alloc, files)?;
    text.push_str(line.as_str())?;
    Ok(text)
}
