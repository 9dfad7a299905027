//! Which LOCK waits, by the server's tables (MS-SMB2 3.3.5.14). Nothing here takes memory.
ghost use Rattle.std.specs.Prelude.{◌≡◌, ◌+◌, ◌&&◌, IfSome, None, is_some, map, nat_lt, not, option_map, true};
ghost use Rattle.law_server.specs.tables.Fits.{Fits};
ghost use Rattle.law_waiting.specs.held.Exactly as waits;
ghost use Rattle.law_waiting.specs.held.Held.{first_in_the_way, may_wait, wanted_range, would_wait};
ghost use Rattle.server_checks.specs.Shown.{TablesShown};
ghost use Rattle.spec_exchange.specs.CheckOpen.{kept_lock};
ghost use Rattle.spec_exchange.specs.Ranges.{count_owned, wraps};
ghost use Rattle.spec_exchange.specs.State.{Server};
ghost use Rattle.store_opens.specs.share_modes.Locking.{first_conflict, locking_count_owned, locking_overlaps, range_of};
ghost use Rattle.wait_locks.specs.Kept as way;
ghost use Rattle.wait_locks.specs.Kept.{kept_message};
ghost use Rattle.wait_locks.specs.Settled.{IsSettled};
ghost use Rattle.wire_commands.specs.values.Meaning.{message_of};

use crate::waiter::Waiter;
use law_waiting::{held_law, untouched_law};
use server_checks::{Tables, is_slot};
use store_opens::Range;
use wire_commands::Message;

/// The standing range for which a LOCK would wait: of one element to lock, which need not be answered at once, where no check but
/// that of the ranges answers it, whatever room the journal has.
pub fn would_wait(tables: &Tables, message: &Message<'_>) -> Option<Range>
    ensures { (s : Server) → Fits s → TablesShown tables.now s → option_map range_of result ≡ would_wait s (message_of message.now) }
{
    match Waiter::of(message, 0) {
        Some(waiter) => held_up(tables, &waiter),
        None => None,
    }
}

/// The same, with all of its message; its AsyncId is to come.
pub fn would_begin(tables: &Tables, message: &Message<'_>) -> Option<Waiter>
    ensures some { IfSome result (λ k. way.KeepsMessage k (message_of message.now) 0
        × ((s : Server) → Fits s → TablesShown tables.now s → IsSettled s k)) }
    ensures none { result ≡ None → (s : Server) → Fits s → TablesShown tables.now s → would_wait s (message_of message.now) ≡ None }
{
    match Waiter::of(message, 0) {
        Some(waiter) => begins(tables, message, waiter),
        None => None,
    }
}

fn begins(tables: &Tables, message: &Message<'_>, waiter: Waiter) -> Option<Waiter>
    requires { way.KeepsMessage waiter (message_of message.now) 0 }
    ensures some { IfSome result (λ k. way.KeepsMessage k (message_of message.now) 0
        × ((s : Server) → Fits s → TablesShown tables.now s → IsSettled s k)) }
    ensures none { result ≡ None → (s : Server) → Fits s → TablesShown tables.now s → would_wait s (message_of message.now) ≡ None }
{
    untouched_law();
    match held_up(tables, &waiter) {
        Some(_) => Some(waiter.on_file(tables.file_of(waiter.file))),
        None => None,
    }
}

/// The same of one that waits.
pub fn held_up(tables: &Tables, waiter: &Waiter) -> Option<Range>
    ensures { (s : Server) → Fits s → TablesShown tables.now s → option_map range_of result ≡ would_wait s (kept_message waiter.now) }
{
    held_law();
    if !may_wait(waiter.element.flags) {
        return None;
    }
    if !is_owed(tables, waiter) {
        return None;
    }
    if !is_on_file(tables, waiter) {
        return None;
    }
    let file = tables.file_of(waiter.file);
    let standing = tables.opens.ranges(file);
    let range = wanted(waiter);
    in_the_way(standing, &range)
}

// Shared 1, exclusive 2; with 0x10 it is answered at once (MS-SMB2 2.2.26.1).
fn may_wait(flags: u32) -> bool
    ensures { result ≡ may_wait flags }
{
    flags == 0x1 || flags == 0x2
}

// Its session and tree are there.
fn is_owed(tables: &Tables, waiter: &Waiter) -> bool
    ensures { (s : Server) → TablesShown tables.now s → result ≡ waits.is_owed s (kept_message waiter.now) }
{
    let live = tables.sessions.is_on(waiter.session_id, waiter.connection);
    let tree = tables.sessions.tree(waiter.session_id, waiter.tree_id);
    live & tree.is_some()
}

// Its open stands there, no slot keeps an answer, and it is of a file.
fn is_on_file(tables: &Tables, waiter: &Waiter) -> bool
    ensures exact { (s : Server) → Fits s → TablesShown tables.now s
        → result ≡ waits.is_on_file s (kept_message waiter.now) waiter.now.file waiter.now.index waiter.now.number }
    ensures stands { (s : Server) → Fits s → TablesShown tables.now s → result ≡ true → s.standing waiter.now.file ≡ true }
{
    if !tables
        .opens
        .is_of_tree(waiter.file, waiter.session_id, waiter.tree_id)
    {
        return false;
    }
    let keeps = keeps_answer(tables, waiter);
    let directory = tables.is_directory(tables.file_of(waiter.file));
    !keeps & !directory
}

// The slot of its index, where that names one, keeps an answer of its number.
fn keeps_answer(tables: &Tables, waiter: &Waiter) -> bool
    ensures { (s : Server) → TablesShown tables.now s → s.standing waiter.now.file ≡ true
        → result ≡ is_some (kept_lock s waiter.now.file waiter.now.index waiter.now.number) }
{
    if !is_slot(waiter.index) {
        return false;
    }
    tables
        .opens
        .look(waiter.file, waiter.index as u8, waiter.number)
        .is_some()
}

fn wanted(waiter: &Waiter) -> Range
    ensures { range_of result ≡ wanted_range waiter.now.file waiter.now.element }
{
    Range {
        owner: waiter.file,
        at: waiter.element.at,
        length: waiter.element.length,
        exclusive: waiter.element.flags == 0x2 || waiter.element.flags == 0x12,
    }
}

// Where its open has few enough ranges, and it doesn't pass the last byte: the first range that keeps it from standing.
fn in_the_way(standing: &[Range], wanted: &Range) -> Option<Range>
    ensures { option_map range_of result ≡ way.in_the_way (map range_of standing.now) (range_of wanted.now) }
{
    if count_owned(standing, wanted.owner) >= 1024 {
        return None;
    }
    if wraps(wanted) {
        return None;
    }
    first_conflict(standing, wanted)
}

fn wraps(wanted: &Range) -> bool
    ensures { result ≡ wraps (range_of wanted.now) }
{
    let at = wanted.at;
    let length = wanted.length;
    u128::from(at) + u128::from(length) > 0x1_0000_0000_0000_0000
}

fn count_owned(standing: &[Range], owner: u64) -> usize
    ensures { result ≡ locking_count_owned owner standing.now }
{
    let mut count = 0;
    for range in standing {
        if range.owner == owner {
            count += 1;
        }
    }
    count
}

fn first_conflict(standing: &[Range], wanted: &Range) -> Option<Range>
    ensures { result ≡ first_conflict standing.now wanted.now }
{
    for range in standing {
        if overlaps(range, wanted) && (range.exclusive || wanted.exclusive) {
            return Some(*range);
        }
    }
    None
}

#[tactic(auto, unfolding(spec_exchange::specs::Content::meets))]
fn overlaps(range: &Range, wanted: &Range) -> bool
    ensures { result ≡ locking_overlaps range.now wanted.now }
{
    let begins = u128::from(range.at);
    let ends = begins + u128::from(range.length);
    let from = u128::from(wanted.at);
    let until = from + u128::from(wanted.length);
    begins.max(from) < ends.min(until)
}
