//! Whether bytes, times, attributes, delete pending or name of a file differ behind a change.
ghost use Rattle.std.specs.Prelude.{◌≡◌, ◌==◌, ◌&&◌, ℕ, true, not, IfOk, length};
ghost use Rattle.wire_commands.specs.values.Meaning.{command_of};
ghost use Rattle.spec_exchange.specs.Content as content;
ghost use Rattle.spec_exchange.specs.Effects as effects;
ghost use Rattle.spec_exchange.specs.Files as files;
ghost use Rattle.spec_exchange.specs.Files.{exists};
ghost use Rattle.spec_exchange.specs.State.{Server};
ghost use Rattle.spec_exchange.specs.Verdict as verdicts;
ghost use Rattle.server_checks.specs.Shown.{TablesShown};
ghost use Rattle.server_checks.specs.verdicts.Views.{bytes_in, change_of, path_in};

use crate::owed_records::bytes_of;
use crate::reserving::request::path_of;
use server_checks::{Change, Tables};
use std::alloc::AllocError;
use wire_commands::{Basic, Message};

pub(crate) fn change_acts(
    t: &Tables,
    m: &Message<'_>,
    file: u64,
    change: &Change,
    now: u64,
) -> Result<bool, AllocError>
    ensures { IfOk result (λ b. (s : Server) → TablesShown t.now s → exists s file ≡ true
        → b ≡ effects.change_acts s file now (change_of (command_of m.now.command) change.now)) }
{
    match change {
        Change::PutBytes { at } => bytes_act(t, m, file, *at, now),
        Change::PutEnd { size } => Ok(end_acts(t, file, *size, now)),
        Change::PutBasic { basic } => Ok(basic_acts(t, file, basic)),
        Change::PutDeletePending { pending } => Ok(pending_acts(t, file, *pending)),
        Change::PutPath { replaced } => Ok(path_acts(t, m, file, *replaced)),
        Change::PutNothing => Ok(false),
    }
}

fn bytes_act(t: &Tables, m: &Message<'_>, file: u64, at: u64, now: u64) -> Result<bool, AllocError>
    ensures { IfOk result (λ b. (s : Server) → TablesShown t.now s → exists s file ≡ true
        → b ≡ effects.change_acts s file now (verdicts.PutBytes at (bytes_in (command_of m.now.command)))) }
{
    let touched = is_touched(t, file, now);
    let bytes = bytes_of(m);
    match t.tree.holds(file, at, bytes) {
        Ok(held) => Ok(differs(held, touched)),
        Err(error) => Err(error),
    }
}

fn end_acts(t: &Tables, file: u64, size: u64, now: u64) -> bool
    ensures { (s : Server) → TablesShown t.now s → exists s file ≡ true
        → result ≡ effects.change_acts s file now (verdicts.PutEnd size) }
{
    let touched = is_touched(t, file, now);
    let held = has_length(t, file, size);
    differs(held, touched)
}

fn basic_acts(t: &Tables, file: u64, basic: &Basic) -> bool
    ensures { (s : Server) (now : ℕ) → TablesShown t.now s → exists s file ≡ true
        → result ≡ effects.change_acts s file now (verdicts.PutBasic basic.now) }
{
    let old = t.basic(file);
    !same_basic(basic, &old)
}

fn pending_acts(t: &Tables, file: u64, pending: bool) -> bool
    ensures { (s : Server) (now : ℕ) → TablesShown t.now s → exists s file ≡ true
        → result ≡ effects.change_acts s file now (verdicts.PutDeletePending pending) }
{
    if t.is_pending(file) {
        return !pending;
    }
    pending
}

fn path_acts(t: &Tables, m: &Message<'_>, file: u64, replaced: Option<u64>) -> bool
    ensures { (s : Server) (now : ℕ) → TablesShown t.now s
        → result ≡ effects.change_acts s file now (verdicts.PutPath replaced (path_in (command_of m.now.command))) }
{
    match replaced {
        Some(_) => true,
        None => !same_path(path_of(m), t.tree.path(file)),
    }
}

fn differs(held: bool, touched: bool) -> bool
    ensures { result ≡ not (held && touched) }
{
    !(held && touched)
}

fn has_length(t: &Tables, file: u64, size: u64) -> bool
    ensures { (s : Server) → TablesShown t.now s → exists s file ≡ true → result ≡ (size == length (s.content file)) }
{
    size == t.length(file)
}

// Its bytes and attributes changed at this moment.
fn is_touched(t: &Tables, file: u64, now: u64) -> bool
    ensures { (s : Server) → TablesShown t.now s → exists s file ≡ true → result ≡ effects.is_touched_at (s.basic file) now }
{
    let basic = t.basic(file);
    is_touched_at(&basic, now)
}

#[tactic(auto, unfolding(spec_exchange::specs::Effects::is_touched_at))]
fn is_touched_at(basic: &Basic, now: u64) -> bool
    ensures { result ≡ effects.is_touched_at basic.now now }
{
    basic.written == now && basic.changed == now
}

#[tactic(auto, unfolding(spec_exchange::specs::Files::same_basic))]
fn same_basic(a: &Basic, b: &Basic) -> bool
    ensures { result ≡ files.same_basic a.now b.now }
{
    a.created == b.created
        && (a.accessed == b.accessed
            && (a.written == b.written && (a.changed == b.changed && a.attributes == b.attributes)))
}

fn same_path(a: &str, b: &str) -> bool
    ensures { result ≡ content.same_bytes a.now b.now }
{
    a == b
}
