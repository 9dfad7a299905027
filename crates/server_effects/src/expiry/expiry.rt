ghost use Rattle.std.specs.Prelude.{◌≡◌, ℕ, true, false, None, MatchResult, IfOk, IsOk, nat_le, nat_lt, if◌then◌else◌};
ghost use Rattle.spec_exchange.specs.Files.{exists_in, is_full_directory, remove_file, set_delete_pending};
ghost use Rattle.spec_exchange.specs.Opens.{drop_open};
ghost use Rattle.spec_exchange.specs.State.{Server};
ghost use Rattle.spec_exchange.specs.Step.{due, expire, max_expired_guids, with_deadlines};
ghost use Rattle.store_files.specs.file_tree.Shown.{ShowsFiles};
ghost use Rattle.store_opens.specs.open_table.Changes.{is_expired_in};
ghost use Rattle.store_opens.specs.open_table.Shown.{HasExpiredRoom, HasOpensRoom, ShowsOpens};
ghost use Rattle.store_opens.specs.open_table.Taken.{IsTaken, IsUndated, TakenFor};
ghost use Rattle.server_effects.specs.expiry.Expired.{ExpiredFor, GoneWith, HasRoomBack, IsExpired, ShowsBoth, behind_gone, fate_behind, goes_behind};
ghost use Rattle.law_server.specs.tables.Fits.{Fits};

use crate::fates::Fate;
use crate::leaving_opens::fate_with;
use server_checks::deletes_on_close;
use std::alloc::AllocError;
use store_files::{Gone, Tree};
use store_opens::{Opens, Taken};

const MAX_EXPIRED_GUIDS: u32 = 65_536;

/// An open that was taken out, with its file where that went with it.
#[derive(Drop)]
pub struct Expired {
    pub(crate) taken: Taken,
    pub(crate) gone: Option<Gone>,
    /// Whether its file was delete pending, and whether its guids were among the expired ones.
    pub(crate) was_pending: bool,
    pub(crate) was_kept: bool,
}

/// The open that is to expire in front of an event: of those that are due at this moment (100 ns since 1601) that of the
/// least id, and none where 65,536 guids are kept as expired. Of the table its index of deadlines alone may change.
pub fn due(opens: &mut Opens, now: u64) -> Option<u64>
    ensures due { (s : Server) → Fits s → ShowsOpens opens.old s
        → result ≡ (if nat_le max_expired_guids s.expired_count then None else due (with_deadlines s now) now) }
    ensures shows { (s : Server) → ShowsOpens opens.old s → ShowsOpens opens.new s }
    ensures rest { opens.new ≡ record opens.old { deadlines = opens.new.deadlines } }
{
    // Better that none expires than that a guid is forgotten, by which a create could act twice.
    if has_all_guids(opens) {
        return None;
    }
    opens.due(now)
}

// As many guids of opens that expired are kept as may be.
fn has_all_guids(opens: &Opens) -> bool
    ensures { (s : Server) → ShowsOpens opens.now s → result ≡ nat_le max_expired_guids s.expired_count }
{
    opens.expired_count() >= MAX_EXPIRED_GUIDS
}

/// Takes out an open that expires: it leaves, with its file where that goes, or without the mark of one that can't, and its guids
/// count as expired. Where there is no memory the state is as before.
pub fn take_expired(
    opens: &mut Opens,
    tree: &mut Tree,
    id: u64,
) -> Result<Option<Expired>, AllocError>
    ensures shows { (s : Server) → Fits s → ShowsBoth opens.old tree.old s → s.standing id ≡ true → s.session_of_open id ≡ None
        → nat_lt s.expired_count max_expired_guids ≡ true
        → MatchResult result (λ x. ExpiredFor opens.new x s id × ShowsBoth opens.new tree.new (expire s id))
        (λ _. ShowsBoth opens.new tree.new s) }
    ensures room { IfOk result (λ x. HasRoomBack opens.new x) }
{
    let fate = fate_with(opens, tree, id);
    match opens.reserve_expired() {
        Ok(_) => take_open(opens, tree, id, fate),
        Err(error) => Err(error),
    }
}

// The same, with room for its guids.
fn take_open(
    opens: &mut Opens,
    tree: &mut Tree,
    id: u64,
    fate: Fate,
) -> Result<Option<Expired>, AllocError>
    requires { HasExpiredRoom opens.old }
    ensures shows { (s : Server) → Fits s → ShowsBoth opens.old tree.old s → s.standing id ≡ true → s.session_of_open id ≡ None
        → fate ≡ fate_behind s id → nat_lt s.expired_count max_expired_guids ≡ true
        → MatchResult result (λ x. ExpiredFor opens.new x s id × ShowsBoth opens.new tree.new (expire s id))
        (λ _. ShowsBoth opens.new tree.new s) }
    ensures back { IfOk result (λ x. HasRoomBack opens.new x) }
{
    match opens.take(id) {
        Ok(taken) => take_some(opens, tree, taken, fate),
        Err(error) => Err(error),
    }
}

// The same of what was taken out.
fn take_some(
    opens: &mut Opens,
    tree: &mut Tree,
    taken: Option<Taken>,
    fate: Fate,
) -> Result<Option<Expired>, AllocError>
    requires room { HasOpensRoom opens.old }
    requires guids { HasExpiredRoom opens.old }
    ensures shows { (s : Server) (o : ℕ) → Fits s → s.standing o ≡ true → s.session_of_open o ≡ None → TakenFor taken s o
        → ShowsOpens opens.old (drop_open s o) → ShowsFiles tree.old s → IsUndated opens.old s o → fate ≡ fate_behind s o
        → nat_lt s.expired_count max_expired_guids ≡ true
        → MatchResult result (λ x. ExpiredFor opens.new x s o × ShowsBoth opens.new tree.new (expire s o))
        (λ _. ShowsBoth opens.new tree.new s) }
    ensures back { IfOk result (λ x. HasRoomBack opens.new x) }
{
    match taken {
        Some(taken) => take_file(opens, tree, taken, fate),
        None => Ok(None),
    }
}

// The same of an open that was taken out, with its file where that goes.
fn take_file(
    opens: &mut Opens,
    tree: &mut Tree,
    taken: Taken,
    fate: Fate,
) -> Result<Option<Expired>, AllocError>
    requires room { HasOpensRoom opens.old }
    requires guids { HasExpiredRoom opens.old }
    ensures shows { (s : Server) (o : ℕ) → Fits s → s.standing o ≡ true → s.session_of_open o ≡ None → IsTaken taken s o
        → ShowsOpens opens.old (drop_open s o) → ShowsFiles tree.old s → IsUndated opens.old s o → fate ≡ fate_behind s o
        → nat_lt s.expired_count max_expired_guids ≡ true
        → MatchResult result (λ x. ExpiredFor opens.new x s o × ShowsBoth opens.new tree.new (expire s o))
        (λ _. ShowsBoth opens.new tree.new s) }
    ensures back { IfOk result (λ x. HasRoomBack opens.new x) }
{
    match gone_with(tree, taken.row.file, fate.goes()) {
        Ok(gone) => Ok(Some(expire_taken(opens, tree, taken, gone, fate))),
        Err(error) => {
            opens.put_back(taken);
            Err(error)
        }
    }
}

// The file, where it goes.
fn gone_with(tree: &mut Tree, file: u64, goes: bool) -> Result<Option<Gone>, AllocError>
    ensures { (s : Server) → ShowsFiles tree.old s → (goes ≡ true → (exists_in s.entries file ≡ true) × (is_full_directory s file ≡ false))
        → MatchResult result (λ g. GoneWith goes g s file × ShowsFiles tree.new (if goes then remove_file s file else s))
        (λ _. ShowsFiles tree.new s) }
{
    if goes {
        return tree.take_out(file);
    }
    Ok(None)
}

// Behind an open that was taken out, with its file where that goes: the file is delete pending by it, or no longer, and its guids
// are kept.
fn expire_taken(
    opens: &mut Opens,
    tree: &mut Tree,
    taken: Taken,
    gone: Option<Gone>,
    fate: Fate,
) -> Expired
    requires { HasExpiredRoom opens.old }
    ensures shows { (s : Server) (o : ℕ) → Fits s → s.standing o ≡ true → IsTaken taken s o → ShowsOpens opens.old (drop_open s o)
        → ShowsFiles tree.old (behind_gone s o) → GoneWith (goes_behind s o) gone s (s.opened o).file → IsUndated opens.old s o
        → fate ≡ fate_behind s o → HasOpensRoom opens.old → nat_lt s.expired_count max_expired_guids ≡ true
        → IsExpired opens.new result s o × ShowsBoth opens.new tree.new (expire s o) }
    ensures room { HasOpensRoom opens.old → HasOpensRoom opens.new }
{
    let file = taken.row.file;
    let client = taken.row.client;
    let guid = taken.row.guid;
    let was_kept = is_kept(opens, client, guid);
    let was_pending = tree.info(file).marked;
    // In this order: a directory that can't go loses the mark that its open left too.
    mark_if(tree, file, deletes_on_close(taken.row.options));
    unmark_if(tree, file, fate.is_unmarked());
    opens.expire_guid(client, guid);
    Expired {
        taken,
        gone,
        was_pending,
        was_kept,
    }
}

// Whether the guids are among the expired ones.
fn is_kept(opens: &Opens, client: u128, guid: Option<u128>) -> bool
    ensures { (s : Server) → ShowsOpens opens.now s → result ≡ is_expired_in s client guid }
{
    match guid {
        Some(guid) => opens.is_expired(client, guid),
        None => false,
    }
}

fn mark_if(tree: &mut Tree, file: u64, deletes: bool)
    ensures { (s : Server) → ShowsFiles tree.old s → ShowsFiles tree.new (if deletes then set_delete_pending s file true else s) }
{
    if deletes {
        tree.mark(file, true);
    }
}

fn unmark_if(tree: &mut Tree, file: u64, unmarked: bool)
    ensures { (s : Server) → ShowsFiles tree.old s → ShowsFiles tree.new (if unmarked then set_delete_pending s file false else s) }
{
    if unmarked {
        tree.mark(file, false);
    }
}

/// Puts it back. Where there is no memory to name its file again, it answers the open, which stays out, for `Opens::give_up`
/// to forget its deadline; no record of that is in the journal. Where no file went it always comes back.
pub fn put_back(opens: &mut Opens, tree: &mut Tree, expired: Expired) -> Result<(), Taken>
    requires { HasOpensRoom opens.old }
    ensures shows { (s : Server) (o : ℕ) → Fits s → s.standing o ≡ true → s.session_of_open o ≡ None → IsExpired opens.old expired s o
        → ShowsBoth opens.old tree.old (expire s o)
        → MatchResult result (λ _. ShowsBoth opens.new tree.new s) (λ t. (t ≡ expired.taken) × ShowsBoth opens.new tree.new (expire s o)) }
    ensures back { (s : Server) (o : ℕ) → IsExpired opens.old expired s o → goes_behind s o ≡ false → IsOk result }
{
    let Expired {
        taken,
        gone,
        was_pending,
        was_kept,
    } = expired;
    if !file_back(tree, gone, taken.row.file, was_pending) {
        return Err(taken);
    }
    opens.keep_guid_no_more(taken.row.client, taken.row.guid, was_kept);
    opens.put_back(taken);
    Ok(())
}

// Puts its file back, where that went; else it is as delete pending as it was. False: there is no memory, and nothing changed.
fn file_back(tree: &mut Tree, gone: Option<Gone>, file: u64, was_pending: bool) -> bool
    ensures back { (s : Server) (o : ℕ) → Fits s → s.standing o ≡ true → file ≡ (s.opened o).file → result ≡ true
        → GoneWith (goes_behind s o) gone s (s.opened o).file → (gone ≡ None → was_pending ≡ s.delete_pending (s.opened o).file)
        → ShowsFiles tree.old (expire s o) → ShowsFiles tree.new s }
    ensures stays { (s : Server) → result ≡ false → ShowsFiles tree.old s → ShowsFiles tree.new s }
    ensures plain { gone ≡ None → result ≡ true }
{
    match gone {
        Some(gone) => tree.put_back(gone),
        None => {
            tree.mark(file, was_pending);
            true
        }
    }
}

/// It stays out. Of the table its index of deadlines alone changes.
pub fn give_up(opens: &mut Opens, expired: Expired)
    ensures shows { (s : Server) → ShowsOpens opens.old s → s.deadline expired.taken.id ≡ None → ShowsOpens opens.new s }
    ensures rest { opens.new ≡ record opens.old { deadlines = opens.new.deadlines } }
{
    let Expired { taken, .. } = expired;
    opens.give_up(taken);
}
