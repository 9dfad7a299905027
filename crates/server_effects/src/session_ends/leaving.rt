//! Opens that leave with their session, one behind the other.
ghost use Rattle.std.specs.Prelude.{◌≡◌, true};
ghost use Rattle.spec_exchange.specs.Effects.{plain_of};
ghost use Rattle.spec_exchange.specs.Opens as says;
ghost use Rattle.spec_exchange.specs.State.{Server};
ghost use Rattle.server_checks.specs.Shown.{TablesShown};
ghost use Rattle.server_effects.specs.session_ends.Ended.{all_left, first_left, left_behind};
ghost use Rattle.law_server.specs.tables.Fits.{Fits};

use crate::{mark_behind, part};
use server_checks::Tables;

/// An open leaves, and its file with it where it goes; a directory that can't go loses its mark.
pub fn leave_open(t: &mut Tables, id: u64)
    ensures shows { (s : Server) → Fits s → TablesShown t.old s → s.standing id ≡ true → TablesShown t.new (says.leave_open s id) }
    ensures kept { t.new ≡ record t.old { opens = t.new.opens; tree = t.new.tree } }
{
    let file = t.opens.file_of(id);
    mark_behind(t, id);
    leave(t, id);
    part(t, file);
}

fn leave(t: &mut Tables, id: u64)
    ensures shows { (s : Server) → Fits s → TablesShown t.old s → s.standing id ≡ true → TablesShown t.new (says.drop_open s id) }
    ensures kept { t.new ≡ record t.old { opens = t.new.opens } }
{
    t.opens.leave(id);
}

/// An open leaves; quiet, files stay as they are.
pub fn leave_one(t: &mut Tables, id: u64, is_quiet: bool)
    ensures shows { (s : Server) → Fits s → TablesShown t.old s → s.standing id ≡ true → TablesShown t.new (left_behind s id is_quiet) }
    ensures kept { t.new ≡ record t.old { opens = t.new.opens; tree = t.new.tree } }
{
    if is_quiet {
        leave(t, id);
        return;
    }
    leave_open(t, id);
}

// The first of a session's plain opens leaves, where one is left.
fn leave_first(t: &mut Tables, session: u64, is_quiet: bool)
    ensures shows { (s : Server) → Fits s → TablesShown t.old s → TablesShown t.new (first_left s (plain_of s session) is_quiet) }
    ensures kept { t.new ≡ record t.old { opens = t.new.opens; tree = t.new.tree } }
{
    match t.opens.plain_of(session, 0) {
        Some(id) => leave_one(t, id, is_quiet),
        None => return,
    }
}

/// A session's plain opens leave, in the order of their ids.
pub fn leave_all(t: &mut Tables, session: u64, is_quiet: bool)
    ensures shows { (s : Server) → Fits s → TablesShown t.old s → TablesShown t.new (all_left s (plain_of s session) is_quiet) }
    ensures kept { t.new ≡ record t.old { opens = t.new.opens; tree = t.new.tree } }
{
    let count = t.opens.count();
    for turn in 0..count {
        leave_first(t, session, is_quiet);
    }
}
