ghost use Rattle.std.specs.Prelude.{◌≡◌, ◌++◌, ◌∷◌, [], ℕ, List, Bool, None, Option, true};
ghost use Rattle.spec_exchange.specs.Commands.{path_form};
ghost use Rattle.spec_exchange.specs.Files.{exists, exists_in, make_file, remove_file, rename_file};
ghost use Rattle.spec_exchange.specs.Fold.{created_file, may_create, may_restore, shut_recorded, sweep, unmark_records};
ghost use Rattle.spec_exchange.specs.Opens.{pending_behind, without_gone};
ghost use Rattle.spec_exchange.specs.State.{NewOpen, Server};
ghost use Rattle.spec_exchange.specs.Table.{has};
ghost use Rattle.spec_exchange.specs.Texts.{is_path};
ghost use Rattle.law_records.specs.fold.Order.{FilesAscend, marks_of, swept_of};
ghost use Rattle.law_server.specs.tables.Fits.{Fits, is_ascending};

/// Behind what a create makes of its file the state fits yet, the file is there, and the open may be restored as before.
/// The number that a new file gets has no ranges.
pub fn created_law()
    ensures fits { (s : Server) (action f : ℕ) (path : List ℕ) (attributes : ℕ) (is_dir : Bool) (time : ℕ) → Fits s
        → Fits (created_file s action f path attributes is_dir time) }
    ensures there { (s : Server) (action f : ℕ) (path : List ℕ) (attributes : ℕ) (is_dir : Bool) (time : ℕ)
        → may_create s action f path ≡ true → exists (created_file s action f path attributes is_dir time) f ≡ true }
    ensures free { (s : Server) (action f : ℕ) (path : List ℕ) (attributes : ℕ) (is_dir : Bool) (time : ℕ) (n : NewOpen)
        → may_restore (created_file s action f path attributes is_dir time) n ≡ may_restore s n }
    ensures unlocked { (s : Server) → Fits s → s.ranges s.next_file ≡ [] }
{}

/// Files stand in the order of their numbers behind each change of them.
pub fn ordered_law()
    ensures made { (s : Server) (path : List ℕ) (is_dir : Bool) (attributes time : ℕ) → Fits s → FilesAscend s
        → FilesAscend (make_file s path is_dir attributes time) }
    ensures removed { (s : Server) (f : ℕ) → FilesAscend s → FilesAscend (remove_file s f) }
    ensures renamed { (s : Server) (f : ℕ) (replaced : Option ℕ) (to : List ℕ) → FilesAscend s
        → FilesAscend (rename_file s f replaced to) }
{}

/// Files are swept one behind the other; only entries change. Whatever ascending numbers hold all files that are delete
/// pending, they sweep what a new epoch does.
pub fn swept_law()
    ensures next { (s : Server) (fs : List ℕ) (f : ℕ) → swept_of s (fs ++ f ∷ []) ≡ without_gone (swept_of s fs) f }
    ensures entries { (s : Server) (fs : List ℕ) → swept_of s fs ≡ record s { entries = (swept_of s fs).entries } }
    ensures whole { (s : Server) (fs : List ℕ) → FilesAscend s → is_ascending fs ≡ true
        → ((f : ℕ) → exists_in s.entries f ≡ true → s.delete_pending f ≡ true → has f fs ≡ true)
        → sweep s s.entries ≡ swept_of s fs }
    ensures ascending { (s : Server) (fs : List ℕ) → FilesAscend s → FilesAscend (swept_of s fs) }
    ensures before { (s : Server) (fs : List ℕ) (f : ℕ) → exists_in (swept_of s fs).entries f ≡ true → exists_in s.entries f ≡ true }
{}

/// The marks that a start clears are those of whatever ascending numbers hold all files that are delete pending.
pub fn marks_law()
    ensures { (s : Server) (fs : List ℕ) → Fits s → FilesAscend s → is_ascending fs ≡ true
        → ((f : ℕ) → exists_in s.entries f ≡ true → s.delete_pending f ≡ true → has f fs ≡ true)
        → unmark_records s s.entries ≡ marks_of s fs }
{}

/// Before an open leaves, its file is delete pending where it deletes on close, and the state fits yet.
pub fn shut_law()
    ensures marked { (s : Server) (o : ℕ) → Fits s → Fits (pending_behind s o) }
    ensures shut { (s : Server) (o : ℕ) → s.standing o ≡ true → Fits s → Fits (shut_recorded s o) }
{}

/// A path that breaks no form rule is one of the share.
pub fn form_law()
    ensures path { (path : List ℕ) → path_form path ≡ None → is_path path ≡ true }
    ensures form { (path : List ℕ) → is_path path ≡ true → path_form path ≡ None }
{}
