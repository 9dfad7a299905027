ghost use Rattle.std.specs.Prelude.{◌≡◌, ◌≤◌, ◌+◌, ◌==◌, ◌++◌, ◌∷◌, [], ℕ, List, Bool, None, Some, false, length, not, true};
ghost use Rattle.spec_exchange.specs.State.{Origin, Server};
ghost use Rattle.spec_exchange.specs.Effects.{end_session, leave_all, leave_all_records, plain_of};
ghost use Rattle.spec_exchange.specs.Files.{exists, is_full_directory, root};
ghost use Rattle.spec_exchange.specs.Opens.{drop_open, goes, is_kept_back, leave_open, leave_records, opens_of, pending_behind};
ghost use Rattle.spec_exchange.specs.Records.{origin_at};
ghost use Rattle.spec_exchange.specs.Step.{ends_with, forget_connection, take_all_out, take_all_records};
ghost use Rattle.law_records.specs.leaving_opens.Out.{ends_left};
ghost use Rattle.law_records.specs.leaving_opens.Since.{AllStand, AreOpensBelow, LeftBehind, LeftSince, OpensNumbered};
ghost use Rattle.law_records.specs.leaving_opens.Since.{all_gone, goes_alone, is_kept_alone, records_behind};
ghost use Rattle.law_server.specs.tables.Fits.{Fits, is_ascending};

/// Before any open leaves nothing is left, marked or gone.
pub fn begun_law()
    ensures { (left : ℕ → ℕ) (marked went : ℕ → Bool) (s : Server) → ((f : ℕ) → left f ≡ 0) → ((f : ℕ) → marked f ≡ false)
        → ((f : ℕ) → went f ≡ false) → Fits s → LeftSince left marked went s s }
{}

/// One more open leaves: its file is there, and has one more at least than those that left; what the open makes of it, and
/// its records.
pub fn left_law()
    ensures there { (left : ℕ → ℕ) (marked went : ℕ → Bool) (s u : Server) (o : ℕ) → LeftSince left marked went s u → u.standing o ≡ true
        → (exists u (s.opened o).file ≡ true) × (exists s (s.opened o).file ≡ true)
        × (left (s.opened o).file + 1 ≤ length (opens_of s (s.opened o).file)) }
    ensures behind { (left more : ℕ → ℕ) (marked went marks gone : ℕ → Bool) (s u : Server) (o : ℕ) (origin : Origin)
        → LeftSince left marked went s u → u.standing o ≡ true → LeftBehind left marked went more marks gone s u (s.opened o)
        → LeftSince more marks gone s (leave_open u o)
        × (leave_records u origin o ≡ records_behind left marked s u origin o (s.opened o)) }
{}

/// Of opens that leave in ascending order the next one stands yet, and behind it one more left, with its records.
pub fn next_law()
    ensures ascending { (s : Server) (session : ℕ) → Fits s → is_ascending (plain_of s session) ≡ true }
    ensures next { (u : Server) (os : List ℕ) (o : ℕ) (more : List ℕ) (origin : Origin) → is_ascending (os ++ o ∷ more)
        ≡ true → AllStand u (os ++ o ∷ more)
        → ((leave_all u os).standing o ≡ true) × (leave_all u (os ++ o ∷ []) ≡ leave_open (leave_all u os) o)
        × (leave_all_records u origin (os ++ o ∷ []) ≡ leave_all_records u origin os ++ leave_records (leave_all u os) origin o) }
{}

/// A session's end makes of files what its plain opens did, and a connection that is forgotten nothing.
pub fn ended_law()
    ensures ended { (left : ℕ → ℕ) (marked went : ℕ → Bool) (s u : Server) (x now : ℕ) → Fits u
        → LeftSince left marked went s (leave_all u (plain_of u x)) → LeftSince left marked went s (end_session u x now false) }
    ensures forgotten { (left : ℕ → ℕ) (marked went : ℕ → Bool) (s u : Server) (k : ℕ) → LeftSince left marked went s u
        → LeftSince left marked went s (forget_connection u k) }
{}

/// A directory that was empty before is empty yet; where no file went it is as full as before; and one that was full is empty
/// exactly where all that stood below it went.
pub fn empty_law()
    ensures emptied { (left : ℕ → ℕ) (marked went : ℕ → Bool) (s u : Server) (f : ℕ) → LeftSince left marked went s u
        → exists u f ≡ true → (f == root) ≡ false → is_full_directory s f ≡ false → is_full_directory u f ≡ false }
    ensures same { (left : ℕ → ℕ) (marked went : ℕ → Bool) (s u : Server) (f : ℕ) → LeftSince left marked went s u
        → exists u f ≡ true → (f == root) ≡ false → ((g : ℕ) → went g ≡ false) → is_full_directory u f ≡ is_full_directory s f }
    ensures gone { (left : ℕ → ℕ) (marked went : ℕ → Bool) (s u : Server) (f : ℕ) (fs : List ℕ) → LeftSince left marked went s u
        → exists u f ≡ true → (f == root) ≡ false → OpensNumbered s.entries → is_full_directory s f ≡ true → AreOpensBelow s f fs
        → all_gone went fs ≡ not (is_full_directory u f) }
{}

/// An open that leaves alone: whether its file goes with it, or stays without its mark.
pub fn alone_law()
    ensures goes { (s : Server) (o : ℕ) → Fits s → s.standing o ≡ true
        → goes (drop_open (pending_behind s o) o) (s.opened o).file ≡ goes_alone s (s.opened o) }
    ensures stays { (s : Server) (o : ℕ) → Fits s → s.standing o ≡ true
        → is_kept_back (drop_open (pending_behind s o) o) (s.opened o).file ≡ is_kept_alone s (s.opened o) }
{}

/// Connections that are lost one behind the other, as at a stop: which session ends with the next one, and what stands behind it.
pub fn out_law()
    ensures ends { (s : Server) (ks : List ℕ) (k : ℕ) (more : List ℕ) (now : ℕ) → Fits s → s.connections ≡ ks ++ k ∷ more
        → ends_with (take_all_out s ks now false) k ≡ ends_left s ks k more }
    ensures stays { (left : ℕ → ℕ) (marked went : ℕ → Bool) (s : Server) (ks : List ℕ) (k : ℕ) (more : List ℕ) (now : ℕ) → Fits s
        → s.connections ≡ ks ++ k ∷ more → ends_left s ks k more ≡ None → LeftSince left marked went s (take_all_out s ks now false)
        → LeftSince left marked went s (take_all_out s (ks ++ k ∷ []) now false)
        × (take_all_records s (ks ++ k ∷ []) now false ≡ take_all_records s ks now false) }
    ensures standing { (s : Server) (ks : List ℕ) (k : ℕ) (more : List ℕ) (now x : ℕ) → Fits s → s.connections ≡ ks ++ k ∷ more
        → ends_left s ks k more ≡ Some x → AllStand (take_all_out s ks now false) (plain_of s x) }
    ensures ended { (left : ℕ → ℕ) (marked went : ℕ → Bool) (s : Server) (ks : List ℕ) (k : ℕ) (more : List ℕ) (now x : ℕ) → Fits s
        → s.connections ≡ ks ++ k ∷ more → ends_left s ks k more ≡ Some x
        → LeftSince left marked went s (leave_all (take_all_out s ks now false) (plain_of s x))
        → LeftSince left marked went s (take_all_out s (ks ++ k ∷ []) now false)
        × (take_all_records s (ks ++ k ∷ []) now false ≡ take_all_records s ks now false
        ++ leave_all_records (take_all_out s ks now false) (origin_at 0) (plain_of s x)) }
{}
