ghost use Rattle.std.specs.Prelude.{◌≡◌, ◌≤◌, ◌++◌, ℕ, List, [], length};
ghost use Rattle.spec_wire.specs.messages.Frames.{Whole, Breaks, front, frame_spelling, Frames, Call, Calls, fed, given};
ghost use Rattle.spec_wire.specs.declared.messages.refusal.FrameError.{FrameError};

/// The laws of frames: a stream holds one list of whole frames, and one rest; a whole frame at the front,
/// and a refusal, stay whatever is fed behind them; a frame that was made is read again; and however a
/// stream is cut into pieces, what was handed out and what is left are its frames and its rest.
pub fn frames_law()
    ensures one { (s : List ℕ) (ms ns : List (List ℕ)) (r q : List ℕ) → Frames s ms r → Frames s ns q
        → ((m t : List ℕ) → front r ≡ Whole m t → ⊥) → ((m t : List ℕ) → front q ≡ Whole m t → ⊥) → (ms ≡ ns)
        × (r ≡ q) }
    ensures stays { (s m r more : List ℕ) → front s ≡ Whole m r → front (s ++ more) ≡ Whole m (r ++ more) }
    ensures refused { (s more : List ℕ) (e : FrameError) → front s ≡ Breaks e → front (s ++ more) ≡ Breaks e }
    ensures again { (m rest : List ℕ) → length m ≤ 1114112 → front (frame_spelling m ++ rest) ≡ Whole m rest }
    ensures cut { (cs : List Call) (left : List ℕ) → Calls [] cs left → Frames (fed cs) (given cs) left }
{}
