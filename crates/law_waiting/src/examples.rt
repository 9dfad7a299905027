//! Waiters, computed: two clients on one file.

ghost use Rattle.std.specs.Prelude.{◌≡◌, ℕ, [], ◌∷◌, false, true, None, Some};
ghost use Rattle.spec_exchange.specs.Commands.{Close, Lock, Logoff, Read};
ghost use Rattle.spec_exchange.specs.State.{End, Heard, Server, Stop};
ghost use Rattle.law_waiting.specs.held.Untouched.{leaves_waiters};
ghost use Rattle.law_waiting.specs.wait_steps.WaitStep.{ByAsyncId, ByMessageId, DiskFault, Fails, Lacks, NoMemory, Serves, Stopped, wait_step};
ghost use Rattle.law_waiting.specs.out_steps.OutStep.{Answers, Ended, Goes, Kept, Last, Pending, Plain, Waits};
ghost use Rattle.law_waiting.specs.examples.Outs.{response_later, lucky, replied_after, unlucky_out, written_after};
ghost use Rattle.law_waiting.specs.examples.Waiters.{Breaks, Hears, asks, at_once, cancels, full, lock, lock_by, locks_ten, seen_after, seen_in};
ghost use Rattle.law_waiting.specs.examples.Waiters.{sends, no_ids_left, response, plain_turn, two_opens, unlocked, unlocks_ten, unlucky, wants_ten};

/// A LOCK waits for another client's range: STATUS_PENDING with an AsyncId; the unlock lets it go, and its final response has that id.
#[tactic(auto, unfolding(crate::specs::examples::Waiters::computed))]
pub fn unlock_example()
    ensures first { seen_after [] locks_ten ≡ Hears (Some (response 1 5 0 0x0)) [] 0 false }
    ensures waits { seen_after (locks_ten ∷ []) wants_ten ≡ Hears (Some (response 2 8 1 0x103)) [] 1 false }
    ensures goes { seen_after (locks_ten ∷ wants_ten ∷ []) unlocks_ten
        ≡ Hears (Some (response 1 6 0 0x0)) (response 2 8 1 0x0 ∷ []) 0 false }
{}

/// A CANCEL in the unlock's place: the waiter is answered with STATUS_CANCELLED, and the unlock then lets nobody go. By the MessageId
/// it is the same; another connection's CANCEL, and one of another id, do nothing.
#[tactic(auto, unfolding(crate::specs::examples::Waiters::computed))]
pub fn cancel_example()
    ensures by_async_id { seen_after (locks_ten ∷ wants_ten ∷ []) (cancels 2 (ByAsyncId 1))
        ≡ Hears None (response 2 8 1 0xc000_0120 ∷ []) 0 false }
    ensures then_unlocked { seen_after (locks_ten ∷ wants_ten ∷ cancels 2 (ByAsyncId 1) ∷ []) unlocks_ten
        ≡ Hears (Some (response 1 6 0 0x0)) [] 0 false }
    ensures by_message_id { seen_after (locks_ten ∷ wants_ten ∷ []) (cancels 2 (ByMessageId 8))
        ≡ Hears None (response 2 8 1 0xc000_0120 ∷ []) 0 false }
    ensures other_connection { seen_after (locks_ten ∷ wants_ten ∷ []) (cancels 1 (ByAsyncId 1)) ≡ Hears None [] 1 false }
    ensures other_id { seen_after (locks_ten ∷ wants_ten ∷ []) (cancels 2 (ByAsyncId 8)) ≡ Hears None [] 1 false }
{}

/// What doesn't wait: a LOCK that asks to fail at once, one of two elements, one that isn't alone in its frame, and one for bytes that no
/// range denies.
#[tactic(auto, unfolding(crate::specs::examples::Waiters::computed))]
pub fn at_once_example()
    ensures flag { seen_after (locks_ten ∷ []) (sends 2 8 (lock 2 0 10 0x12)) ≡ Hears (Some (response 2 8 0 0xc000_0055)) [] 0 false }
    ensures two { seen_after (locks_ten ∷ []) (sends 2 8 (Lock 2 0 0 (record { at = 0; length = 1; flags = 2 }
        ∷ record { at = 20; length = 1; flags = 2 } ∷ []))) ≡ Hears (Some (response 2 8 0 0xc000_0055)) [] 0 false }
    ensures compound { seen_after (locks_ten ∷ []) (at_once wants_ten) ≡ Hears (Some (response 2 8 0 0xc000_0055)) [] 0 false }
    ensures free { seen_after (locks_ten ∷ []) (sends 2 8 (lock 2 10 10 0x2)) ≡ Hears (Some (response 2 8 0 0x0)) [] 0 false }
{}

/// One unlock lets two go that share the bytes; of two that each want them alone it lets the earlier one go, and the other waits on.
#[tactic(auto, unfolding(crate::specs::examples::Waiters::computed))]
pub fn two_waiters_example()
    ensures shared { seen_after (locks_ten ∷ sends 2 8 (lock 2 0 5 0x1) ∷ sends 2 9 (lock 2 3 5 0x1) ∷ []) unlocks_ten
        ≡ Hears (Some (response 1 6 0 0x0)) (response 2 8 1 0x0 ∷ response 2 9 2 0x0 ∷ []) 0 false }
    ensures alone { seen_after (locks_ten ∷ wants_ten ∷ sends 2 9 (lock 2 0 1 0x2) ∷ []) unlocks_ten
        ≡ Hears (Some (response 1 6 0 0x0)) (response 2 8 1 0x0 ∷ []) 1 false }
    ensures past_the_first { seen_after (locks_ten ∷ sends 1 7 (lock 1 10 10 0x12) ∷ sends 2 8 (lock 2 0 20 0x2)
        ∷ sends 2 9 (lock 2 0 1 0x2) ∷ []) unlocks_ten ≡ Hears (Some (response 1 6 0 0x0)) (response 2 9 2 0x0 ∷ []) 1 false }
{}

/// A LOCK of the same slot and number is the former sent again: it takes that one's place in the list, before those that came later,
/// and the former is cancelled. Without a slot both wait.
#[tactic(auto, unfolding(crate::specs::examples::Waiters::computed))]
pub fn sent_again_example()
    ensures replaced { seen_after (locks_ten ∷ sends 2 8 (lock_by 2 1 3 0 10 0x2) ∷ wants_ten ∷ []) (sends 2 10 (lock_by 2 1 3 0 10 0x2))
        ≡ Hears (Some (response 2 10 3 0x103)) (response 2 8 1 0xc000_0120 ∷ []) 2 false }
    ensures in_its_place { seen_after (locks_ten ∷ sends 2 8 (lock_by 2 1 3 0 10 0x2) ∷ wants_ten ∷ sends 2 10 (lock_by 2 1 3 0 10 0x2) ∷ [])
        unlocks_ten ≡ Hears (Some (response 1 6 0 0x0)) (response 2 10 3 0x0 ∷ []) 1 false }
    ensures other_number { seen_after (locks_ten ∷ sends 2 8 (lock_by 2 1 3 0 10 0x2) ∷ []) (sends 2 10 (lock_by 2 1 4 0 10 0x2))
        ≡ Hears (Some (response 2 10 2 0x103)) [] 2 false }
    ensures no_slot { seen_after (locks_ten ∷ sends 2 8 (lock_by 2 0 3 0 10 0x2) ∷ []) (sends 2 10 (lock_by 2 0 3 0 10 0x2))
        ≡ Hears (Some (response 2 10 2 0x103)) [] 2 false }
{}

/// Where 1,024 wait, or no AsyncId is left, a LOCK that would wait is refused.
#[tactic(auto, unfolding(crate::specs::examples::Waiters::computed))]
pub fn no_place_example()
    ensures full { seen_in (wait_step full (sends 2 9 (lock 2 0 1 0x2))) ≡ Hears (Some (response 2 9 0 0xc000_009a)) [] 1024 false }
    ensures no_ids_left { seen_in (wait_step no_ids_left wants_ten) ≡ Hears (Some (response 2 8 0 0xc000_009a)) [] 0 false }
{}

/// A waiter goes without a response at its connection's end, and where the server stops. Where its open is closed or its session is
/// logged off, the server answers it so.
#[tactic(auto, unfolding(crate::specs::examples::Waiters::computed))]
pub fn leaving_example()
    ensures ended { seen_after (locks_ten ∷ wants_ten ∷ []) (plain_turn (Serves (End 2))) ≡ Hears (Some (response 2 0 0 0x0)) [] 0 false }
    ensures then_unlocked { seen_after (locks_ten ∷ wants_ten ∷ plain_turn (Serves (End 2)) ∷ []) unlocks_ten
        ≡ Hears (Some (response 1 6 0 0x0)) [] 0 false }
    ensures holder_ended { seen_after (locks_ten ∷ wants_ten ∷ []) (plain_turn (Serves (End 1)))
        ≡ Hears (Some (response 1 0 0 0x0)) (response 2 8 1 0x0 ∷ []) 0 false }
    ensures closed { seen_after (locks_ten ∷ wants_ten ∷ []) (sends 2 9 (Close 2 false))
        ≡ Hears (Some (response 2 9 0 0x0)) (response 2 8 1 0xc000_0128 ∷ []) 0 false }
    ensures logged_off { seen_after (locks_ten ∷ wants_ten ∷ []) (sends 2 9 Logoff)
        ≡ Hears (Some (response 2 9 0 0x0)) (response 2 8 1 0xc000_0203 ∷ []) 0 false }
{}

/// Where the waiter's step finds no memory it stays, and the list starves; the next event lets it go. Where the disk fails nobody is
/// answered, and nothing changes any more. Where memory ran out before any step the event isn't carried out.
#[tactic(auto, unfolding(crate::specs::examples::Waiters::computed))]
pub fn mishap_example()
    ensures starved { seen_after (locks_ten ∷ wants_ten ∷ []) (unlucky (None ∷ Some (Lacks unlocked) ∷ []) unlocks_ten)
        ≡ Hears (Some (response 1 6 0 0x0)) [] 1 true }
    ensures fed { seen_after (locks_ten ∷ wants_ten ∷ unlucky (None ∷ Some (Lacks unlocked) ∷ []) unlocks_ten ∷ []) (cancels 1 (ByAsyncId 9))
        ≡ Hears None (response 2 8 1 0x0 ∷ []) 0 false }
    ensures failed { seen_after (locks_ten ∷ wants_ten ∷ []) (unlucky (None ∷ Some (Fails unlocked 3) ∷ []) unlocks_ten)
        ≡ Breaks (DiskFault 3) 1 true }
    ensures stopped { seen_after (locks_ten ∷ wants_ten ∷ unlucky (None ∷ Some (Fails unlocked 3) ∷ []) unlocks_ten ∷ [])
        (cancels 2 (ByAsyncId 1)) ≡ Breaks (Stopped 3) 1 true }
    ensures lacking { seen_after (locks_ten ∷ []) (record wants_ten { lacks = true }) ≡ Breaks NoMemory 0 true }
{}

/// A READ lets nobody go, whatever he waits for. A LOCK may let go who waits for its open's file, here file 1, and nobody else.
#[tactic(auto, unfolding(crate::specs::examples::Waiters::computed))]
pub fn untouched_example()
    ensures read { (s : Server) (f : ℕ) → leaves_waiters s f (Heard (asks 1 5 (Read 1 0 10 0 0))) ≡ true }
    ensures own_file { leaves_waiters two_opens 1 (Heard (asks 1 5 (lock 1 0 10 0x12))) ≡ false }
    ensures other_file { leaves_waiters two_opens 2 (Heard (asks 1 5 (lock 1 0 10 0x12))) ≡ true }
{}

/// An interim response goes out when its LOCK waits, the final one behind it. A final one that comes first is kept, and goes out behind
/// its interim one. Behind an end nothing goes out.
#[tactic(auto, unfolding(crate::specs::examples::Outs::computed_out))]
pub fn out_example()
    ensures in_order { written_after (lucky (Waits 3 (response_later 1 0x103)) ∷ lucky (Answers 4 9) ∷ lucky (Goes (response_later 1 0)) ∷ [])
        ≡ Pending 1 (1 ∷ 0x103 ∷ []) ∷ Plain (9 ∷ []) ∷ Last 1 (1 ∷ 0 ∷ []) ∷ [] }
    ensures kept { replied_after [] (lucky (Goes (response_later 1 0))) ≡ Kept }
    ensures behind { written_after (lucky (Goes (response_later 1 0)) ∷ lucky (Answers 4 9) ∷ lucky (Waits 3 (response_later 1 0x103)) ∷ [])
        ≡ Plain (9 ∷ []) ∷ Pending 1 (1 ∷ 0x103 ∷ []) ∷ Last 1 (1 ∷ 0 ∷ []) ∷ [] }
    ensures once { written_after (lucky (Waits 3 (response_later 1 0x103)) ∷ lucky (Goes (response_later 1 0)) ∷ lucky (Goes (response_later 1 0)) ∷ [])
        ≡ Pending 1 (1 ∷ 0x103 ∷ []) ∷ Last 1 (1 ∷ 0 ∷ []) ∷ [] }
    ensures failed { replied_after [] (unlucky_out 0 (Waits 3 (response_later 1 0x103))) ≡ Ended 4 }
    ensures ended { replied_after (unlucky_out 1 (Answers 4 9) ∷ []) (lucky (Goes (response_later 1 0))) ≡ Ended 4 }
    ensures nothing { written_after (unlucky_out 1 (Answers 4 9) ∷ lucky (Answers 4 9) ∷ []) ≡ Plain (9 ∷ []) ∷ [] }
{}
