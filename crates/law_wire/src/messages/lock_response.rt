ghost use Rattle.std.specs.Prelude.{◌≡◌, ◌++◌, ℕ, List, length, None};
ghost use Rattle.spec_wire.specs.messages.LockResponse.{SpellsLockResponse, IsWritableLockResponse, lock_response_fault};
ghost use Rattle.spec_wire.specs.messages.LockResponse.{lock_response_in, lock_response_spelling};
ghost use Rattle.spec_wire.specs.declared.messages.file_message.LockResponse.{LockResponse};

/// The laws of the LOCK response.
pub fn lock_response_law()
    ensures one { (m : List ℕ) (v w : LockResponse) → SpellsLockResponse m v → SpellsLockResponse m w → v ≡ w }
    ensures whole { (m : List ℕ) (v : LockResponse) → SpellsLockResponse m v → lock_response_fault m ≡ None }
    ensures given { (m : List ℕ) → lock_response_fault m ≡ None → SpellsLockResponse m (lock_response_in m) }
    ensures again { (header rest : List ℕ) (v : LockResponse) → length header ≡ 64 → IsWritableLockResponse v
        → SpellsLockResponse (header ++ (lock_response_spelling v ++ rest)) v }
{}
