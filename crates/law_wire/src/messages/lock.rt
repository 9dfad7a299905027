ghost use Rattle.std.specs.Prelude.{◌≡◌, ◌++◌, ℕ, List, length, None};
ghost use Rattle.spec_wire.specs.messages.Table.{Stands, AreWritable};
ghost use Rattle.spec_wire.specs.declared.messages.message.LockElement.{LockElement};
ghost use Rattle.spec_wire.specs.messages.Lock.{lock_element_table, lock_element_spelling, LockRequestValue, SpellsLockRequest};
ghost use Rattle.spec_wire.specs.messages.Lock.{IsWritableLockRequest, lock_request_fault, lock_request_in};
ghost use Rattle.spec_wire.specs.messages.Lock.{lock_request_spelling};

/// The laws of the LOCK request.
pub fn lock_request_law()
    ensures one { (m : List ℕ) (v w : LockRequestValue) → SpellsLockRequest m v → SpellsLockRequest m w → v ≡ w }
    ensures whole { (m : List ℕ) (v : LockRequestValue) → SpellsLockRequest m v → lock_request_fault m ≡ None }
    ensures given { (m : List ℕ) → lock_request_fault m ≡ None → SpellsLockRequest m (lock_request_in m) }
    ensures again { (header rest : List ℕ) (v : LockRequestValue) → length header ≡ 64 → IsWritableLockRequest v
        → SpellsLockRequest (header ++ (lock_request_spelling v ++ rest)) v }
{}

/// At one place at most one element of a LOCK request stands, and an element that is written, between
/// any bytes, stands there.
pub fn lock_element_law()
    ensures one { (m : List ℕ) (at : ℕ) (e f : LockElement) → Stands m at (lock_element_table e)
        → Stands m at (lock_element_table f) → e ≡ f }
    ensures again { (front rest : List ℕ) (e : LockElement) → AreWritable (lock_element_table e)
        → Stands (front ++ (lock_element_spelling e ++ rest)) (length front) (lock_element_table e) }
{}
