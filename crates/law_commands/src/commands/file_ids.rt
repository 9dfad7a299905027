ghost use Rattle.std.specs.Prelude.{◌≡◌, ◌^◌, ◌<◌, ◌≤◌, ◌++◌, ℕ, List, All, length};
ghost use Rattle.spec_wire.specs.messages.Places.{le};
ghost use Rattle.spec_commands.specs.Ids.{file_id, file_of, file_kept};
ghost use Rattle.law_commands.specs.commands.Fitting.{IsByte};

/// A client gives back the FileId that it was told, whichever 16 bytes its server chose (`back`), and keeps of it a number
/// below 2^128 (`low`), of which each stands for a FileId (`told`). An id below 2^64, as this project's server gives, is one
/// of two equal halves, which the server reads back (`own`); any other FileId names no open there (`other`).
pub fn file_ids_law()
    ensures back { (id : List ℕ) → length id ≡ 16 → All IsByte id → file_id (file_kept id) ≡ id }
    ensures low { (id : List ℕ) → All IsByte id → file_kept id < 256 ^ 16 }
    ensures told { (o : ℕ) → o < 256 ^ 16 → file_kept (file_id o) ≡ o }
    ensures own { (o : ℕ) → o < 256 ^ 8 → (file_id o ≡ le 8 o ++ le 8 o) × (file_of (file_id o) ≡ o) }
    ensures other { (o : ℕ) → 256 ^ 8 ≤ o → o < 256 ^ 16 → file_of (file_id o) ≡ 0 }
{}
