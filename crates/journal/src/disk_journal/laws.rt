// Laws: what bytes of a disk mean. Each function does nothing, and its contract is the law.
ghost use Rattle.std.specs.Prelude.{◌≡◌, ℕ, List, ◌++◌};
ghost use Rattle.spec_journal.specs.Forms.{form_front, StandsFor, BreaksAt};
ghost use Rattle.spec_journal.specs.declared.form.Form.{Form};

/// Bytes stand for at most one list of bodies.
pub fn one_meaning()
    ensures { (bytes : List ℕ) (a b : List (List ℕ)) → StandsFor bytes a → StandsFor bytes b → a ≡ b }
{}

/// Bytes that break the grammar stand for no list of bodies.
pub fn broken_means_nothing()
    ensures { (bytes : List ℕ) (bodies : List (List ℕ)) (at : ℕ) → StandsFor bytes bodies → BreaksAt bytes at → ⊥ }
{}

/// Bytes break the grammar at one place at most.
pub fn one_break()
    ensures { (bytes : List ℕ) (a b : ℕ) → BreaksAt bytes a → BreaksAt bytes b → a ≡ b }
{}

/// Bytes that begin as a journal have one form.
pub fn one_form()
    ensures { (bytes rest more : List ℕ) (f g : Form) (a b : List (List ℕ)) → bytes ≡ form_front f a ++ rest → bytes ≡ form_front g b ++ more
        → f ≡ g }
{}
