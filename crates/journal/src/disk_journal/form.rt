// What an entry of each form has beside a length and a body.
ghost use Rattle.std.specs.Prelude.{◌≡◌};
ghost use Rattle.spec_journal.specs.Forms.{sum_size};

use spec_journal::Form;

/// How many bytes of an entry are its checksum.
pub(crate) fn sum_bytes(form: Form) -> u64
    ensures { result ≡ sum_size form }
{
    match form {
        Form::Plain => 0,
        Form::Summed => 4,
    }
}
