// The set of what is outstanding, where one row changed.
ghost use Rattle.std.specs.Prelude.{◌≡◌, ℕ, ◌<◌, ◌==◌, true, false, if◌then◌else◌, length};
ghost use Rattle.base_lists.specs.number_set.Members.{MembersFit, has, size};
ghost use Rattle.client_rows.specs.operation_rows.Rows.{is_out};
ghost use Rattle.client_tables.specs.outstanding.Shown.{HoldsOut};

use base_lists::Members;
use client_rows::Row;

/// Whether something of an operation is outstanding.
fn is_out_at(rows: &[Row], index: usize) -> bool
    requires { index < length rows.now }
    ensures { result ≡ is_out rows.now index }
{
    rows[index].outstanding_on.is_some()
}

/// A number is a member from now on.
fn join(out: &mut Members, index: usize)
    requires fits { MembersFit out.old }
    requires within { index < size out.old }
    ensures fits { MembersFit out.new }
    ensures size { size out.new ≡ size out.old }
    ensures has { (h : ℕ) → h < size out.old → has out.new h ≡ (if h == index then true else has out.old h) }
{
    if out.has(index) {
        return;
    }
    out.put(index);
}

/// A number is no member any more.
fn leave(out: &mut Members, index: usize)
    requires fits { MembersFit out.old }
    requires within { index < size out.old }
    ensures fits { MembersFit out.new }
    ensures size { size out.new ≡ size out.old }
    ensures has { (h : ℕ) → h < size out.old → has out.new h ≡ (if h == index then false else has out.old h) }
{
    if !out.has(index) {
        return;
    }
    out.remove(index);
}

/// One operation joins the set or leaves it, as something of it is outstanding or isn't. Of all others the set is right.
pub fn refresh(rows: &[Row], out: &mut Members, index: usize)
    requires fits { MembersFit out.old }
    requires sized { size out.old ≡ length rows.now }
    requires within { index < length rows.now }
    requires others { (g : ℕ) → g < length rows.now → (g ≡ index → ⊥) → has out.old g ≡ is_out rows.now g }
    ensures { HoldsOut rows.now out.new }
{
    if is_out_at(rows, index) {
        join(out, index);
        return;
    }
    leave(out, index);
}
