// Numbers of which nothing is outstanding leave the set.
ghost use Rattle.std.specs.Prelude.{◌≡◌, ℕ, ◌<◌, ◌≤◌, true, length};
ghost use Rattle.base_lists.specs.number_set.Members.{MembersFit, count, has, member, size};
ghost use Rattle.client_rows.specs.operation_rows.Rows.{is_out};
ghost use Rattle.client_tables.specs.outstanding.Shown.{HoldsOut};

use base_lists::Members;
use client_rows::Row;

/// Whether something of an operation is outstanding.
fn is_out_at(rows: &[Row], index: usize) -> bool
    requires { index < length rows.now }
    ensures { result ≡ is_out rows.now index }
{
    rows[index].outstanding_on.is_some()
}

/// Of the members, that one leaves of which nothing is outstanding any more.
fn sweep_one(rows: &[Row], out: &mut Members, place: usize)
    requires fits { MembersFit out.old }
    requires sized { size out.old ≡ length rows.now }
    requires within { place < count out.old }
    requires more { (g : ℕ) → g < length rows.now → is_out rows.now g ≡ true → has out.old g ≡ true }
    ensures fits { MembersFit out.new }
    ensures sized { size out.new ≡ length rows.now }
    ensures more { (g : ℕ) → g < length rows.now → is_out rows.now g ≡ true → has out.new g ≡ true }
    ensures least { place ≤ count out.new }
    ensures swept { ((i : ℕ) → place < i → i < count out.old → is_out rows.now (member out.old i) ≡ true)
        → (i : ℕ) → place ≤ i → i < count out.new → is_out rows.now (member out.new i) ≡ true }
{
    let index = out.at(place);
    if !is_out_at(rows, index) {
        out.remove(index);
    }
}

/// Those leave of which nothing is outstanding any more.
pub fn sweep(rows: &[Row], out: &mut Members)
    requires fits { MembersFit out.old }
    requires sized { size out.old ≡ length rows.now }
    requires more { (g : ℕ) → g < length rows.now → is_out rows.now g ≡ true → has out.old g ≡ true }
    ensures { HoldsOut rows.now out.new }
{
    let mut place = out.count();
    // Downwards, because the last member comes to the place of one that leaves: it was seen already.
    while place > 0 {
        place -= 1;
        sweep_one(rows, out, place);
    }
}
