// The highest operations of an open, by what later ones wait for.
ghost use Rattle.std.specs.Prelude.{◌≡◌, ℕ, ◌+◌, ◌<◌, ◌==◌, ◌&&◌, not, if◌then◌else◌};
ghost use Rattle.client_values.specs.declared.operations.shapes.Kind.{Kind as Kinds};
ghost use Rattle.client_values.specs.operations.Waiting.{is_close_kind};
ghost use Rattle.client_rows.specs.operation_rows.Holding.{is_holding_changing};
ghost use Rattle.client_rows.specs.open_marks.Marks.{AreMarksBelow, Heights, is_barrier, is_mark_end, is_mark_write, mark_of};

use client_values::Kind;

// The highest of each kind is enough: a new operation costs a few looks, and lower ones are found from these by
// links.
/// The highest of an open's operations; of its changes; of its writes of a byte or more; its highest close; end; and end, time,
/// rename or removal. 0 is none.
#[derive(Clone, Copy, Debug, PartialEq, Eq)]
pub struct Marks {
    pub last: u32,
    pub change: u32,
    pub filled: u32,
    pub close: u32,
    pub end: u32,
    pub barrier: u32,
}

fn changes(kind: Kind) -> bool
    ensures { result ≡ is_holding_changing kind }
{
    match kind {
        Kind::Write => true,
        Kind::End => true,
        Kind::Change => true,
        _ => false,
    }
}

fn fills(kind: Kind, size: u64) -> bool
    ensures { result ≡ (is_mark_write kind && not (size == 0)) }
{
    match kind {
        Kind::Write => size != 0,
        _ => false,
    }
}

fn closes(kind: Kind) -> bool
    ensures { result ≡ is_close_kind kind }
{
    match kind {
        Kind::Close => true,
        _ => false,
    }
}

fn ends(kind: Kind) -> bool
    ensures { result ≡ is_mark_end kind }
{
    match kind {
        Kind::End => true,
        _ => false,
    }
}

fn bars(kind: Kind) -> bool
    ensures { result ≡ is_barrier kind }
{
    match kind {
        Kind::End => true,
        Kind::Change => true,
        _ => false,
    }
}

fn raised(mark: u32, such: bool, number: u32) -> u32
    ensures { result ≡ (if such then number else mark) }
{
    if such { number } else { mark }
}

impl Marks {
    /// The mark, beside the last close, at which a new operation of a kind looks.
    pub fn mark_of(&self, kind: Kind) -> u32
        ensures { result ≡ mark_of kind self.now }
    {
        match kind {
            Kind::Write => self.barrier,
            Kind::Read => self.end,
            Kind::Look => self.end,
            _ => 0,
        }
    }

    /// The marks behind one operation more, whose number is the next.
    pub fn behind(&self, number: u32, kind: Kind, size: u64) -> Marks
        ensures highest { (o : ℕ → ℕ) (k : ℕ → Kinds) (sizes : ℕ → ℕ) (create : ℕ) → Heights o k sizes create number self.now
            → o number ≡ create → k number ≡ kind → sizes number ≡ size → Heights o k sizes create (number + 1) result }
        ensures below { (n : ℕ) → AreMarksBelow self.now n → number < n → AreMarksBelow result n }
    {
        let change = raised(self.change, changes(kind), number);
        let filled = raised(self.filled, fills(kind, size), number);
        let close = raised(self.close, closes(kind), number);
        let end = raised(self.end, ends(kind), number);
        let barrier = raised(self.barrier, bars(kind), number);
        Marks {
            last: number,
            change,
            filled,
            close,
            end,
            barrier,
        }
    }
}
