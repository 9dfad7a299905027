// By what an operation waits.
ghost use Rattle.std.specs.Prelude.{◌≡◌, ℕ, ◌≤◌, true};
ghost use Rattle.spec_exchange.specs.Operations.{Op as Asked, keeps_limits, weight, charge, holds_up};
ghost use Rattle.client_values.specs.operations.Meaning.{op_of};
ghost use Rattle.client_values.specs.operations.Waiting.{kind_of, at_of, size_of, shape_holds};

use crate::operations::limits::charge;
use crate::operations::values::OpKind;

/// What an operation waits by, beside a range of bytes.
#[derive(Clone, Copy, Debug, PartialEq, Eq)]
pub enum Kind {
    Create,
    Write,
    Read,
    End,
    /// A time, a rename or a removal.
    Change,
    /// A lock or an unlock.
    Lock,
    /// A flush or a stat.
    Look,
    List,
    Close,
}

/// Of an operation, what others of its open wait by, and the credits that it pays. Where there is no range of bytes, both its
/// numbers are 0.
#[derive(Clone, Copy, Debug, PartialEq, Eq)]
pub struct Shape {
    pub kind: Kind,
    pub at: u64,
    pub size: u64,
    pub charge: u8,
}

impl OpKind {
    fn kind(&self) -> Kind
        ensures { result ≡ kind_of (op_of self.now) }
    {
        match self {
            OpKind::Create { .. } => Kind::Create,
            OpKind::Write { .. } => Kind::Write,
            OpKind::Read { .. } => Kind::Read,
            OpKind::SetEnd { .. } => Kind::End,
            OpKind::SetTime { .. } | OpKind::Rename { .. } | OpKind::Remove { .. } => Kind::Change,
            OpKind::Lock { .. } | OpKind::Unlock { .. } => Kind::Lock,
            OpKind::Flush { .. } | OpKind::Stat { .. } => Kind::Look,
            OpKind::List { .. } => Kind::List,
            OpKind::Close { .. } => Kind::Close,
        }
    }

    fn at(&self) -> u64
        ensures { result ≡ at_of (op_of self.now) }
    {
        match self {
            OpKind::Write { at, .. } | OpKind::Read { at, .. } => *at,
            OpKind::Lock { at, .. } | OpKind::Unlock { at, .. } => *at,
            _ => 0,
        }
    }

    fn size(&self) -> u64
        ensures { result ≡ size_of (op_of self.now) }
    {
        match self {
            OpKind::Write { bytes, .. } => bytes.len() as u64,
            OpKind::Read { length, .. } => u64::from(*length),
            OpKind::Lock { length, .. } | OpKind::Unlock { length, .. } => *length,
            _ => 0,
        }
    }
}

impl Shape {
    /// The shape of an operation that keeps its limits.
    #[tactic(auto, using(crate::proofs::operations::Fitting::light))]
    pub fn of(kind: &OpKind) -> Shape
        requires { keeps_limits (op_of kind.now) ≡ true }
        ensures kind { result.kind ≡ kind_of (op_of kind.now) }
        ensures at { result.at ≡ at_of (op_of kind.now) }
        ensures size { result.size ≡ size_of (op_of kind.now) }
        ensures charge { result.charge ≡ charge (weight (op_of kind.now)) }
        ensures few { result.charge ≤ 17 }
    {
        Shape {
            kind: kind.kind(),
            at: kind.at(),
            size: kind.size(),
            charge: charge(kind.weight()),
        }
    }
}

/// Of two operations on one open, shapes tell whether the later one waits for the earlier one.
pub fn shapes_law()
    ensures { (a b : Asked) → holds_up a b ≡ shape_holds (kind_of a) (at_of a) (size_of a) (kind_of b) (at_of b) (size_of b) }
{}
