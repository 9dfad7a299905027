// Which operation it is, as the model asks it.
ghost use Rattle.std.specs.Prelude.{◌≡◌};
ghost use Rattle.spec_exchange.specs.Operations.{is_create, is_lock, is_close, is_write, is_change, persists};
ghost use Rattle.client_values.specs.operations.Meaning.{op_of};

use crate::operations::values::OpKind;

impl OpKind {
    pub fn is_create(&self) -> bool
        ensures { result ≡ is_create (op_of self.now) }
    {
        matches!(self, OpKind::Create { .. })
    }

    /// Whether it is a lock or an unlock.
    pub fn is_lock(&self) -> bool
        ensures { result ≡ is_lock (op_of self.now) }
    {
        matches!(self, OpKind::Lock { .. } | OpKind::Unlock { .. })
    }

    pub fn is_close(&self) -> bool
        ensures { result ≡ is_close (op_of self.now) }
    {
        matches!(self, OpKind::Close { .. })
    }

    pub fn is_write(&self) -> bool
        ensures { result ≡ is_write (op_of self.now) }
    {
        matches!(self, OpKind::Write { .. })
    }

    /// Whether it is a write or a set-info: an end, a time, a rename or a removal.
    pub fn is_change(&self) -> bool
        ensures { result ≡ is_change (op_of self.now) }
    {
        matches!(
            self,
            OpKind::Write { .. }
                | OpKind::SetEnd { .. }
                | OpKind::SetTime { .. }
                | OpKind::Rename { .. }
                | OpKind::Remove { .. }
        )
    }

    /// Whether it is a create whose open outlives its session.
    pub fn persists(&self) -> bool
        ensures { result ≡ persists (op_of self.now) }
    {
        match self {
            OpKind::Create { persist, .. } => *persist,
            _ => false,
        }
    }
}
