// Operations, and what they are answered.
ghost use Rattle.std.specs.Prelude.{◌≡◌, ℕ, IfOk, MatchOption, true, false};
ghost use Rattle.spec_exchange.specs.Operations.{create_of, is_create};
ghost use Rattle.client_values.specs.operations.Meaning.{op_of, IsOperationPlain};

use crate::operations::lists::TextList;
use std::alloc::AllocError;
use wire_bytes::{Bytes, Text};

/// An operation of a script. Operations count from 1, in the order in which they are submitted.
#[derive(Drop)]
pub struct Op {
    pub number: u32,
    pub kind: OpKind,
}

/// What an operation asks; `create` is the number of an earlier create, whose open it is on.
#[derive(Drop)]
pub enum OpKind {
    Create {
        path: Text,
        access: u32,
        share: u32,
        disposition: u32,
        persist: bool,
        directory: bool,
    },
    Write {
        create: u32,
        at: u64,
        bytes: Bytes,
    },
    Read {
        create: u32,
        at: u64,
        length: u32,
    },
    SetEnd {
        create: u32,
        length: u64,
    },
    SetTime {
        create: u32,
        time: u64,
    },
    Rename {
        create: u32,
        path: Text,
    },
    Remove {
        create: u32,
    },
    Lock {
        create: u32,
        at: u64,
        length: u64,
        exclusive: bool,
    },
    Unlock {
        create: u32,
        at: u64,
        length: u64,
    },
    Flush {
        create: u32,
    },
    Stat {
        create: u32,
    },
    List {
        create: u32,
    },
    Close {
        create: u32,
    },
}

/// What an operation that succeeded was answered.
#[derive(Drop)]
pub enum OpReply {
    Done,
    /// What a create did (MS-SMB2 2.2.14): superseded 0, opened 1, created 2, overwrote 3.
    Action(u32),
    Count(u32),
    Content(Bytes),
    Length(u64),
    Names(TextList),
}

impl Op {
    /// A copy.
    pub fn copy(&self) -> Result<Op, AllocError>
        ensures { IfOk result (λ o. o ≡ self.now) }
    {
        let kind = self.kind.copy()?;
        Ok(Op {
            number: self.number,
            kind,
        })
    }
}

impl OpKind {
    /// A copy.
    pub fn copy(&self) -> Result<OpKind, AllocError>
        ensures { IfOk result (λ o. o ≡ self.now) }
    {
        // Only an arm of a kind that owns bytes or a path takes memory; all others are one call that can't fail.
        match self {
            OpKind::Create {
                path,
                access,
                share,
                disposition,
                persist,
                directory,
            } => {
                let path = path.copy()?;
                Ok(OpKind::Create {
                    path,
                    access: *access,
                    share: *share,
                    disposition: *disposition,
                    persist: *persist,
                    directory: *directory,
                })
            }
            OpKind::Write { create, at, bytes } => {
                let bytes = bytes.copy()?;
                Ok(OpKind::Write {
                    create: *create,
                    at: *at,
                    bytes,
                })
            }
            OpKind::Rename { create, path } => {
                let path = path.copy()?;
                Ok(OpKind::Rename {
                    create: *create,
                    path,
                })
            }
            other => Ok(other.plain_copy()),
        }
    }

    // Arm by arm, because a type that owns bytes in any of its kinds isn't `Copy`.
    /// A copy of one that owns no bytes.
    fn plain_copy(&self) -> OpKind
        ensures { IsOperationPlain self.now → result ≡ self.now }
    {
        match self {
            OpKind::Read { create, at, length } => OpKind::Read {
                create: *create,
                at: *at,
                length: *length,
            },
            OpKind::SetEnd { create, length } => OpKind::SetEnd {
                create: *create,
                length: *length,
            },
            OpKind::SetTime { create, time } => OpKind::SetTime {
                create: *create,
                time: *time,
            },
            OpKind::Remove { create } => OpKind::Remove { create: *create },
            OpKind::Lock {
                create,
                at,
                length,
                exclusive,
            } => {
                OpKind::Lock {
                    create: *create,
                    at: *at,
                    length: *length,
                    exclusive: *exclusive,
                }
            }
            OpKind::Unlock { create, at, length } => OpKind::Unlock {
                create: *create,
                at: *at,
                length: *length,
            },
            OpKind::Flush { create } => OpKind::Flush { create: *create },
            OpKind::Stat { create } => OpKind::Stat { create: *create },
            OpKind::List { create } => OpKind::List { create: *create },
            OpKind::Close { create } => OpKind::Close { create: *create },
            // These own bytes, and `copy` never brings them here: the arm only has to give a value.
            OpKind::Create { .. } | OpKind::Write { .. } | OpKind::Rename { .. } => {
                OpKind::Close { create: 0 }
            }
        }
    }

    /// The create that it names; a create names none.
    pub fn create(&self) -> Option<u32>
        ensures { MatchOption result (is_create (op_of self.now) ≡ true) (λ x. (is_create (op_of self.now) ≡ false)
            × ((g : ℕ) → create_of g (op_of self.now) ≡ x)) }
    {
        match self {
            OpKind::Create { .. } => None,
            OpKind::Write { create, .. } | OpKind::Read { create, .. } => Some(*create),
            OpKind::SetEnd { create, .. } | OpKind::SetTime { create, .. } => Some(*create),
            OpKind::Rename { create, .. } | OpKind::Remove { create } => Some(*create),
            OpKind::Lock { create, .. } | OpKind::Unlock { create, .. } => Some(*create),
            OpKind::Flush { create } | OpKind::Stat { create } => Some(*create),
            OpKind::List { create } | OpKind::Close { create } => Some(*create),
        }
    }
}
