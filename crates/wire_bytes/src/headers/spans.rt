use spec_wire::Span;
use std::alloc::{AllocError, Global};
use std::marker::Model;

/// The messages of a frame, in their order. A contract sees the list of them.
#[derive(Drop, Debug)]
pub struct Parts {
    items: Vec<Span>,
}

impl Model for Parts {
    ghost use Rattle.std.specs.Prelude.{List};
    ghost use Rattle.spec_wire.specs.declared.messages.header.Span.{Span};

    ghost Value = { List Span };

    ghost view = { λ p. p.items.items };
}

impl Parts {
    ghost use Rattle.std.specs.Prelude.{◌≡◌, [], ◌∷◌, ◌++◌, OnOk, OnErr};

    /// No messages. It takes no memory.
    pub fn new(alloc: Global) -> Parts
        ensures { result ≡ [] }
    {
        Parts {
            items: Vec::new(alloc),
        }
    }

    pub fn as_slice(&self) -> &[Span]
        ensures { result.now ≡ self.now }
    {
        self.items.as_slice()
    }

    /// Adds a message at the end. Where memory runs out nothing changes.
    pub fn push(&mut self, span: Span) -> Result<(), AllocError>
        ensures ok { OnOk result (self.new ≡ self.old ++ span ∷ []) }
        ensures err { OnErr result (self.new ≡ self.old) }
    {
        self.items.push(span)?;
        Ok(())
    }
}
