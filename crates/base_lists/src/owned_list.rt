//! One list for owned elements of any type, which contracts see as the list of their values.

use std::alloc::{AllocError, Global};
use std::marker::Model;

/// Owned elements, one after the other. A contract sees the list of them.
#[derive(Drop, Debug)]
pub struct ListOf<T: Drop> {
    items: Vec<T>,
}

impl<T: Drop> Model for ListOf<T> {
    ghost use Rattle.std.specs.Prelude.{List};

    ghost Value = { List T };

    ghost view = { λ l. l.items.items };
}

impl<T: Drop> ListOf<T> {
    ghost use Rattle.std.specs.Prelude.{◌≡◌, ◌-◌, ◌==◌, [], ◌∷◌, ◌++◌, length, take, OnOk, OnErr};

    /// No elements. It takes no memory.
    pub fn new(alloc: Global) -> ListOf<T>
        ensures { result ≡ [] }
    {
        ListOf {
            items: Vec::new(alloc),
        }
    }

    /// The elements of a vector, which is taken as it is.
    pub fn from_vec(items: Vec<T>) -> ListOf<T>
        ensures { result ≡ items.items }
    {
        ListOf { items }
    }

    pub fn as_slice(&self) -> &[T]
        ensures { result.now ≡ self.now }
    {
        self.items.as_slice()
    }

    pub fn len(&self) -> usize
        ensures { result ≡ length self.now }
    {
        self.items.len()
    }

    pub fn is_empty(&self) -> bool
        ensures { result ≡ (length self.now == 0) }
    {
        self.items.is_empty()
    }

    /// Adds one at the end. Where memory runs out nothing changes, and the element is dropped.
    pub fn push(&mut self, element: T) -> Result<(), AllocError>
        ensures ok { OnOk result (self.new ≡ self.old ++ element ∷ []) }
        ensures err { OnErr result (self.new ≡ self.old) }
    {
        self.items.push(element)?;
        Ok(())
    }

    /// Takes the last one away, where there is one.
    pub fn drop_last(&mut self)
        ensures { self.new ≡ take (length self.old - 1) self.old }
    {
        let _ = self.items.pop();
    }

    pub fn into_vec(self) -> Vec<T>
        ensures { result.items ≡ self }
    {
        self.items
    }
}

impl<T: Copy + Drop> ListOf<T> {
    ghost use Rattle.std.specs.Prelude.{◌≡◌, IfOk};

    /// A copy of a slice.
    pub fn from_slice(alloc: Global, elements: &[T]) -> Result<ListOf<T>, AllocError>
        ensures { IfOk result (λ l. l ≡ elements.now) }
    {
        let items = Vec::from_slice(alloc, elements)?;
        Ok(ListOf { items })
    }
}
