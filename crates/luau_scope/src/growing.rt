//! Lists that grow.
ghost use Rattle.std.specs.Prelude.{◌≡◌, [], ◌∷◌, ◌++◌, length, OnOk};

use luau_tree::List;
use std::alloc::{AllocError, Global};
use std::marker::Model;

/// Some items, to which others come at the end. Contracts see the list of the items.
#[derive(Debug, Drop)]
pub(crate) struct Growing<T> {
    items: Vec<T>,
}

impl<T> Model for Growing<T> {
    ghost use Rattle.std.specs.Prelude as prelude;

    ghost Value = { prelude.List T };

    ghost view = { λ g. g.items.items };
}

impl<T> Growing<T> {
    pub(crate) fn new(alloc: Global) -> Growing<T>
        ensures { result ≡ [] }
    {
        Growing {
            items: Vec::new(alloc),
        }
    }

    pub(crate) fn as_slice(&self) -> &[T]
        ensures { result.now ≡ self.now }
    {
        self.items.as_slice()
    }

    pub(crate) fn len(&self) -> usize
        ensures { result ≡ length self.now }
    {
        self.items.len()
    }

    /// The items. Takes no memory.
    pub(crate) fn into_list(self) -> List<T>
        ensures { result ≡ self }
    {
        List::of(self.items)
    }
}

impl<T: Drop> Growing<T> {
    pub(crate) fn push(&mut self, item: T) -> Result<(), AllocError>
        ensures { OnOk result (self.new ≡ self.old ++ item ∷ []) }
    {
        self.items.push(item)?;
        Ok(())
    }
}
