//! The locals in scope.
ghost use Rattle.std.specs.Prelude.{◌≡◌, ◌++◌, ◌∷◌, [], ◌-◌, length, take, OnOk, option_map};
ghost use Rattle.luau_scope.specs.Found.{meant};
ghost use Rattle.luau_scope.specs.InScope.{held_of};

use crate::names::copy;
use luau_tree::{Bytes, FnId};
use sqlite_items::Items;
use std::alloc::{AllocError, Global};
use std::collections::BTreeMap;
use std::marker::Model;

/// A local that a name means: its number, and the body that declares it.
#[derive(Clone, Copy, Debug)]
pub(crate) struct Held {
    pub local: u32,
    pub function: Option<FnId>,
}

/// A local in scope, with the one of the same name that it hides.
#[derive(Debug, Drop)]
struct Entry {
    name: Bytes,
    held: Held,
    hides: Option<Held>,
}

/// The locals in scope in the order in which they came, with the innermost of each name at hand.
#[derive(Debug, Drop)]
pub(crate) struct Scope {
    entries: Items<Entry>,
    innermost: BTreeMap<Bytes, Held>,
}

impl Model for Scope {
    ghost use Rattle.luau_scope.specs.Found.{Scope as Visibles};
    ghost use Rattle.std.specs.Prelude.{map};
    ghost use Rattle.luau_scope.specs.InScope.{visible_of, InSync};

    ghost Value = { Visibles };

    ghost view = { λ s. map visible_of s.entries };

    ghost invariant = { λ s. InSync s.entries s.innermost };
}

impl Scope {
    pub(crate) fn new(alloc: Global) -> Scope
        ensures { result ≡ [] }
    {
        Scope {
            entries: Items::new(alloc),
            innermost: BTreeMap::new(alloc),
        }
    }

    pub(crate) fn len(&self) -> usize
        ensures { result ≡ length self.now }
    {
        self.entries.len()
    }

    /// The innermost local of the name.
    pub(crate) fn meant(&self, name: &Bytes) -> Option<Held>
        ensures { result ≡ option_map held_of (meant self.now name.now) }
    {
        self.innermost.get(name).copied()
    }

    pub(crate) fn enter(
        &mut self,
        alloc: Global,
        name: &Bytes,
        held: Held,
    ) -> Result<(), AllocError>
        ensures { OnOk result (self.new ≡ self.old ++ record { name = name.now; local = held.local; function = held.function } ∷ []) }
    {
        let hides = self.innermost.get(name).copied();
        let key = copy(alloc, name)?;
        let name = copy(alloc, name)?;
        self.entries.push(Entry { name, held, hides })?;
        if let Err(e) = self.innermost.insert(key, held) {
            drop(e);
            let _ = self.entries.pop();
            return Err(AllocError);
        }
        Ok(())
    }

    /// Takes the last locals out, up to so many.
    pub(crate) fn close(&mut self, len: usize)
        ensures { self.new ≡ take len self.old }
    {
        while self.entries.len() > len {
            self.leave();
        }
    }

    /// Takes the last local out.
    fn leave(&mut self)
        ensures { self.new ≡ take (length self.old - 1) self.old }
    {
        let Some(entry) = self.entries.pop() else {
            return;
        };
        match entry.hides {
            None => {
                let _ = self.innermost.remove(&entry.name);
            }
            Some(outer) => {
                let _ = self.innermost.insert(entry.name, outer);
            }
        }
    }
}
