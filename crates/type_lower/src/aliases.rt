//! The names of types that are visible at a place.
ghost use Rattle.std.specs.Prelude.{◌≡◌, ◌++◌, ◌∷◌, [], ◌-◌, length, take, IfOk, OnOk, OnErr};
ghost use Rattle.type_lower.specs.Visible.{last_of};

use luau_tree::Bytes;
use sqlite_items::Items;
use std::alloc::{AllocError, Global};
use std::collections::BTreeMap;
use std::marker::Model;
use type_arena::TypeRef;

/// A visible name, with the type of the same name that it hides.
#[derive(Debug, Drop)]
struct Entry {
    name: Bytes,
    at: TypeRef,
    hides: Option<TypeRef>,
}

/// The names of aliases and generics that are visible, each with a reference to the type that it means, in the order in
/// which they came. The last of each name is at hand.
#[derive(Debug, Drop)]
pub struct Aliases {
    entries: Items<Entry>,
    last: BTreeMap<Bytes, TypeRef>,
}

impl Model for Aliases {
    ghost use Rattle.std.specs.Prelude.{List, ℕ, map};
    ghost use Rattle.type_arena.specs.declared.node.TypeRef.{TypeRef as Ref};
    ghost use Rattle.type_lower.specs.Log.{shown, InSync};

    ghost Value = { List (List ℕ × Ref) };

    ghost view = { λ s. map shown s.entries };

    ghost invariant = { λ s. InSync s.entries s.last };
}

impl Aliases {
    /// No names.
    pub fn new(alloc: Global) -> Aliases
        ensures { result ≡ [] }
    {
        Aliases {
            entries: Items::new(alloc),
            last: BTreeMap::new(alloc),
        }
    }

    /// How many names came.
    pub fn len(&self) -> usize
        ensures { result ≡ length self.now }
    {
        self.entries.len()
    }

    /// The type that a name means: that of the last of the name.
    pub fn get(&self, name: &Bytes) -> Option<TypeRef>
        ensures { result ≡ last_of name.now self.now }
    {
        self.last.get(name).copied()
    }

    /// One more name, which counts before those of the same name. After want of memory the names are as before.
    pub fn put(&mut self, alloc: Global, name: &Bytes, at: TypeRef) -> Result<(), AllocError>
        ensures ok { OnOk result (self.new ≡ self.old ++ (name.now, at) ∷ []) }
        ensures err { OnErr result (self.new ≡ self.old) }
    {
        let hides = self.last.get(name).copied();
        let key = copy(alloc, name)?;
        let name = copy(alloc, name)?;
        self.entries.push(Entry { name, at, hides })?;
        if let Err(e) = self.last.insert(key, at) {
            drop(e);
            let _ = self.entries.pop();
            return Err(AllocError);
        }
        Ok(())
    }

    /// Takes the last names out, up to so many, as at the end of a block.
    pub fn close(&mut self, len: usize)
        ensures { self.new ≡ take len self.old }
    {
        while self.entries.len() > len {
            self.leave();
        }
    }

    /// Takes the last name out.
    fn leave(&mut self)
        ensures { self.new ≡ take (length self.old - 1) self.old }
    {
        let Some(entry) = self.entries.pop() else {
            return;
        };
        match entry.hides {
            None => {
                let _ = self.last.remove(&entry.name);
            }
            Some(outer) => {
                let _ = self.last.insert(entry.name, outer);
            }
        }
    }
}

// The same bytes once more.
fn copy(alloc: Global, bytes: &Bytes) -> Result<Bytes, AllocError>
    ensures { IfOk result (λ again. again ≡ bytes.now) }
{
    Ok(Bytes::of(Vec::from_slice(alloc, bytes.as_slice())?))
}
