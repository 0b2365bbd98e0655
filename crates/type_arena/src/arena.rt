ghost use Rattle.std.specs.Prelude.{◌≤◌, length};
ghost use Rattle.std.proofs.Props.{props};
ghost use Rattle.type_arena.specs.Shelf.{shelf_store};
ghost use Rattle.type_arena.specs.Store.{IsSound, with_own};

use crate::frozen::Frozen;
use crate::node::{Node, TypeRef};
use crate::nodes::{Nodes, nth_node};
use crate::shelves::Shelf;
use indexmap::IndexSet;
use std::alloc::AllocError;

/// An arena over a shelf: it takes new nodes, whose references lead to it or to the shelf. The position of a node among
/// its own is the node's id.
#[derive(Drop)]
pub struct Arena<'a> {
    pub(crate) shelf: Shelf<'a>,
    pub(crate) home: u32,
    pub(crate) own: IndexSet<Node>,
    ghost above: { length (shelf_store shelf) ≤ home },
    ghost sound: { IsSound (with_own (shelf_store shelf) home own.keys) } by { Prim.hlevel props },
}

impl<'a> Nodes for Arena<'a> {
    ghost use Rattle.type_arena.specs.Arena.{store_of};

    ghost arenas = { store_of };

    fn node(&self, at: TypeRef) -> &Node {
        if at.home == self.home {
            nth_node(&self.own, at.id)
        } else {
            self.shelf.node(at)
        }
    }

    fn has(&self, at: TypeRef) -> bool {
        if at.home == self.home {
            at.id < self.own.len() as u64
        } else {
            self.shelf.has(at)
        }
    }

    ghost sound = { λ arena. arena.sound };
}

impl<'a> Arena<'a> {
    ghost use Rattle.std.specs.Prelude.{◌≡◌, ◌∷◌, ◌++◌, [], All, IsTrue, IfOk, OnErr, Some};
    ghost use Rattle.type_arena.specs.Arena.{home_of, nodes_of, below_of, store_of};
    ghost use Rattle.type_arena.specs.Homes.{UsesHomes, HasReached, literal_homes};
    ghost use Rattle.type_arena.specs.Meaning.{term_of, term_by};
    ghost use Rattle.type_arena.specs.Store.{Store, Holding, IsSound, Interned, Keeps, nodes_at, node_at, has as has_node, refs_of};
    ghost use Rattle.type_arena.specs.Frozen.{holding_of};
    ghost use Rattle.type_arena.specs.declared.node.TypeRef.{TypeRef};

    /// The reference of a node in this arena: that of an equal node, or a new one.
    pub fn intern(&mut self, node: Node) -> Result<TypeRef, AllocError>
        requires { All (λ child. IsTrue (has_node (store_of self.old) child)) (refs_of node) }

        // An equal node keeps its place, and a new one goes last.
        ensures interned { IfOk result (λ at. Interned (nodes_of self.old) (nodes_of self.new) node at.id) }
        ensures home { IfOk result (λ at. at.home ≡ home_of self.new) }

        // The reference means the node's term, and every other keeps its meaning.
        ensures node { IfOk result (λ at. node_at (store_of self.new) at ≡ Some node) }
        ensures meaning { IfOk result (λ at. term_of (store_of self.new) at ≡ term_by (term_of (store_of self.old)) node) }
        ensures keeps { Keeps (store_of self.old) (store_of self.new) }
        ensures kept { (at : TypeRef) → IsTrue (has_node (store_of self.old) at) → term_of (store_of self.new) at ≡ term_of (store_of self.old) at }

        // The arena uses no home but its own and those that the node's references reach and its literals have.
        ensures homes { IfOk result (λ at. UsesHomes (home_of self.old) (store_of self.old) (store_of self.new) (record { refs = refs_of node; literals = literal_homes node.functions }) (at ∷ [])) }

        // The shelf and the home stay, and after want of memory all does.
        ensures below { below_of self.new ≡ below_of self.old }
        ensures own_home { home_of self.new ≡ home_of self.old }
        ensures err { OnErr result (nodes_of self.new ≡ nodes_of self.old) }
    {
        let home = self.home;
        let (id, _) = self.own.insert_full(node)?;
        Ok(TypeRef {
            home,
            id: id as u64,
        })
    }

    /// The arena with what it has now, which takes no more nodes. Copies nothing.
    ///
    /// Every reference means the same afterwards in all arenas that have, at their homes, this arena and those that are
    /// reached from the reference.
    pub fn freeze(self) -> Frozen
        ensures nodes { holding_of result ≡ (record { home = home_of self.entry; nodes = nodes_of self.entry }) }
        ensures meaning { (store : Store) → IsSound store → (at : TypeRef) → HasReached (store_of self.entry) at store → term_of store at ≡ term_of (store_of self.entry) at }

        // It stands above the shelf that it was made over.
        ensures stands { IsSound (below_of self.entry ++ holding_of result ∷ []) }
        ensures own { nodes_at (store_of self.entry) (home_of self.entry) ≡ (holding_of result).nodes }
    {
        Frozen {
            home: self.home,
            nodes: self.own,
        }
    }
}
