//! Laws of what references mean, for the proofs above.
ghost use Rattle.std.specs.Prelude.{◌≡◌, ◌<◌, ◌∷◌, ◌++◌, [], Some, IsTrue, Contains, length};
ghost use Rattle.type_arena.specs.Homes.{Reaches, HasReached};
ghost use Rattle.type_arena.specs.Meaning.{rank, term_of, term_by};
ghost use Rattle.type_arena.specs.Store.{Store, Holding, IsPlaced, IsSound, Keeps, node_at, has as has_node, refs_of, is_older};
ghost use Rattle.type_arena.specs.declared.node.Node.{Node};
ghost use Rattle.type_arena.specs.declared.node.TypeRef.{TypeRef};

/// A reference means the term of its node, in which each reference stands for what it means.
pub fn meaning_is_by_nodes()
    ensures { (store : Store) → IsSound store → (at : TypeRef) (node : Node) → node_at store at ≡ Some node → term_of store at ≡ term_by (term_of store) node }
{}

/// A reference means the same in all arenas that have, at their homes, the arenas that are reached from it.
pub fn meaning_is_by_what_is_reached()
    ensures { (store other : Store) → IsSound store → IsSound other → (at : TypeRef) → HasReached store at other → term_of other at ≡ term_of store at }
{}

/// A reference that is there keeps its meaning where no node is lost.
pub fn meaning_is_kept()
    ensures { (old new : Store) → IsSound old → IsSound new → Keeps old new → (at : TypeRef) → IsTrue (has_node old at) → term_of new at ≡ term_of old at }
{}

/// What is reached from a reference that is there is there.
pub fn reached_references_are_there()
    ensures { (store : Store) → IsSound store → (at far : TypeRef) → Reaches store at far → IsTrue (has_node store at) → IsTrue (has_node store far) }
{}

/// The references in a node have a lower rank than the node's, so following them ends.
pub fn references_lead_down()
    ensures { (store : Store) → IsSound store → (at child : TypeRef) (node : Node) → node_at store at ≡ Some node → Contains (refs_of node) child → rank store child < rank store at }
{}

/// Arenas stand at their homes where one with the next home goes last.
pub fn shelves_grow_at_the_end()
    ensures { (store : Store) (arena : Holding) → IsPlaced store → arena.home ≡ length store → IsPlaced (store ++ arena ∷ []) }
{}

/// What stands above a shelf stands above every longer one, where it has its home as its position, and means the same.
pub fn frozen_arenas_stand_on_longer_shelves()
    ensures stands { (below more : Store) (arena : Holding) → IsPlaced (below ++ more ++ arena ∷ []) → IsSound (below ++ more) → IsSound (below ++ arena ∷ []) → IsSound (below ++ more ++ arena ∷ []) }
    ensures means { (below more : Store) (arena : Holding) → IsPlaced (below ++ more ++ arena ∷ []) → IsSound (below ++ more) → IsSound (below ++ arena ∷ []) → (at : TypeRef) → IsTrue (has_node (below ++ arena ∷ []) at) → term_of (below ++ more ++ arena ∷ []) at ≡ term_of (below ++ arena ∷ []) at }
{}
