use crate::remembering::{Known, types_below};
use std::alloc::{AllocError, Global};
use std::collections::HashMap;
use subtype_check::Pair;
use type_arena::{Nodes, TypeRef};

/// Pairs of types, and of each pair whether the one type is below the other. What was found stays right while the arenas
/// get nodes.
#[derive(Drop)]
pub struct Remembered {
    pub(crate) answers: Known,
}

impl Remembered {
    ghost use Rattle.std.specs.Prelude.{◌≡◌, true, IsTrue, IfOk};
    ghost use Rattle.luau_values.specs.Heap.{Heap};
    ghost use Rattle.luau_values.specs.Value.{Value};
    ghost use Rattle.type_arena.specs.Meaning.{term_of};
    ghost use Rattle.type_arena.specs.Store.{Store, has as has_node};
    ghost use Rattle.type_normal.specs.Holds.{holds};
    ghost use Rattle.type_normal.specs.Rows.{is_normal};
    ghost use Rattle.subtype_check.specs.Below.{below as below_term};
    ghost use Rattle.subtype_memory.specs.Memory.{IsRight};

    /// A memory of nothing.
    pub fn new(alloc: Global) -> Remembered
        ensures { (store : Store) → IsRight store result }
    {
        Remembered {
            answers: HashMap::new(alloc),
        }
    }

    /// Whether the one type is below the other. Each pair of types that is met is compared once: its answer is remembered,
    /// in this call and in later ones, so that the work is bounded by the pairs of nodes that the two reach and that
    /// weren't compared before. After want of memory what is remembered is right too.
    pub fn below<N: Nodes>(&mut self, nodes: &N, a: TypeRef, b: TypeRef) -> Result<bool, AllocError>
        requires first { IsTrue (has_node (N.arenas nodes.now) a) }
        requires second { IsTrue (has_node (N.arenas nodes.now) b) }
        requires right { IsRight (N.arenas nodes.now) self.old }

        // The answer is that of the definition. Where it is yes, each value of the one type belongs to the other, in every heap.
        ensures exact { IfOk result (λ answer. is_normal (term_of (N.arenas nodes.now) a) ≡ true → answer ≡ below_term (term_of (N.arenas nodes.now) a) (term_of (N.arenas nodes.now) b)) }
        ensures includes { IfOk result (λ answer. is_normal (term_of (N.arenas nodes.now) a) ≡ true → answer ≡ true → (h : Heap) (v : Value) → holds h v (term_of (N.arenas nodes.now) a) ≡ true → holds h v (term_of (N.arenas nodes.now) b) ≡ true) }

        // What is remembered is right, whatever is answered.
        ensures right { IsRight (N.arenas nodes.now) self.new }
    {
        let pair = Pair {
            lower: Some(a),
            upper: b,
        };
        let answer = types_below(nodes, &mut self.answers, pair)?;
        Ok(answer)
    }
}
