//! What holds of all written types. Each law is the contract of a function that does nothing.

ghost use Rattle.std.specs.Prelude.{◌≡◌, ℕ, true, List};
ghost use Rattle.luau_tree.specs.Tree.{Block, TypeSyntax};
ghost use Rattle.luau_values.specs.Value.{Value};
ghost use Rattle.luau_values.specs.Heap.{Heap};
ghost use Rattle.type_normal.specs.Cut.{is_small};
ghost use Rattle.type_normal.specs.Holds.{holds};
ghost use Rattle.annotations.specs.Lowered.{Known, lowered};

/// What a written type means is small: at most 16 rows, and a depth of at most 8.
#[tactic(auto, using(crate::proofs::Small::cut_is_small))]
pub fn lowered_types_are_small()
    ensures { (known : List Known) (type : TypeSyntax) → is_small (lowered known type) ≡ true }
{}
