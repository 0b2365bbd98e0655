//! What the rules of a module say of parameters. Each law is the contract of a function that does nothing.
ghost use Rattle.std.specs.Prelude.{ℕ, [], List, Option, All};
ghost use Rattle.luau_tree.specs.Tree.{Block};
ghost use Rattle.type_arena.specs.Term.{Term};
ghost use Rattle.type_decl.specs.Signatures.{Signature};
ghost use Rattle.annotations.specs.Annotated.{in_block};
ghost use Rattle.module_reading.specs.Apart.{IsApart};
ghost use Rattle.module_reading.specs.ReadRules.{rules_of};
ghost use Rattle.type_lower.specs.Parameters.{AreSaid};

/// In a module whose numbers stand apart, the rules have for each body the types that are written for its parameters, by the
/// names that are visible at its place: those that `enter` of `type_lower` gives there.
pub fn rules_have_the_types_of_each_body()
    ensures { (paths : List (List ℕ)) (home : ℕ) (block : Block) (leads : List ℕ → Option ℕ) (table : List (List ℕ × Signature)) (import : ℕ → Term)
        → IsApart block → All (AreSaid (rules_of paths home block leads table import).annotation) (in_block [] block) }
{}
