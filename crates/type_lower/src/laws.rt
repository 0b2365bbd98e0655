//! What holds of the annotations of a module. Each law is the contract of a function that does nothing.
ghost use Rattle.std.specs.Prelude.{◌==◌, [], map, All};
ghost use Rattle.std.specs.List.{IsDistinct};
ghost use Rattle.luau_tree.specs.Tree.{Block};
ghost use Rattle.annotations.specs.Annotated.{annotation, in_block};
ghost use Rattle.type_lower.specs.Parameters.{AreSaid};

/// Where the numbers of a module's bodies are distinct, the annotations of the module say of each body the types of its own
/// parameters, by the names that are visible at its place.
pub fn each_body_has_its_annotations()
    ensures { (block : Block) → IsDistinct (λ m n. m == n) (map (λ a. a.function) (in_block [] block)) → All (AreSaid (annotation block)) (in_block [] block) }
{}
