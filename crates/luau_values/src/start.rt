//! What holds of the heap at the start of a run.

ghost use Rattle.std.specs.Prelude.{◌≡◌, ◌↔◌, ℕ, ◌<◌, ◌++◌, ◌∷◌, [], List, length, slice_get, IsTrue, Some, true, codes, if◌then◌else◌};
ghost use Rattle.std.specs.List.{AllPairs, Contains, list_any};
ghost use Rattle.std.specs.Str.{bytes_eq};
ghost use Rattle.std.specs.declared.cmp.Ordering.TheVariants.{Less};
ghost use Rattle.luau_values.specs.Value.{Nil, Builtin};
ghost use Rattle.luau_values.specs.Heap.{is_frozen, field_of};
ghost use Rattle.luau_values.specs.Start.{name_cmp, library_of, libraries, start_heap};

/// The libraries are exactly those of the paths, and each comes before all later ones in the order
/// of names, so that none stands there twice.
#[tactic(auto, using(crate::proofs::OrderFacts::libraries_rise, crate::proofs::OrderFacts::libraries_are))]
pub fn libraries_in_order()
    ensures order { (paths : List (List ℕ)) → AllPairs (λ a b. name_cmp a b ≡ Less) (libraries paths) }
    ensures members { (paths : List (List ℕ)) (library : List ℕ) → Contains (libraries paths) library
        ↔ ((path : List ℕ) × Contains paths path × (library_of path ≡ Some library)) }
{}

/// At the start each table is a library's, at the library's position: it is frozen, and its fields
/// are the library's declared builtins.
#[tactic(auto, using(crate::proofs::StartFacts::start_length, crate::proofs::StartFacts::start_frozen, crate::proofs::StartFacts::start_fields))]
pub fn tables_at_start()
    ensures number { (paths : List (List ℕ)) → length (start_heap paths) ≡ length (libraries paths) }
    ensures frozen { (paths : List (List ℕ)) (a : ℕ) → a < length (start_heap paths)
        → IsTrue (is_frozen (start_heap paths) a) }
    ensures fields { (paths : List (List ℕ)) (a : ℕ) (library name : List ℕ)
        → slice_get (libraries paths) a ≡ Some library
        → field_of (start_heap paths) a name
        ≡ (if list_any (bytes_eq (library ++ 46 ∷ name)) paths then Builtin (library ++ 46 ∷ name) else Nil) }
{}

/// The heap at the start of a run over `string.len`, `math.pi`, `print` and `math.abs`: `math`
/// comes before `string`, though it is declared after it.
pub fn example_of_start()
    ensures { start_heap (codes "string.len" ∷ codes "math.pi" ∷ codes "print" ∷ codes "math.abs" ∷ [])
        ≡ record {
          frozen = true;
          fields =
              record { name = codes "pi"; value = Builtin (codes "math.pi") }
              ∷ record { name = codes "abs"; value = Builtin (codes "math.abs") } ∷ [];
        }
        ∷ record {
          frozen = true;
          fields =
              record { name = codes "len"; value = Builtin (codes "string.len") } ∷ [];
        }
        ∷ [] }
{}

/// The order of names: by bytes, so that a capital comes before every small letter, and a beginning
/// before the whole.
pub fn example_of_order()
    ensures { libraries (codes "table.x" ∷ codes "tab.x" ∷ codes "T.x" ∷ codes "tab.y" ∷ codes "bit32.x" ∷ [])
        ≡ codes "T" ∷ codes "bit32" ∷ codes "tab" ∷ codes "table" ∷ [] }
{}
