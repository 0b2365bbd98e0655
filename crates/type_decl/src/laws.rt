//! What holds of declared builtins. Each law is the contract of a function that does nothing.

ghost use Rattle.std.specs.Prelude.{◌≡◌, ℕ, List, option_map, true};
ghost use Rattle.luau_values.specs.Heap.{Heap};
ghost use Rattle.luau_values.specs.Value.{Value};
ghost use Rattle.luau_run.specs.Signature.{declaration as run_declaration};
ghost use Rattle.luau_run.specs.ValueSet.{numbers};
ghost use Rattle.builtin_table.specs.declared.table.Kinds.{Kinds};
ghost use Rattle.builtin_table.specs.declared.table.Kinds.TheVariants.{Number};
ghost use Rattle.type_normal.specs.Cut.{cut_up};
ghost use Rattle.type_normal.specs.Rows.{is_normal};
ghost use Rattle.type_decl.specs.Signatures.{Signature, term_of_kinds, declaration};
ghost use Rattle.type_decl.specs.Runs.{values_of, run_signature, builtins_of};

/// A run has of a path the signature that the table has, with types as sets of values.
#[tactic(auto, using(crate::proofs::Lookup::run_has))]
pub fn runs_have_the_declarations()
    ensures { (table : List (List ℕ × Signature)) (path : List ℕ) → run_declaration (builtins_of table) path ≡ option_map run_signature (declaration path table) }
{}

/// The types of the standard table are in normal form and small, so that nothing is cut of them.
#[tactic(auto, using(crate::proofs::Lookup::kinds_normal, crate::proofs::Lookup::kinds_small))]
pub fn standard_types_are_normal()
    ensures normal { (kinds : Kinds) → is_normal (term_of_kinds kinds) ≡ true }
    ensures small { (kinds : Kinds) → cut_up (term_of_kinds kinds) ≡ term_of_kinds kinds }
{}

/// The values of the type of numbers are the numbers, in every heap.
#[tactic(auto, using(crate::proofs::Lookup::numbers_are))]
pub fn numbers_are_numbers()
    ensures { (heap : Heap) (value : Value) → values_of (term_of_kinds Number) heap value ≡ numbers heap value }
{}
