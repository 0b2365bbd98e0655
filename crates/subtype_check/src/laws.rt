//! What holds of subtyping. Each law is the contract of a function that does nothing.

ghost use Rattle.std.specs.Prelude.{◌≡◌, true};
ghost use Rattle.type_arena.specs.Term.{Term};
ghost use Rattle.luau_values.specs.Value.{Value};
ghost use Rattle.luau_values.specs.Heap.{Heap};
ghost use Rattle.type_normal.specs.Holds.{holds};
ghost use Rattle.type_normal.specs.Rows.{is_normal};
ghost use Rattle.type_normal.specs.Kinds.{unknown};
ghost use Rattle.subtype_check.specs.Below.{below};

/// In every heap a value of a type belongs to each type that the type is below.
#[tactic(auto, using(crate::proofs::BelowFacts::below_includes))]
pub fn below_is_inclusion()
    ensures { (h : Heap) (v : Value) (t u : Term) → below t u ≡ true → holds h v t ≡ true
        → holds h v u ≡ true }
{}

/// A type in normal form is below itself.
#[tactic(auto, using(crate::proofs::BelowFacts::below_itself))]
pub fn below_reflexive()
    ensures { (t : Term) → is_normal t ≡ true → below t t ≡ true }
{}

/// What is below a type that is below another is below that one.
#[tactic(auto, using(crate::proofs::BelowFacts::below_chain))]
pub fn below_transitive()
    ensures { (t u w : Term) → below t u ≡ true → below u w ≡ true → below t w ≡ true }
{}

/// Every type is below unknown.
#[tactic(auto, using(crate::proofs::BelowFacts::unknown_above))]
pub fn unknown_is_greatest()
    ensures { (t : Term) → below t unknown ≡ true }
{}
