//! What holds of the operations on types. Each law is the contract of a function that does nothing.

ghost use Rattle.std.specs.Prelude.{◌≡◌, ℕ, true, List};
ghost use Rattle.type_arena.specs.Term.{Term};
ghost use Rattle.type_normal.specs.Cut.{cut_down, cut_up};
ghost use Rattle.type_normal.specs.Field.{field_type, frozen_rows, with_row_field};
ghost use Rattle.type_normal.specs.HeapFree.{strip, strip_at, widen, widen_at};
ghost use Rattle.type_normal.specs.Operations.{union, meet, not_free};
ghost use Rattle.type_normal.specs.Rows.{is_normal};

/// Of types in normal form each operation makes a type in normal form.
#[tactic(auto, using(crate::proofs::KeepFacts::union_normal, crate::proofs::KeepFacts::meet_normal, crate::proofs::KeepFacts::not_free_normal, crate::proofs::KeepFacts::strip_normal, crate::proofs::KeepFacts::strip_at_normal, crate::proofs::KeepFacts::widen_normal, crate::proofs::KeepFacts::widen_at_normal, crate::proofs::KeepFacts::cut_down_normal, crate::proofs::KeepFacts::cut_up_normal))]
pub fn normal_forms_stay()
    ensures union { (t u : Term) → is_normal t ≡ true → is_normal u ≡ true → is_normal (union t u) ≡ true }
    ensures meet { (t u : Term) → is_normal t ≡ true → is_normal u ≡ true → is_normal (meet t u) ≡ true }
    ensures complement { (t : Term) → is_normal t ≡ true → is_normal (not_free t) ≡ true }
    ensures strip { (t : Term) → is_normal t ≡ true → is_normal (strip t) ≡ true }
    ensures strip_at { (p : List ℕ) (t : Term) → is_normal t ≡ true → is_normal (strip_at p t) ≡ true }
    ensures widen { (t : Term) → is_normal t ≡ true → is_normal (widen t) ≡ true }
    ensures widen_at { (p : List ℕ) (t : Term) → is_normal t ≡ true → is_normal (widen_at p t) ≡ true }
    ensures cut_down { (t : Term) → is_normal t ≡ true → is_normal (cut_down t) ≡ true }
    ensures cut_up { (t : Term) → is_normal t ≡ true → is_normal (cut_up t) ≡ true }
{}

/// So does what is made of types by their fields: what a field reads as, a type whose tables have a field of another type, and the
/// tables of a type, frozen.
#[tactic(auto, using(crate::proofs::FieldKeeps::field_type_normal, crate::proofs::FieldKeeps::with_row_field_normal, crate::proofs::FieldKeeps::frozen_rows_normal))]
pub fn fields_keep_normal_forms()
    ensures read { (p : List ℕ) (t : Term) → is_normal t ≡ true → is_normal (field_type p t) ≡ true }
    ensures written { (p : List ℕ) (t u : Term) → is_normal t ≡ true → is_normal u ≡ true → is_normal (with_row_field p t u) ≡ true }
    ensures frozen { (t : Term) → is_normal t ≡ true → is_normal (frozen_rows t) ≡ true }
{}
