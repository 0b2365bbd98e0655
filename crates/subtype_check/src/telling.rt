//! What holds of samples, and where subtyping is inclusion. Each law is the contract of a function that does nothing.

ghost use Rattle.std.specs.Prelude.{◌≡◌, ◌&&◌, true, false, Some, None};
ghost use Rattle.type_arena.specs.Term.{Term, term, Free, no_rows};
ghost use Rattle.luau_values.specs.Value.{Value};
ghost use Rattle.luau_values.specs.Heap.{Heap};
ghost use Rattle.type_normal.specs.Holds.{holds};
ghost use Rattle.type_normal.specs.Rows.{any_table};
ghost use Rattle.subtype_check.specs.Apart.{apart, is_plain, Samples};
ghost use Rattle.subtype_check.specs.Below.{below};
ghost use Rattle.subtype_check.specs.declared.samples.Sample.{Sample};

/// What tells the one type from the other is of the one and not of the other, in every heap.
pub fn samples_tell_apart()
    ensures first { (h : Heap) (v : Value) (t u : Term) (s : Sample) → apart t u ≡ Some s → Samples s v
        → holds h v t ≡ true }
    ensures second { (h : Heap) (v : Value) (t u : Term) (s : Sample) → apart t u ≡ Some s → Samples s v
        → holds h v u ≡ false }
{}

/// Nothing tells the one type from the other exactly where the one is below the other, or one of them has a row with
/// fields or for frozen tables alone.
#[tactic(auto, using(crate::proofs::ApartLaws::below_is_none, crate::proofs::ApartLaws::rows_are_none, crate::proofs::ApartLaws::none_is_below))]
pub fn nothing_tells_apart()
    ensures below { (t u : Term) → below t u ≡ true → apart t u ≡ None }
    ensures rows { (t u : Term) → is_plain t && is_plain u ≡ false → apart t u ≡ None }
    ensures only { (t u : Term) → is_plain t && is_plain u ≡ true → apart t u ≡ None → below t u ≡ true }
{}

/// Of types without rows, and below types whose rows are that of all tables alone, subtyping is inclusion.
#[tactic(auto, using(crate::proofs::ApartLaws::kinds_complete, crate::proofs::ApartLaws::tables_complete))]
pub fn inclusion_is_below()
    ensures kinds { (f g : Free)
        → ((h : Heap) (v : Value) → holds h v (term f no_rows) ≡ true → holds h v (term g no_rows) ≡ true)
        → below (term f no_rows) (term g no_rows) ≡ true }
    ensures tables { (t : Term) (g : Free)
        → ((h : Heap) (v : Value) → holds h v t ≡ true → holds h v (term g any_table) ≡ true)
        → below t (term g any_table) ≡ true }
{}
