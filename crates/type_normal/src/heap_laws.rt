//! What holds of types while a heap changes.

ghost use Rattle.std.specs.Prelude.{◌≡◌, ℕ, ◌<◌, Bool, true, false, not, ◌||◌, ◌&&◌, List, length};
ghost use Rattle.type_arena.specs.Term.{Term, Fields};
ghost use Rattle.luau_values.specs.Value.{Value, Tab};
ghost use Rattle.luau_values.specs.Heap.{Heap, Field, is_frozen, field_of, with_field, with_table};
ghost use Rattle.luau_values.specs.Later.{Later};
ghost use Rattle.luau_values.specs.Grows.{Grows};
ghost use Rattle.luau_values.specs.Stands.{Stands, FieldsStand};
ghost use Rattle.type_normal.specs.Holds.{holds, holds_fields};
ghost use Rattle.type_normal.specs.Operations.{union, meet, not_free, fail};
ghost use Rattle.type_normal.specs.Kinds.{row_type, field_is};
ghost use Rattle.type_normal.specs.HeapFree.{heap_free, strip, widen, strip_at, widen_at, free_of_name};
ghost use Rattle.type_normal.specs.Cut.{cut_down, cut_up};
ghost use Rattle.type_normal.specs.Field.{field_type, with_row_field, frozen_rows, all_typed};

/// What is left of a type is in it, in every heap.
#[tactic(auto, using(crate::proofs::HeapFreeFacts::strip_below, crate::proofs::HeapFreeFacts::strip_at_below, crate::proofs::HeapFreeFacts::cut_down_below))]
pub fn smaller_types()
    ensures strip { (h : Heap) (v : Value) (t : Term) → holds h v (strip t) ≡ true → holds h v t ≡ true }
    ensures strip_at { (h : Heap) (v : Value) (p : List ℕ) (t : Term) → holds h v (strip_at p t) ≡ true
        → holds h v t ≡ true }
    ensures cut_down { (h : Heap) (v : Value) (t : Term) → holds h v (cut_down t) ≡ true
        → holds h v t ≡ true }
{}

/// What a type becomes has its values, in every heap.
#[tactic(auto, using(crate::proofs::HeapFreeFacts::widen_above, crate::proofs::HeapFreeFacts::widen_at_above, crate::proofs::HeapFreeFacts::cut_up_above))]
pub fn larger_types()
    ensures widen { (h : Heap) (v : Value) (t : Term) → holds h v t ≡ true → holds h v (widen t) ≡ true }
    ensures widen_at { (h : Heap) (v : Value) (p : List ℕ) (t : Term) → holds h v t ≡ true
        → holds h v (widen_at p t) ≡ true }
    ensures cut_up { (h : Heap) (v : Value) (t : Term) → holds h v t ≡ true
        → holds h v (cut_up t) ≡ true }
{}

/// A value of a heap-free type stays one in every later heap.
#[tactic(auto, using(crate::proofs::HeapFreeFacts::free_later))]
pub fn heap_free_types_stay()
    ensures { (h g : Heap) (v : Value) (t : Term) → heap_free t ≡ true → Later h g
        → holds h v t ≡ true → holds g v t ≡ true }
{}

/// What is stripped or widened is heap-free, and so are complements and what fails.
#[tactic(auto, using(crate::proofs::HeapFreeFacts::strip_free, crate::proofs::HeapFreeFacts::widen_free, crate::proofs::HeapFreeFacts::not_free_free, crate::proofs::HeapFreeFacts::fail_free))]
pub fn heap_free_results()
    ensures strip { (t : Term) → heap_free (strip t) ≡ true }
    ensures widen { (t : Term) → heap_free (widen t) ≡ true }
    ensures complement { (t : Term) → heap_free (not_free t) ≡ true }
    ensures fail { (t : Term) → heap_free (fail t) ≡ true }
{}

/// Unions and meets of heap-free types are heap-free, and so are heap-free types that are cut or stripped at a name.
#[tactic(auto, using(crate::proofs::HeapFreeFacts::union_free, crate::proofs::HeapFreeFacts::meet_free, crate::proofs::HeapFreeFacts::strip_at_free, crate::proofs::HeapFreeFacts::cut_down_free, crate::proofs::HeapFreeFacts::cut_up_free))]
pub fn heap_free_types_make_heap_free_ones()
    ensures union { (t u : Term) → heap_free t ≡ true → heap_free u ≡ true
        → heap_free (union t u) ≡ true }
    ensures meet { (t u : Term) → heap_free t ≡ true → heap_free u ≡ true
        → heap_free (meet t u) ≡ true }
    ensures strip_at { (p : List ℕ) (t : Term) → heap_free t ≡ true → heap_free (strip_at p t) ≡ true }
    ensures cut_down { (t : Term) → heap_free t ≡ true → heap_free (cut_down t) ≡ true }
    ensures cut_up { (t : Term) → heap_free t ≡ true → heap_free (cut_up t) ≡ true }
{}

/// A value of a type that is free of a name stays one after a field of that name is written, of any table that isn't
/// frozen.
#[tactic(auto, using(crate::proofs::FreeOfFacts::free_of_written))]
pub fn types_free_of_a_name_stay()
    ensures { (h : Heap) (a : ℕ) (p : List ℕ) (u v : Value) (t : Term) → free_of_name p t ≡ true
        → is_frozen h a ≡ false → holds h v t ≡ true → holds (with_field a p u h) v t ≡ true }
{}

/// What is stripped or widened at a name is free of it, and so is every heap-free type.
#[tactic(auto, using(crate::proofs::FreeOfFacts::strip_at_of, crate::proofs::FreeOfFacts::widen_at_of, crate::proofs::FreeOfFacts::heap_free_of))]
pub fn free_of_a_name()
    ensures strip_at { (p : List ℕ) (t : Term) → free_of_name p (strip_at p t) ≡ true }
    ensures widen_at { (p : List ℕ) (t : Term) → free_of_name p (widen_at p t) ≡ true }
    ensures heap_free { (p : List ℕ) (t : Term) → heap_free t ≡ true → free_of_name p t ≡ true }
{}

/// What is free of a name stays so, stripped or widened at any name, and cut.
#[tactic(auto, using(crate::proofs::FreeOfFacts::strip_at_keeps, crate::proofs::FreeOfFacts::widen_at_keeps, crate::proofs::FreeOfFacts::cut_down_keeps, crate::proofs::FreeOfFacts::cut_up_keeps))]
pub fn free_of_a_name_stays()
    ensures strip_at { (p n : List ℕ) (t : Term) → free_of_name p t ≡ true
        → free_of_name p (strip_at n t) ≡ true }
    ensures widen_at { (p n : List ℕ) (t : Term) → free_of_name p t ≡ true
        → free_of_name p (widen_at n t) ≡ true }
    ensures cut_down { (p : List ℕ) (t : Term) → free_of_name p t ≡ true
        → free_of_name p (cut_down t) ≡ true }
    ensures cut_up { (p : List ℕ) (t : Term) → free_of_name p t ≡ true
        → free_of_name p (cut_up t) ≡ true }
{}

/// A value that stands keeps its types while a heap grows, where all that its tables have stands.
#[tactic(auto, using(crate::proofs::FieldFacts::grown_holds))]
pub fn types_stay_while_heaps_grow()
    ensures { (h g : Heap) (v : Value) (t : Term) → FieldsStand h → Stands h v → Grows h g
        → holds h v t ≡ true → holds g v t ≡ true }
{}

/// To a row belong the tables whose fields are in its types, and that are frozen if it is; and nothing but tables does.
#[tactic(auto, using(crate::proofs::FieldFacts::row_holds, crate::proofs::FieldFacts::row_tables, crate::proofs::FieldFacts::field_is_holds))]
pub fn values_of_rows()
    ensures table { (h : Heap) (a : ℕ) (b : Bool) (fs : Fields)
        → holds h (Tab a) (row_type b fs) ≡ (not b || is_frozen h a) && holds_fields h a fs }
    ensures nothing_else { (h : Heap) (v : Value) (b : Bool) (fs : Fields) → holds h v (row_type b fs) ≡ true
        → (a : ℕ) × (v ≡ Tab a) }
    ensures one_field { (h : Heap) (a : ℕ) (p : List ℕ) (t : Term)
        → holds h (Tab a) (field_is p t) ≡ holds h (field_of h a p) t }
{}

/// A field of a table of a type is in the type that the type has for the field.
#[tactic(auto, using(crate::proofs::FieldFacts::field_holds))]
pub fn fields_of_a_type()
    ensures { (h : Heap) (a : ℕ) (p : List ℕ) (t : Term) → holds h (Tab a) t ≡ true
        → holds h (field_of h a p) (field_type p t) ≡ true }
{}

/// A new table is in the row of the types of its fields.
#[tactic(auto, using(crate::proofs::FieldFacts::new_table_holds))]
pub fn new_tables()
    ensures { (h : Heap) (fields : List Field) (ts : Fields) → all_typed (with_table fields h) fields ts ≡ true
        → holds (with_table fields h) (Tab (length h)) (row_type false ts) ≡ true }
{}

/// A table of a type that is free of a name, after its field of that name is written; what is no table belongs as before.
#[tactic(auto, using(crate::proofs::FreeOfFacts::row_written, crate::proofs::FreeOfFacts::row_beside))]
pub fn written_tables()
    ensures table { (h : Heap) (a : ℕ) (p : List ℕ) (u : Value) (t s : Term) → free_of_name p t ≡ true
        → a < length h → is_frozen h a ≡ false → holds h (Tab a) t ≡ true
        → holds (with_field a p u h) u s ≡ true
        → holds (with_field a p u h) (Tab a) (with_row_field p s t) ≡ true }
    ensures free { (h : Heap) (v : Value) (p : List ℕ) (s t : Term) → ((a : ℕ) → v ≡ Tab a → ⊥)
        → holds h v (with_row_field p s t) ≡ holds h v t }
{}

/// A frozen table of a type is in its rows, frozen; and nothing but tables is.
#[tactic(auto, using(crate::proofs::FieldFacts::frozen_holds, crate::proofs::FieldFacts::frozen_rows_tables))]
pub fn frozen_tables()
    ensures table { (h : Heap) (a : ℕ) (t : Term) → holds h (Tab a) t ≡ true → is_frozen h a ≡ true
        → holds h (Tab a) (frozen_rows t) ≡ true }
    ensures nothing_else { (h : Heap) (v : Value) (t : Term) → holds h v (frozen_rows t) ≡ true
        → (a : ℕ) × (v ≡ Tab a) }
{}
