//! What holds of heaps that grow: by new tables, and by freezing.

ghost use Rattle.std.specs.Prelude.{◌≡◌, ℕ, ◌≤◌, List, length, IsTrue};
ghost use Rattle.luau_values.specs.Value.{Value, Tab};
ghost use Rattle.luau_values.specs.Heap.{Field, Heap, is_frozen, field_of, with_table, with_field, with_frozen};
ghost use Rattle.luau_values.specs.Later.{Later, Extends};
ghost use Rattle.luau_values.specs.Grows.{Grows};
ghost use Rattle.luau_values.specs.Stands.{Stands};

/// A heap grows to itself.
#[tactic(auto, using(crate::proofs::GrowsFacts::grows_refl))]
pub fn grows_reflexive()
    ensures { (h : Heap) → Grows h h }
{}

/// What a grown heap grows to, the first grows to.
#[tactic(auto, using(crate::proofs::GrowsFacts::grows_trans))]
pub fn grows_transitive()
    ensures { (h g k : Heap) → Grows h g → Grows g k → Grows h k }
{}

/// What only adds tables is growth.
#[tactic(auto, using(crate::proofs::GrowsFacts::extends_grows))]
pub fn extends_grows()
    ensures { (h g : Heap) → Extends h g → Grows h g }
{}

/// A grown heap is later.
#[tactic(auto, using(crate::proofs::GrowsFacts::grows_later))]
pub fn grows_later()
    ensures { (h g : Heap) → Grows h g → Later h g }
{}

/// New tables are growth, and so is freezing; and a heap that has grown still has after a write to
/// a new table.
#[tactic(auto, using(crate::proofs::GrowsFacts::table_grows, crate::proofs::GrowsFacts::freeze_grows, crate::proofs::GrowsFacts::fill_grows))]
pub fn changes_that_grow()
    ensures makes { (h : Heap) (fields : List Field) → Grows h (with_table fields h) }
    ensures freezes { (h : Heap) (a : ℕ) → Grows h (with_frozen a h) }
    ensures fills { (h g : Heap) (a : ℕ) (name : List ℕ) (value : Value) → Grows h g → length h ≤ a
        → Grows h (with_field a name value g) }
{}

/// In a grown heap each table that stood reads as before, and is frozen where it was.
#[tactic(auto, using(crate::proofs::GrowsFacts::grown_fields, crate::proofs::GrowsFacts::grown_marks))]
pub fn reads_after_growth()
    ensures fields { (h g : Heap) (a : ℕ) (name : List ℕ) → Grows h g → Stands h (Tab a)
        → field_of g a name ≡ field_of h a name }
    ensures marks { (h g : Heap) (a : ℕ) → Grows h g → IsTrue (is_frozen h a)
        → IsTrue (is_frozen g a) }
{}
