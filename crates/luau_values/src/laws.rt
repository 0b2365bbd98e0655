//! What holds of all heaps. Each law is the contract of a function that does nothing.

ghost use Rattle.std.specs.Prelude.{◌≡◌, ◌≢◌, ℕ, suc, ◌<◌, ◌≤◌, ◌++◌, ◌∷◌, [], List, length, slice_get, IsTrue, IsFalse, Some, true, false};
ghost use Rattle.luau_values.specs.Value.{Value};
ghost use Rattle.luau_values.specs.Heap.{Field, Table, AreFields, Heap, written, is_frozen, field_of, value_of, with_table, with_field, with_frozen};
ghost use Rattle.luau_values.specs.Later.{Later, Extends};

/// A heap is later than itself.
#[tactic(auto, using(crate::proofs::HeapFacts::later_refl))]
pub fn later_reflexive()
    ensures { (h : Heap) → Later h h }
{}

/// What is later than a later heap is later.
#[tactic(auto, using(crate::proofs::HeapFacts::later_trans))]
pub fn later_transitive()
    ensures { (h g k : Heap) → Later h g → Later g k → Later h k }
{}

/// A frozen table stays what it is: its mark and all of its fields.
#[tactic(auto, using(crate::proofs::HeapFacts::stays, crate::proofs::HeapFacts::frozen_marks, crate::proofs::HeapFacts::frozen_fields))]
pub fn frozen_table_stays()
    ensures table { (h g : Heap) (a : ℕ) → Later h g → IsTrue (is_frozen h a)
        → slice_get g a ≡ slice_get h a }
    ensures mark { (h g : Heap) (a : ℕ) → Later h g → IsTrue (is_frozen h a)
        → IsTrue (is_frozen g a) }
    ensures fields { (h g : Heap) (a : ℕ) (name : List ℕ) → Later h g → IsTrue (is_frozen h a)
        → field_of g a name ≡ field_of h a name }
{}

/// No table is ever gone.
#[tactic(auto, using(crate::proofs::HeapFacts::no_fewer))]
pub fn tables_stay()
    ensures { (h g : Heap) → Later h g → length h ≤ length g }
{}

/// A new table adds one to the tables, and no other change of a heap adds any.
#[tactic(auto, using(crate::proofs::HeapFacts::table_adds_one, crate::proofs::HeapFacts::write_adds_none, crate::proofs::HeapFacts::freeze_adds_none))]
pub fn number_of_tables()
    ensures makes { (h : Heap) (fields : List Field) → length (with_table fields h) ≡ suc (length h) }
    ensures writes { (h : Heap) (a : ℕ) (name : List ℕ) (value : Value)
        → length (with_field a name value h) ≡ length h }
    ensures freezes { (h : Heap) (a : ℕ) → length (with_frozen a h) ≡ length h }
{}

/// A new table leaves all others as they are.
#[tactic(auto, using(crate::proofs::HeapFacts::table_later))]
pub fn new_table_later()
    ensures { (h : Heap) (fields : List Field) → Later h (with_table fields h) }
{}

/// A write to a table that isn't frozen leaves all others as they are.
#[tactic(auto, using(crate::proofs::HeapFacts::write_later))]
pub fn write_later()
    ensures { (h : Heap) (a : ℕ) (name : List ℕ) (value : Value) → IsFalse (is_frozen h a)
        → Later h (with_field a name value h) }
{}

/// Freezing leaves all frozen tables as they are.
#[tactic(auto, using(crate::proofs::HeapFacts::freeze_later))]
pub fn freeze_later()
    ensures { (h : Heap) (a : ℕ) → Later h (with_frozen a h) }
{}

/// A new table stands at the address after the last, isn't frozen, and has the fields that it is
/// given.
#[tactic(auto, using(crate::proofs::HeapFacts::new_table))]
pub fn new_table_stands()
    ensures { (h : Heap) (fields : List Field)
        → slice_get (with_table fields h) (length h) ≡ Some (record { frozen = false; fields = fields }) }
{}

/// A table that is frozen has the mark from then on, reads as before, and no other table changes.
#[tactic(auto, using(crate::proofs::HeapFacts::freeze_freezes, crate::proofs::HeapFacts::freeze_reads, crate::proofs::HeapFacts::freeze_elsewhere))]
pub fn table_after_freezing()
    ensures mark { (h : Heap) (a : ℕ) → a < length h → IsTrue (is_frozen (with_frozen a h) a) }
    ensures fields { (h : Heap) (a b : ℕ) (name : List ℕ)
        → field_of (with_frozen a h) b name ≡ field_of h b name }
    ensures elsewhere { (h : Heap) (a b : ℕ) → a ≢ b
        → slice_get (with_frozen a h) b ≡ slice_get h b }
{}

/// A heap with more tables has those of the first as they were.
#[tactic(auto, using(crate::proofs::HeapFacts::extends_keeps))]
pub fn tables_stay_as_they_were()
    ensures { (h g : Heap) (a : ℕ) (t : Table) → Extends h g → slice_get h a ≡ Some t
        → slice_get g a ≡ Some t }
{}

/// What only adds tables is later.
#[tactic(auto, using(crate::proofs::HeapFacts::extends_later))]
pub fn extends_later()
    ensures { (h g : Heap) → Extends h g → Later h g }
{}

/// From where a quiet call begins, a heap only gets more tables: by new ones, and by writes to
/// these.
#[tactic(auto, using(crate::proofs::HeapFacts::extends_refl, crate::proofs::HeapFacts::extends_table, crate::proofs::HeapFacts::extends_fill))]
pub fn quiet_changes_extend()
    ensures begins { (h : Heap) → Extends h h }
    ensures makes { (h g : Heap) (fields : List Field) → Extends h g
        → Extends h (with_table fields g) }
    ensures fills { (h g : Heap) (a : ℕ) (name : List ℕ) (value : Value) → Extends h g → length h ≤ a
        → Extends h (with_field a name value g) }
{}

/// A field that is written reads as what was written, and every field of another name, and of
/// another table, as before.
#[tactic(auto, using(crate::proofs::HeapFacts::write_reads, crate::proofs::HeapFacts::write_leaves, crate::proofs::HeapFacts::write_elsewhere))]
pub fn fields_after_write()
    ensures own { (h : Heap) (a : ℕ) (name : List ℕ) (value : Value) → a < length h
        → field_of (with_field a name value h) a name ≡ value }
    ensures others { (h : Heap) (a b : ℕ) (name other : List ℕ) (value : Value) → name ≢ other
        → field_of (with_field a name value h) b other ≡ field_of h b other }
    ensures elsewhere { (h : Heap) (a b : ℕ) (name : List ℕ) (value : Value) → a ≢ b
        → slice_get (with_field a name value h) b ≡ slice_get h b }
{}

/// A write changes no mark; and one to a table that isn't frozen changes nothing of one that is.
#[tactic(auto, using(crate::proofs::HeapFacts::write_marks, crate::proofs::HeapFacts::write_spares))]
pub fn frozen_tables_after_write()
    ensures marks { (h : Heap) (a b : ℕ) (name : List ℕ) (value : Value)
        → is_frozen (with_field a name value h) b ≡ is_frozen h b }
    ensures fields { (h : Heap) (a b : ℕ) (name other : List ℕ) (value : Value)
        → IsFalse (is_frozen h a) → IsTrue (is_frozen h b)
        → field_of (with_field a name value h) b other ≡ field_of h b other }
{}

/// Fields that are written one after another, beginning with none, never have a name twice, and no
/// value is nil.
#[tactic(auto, using(crate::proofs::HeapFacts::no_fields, crate::proofs::HeapFacts::write_keeps_fields))]
pub fn names_stand_once()
    ensures none { AreFields [] }
    ensures write { (name : List ℕ) (value : Value) (fields : List Field) → AreFields fields
        → AreFields (written name value fields) }
{}
