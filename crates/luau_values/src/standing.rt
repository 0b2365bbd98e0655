//! What holds of values that stand in a heap.

ghost use Rattle.std.specs.Prelude.{ℕ, List, length};
ghost use Rattle.luau_values.specs.Value.{Value, Tab};
ghost use Rattle.luau_values.specs.Heap.{Field, Heap, value_of, with_table, with_field, with_frozen};
ghost use Rattle.luau_values.specs.Start.{start_heap};
ghost use Rattle.luau_values.specs.Later.{Later};
ghost use Rattle.luau_values.specs.Stands.{Stands, FieldsStand};

/// What stands in a heap stands in every later one.
#[tactic(auto, using(crate::proofs::StandsFacts::stands_later))]
pub fn standing_stays()
    ensures { (h g : Heap) (v : Value) → Later h g → Stands h v → Stands g v }
{}

/// A table that is made stands from then on.
#[tactic(auto, using(crate::proofs::StandsFacts::new_stands))]
pub fn new_table_is_standing()
    ensures { (h : Heap) (fields : List Field) → Stands (with_table fields h) (Tab (length h)) }
{}

/// What stands in tables stands at the start of a run, and after each change: by a table whose
/// fields stand, by a write of a value that stands, and by freezing.
#[tactic(auto, using(crate::proofs::StandsFacts::start_stands, crate::proofs::StandsFacts::table_stands, crate::proofs::StandsFacts::write_stands, crate::proofs::StandsFacts::freeze_stands))]
pub fn fields_stand()
    ensures start { (paths : List (List ℕ)) → FieldsStand (start_heap paths) }
    ensures makes { (h : Heap) (fields : List Field) → FieldsStand h
        → ((name : List ℕ) → Stands (with_table fields h) (value_of name fields))
        → FieldsStand (with_table fields h) }
    ensures writes { (h : Heap) (a : ℕ) (name : List ℕ) (value : Value) → FieldsStand h → Stands h value
        → FieldsStand (with_field a name value h) }
    ensures freezes { (h : Heap) (a : ℕ) → FieldsStand h → FieldsStand (with_frozen a h) }
{}
