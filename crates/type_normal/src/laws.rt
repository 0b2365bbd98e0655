//! What holds of all types, values and heaps. Each law is the contract of a function that does nothing.

ghost use Rattle.std.specs.Prelude.{◌≡◌, ℕ, Bool, true, false, not, ◌||◌, ◌&&◌, List, Some};
ghost use Rattle.type_arena.specs.Term.{Function, builtin, literal, Free, Rows, Term, term, never};
ghost use Rattle.luau_values.specs.Value.{Value, Nil, Str, Lit, Builtin};
ghost use Rattle.luau_values.specs.Heap.{Heap};
ghost use Rattle.type_normal.specs.Free.{is_normal_free};
ghost use Rattle.type_normal.specs.Holds.{holds};
ghost use Rattle.type_normal.specs.Rows.{is_empty, is_unknown};
ghost use Rattle.type_normal.specs.Operations.{union, meet, not_free, is_flat, fail};
ghost use Rattle.type_normal.specs.Kinds.{unknown, text_type, named_type, falsy, truthy, has_nil, exactly_one_function, is_falsy, IsFunction, Kinds, has_kind, kinds_type};
ghost use Rattle.type_normal.specs.TypeTerm.{TypeTerm, satisfies, normal, is_proper};
ghost use Rattle.type_normal.specs.Failing.{write_fail, unwritable, is_frozen_table};

/// Every value belongs to unknown, and none to never or to any other type that is empty.
#[tactic(auto, using(crate::proofs::FieldFacts::unknown_all, crate::proofs::FieldFacts::never_none, crate::proofs::HoldsFacts::empty_holds, crate::proofs::HoldsFacts::unknown_holds))]
pub fn unknown_and_never()
    ensures unknown { (h : Heap) (v : Value) → holds h v unknown ≡ true }
    ensures never { (h : Heap) (v : Value) → holds h v never ≡ false }
    ensures empty { (h : Heap) (v : Value) (t : Term) → is_empty t ≡ true → holds h v t ≡ false }
    ensures whole { (h : Heap) (v : Value) (t : Term) → is_unknown t ≡ true → holds h v t ≡ true }
{}

/// To a union belongs what belongs to one of the two, in every heap.
#[tactic(auto, using(crate::proofs::HoldsFacts::union_holds))]
pub fn union_is_either()
    ensures { (h : Heap) (v : Value) (t u : Term) → holds h v (union t u) ≡ holds h v t || holds h v u }
{}

/// To a meet belongs what belongs to both, in every heap.
#[tactic(auto, using(crate::proofs::HoldsFacts::meet_holds))]
pub fn meet_is_both()
    ensures { (h : Heap) (v : Value) (t u : Term) → holds h v (meet t u) ≡ holds h v t && holds h v u }
{}

/// To the complement of a type whose rows are none or all tables belongs what doesn't belong to the type.
#[tactic(auto, using(crate::proofs::HoldsFacts::not_free_holds))]
pub fn complement_is_the_rest()
    ensures { (h : Heap) (v : Value) (t : Term) → is_flat t ≡ true
        → holds h v (not_free t) ≡ not (holds h v t) }
{}

/// What fails for certain where a type is wanted belongs to it in no heap.
#[tactic(auto, using(crate::proofs::HoldsFacts::fail_holds))]
pub fn failing_is_in_no_heap()
    ensures { (h g : Heap) (v : Value) (t : Term) → holds h v (fail t) ≡ true → holds g v t ≡ false }
{}

/// Unknown in unions and meets with a type in normal form whose rows are none or all tables.
#[tactic(auto, using(crate::proofs::KindFacts::unknown_or, crate::proofs::KindFacts::or_unknown, crate::proofs::KindFacts::unknown_and, crate::proofs::KindFacts::and_unknown))]
pub fn unknown_beside_kinds()
    ensures or_left { (t : Term) → is_flat t ≡ true → union unknown t ≡ unknown }
    ensures or_right { (t : Term) → is_flat t ≡ true → union t unknown ≡ unknown }
    ensures and_left { (f : Free) (r : Rows) → is_flat (term f r) ≡ true → is_normal_free f ≡ true
        → meet unknown (term f r) ≡ term f r }
    ensures and_right { (f : Free) (r : Rows) → is_flat (term f r) ≡ true → is_normal_free f ≡ true
        → meet (term f r) unknown ≡ term f r }
{}

/// To a type of some kinds belong the values of these kinds.
#[tactic(auto, using(crate::proofs::KindFacts::kinds_hold))]
pub fn kinds_are_by_value()
    ensures { (h : Heap) (v : Value) (k : Kinds) → holds h v (kinds_type k) ≡ has_kind k v }
{}

/// What no field can be written of: the values of some kinds, and the frozen tables.
#[tactic(auto, using(crate::proofs::KindFacts::write_fail_holds))]
pub fn writes_fail()
    ensures { (h : Heap) (v : Value) → holds h v write_fail ≡ has_kind unwritable v || is_frozen_table h v }
{}

/// Nil and false are falsy, and all other values aren't.
#[tactic(auto, using(crate::proofs::KindFacts::falsy_holds, crate::proofs::KindFacts::truthy_holds))]
pub fn truth_of_values()
    ensures falsy { (h : Heap) (v : Value) → holds h v falsy ≡ is_falsy v }
    ensures truthy { (h : Heap) (v : Value) → holds h v truthy ≡ not (is_falsy v) }
{}

/// To the type of a string belongs this string alone.
#[tactic(auto, using(crate::proofs::KindFacts::text_holds))]
pub fn one_string()
    ensures alone { (h : Heap) (v : Value) (s : List ℕ) → holds h v (text_type s) ≡ true → v ≡ Str s }
    ensures itself { (h : Heap) (s : List ℕ) → holds h (Str s) (text_type s) ≡ true }
{}

/// A value of a type that is exactly one function is that function.
#[tactic(auto, using(crate::proofs::KindFacts::one_function_holds))]
pub fn one_function()
    ensures { (h : Heap) (v : Value) (t : Term) (f : Function) → exactly_one_function t ≡ Some f
        → holds h v t ≡ true → IsFunction f v }
{}

/// A named function belongs to its own type.
pub fn a_named_function_is_of_its_type()
    ensures builtins { (h : Heap) (path : List ℕ) → holds h (Builtin path) (named_type (builtin path)) ≡ true }
    ensures literals { (h : Heap) (home number : ℕ) (cells : List (ℕ × ℕ)) → holds h (Lit home number cells) (named_type (literal home number)) ≡ true }
{}

/// Types whose rows are none, or the row of all tables alone, give such types.
#[tactic(auto, using(crate::proofs::TypeTermFacts::flat_union, crate::proofs::TypeTermFacts::flat_meet))]
pub fn flat_types_stay_flat()
    ensures unions { (t u : Term) → is_flat t ≡ true → is_flat u ≡ true → is_flat (union t u) ≡ true }
    ensures meets { (t u : Term) → is_flat t ≡ true → is_flat u ≡ true → is_flat (meet t u) ≡ true }
{}

/// Nil doesn't belong to a type without nil.
#[tactic(auto, using(crate::proofs::KindFacts::no_nil_holds))]
pub fn no_nil()
    ensures { (h : Heap) (t : Term) → has_nil t ≡ false → holds h Nil t ≡ false }
{}

/// To the normal form of a written type belongs what belongs to the type, where no row with fields is complemented.
#[tactic(auto, using(crate::proofs::TypeTermFacts::normal_holds))]
pub fn written_types()
    ensures { (h : Heap) (v : Value) (t : TypeTerm) → is_proper t ≡ true
        → holds h v (normal t) ≡ satisfies h v t }
{}
