//! Types that are computed.

ghost use Rattle.std.specs.Prelude.{◌≡◌, ℕ, true, false, List, [], ◌∷◌, Some, None};
ghost use Rattle.type_arena.specs.Term.{Function, builtin, literal, only, all_but, term, never, no_rows, more_rows, no_fields, more_fields};
ghost use Rattle.type_normal.specs.Free.{no_values};
ghost use Rattle.type_normal.specs.Rows.{is_normal, any_table};
ghost use Rattle.type_normal.specs.Operations.{union, meet, not_free, is_flat, fail};
ghost use Rattle.type_normal.specs.Kinds.{unknown, nil_type, true_type, false_type, boolean_type, string_type, number_type, function_type, other_type, table_type, text_type, named_type, frozen_type, row_type, field_is, falsy, truthy, has_nil, exactly_one_function};
ghost use Rattle.type_normal.specs.HeapFree.{heap_free, strip, widen, strip_at, widen_at};
ghost use Rattle.type_normal.specs.Cut.{cut_down, cut_up, depth};
ghost use Rattle.type_normal.specs.Field.{field_type, with_row_field, frozen_rows};
ghost use Rattle.type_normal.specs.TypeTerm.{NilTerm, AnyStringTerm, PropsTerm, UnionTerm, MeetTerm, NotTerm, no_terms, more_terms, no_props, more_props, normal};
ghost use Rattle.type_normal.specs.Failing.{call_fail, index_fail, write_fail, arith_fail, length_fail, iter_fail, order_fail_with_number, order_fail_with_string};
ghost use Rattle.type_normal.specs.Examples.{x, y, x_is_string, frozen_x_is_string, mixed, rows_of_texts, nested, x_and_y, x_alone, two_rows};

/// Unions, meets and complements.
pub fn joined_and_met()
    ensures strings { meet (union string_type nil_type) (not_free nil_type) ≡ string_type }
    ensures twice { union nil_type nil_type ≡ nil_type }
    ensures both { meet x_is_string (field_is x nil_type) ≡ never }
    ensures nothing { not_free unknown ≡ never }
    ensures frozen { meet x_is_string frozen_type ≡ frozen_x_is_string }
    ensures names { meet x_is_string (field_is y nil_type) ≡ row_type false (more_fields x string_type (more_fields y nil_type no_fields)) }
    ensures rows { union x_is_string table_type ≡ union table_type x_is_string }
    ensures failing { fail x_is_string ≡ not_free table_type }
    ensures truths { union falsy truthy ≡ unknown }
{}

/// A field of type unknown is dropped, and so is a row with an empty field.
pub fn normal_rows()
    ensures known { field_is x unknown ≡ table_type }
    ensures empty { field_is x never ≡ never }
    ensures normal { is_normal (union mixed (union x_is_string frozen_x_is_string)) ≡ true }
{}

/// What is left of rows, and what they become, after the heap may have changed.
pub fn stripped_and_widened()
    ensures plain { strip x_is_string ≡ never }
    ensures table { widen x_is_string ≡ table_type }
    ensures frozen { strip frozen_x_is_string ≡ frozen_x_is_string }
    ensures frozen_stays { widen frozen_x_is_string ≡ frozen_x_is_string }
    ensures mixed { strip mixed ≡ never }
    ensures mixed_table { widen mixed ≡ row_type true (more_fields y table_type no_fields) }
    ensures free { heap_free (widen mixed) ≡ true }
{}

/// The same, after fields of one name may have been written.
pub fn stripped_and_widened_at_a_name()
    ensures own { strip_at x x_is_string ≡ never }
    ensures other { strip_at y x_is_string ≡ x_is_string }
    ensures widened { widen_at x x_is_string ≡ table_type }
    ensures widened_other { widen_at y x_is_string ≡ x_is_string }
    ensures frozen { strip_at x frozen_x_is_string ≡ frozen_x_is_string }
    ensures frozen_stays { widen_at x frozen_x_is_string ≡ frozen_x_is_string }
    ensures mixed { strip_at x mixed ≡ never }
    ensures mixed_widened { widen_at x mixed ≡ row_type true (more_fields y table_type no_fields) }
    ensures mixed_other { widen_at y mixed ≡ mixed }
    ensures one_of_two { widen_at x (row_type false (x_and_y string_type nil_type)) ≡ field_is y nil_type }
    ensures two_stay { widen_at x (row_type true (x_and_y string_type nil_type)) ≡ row_type true (x_and_y string_type nil_type) }
    ensures listed_first { strip_at x (row_type true (x_and_y string_type (field_is y nil_type))) ≡ never }
    ensures listed_not { strip_at x (row_type true (more_fields y (field_is y nil_type) no_fields)) ≡ row_type true (more_fields y (field_is y nil_type) no_fields) }
{}

/// At most 16 rows and a depth of 8 are kept.
pub fn cut()
    ensures small { cut_down x_is_string ≡ x_is_string }
    ensures small_up { cut_up x_is_string ≡ x_is_string }
    ensures frozen { cut_down frozen_x_is_string ≡ frozen_x_is_string }
    ensures rows { cut_down (rows_of_texts 17) ≡ never }
    ensures rows_up { cut_up (rows_of_texts 17) ≡ table_type }
    ensures sixteen { cut_down (rows_of_texts 16) ≡ rows_of_texts 16 }
    ensures with_table { cut_down (union table_type (rows_of_texts 16)) ≡ table_type }
    ensures inside { cut_down (field_is y (rows_of_texts 17)) ≡ never }
    ensures eight { cut_down (nested 8) ≡ nested 8 }
    ensures nine { cut_down (nested 9) ≡ never }
    ensures nine_up { cut_up (nested 9) ≡ table_type }
    ensures depth { depth (nested 9) ≡ 9 }
    ensures depth_of_later_fields { depth (row_type false (x_and_y nil_type (nested 2))) ≡ 3 }
    ensures depth_of_first_fields { depth (row_type false (x_and_y (nested 2) nil_type)) ≡ 3 }
    ensures depth_of_later_rows { depth (union (field_is x nil_type) (field_is y (nested 2))) ≡ 3 }
    ensures inside_later_fields { cut_down (row_type false (x_and_y nil_type (rows_of_texts 17))) ≡ never }
    ensures inside_later_rows { cut_up (union (field_is x nil_type) (field_is y (rows_of_texts 17))) ≡ table_type }
    ensures far_inside { cut_down (field_is y (field_is y (rows_of_texts 17))) ≡ never }
    ensures sixteen_inside { cut_down (field_is y (rows_of_texts 16)) ≡ field_is y (rows_of_texts 16) }
    ensures other_values { cut_down (union nil_type (nested 9)) ≡ nil_type }
{}

/// Fields of the tables of a type.
pub fn fields()
    ensures listed { field_type x x_is_string ≡ string_type }
    ensures other { field_type y x_is_string ≡ unknown }
    ensures rows { field_type x (union x_is_string (field_is x nil_type)) ≡ union string_type nil_type }
    ensures no_table { field_type x nil_type ≡ never }
    ensures written { with_row_field x number_type x_is_string ≡ field_is x number_type }
    ensures added { with_row_field y nil_type x_is_string ≡ meet x_is_string (field_is y nil_type) }
    ensures frozen { frozen_rows (union nil_type x_is_string) ≡ frozen_x_is_string }
    ensures written_beside { with_row_field x number_type (union nil_type x_is_string) ≡ union nil_type (field_is x number_type) }
{}

/// A written type and its normal form.
pub fn written_and_normal()
    ensures strings { normal (MeetTerm (more_terms (UnionTerm (more_terms AnyStringTerm (more_terms NilTerm no_terms))) (more_terms (NotTerm NilTerm) no_terms))) ≡ string_type }
    ensures names { normal (PropsTerm false (more_props y AnyStringTerm (more_props x AnyStringTerm no_props))) ≡ meet x_is_string (field_is y string_type) }
    ensures twice { normal (PropsTerm false (more_props x AnyStringTerm (more_props x NilTerm no_props))) ≡ never }
{}

/// What fails for certain, as unions of kinds.
pub fn failing_kinds()
    ensures call { call_fail ≡ union nil_type (union boolean_type (union number_type (union string_type table_type))) }
    ensures index { index_fail ≡ union nil_type (union boolean_type (union number_type function_type)) }
    ensures write { write_fail ≡ union nil_type (union boolean_type (union number_type (union string_type (union function_type frozen_type)))) }
    ensures arithmetic { arith_fail ≡ union nil_type (union boolean_type (union table_type function_type)) }
    ensures length { length_fail ≡ union nil_type (union boolean_type (union number_type function_type)) }
    ensures iteration { iter_fail ≡ union nil_type (union boolean_type (union number_type string_type)) }
    ensures order_with_number { order_fail_with_number ≡ union nil_type (union boolean_type (union string_type (union table_type function_type))) }
    ensures order_with_string { order_fail_with_string ≡ union nil_type (union boolean_type (union number_type (union table_type function_type))) }
{}

/// Types of one function, and types with and without nil.
pub fn one_function_and_nil()
    ensures named { (f : Function) → exactly_one_function (named_type f) ≡ Some f }
    ensures any { exactly_one_function function_type ≡ None }
    ensures two { exactly_one_function (union (named_type (builtin x)) (named_type (builtin y))) ≡ None }
    ensures other { exactly_one_function (union nil_type (named_type (builtin x))) ≡ None }
    ensures table { exactly_one_function (union table_type (named_type (builtin x))) ≡ None }
    ensures nil { has_nil (union string_type nil_type) ≡ true }
    ensures no_nil { has_nil (not_free nil_type) ≡ false }
    ensures no_nil_of_tables { has_nil x_is_string ≡ false }
{}

/// Types whose rows are none or all tables.
pub fn flat_types()
    ensures nil { is_flat nil_type ≡ true }
    ensures strings { is_flat string_type ≡ true }
    ensures table { is_flat table_type ≡ true }
    ensures whole { is_flat unknown ≡ true }
    ensures frozen { is_flat frozen_type ≡ false }
    ensures fields { is_flat x_is_string ≡ false }
    ensures beside { is_flat (union table_type x_is_string) ≡ false }
{}

/// Types that stay true of a value while the heap changes, and types that don't.
pub fn heap_free_kinds()
    ensures nil { heap_free nil_type ≡ true }
    ensures whole { heap_free unknown ≡ true }
    ensures table { heap_free table_type ≡ true }
    ensures text { (s : List ℕ) → heap_free (text_type s) ≡ true }
    ensures named { (f : Function) → heap_free (named_type f) ≡ true }
    ensures frozen { heap_free frozen_type ≡ true }
    ensures frozen_fields { heap_free frozen_x_is_string ≡ true }
    ensures plain_fields { heap_free x_is_string ≡ false }
    ensures plain_inside { heap_free mixed ≡ false }
    ensures later_rows { heap_free (union table_type x_is_string) ≡ false }
{}

/// The order of rows: what needs no frozen table, then names, then types.
pub fn order_of_rows()
    ensures frozen { union frozen_type table_type ≡ two_rows false no_fields true no_fields }
    ensures frozen_first { union (row_type true (x_alone nil_type)) (field_is y nil_type) ≡ two_rows false (more_fields y nil_type no_fields) true (x_alone nil_type) }
    ensures names { union (field_is y string_type) (field_is x nil_type) ≡ two_rows false (x_alone nil_type) false (more_fields y string_type no_fields) }
    ensures all_names { union (row_type false (x_and_y string_type string_type)) (field_is x nil_type) ≡ two_rows false (x_alone nil_type) false (x_and_y string_type string_type) }
    ensures types { union (field_is x nil_type) x_is_string ≡ two_rows false (x_alone string_type) false (x_alone nil_type) }
    ensures once { union x_is_string x_is_string ≡ x_is_string }
{}

/// The order of types: nil, true, false, numbers, other values, strings, functions, rows; what lacks a part comes first.
pub fn order_of_types()
    ensures truth { union (field_is x nil_type) (field_is x true_type) ≡ two_rows false (x_alone true_type) false (x_alone nil_type) }
    ensures falsity { union (field_is x true_type) (field_is x false_type) ≡ two_rows false (x_alone false_type) false (x_alone true_type) }
    ensures number { union (field_is x false_type) (field_is x number_type) ≡ two_rows false (x_alone number_type) false (x_alone false_type) }
    ensures other { union (field_is x number_type) (field_is x other_type) ≡ two_rows false (x_alone other_type) false (x_alone number_type) }
    ensures strings { union (field_is x other_type) x_is_string ≡ two_rows false (x_alone string_type) false (x_alone other_type) }
    ensures functions { union (field_is x (text_type x)) (field_is x (named_type (builtin x))) ≡ two_rows false (x_alone (named_type (builtin x))) false (x_alone (text_type x)) }
    ensures finite { union x_is_string (field_is x (text_type x)) ≡ two_rows false (x_alone (text_type x)) false (x_alone string_type) }
    ensures rows { union (field_is x (named_type (builtin x))) (field_is x table_type) ≡ two_rows false (x_alone table_type) false (x_alone (named_type (builtin x))) }
{}

/// The order of strings and of functions.
pub fn order_of_members()
    ensures strings { union (text_type y) (text_type x) ≡ term (record no_values { strings = only (x ∷ y ∷ []) }) no_rows }
    ensures one_string { union (text_type x) (text_type x) ≡ text_type x }
    ensures builtins { union (named_type (literal 0 0)) (named_type (builtin y)) ≡ term (record no_values { functions = only (builtin y ∷ literal 0 0 ∷ []) }) no_rows }
    ensures homes { union (named_type (literal 1 0)) (named_type (literal 0 1)) ≡ term (record no_values { functions = only (literal 0 1 ∷ literal 1 0 ∷ []) }) no_rows }
    ensures left_out { meet (not_free (text_type y)) (not_free (text_type x)) ≡ term (record no_values { nil = true; truth = true; falsity = true; number = true; other = true; strings = all_but (x ∷ y ∷ []); functions = all_but [] }) any_table }
{}

/// What is not in normal form.
pub fn not_normal()
    ensures names { is_normal (term no_values (more_rows false (more_fields y nil_type (x_alone nil_type)) no_rows)) ≡ false }
    ensures one_name { is_normal (term no_values (more_rows false (more_fields x nil_type (x_alone nil_type)) no_rows)) ≡ false }
    ensures empty { is_normal (term no_values (more_rows false (x_alone never) no_rows)) ≡ false }
    ensures whole { is_normal (term no_values (more_rows false (x_alone unknown) no_rows)) ≡ false }
    ensures rows { is_normal (two_rows true no_fields false no_fields) ≡ false }
    ensures one_row { is_normal (two_rows false no_fields false no_fields) ≡ false }
    ensures strings { is_normal (term (record no_values { strings = only (y ∷ x ∷ []) }) no_rows) ≡ false }
    ensures one_string { is_normal (term (record no_values { strings = all_but (x ∷ x ∷ []) }) no_rows) ≡ false }
    ensures functions { is_normal (term (record no_values { functions = only (literal 0 0 ∷ builtin x ∷ []) }) no_rows) ≡ false }
    ensures inside { is_normal (term no_values (more_rows false (x_alone (two_rows true no_fields false no_fields)) no_rows)) ≡ false }
    ensures later_field { is_normal (term no_values (more_rows false (x_and_y nil_type never) no_rows)) ≡ false }
    ensures later_row { is_normal (two_rows false no_fields false (x_alone unknown)) ≡ false }
{}
