//! Subtyping and samples that are computed.

ghost use Rattle.std.specs.Prelude.{◌≡◌, true, false, codes, Some, None, []};
ghost use Rattle.type_arena.specs.Term.{never, builtin, literal};
ghost use Rattle.type_arena.specs.declared.node.FnName.TheVariants.{Builtin, Literal};
ghost use Rattle.type_normal.specs.Operations.{not_free, union};
ghost use Rattle.type_normal.specs.Kinds.{unknown, nil_type, string_type, number_type, table_type, text_type, function_type, named_type, other_type, field_is};
ghost use Rattle.type_normal.specs.Examples.{x, y, x_is_string, frozen_x_is_string};
ghost use Rattle.subtype_check.specs.Apart.{apart};
ghost use Rattle.subtype_check.specs.Below.{below};
ghost use Rattle.subtype_check.specs.declared.samples.Sample.TheVariants as samples;

/// Kinds, strings and rows.
pub fn below_or_not()
    ensures one_string { below (text_type (codes "a")) string_type ≡ true }
    ensures all_strings { below string_type (text_type (codes "a")) ≡ false }
    ensures other_strings { below (text_type (codes "a")) (not_free (text_type (codes "b"))) ≡ true }
    ensures fields { below x_is_string (field_is x (not_free number_type)) ≡ true }
    ensures not_fields { below x_is_string (field_is x number_type) ≡ false }
    ensures frozen { below frozen_x_is_string x_is_string ≡ true }
    ensures plain { below x_is_string frozen_x_is_string ≡ false }
    ensures missing { below x_is_string (field_is y string_type) ≡ false }
    ensures tables { below x_is_string table_type ≡ true }
    ensures nothing { below never nil_type ≡ true }
    ensures itself { below (union x_is_string nil_type) (union x_is_string nil_type) ≡ true }
    ensures unknown { below unknown string_type ≡ false }
{}

/// What tells kinds apart: the first kind of which something is in the one type alone, the first member of finitely many,
/// and else the shortest text of letters `x`.
pub fn told_apart()
    ensures nil { apart unknown nil_type ≡ Some samples.True }
    ensures order { apart unknown (not_free number_type) ≡ Some samples.Number }
    ensures strings { apart string_type (text_type (codes "a")) ≡ Some (samples.Text []) }
    ensures no_empty_string { apart string_type (union (text_type (codes "")) (text_type (codes "xx"))) ≡ Some (samples.Text (codes "x")) }
    ensures cofinite { apart (not_free (text_type (codes "b"))) (not_free (union (text_type (codes "d")) (text_type (codes "c")))) ≡ Some (samples.Text (codes "c")) }
    ensures functions { apart function_type (union (named_type (builtin (codes "x"))) (named_type (literal 0 1))) ≡ Some (samples.Function (Builtin (codes "xx"))) }
    ensures named { apart (union (named_type (literal 1 0)) (named_type (builtin (codes "a")))) (named_type (builtin (codes "a"))) ≡ Some (samples.Function (Literal 1 0)) }
    ensures other { apart unknown (not_free other_type) ≡ Some samples.Other }
    ensures tables { apart unknown (not_free table_type) ≡ Some samples.Table }
    ensures fields { apart x_is_string nil_type ≡ None }
    ensures below { apart nil_type unknown ≡ None }
{}
