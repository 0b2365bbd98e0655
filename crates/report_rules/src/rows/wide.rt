//! Reports where types grow large, and on keys of all forms, computed.

ghost use Rattle.std.specs.Prelude.{◌≡◌, true, false, [], ◌∷◌, codes};
ghost use Rattle.luau_run.specs.runs.Builders.{num, str};
ghost use Rattle.type_normal.specs.Cut.{cut_down};
ghost use Rattle.subtype_check.specs.Below.{below};
ghost use Rattle.report_rules.specs.Checks.{Argument, ValueOf, ParameterOf};
ghost use Rattle.report_rules.specs.rows.Builders.{told, at, parameter};
ghost use Rattle.report_rules.specs.rows.Wide.{key_read, string_key, string_in_parentheses, interpolated, one_of_many, many_fields, texts_at_p};

/// A key that is written as a string is a name, and one that is neither a string nor a numeral may be any.
pub fn keys()
    ensures string { told (key_read num string_key str) ≡ (at 12, Argument 0 (codes "math.abs")) ∷ [] }
    ensures last_counts { told (key_read str string_key num) ≡ [] }
    ensures numeral { told (key_read str num num) ≡ (at 12, Argument 0 (codes "math.abs")) ∷ [] }
    ensures parentheses { told (key_read str string_in_parentheses num) ≡ [] }
    ensures interpolation { told (key_read str interpolated num) ≡ [] }
{}

/// Entries of maps are cut, and the type of an expression is not: past sixteen rows a value is still checked, and what is read of the
/// local is not.
pub fn entries_alone_are_cut()
    ensures sixteen { told (one_of_many 15) ≡ (at 12, Argument 0 (codes "math.abs")) ∷ [] }
    ensures seventeen { told (one_of_many 16) ≡ (at 30, ValueOf (codes "x")) ∷ [] }
{}

/// Contexts are joined from the right, so the first parts are kept where there are too many.
pub fn joined_from_the_right()
    ensures { told (many_fields 18) ≡ (parameter 0 0, ParameterOf (codes "x")) ∷ [] }
{}

/// A larger set may be cut where a smaller one is kept, so not all that is made of a larger context is larger.
pub fn cuts_do_not_grow()
    ensures below { below (texts_at_p 1) (texts_at_p 17) ≡ true }
    ensures cut { below (cut_down (texts_at_p 1)) (cut_down (texts_at_p 17)) ≡ false }
{}
