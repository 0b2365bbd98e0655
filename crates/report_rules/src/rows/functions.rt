//! Reports on parameters, branches and loops that are computed.

ghost use Rattle.std.specs.Prelude.{◌≡◌, [], ◌∷◌, codes};
ghost use Rattle.luau_run.specs.runs.Builders.{if_then, returning};
ghost use Rattle.type_normal.specs.Kinds.{nil_type, number_type, string_type, field_is};
ghost use Rattle.type_arena.specs.Term.{never};
ghost use Rattle.report_rules.specs.Checks.{Argument, ValueOf, ParameterOf};
ghost use Rattle.report_rules.specs.rows.Builders.{told, at, parameter};
ghost use Rattle.report_rules.specs.rows.Functions.{abs_x, lower_x, abs_x_p, c, with_x, with_annotated_x, with_loose_x, unknown_call, q_written, choosing, is_number, guarded_call, while_c, repeated, captured, broken_off, counting, p_added, until_lower};

/// A parameter is reported where the body fails with each of its values.
pub fn parameters()
    ensures both { told (with_x (abs_x ∷ lower_x ∷ [])) ≡ (parameter 0 0, ParameterOf (codes "x")) ∷ [] }
    ensures annotated { told (with_annotated_x (field_is (codes "p") string_type) (abs_x_p ∷ [])) ≡ (parameter 0 0, ParameterOf (codes "x")) ∷ [] }
    ensures guarded { told (with_annotated_x nil_type (guarded_call ∷ [])) ≡ [] }
    ensures behind_call { told (with_annotated_x (field_is (codes "p") string_type) (unknown_call ∷ abs_x_p ∷ [])) ≡ [] }
    ensures string { told (with_annotated_x string_type (abs_x ∷ [])) ≡ (parameter 0 0, ParameterOf (codes "x")) ∷ [] }
    ensures unknown { told (with_x (abs_x ∷ [])) ≡ [] }
    ensures number { told (with_annotated_x number_type (abs_x ∷ lower_x ∷ [])) ≡ (parameter 0 0, ParameterOf (codes "x")) ∷ [] }
    ensures no_value { told (with_annotated_x never (abs_x ∷ [])) ≡ [] }
    ensures loose { told (with_loose_x (abs_x ∷ lower_x ∷ [])) ≡ [] }
    ensures other_field { told (with_x (q_written ∷ abs_x_p ∷ [])) ≡ [] }
{}

/// Of two branches only what fails in both counts, and a guard tells them apart.
pub fn branches()
    ensures two_branches_are_met { told (with_x (choosing c abs_x lower_x ∷ [])) ≡ [] }
    ensures early_return { told (with_x (abs_x ∷ if_then c (returning [] ∷ []) ∷ lower_x ∷ [])) ≡ [] }
    ensures guard { told (with_x (choosing is_number lower_x abs_x ∷ []))
        ≡ (at 5, Argument 0 (codes "string.lower")) ∷ (at 2, Argument 0 (codes "math.abs")) ∷ [] }
{}

/// What a loop's body needs counts before the loop where the body is certain to run.
pub fn loops()
    ensures while_body { told (with_x (while_c (abs_x ∷ []) ∷ lower_x ∷ [])) ≡ [] }
    ensures behind_while { told (with_x (while_c [] ∷ abs_x ∷ lower_x ∷ [])) ≡ (parameter 0 0, ParameterOf (codes "x")) ∷ [] }
    ensures return_inside { told (with_x (while_c (returning [] ∷ []) ∷ abs_x ∷ lower_x ∷ [])) ≡ [] }
    ensures until_counts { told (with_x (until_lower ∷ [])) ≡ (parameter 0 0, ParameterOf (codes "x")) ∷ [] }
    ensures value_before_repeat { told repeated ≡ (at 30, ValueOf (codes "x")) ∷ [] }
    ensures value_before_break { told broken_off ≡ (at 21, ValueOf (codes "x")) ∷ [] }
    ensures field_in_loop { told (counting []) ≡ (at 12, Argument 0 (codes "math.abs")) ∷ [] }
    ensures field_written_in_loop { told (counting (p_added ∷ [])) ≡ [] }
    ensures captured_and_assigned { told captured ≡ [] }
{}
