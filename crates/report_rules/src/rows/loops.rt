//! Reports on loops, and on functions that see a local of the module, computed.

ghost use Rattle.std.specs.Prelude.{◌≡◌, [], ◌∷◌, codes};
ghost use Rattle.luau_tree.specs.Tree.{Break, Continue, Field};
ghost use Rattle.luau_run.specs.runs.Builders.{name, e, str, table};
ghost use Rattle.report_rules.specs.Checks.{Argument, ParameterOf};
ghost use Rattle.report_rules.specs.rows.Builders.{told, at, parameter};
ghost use Rattle.report_rules.specs.rows.Functions.{abs_x, lower_x, abs_x_p, with_x};
ghost use Rattle.report_rules.specs.rows.Loops.{counting_x, setting_x, going_over, counted_three, while_x, while_nil, nil_or_abs, nil_in_until, left_in_turn, while_lower, seen_by_literal, function_before_repeat};

/// What is known of the variables of loops, and of locals in and behind them.
pub fn known()
    ensures number { told (counting_x [] (lower_x ∷ [])) ≡ (at 5, Argument 0 (codes "string.lower")) ∷ [] }
    ensures loose { told (counting_x (1 ∷ []) (setting_x ∷ lower_x ∷ [])) ≡ [] }
    ensures of_iteration { told (going_over (lower_x ∷ [])) ≡ [] }
    ensures behind_while { told while_x ≡ [] }
    ensures while_nil { told while_nil ≡ (at 2, Argument 0 (codes "math.abs")) ∷ [] }
    ensures or { told nil_or_abs ≡ (at 2, Argument 0 (codes "math.abs")) ∷ [] }
    ensures in_until { told nil_in_until ≡ (at 2, Argument 0 (codes "math.abs")) ∷ [] }
{}

/// What a loop needs before it: its condition, and what stands in front of each way out of a turn.
pub fn needed()
    ensures counted { told (with_x (counted_three (abs_x ∷ []) ∷ lower_x ∷ [])) ≡ [] }
    ensures condition { told (with_x (abs_x ∷ while_lower [] ∷ [])) ≡ (parameter 0 0, ParameterOf (codes "x")) ∷ [] }
    ensures condition_first { told (with_x (while_lower (abs_x ∷ []) ∷ [])) ≡ [] }
    ensures continued { told (with_x (left_in_turn Continue ∷ [])) ≡ (parameter 0 0, ParameterOf (codes "x")) ∷ [] }
    ensures broken { told (with_x (left_in_turn Break ∷ [])) ≡ [] }
{}

/// A function sees what is known of a local where it is made, and not what its tables hold; a function statement is no value.
pub fn seen()
    ensures local { told (seen_by_literal (e 30 str) abs_x) ≡ (at 2, Argument 0 (codes "math.abs")) ∷ [] }
    ensures field { told (seen_by_literal (e 30 (table (Field (codes "p") (e 31 str) ∷ []))) abs_x_p) ≡ [] }
    ensures function { told function_before_repeat ≡ [] }
{}
