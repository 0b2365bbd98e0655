//! Reports on values of locals, branches, function literals and declared builtins, computed.

ghost use Rattle.std.specs.Prelude.{◌≡◌, [], ◌∷◌, codes};
ghost use Rattle.luau_tree.specs.declared.names.Op.TheVariants.{Binary};
ghost use Rattle.luau_tree.specs.declared.names.BinOp.TheVariants.{Add};
ghost use Rattle.luau_run.specs.runs.Builders.{name, e, str, if_then, returning};
ghost use Rattle.type_normal.specs.Kinds.{nil_type};
ghost use Rattle.type_arena.specs.Term.{never};
ghost use Rattle.report_rules.specs.After.{summary};
ghost use Rattle.report_rules.specs.Checks.{Argument, Missing, Operand, ValueOf};
ghost use Rattle.report_rules.specs.rows.Builders.{told, at, function_of_x};
ghost use Rattle.report_rules.specs.rows.Functions.{abs_x, lower_x, choosing, c, is_number, local_x};
ghost use Rattle.report_rules.specs.rows.Straight.{empty, unknown_x, x_added, not_given_x, abs_twice, in_literal, literal_called, optional_called, sometimes_number, after_failure, own_name_added};

/// A value is reported where the code behind fails with all that it may be.
pub fn values()
    ensures nothing { told empty ≡ [] }
    ensures both { told (unknown_x (abs_x ∷ lower_x ∷ [])) ≡ (at 33, ValueOf (codes "x")) ∷ [] }
    ensures branches { told (unknown_x (choosing c abs_x lower_x ∷ [])) ≡ [] }
    ensures early_return { told (unknown_x (abs_x ∷ if_then c (returning [] ∷ []) ∷ lower_x ∷ [])) ≡ [] }
    ensures no_value { told not_given_x ≡ (at 2, Argument 0 (codes "math.abs")) ∷ [] }
    ensures second { told abs_twice ≡ (at 5, Argument 0 (codes "math.abs")) ∷ [] }
    ensures dead_branch { told (local_x (e 30 str) (if_then is_number (abs_x ∷ []) ∷ [])) ≡ [] }
    ensures joined { told (sometimes_number []) ≡ [] }
    ensures live_end { told (sometimes_number (returning [] ∷ [])) ≡ (at 2, Argument 0 (codes "math.abs")) ∷ [] }
{}

/// A compound sets its local: what was known of it, and what the code behind needs of it, end there.
pub fn compounds()
    ensures known { told (local_x (e 30 str) (x_added ∷ abs_x ∷ [])) ≡ [] }
    ensures number { told (local_x (e 30 str) (x_added ∷ lower_x ∷ [])) ≡ (at 5, Argument 0 (codes "string.lower")) ∷ [] }
    ensures needed { told (unknown_x (x_added ∷ abs_x ∷ lower_x ∷ [])) ≡ [] }
{}

/// Function literals and declared builtins.
pub fn callees()
    ensures in_literal { told in_literal ≡ (at 5, Argument 0 (codes "math.abs")) ∷ [] }
    ensures literal_called { told literal_called ≡ [] }
    ensures optional { told optional_called ≡ (at 2, Argument 0 (codes "f")) ∷ [] }
    ensures own_name { told own_name_added ≡ (at 1, Operand (Binary Add)) ∷ [] }
{}

/// Where no run comes nothing more is reported, and nothing is given.
pub fn dead_code()
    ensures argument { told (after_failure (abs_x ∷ [])) ≡ (at 30, Missing 0 (codes "table.freeze")) ∷ [] }
    ensures parameter { told (after_failure (function_of_x (abs_x ∷ lower_x ∷ []) ∷ [])) ≡ (at 30, Missing 0 (codes "table.freeze")) ∷ [] }
    ensures summary { summary (after_failure (returning (name 2 ∷ []) ∷ [])) ≡ never }
    ensures empty { summary empty ≡ nil_type }
{}
