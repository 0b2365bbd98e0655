//! Reports on calls, operators and writes that are computed.

ghost use Rattle.std.specs.Prelude.{◌≡◌, [], ◌∷◌, codes};
ghost use Rattle.luau_tree.specs.declared.names.Op.TheVariants.{Call, Index, Write, For, Iterate, Unary, Binary};
ghost use Rattle.luau_tree.specs.declared.names.UnOp.TheVariants.{Minus, Length};
ghost use Rattle.luau_tree.specs.declared.names.BinOp.TheVariants.{Less, Add};
ghost use Rattle.luau_tree.specs.Tree.{NilExpr};
ghost use Rattle.luau_run.specs.runs.Builders.{num, str};
ghost use Rattle.report_rules.specs.Checks.{Argument, Missing, Operand, ValueOf};
ghost use Rattle.report_rules.specs.rows.Builders.{told, at, call_at};
ghost use Rattle.report_rules.specs.rows.Calls.{abs_of, abs_of_none, abs_of_call, of_print, in_parentheses, clamp_of_one, less, field_written, frozen_table, field_added, local_added, property_read, global_call, p_added, frozen_then_read, written_through_another, of_nil, called, indexed, method_called, negated, measured, one_added, counting_to_nil, going_over_one};

/// An argument is reported where no value of its type is taken, a call where an argument lacks.
pub fn arguments()
    ensures string { told (abs_of str) ≡ (at 2, Argument 0 (codes "math.abs")) ∷ [] }
    ensures number { told (abs_of num) ≡ [] }
    ensures missing { told abs_of_none ≡ (at 0, Missing 0 (codes "math.abs")) ∷ [] }
    ensures of_a_call { told abs_of_call ≡ [] }
    ensures past_parameters { told (of_print (codes "string.char") (λ call. call)) ≡ [] }
    ensures in_parentheses { told (of_print (codes "string.char") in_parentheses) ≡ (at 4, Argument 0 (codes "string.char")) ∷ [] }
    ensures at_a_parameter { told (of_print (codes "math.abs") (λ call. call)) ≡ (at 2, Argument 0 (codes "math.abs")) ∷ [] }
    ensures both { told clamp_of_one ≡ (at 0, Missing 1 (codes "math.clamp")) ∷ (at 2, Argument 0 (codes "math.clamp")) ∷ [] }
{}

/// An operand is reported where the operation fails with each of its values.
pub fn operands()
    ensures order { told less ≡ (at 1, Operand (Binary Less)) ∷ (at 2, Operand (Binary Less)) ∷ [] }
    ensures nil_written { told (field_written NilExpr) ≡ (at 11, Operand Write) ∷ [] }
    ensures frozen_written { told (field_written frozen_table) ≡ (at 11, Operand Write) ∷ [] }
    ensures call { told (of_nil called) ≡ (at 1, Operand Call) ∷ [] }
    ensures index { told (of_nil indexed) ≡ (at 1, Operand Index) ∷ [] }
    ensures method { told (of_nil method_called) ≡ (at 1, Operand Index) ∷ [] }
    ensures minus { told (of_nil negated) ≡ (at 1, Operand (Unary Minus)) ∷ [] }
    ensures length { told (of_nil measured) ≡ (at 1, Operand (Unary Length)) ∷ [] }
    ensures arithmetic { told (of_nil one_added) ≡ (at 1, Operand (Binary Add)) ∷ [] }
    ensures bound { told counting_to_nil ≡ (at 1, Operand For) ∷ [] }
    ensures iteration { told going_over_one ≡ (at 0, Operand Iterate) ∷ [] }
    ensures compound_on_field { told (field_added NilExpr) ≡ (at 11, Operand Index) ∷ (at 11, Operand Write) ∷ [] }
    ensures compound_on_local { told (local_added NilExpr) ≡ (at 10, Operand (Binary Add)) ∷ [] }
{}

/// What is known of a field is kept until a call that isn't quiet.
pub fn fields()
    ensures kept { told (property_read []) ≡ (at 12, Argument 0 (codes "math.abs")) ∷ [] }
    ensures written { told (property_read (p_added ∷ [])) ≡ [] }
    ensures frozen { told (frozen_then_read []) ≡ (at 12, Argument 0 (codes "math.abs")) ∷ [] }
    ensures held_over_a_call { told (frozen_then_read (call_at 2 3 [] ∷ [])) ≡ [] }
    ensures written_through_another { told written_through_another ≡ [] }
    ensures lost { told (property_read (global_call ∷ [])) ≡ [] }
{}
