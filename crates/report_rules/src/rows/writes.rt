//! Reports on libraries that are called, on elements, writes and compounds, computed.

ghost use Rattle.std.specs.Prelude.{◌≡◌, [], ◌∷◌, codes};
ghost use Rattle.luau_tree.specs.declared.names.Op.TheVariants.{Call, Index, Write, Binary};
ghost use Rattle.luau_tree.specs.declared.names.BinOp.TheVariants.{Add, Concat, Less};
ghost use Rattle.luau_tree.specs.Tree.{NilExpr};
ghost use Rattle.luau_run.specs.runs.Builders.{num, str};
ghost use Rattle.report_rules.specs.Checks.{Argument, Operand};
ghost use Rattle.report_rules.specs.rows.Builders.{told, at};
ghost use Rattle.report_rules.specs.rows.Calls.{frozen_table, field_added};
ghost use Rattle.report_rules.specs.rows.Writes.{library_called, element_written, element_read, concatenated, element_added, with_p, nil_added, global_added, local_called, ordered, unknown_call, global_read, then_abs_p, p_is_function, p_is_method, p_is_s, string_key_is_s, element_is_s, p_is_s_beside};

/// What is certain to fail asks for nothing else: not for a library's value, nor for an element.
pub fn certain_alone()
    ensures library { told library_called ≡ (at 1, Operand Call) ∷ [] }
    ensures frozen_element { told (element_written frozen_table) ≡ (at 11, Operand Write) ∷ [] }
    ensures nil_element { told (element_written NilExpr) ≡ (at 11, Operand Write) ∷ [] }
    ensures read { told element_read ≡ (at 11, Operand Index) ∷ [] }
    ensures concatenated { told concatenated ≡ (at 11, Operand (Binary Concat)) ∷ [] }
    ensures compound { told element_added ≡ (at 11, Operand Index) ∷ (at 11, Operand Write) ∷ [] }
    ensures called { told local_called ≡ (at 11, Operand Call) ∷ [] }
    ensures global { told global_read ≡ [] }
{}

/// The sides of an operation are checked beside each other.
pub fn sides()
    ensures ordered { told (ordered str) ≡ (at 3, Operand (Binary Less)) ∷ (at 4, Operand (Binary Less)) ∷ [] }
    ensures beside_unknown { told (ordered unknown_call) ≡ [] }
    ensures old_value { told (field_added (with_p NilExpr)) ≡ (at 10, Operand (Binary Add)) ∷ [] }
    ensures added_value { told nil_added ≡ (at 12, Operand (Binary Add)) ∷ [] }
    ensures to_global { told global_added ≡ [] }
{}

/// What is written to a field is known of it, if nothing else was written beside.
pub fn written_fields()
    ensures function { told (then_abs_p p_is_function) ≡ (at 22, Argument 0 (codes "math.abs")) ∷ [] }
    ensures method { told (then_abs_p p_is_method) ≡ (at 22, Argument 0 (codes "math.abs")) ∷ [] }
    ensures string { told (then_abs_p p_is_s) ≡ (at 22, Argument 0 (codes "math.abs")) ∷ [] }
    ensures string_key { told (then_abs_p string_key_is_s) ≡ (at 22, Argument 0 (codes "math.abs")) ∷ [] }
    ensures element { told (then_abs_p element_is_s) ≡ [] }
    ensures two_targets { told (then_abs_p p_is_s_beside) ≡ [] }
{}
