//! What conditions say, contexts, and what modules give, computed.

ghost use Rattle.std.specs.Prelude.{◌≡◌, true, false, [], ◌∷◌, codes};
ghost use Rattle.luau_tree.specs.declared.names.BinOp.TheVariants.{Equal, NotEqual, And, Or, Less, Add, Concat};
ghost use Rattle.luau_tree.specs.declared.names.UnOp.TheVariants.{Minus, Not, Length};
ghost use Rattle.luau_tree.specs.Tree.{NilExpr, TrueExpr, FalseExpr, Index, At, Unary, Binary, Interp, no_exprs};
ghost use Rattle.luau_run.specs.runs.Builders.{e, num, str, name, call_of};
ghost use Rattle.type_arena.specs.Term.{builtin, literal, never, no_fields, more_fields};
ghost use Rattle.type_normal.specs.Operations.{union, not_free};
ghost use Rattle.type_normal.specs.Kinds.{unknown, nil_type, true_type, false_type, boolean_type, number_type, string_type, other_type, table_type, text_type, named_type, row_type, field_is, falsy, truthy};
ghost use Rattle.report_rules.specs.Guard.{guard};
ghost use Rattle.report_rules.specs.TypeMap.{no_map};
ghost use Rattle.report_rules.specs.Forward.{typ};
ghost use Rattle.report_rules.specs.Context.{none, join, meet_of, branch, stripped, stripped_at, without};
ghost use Rattle.report_rules.specs.After.{summary};
ghost use Rattle.report_rules.specs.rows.Calls.{global_call};
ghost use Rattle.report_rules.specs.rows.Types.{typed, type_of_form, anything, text, one, with_p, chosen, literal_zero, names, loose_names, in_parentheses, negated, both_of, one_of, compared_in_parentheses, kind_of, kind_compared, compared, compared_after, x_in, giving_p, giving_frozen, giving_table, giving_sometimes};

/// What a condition says of a local where it is true and where it is false.
pub fn guards()
    ensures bare_name { guard names (name 0) true 0 ≡ truthy }
    ensures bare_name_false { guard names (name 0) false 0 ≡ falsy }
    ensures another { guard names (name 0) true 1 ≡ unknown }
    ensures is_nil { guard names (compared Equal NilExpr) true 0 ≡ nil_type }
    ensures is_not_nil { guard names (compared_after NotEqual NilExpr) true 0 ≡ not_free nil_type }
    ensures numeral { guard names (compared Equal num) true 0 ≡ number_type }
    ensures numeral_false { guard names (compared Equal num) false 0 ≡ unknown }
    ensures kind { guard names (kind_compared Equal (codes "number")) true 0 ≡ number_type }
    ensures table_kind { guard names (kind_compared Equal (codes "table")) true 0 ≡ union table_type other_type }
    ensures table_kind_false { guard names (kind_compared Equal (codes "table")) false 0 ≡ not_free table_type }
    ensures further_kind { guard names (kind_compared Equal (codes "thread")) true 0 ≡ other_type }
{}

/// A condition in parentheses and its parts are conditions too; in a test bare names alone count, and literals as they are written.
pub fn guards_of_forms()
    ensures in_parentheses { guard names in_parentheses true 0 ≡ truthy }
    ensures negated { guard names negated true 0 ≡ falsy }
    ensures both { guard names (both_of (name 0) (compared Equal TrueExpr)) true 0 ≡ true_type }
    ensures both_false { guard names (both_of (name 0) (compared Equal NilExpr)) false 0 ≡ unknown }
    ensures either { guard names (one_of (compared Equal TrueExpr) (compared Equal FalseExpr)) true 0 ≡ boolean_type }
    ensures compared_in_parentheses { guard names compared_in_parentheses true 0 ≡ unknown }
    ensures kind_of_parentheses { guard names (kind_of (in_parentheses ∷ [])) true 0 ≡ unknown }
    ensures kind_of_two { guard names (kind_of (name 2 ∷ name 2 ∷ [])) true 0 ≡ unknown }
    ensures interpolation { guard names (compared Equal (Interp (codes "s" ∷ []) no_exprs)) true 0 ≡ unknown }
    ensures loose { guard loose_names (name 0) true 0 ≡ unknown }
{}

/// Contexts of one local.
pub fn contexts()
    ensures guarded { branch names (kind_compared Equal (codes "number")) (x_in (not_free string_type)) (x_in (not_free number_type)) 0 ≡ unknown }
    ensures joined { join none none 0 ≡ never }
    ensures met { meet_of (x_in nil_type) none 0 ≡ never }
    ensures stripped { stripped (x_in (field_is (codes "p") string_type)) 0 ≡ never }
    ensures at_another { stripped_at (codes "q") (x_in (field_is (codes "p") string_type)) 0 ≡ field_is (codes "p") string_type }
    ensures at_the_name { stripped_at (codes "p") (x_in (field_is (codes "p") string_type)) 0 ≡ never }
    ensures without { without (0 ∷ []) (x_in nil_type) 0 ≡ never }
{}

/// What modules give who requires them.
pub fn summaries()
    ensures field { summary (giving_p []) ≡ text_type (codes "s") }
    ensures field_after_call { summary (giving_p (global_call ∷ [])) ≡ unknown }
    ensures frozen { summary giving_frozen ≡ row_type true (more_fields (codes "p") (text_type (codes "s")) no_fields) }
    ensures plain { summary giving_table ≡ table_type }
    ensures sometimes { summary giving_sometimes ≡ union number_type nil_type }
{}

/// The types of expressions, form by form.
pub fn forms()
    ensures numeral { type_of_form num ≡ number_type }
    ensures string { type_of_form str ≡ text_type (codes "s") }
    ensures literal { type_of_form literal_zero ≡ named_type (literal 1 0) }
    ensures builtin { typ typed no_map (name 6) ≡ named_type (builtin (codes "table.freeze")) }
    ensures library { typ typed no_map (name 5) ≡ table_type }
    ensures global { typ typed no_map anything ≡ unknown }
    ensures minus { type_of_form (Unary Minus one) ≡ number_type }
    ensures minus_of_any { type_of_form (Unary Minus anything) ≡ unknown }
    ensures length { type_of_form (Unary Length text) ≡ number_type }
    ensures negation { type_of_form (Unary Not anything) ≡ boolean_type }
    ensures sum { type_of_form (Binary Add one text) ≡ number_type }
    ensures sum_with_any { type_of_form (Binary Add one anything) ≡ unknown }
    ensures concatenated { type_of_form (Binary Concat one text) ≡ string_type }
    ensures order { type_of_form (Binary Less anything one) ≡ boolean_type }
    ensures equality { type_of_form (Binary Equal anything one) ≡ boolean_type }
    ensures and { type_of_form (Binary And anything text) ≡ union falsy (text_type (codes "s")) }
    ensures or { type_of_form (Binary Or (e 30 NilExpr) text) ≡ text_type (codes "s") }
    ensures refined { type_of_form (Binary And (compared Equal NilExpr) (name 0)) ≡ union false_type nil_type }
    ensures chosen { type_of_form (chosen (name 0) text) ≡ union nil_type (text_type (codes "s")) }
    ensures interpolation { type_of_form (Interp (codes "s" ∷ []) no_exprs) ≡ string_type }
    ensures field { type_of_form (Index with_p (codes "p")) ≡ text_type (codes "s") }
    ensures unlisted { type_of_form (Index with_p (codes "q")) ≡ unknown }
    ensures field_of_string { type_of_form (Index text (codes "p")) ≡ unknown }
    ensures element { type_of_form (At with_p one) ≡ unknown }
    ensures call { type_of_form (call_of anything []) ≡ unknown }
    ensures frozen { type_of_form (call_of (name 6) (with_p ∷ [])) ≡ row_type true (more_fields (codes "p") (text_type (codes "s")) no_fields) }
{}
