//! What reports say, and their order, computed.

ghost use Rattle.std.specs.Prelude.{◌≡◌, [], ◌∷◌, codes};
ghost use Rattle.luau_tree.specs.declared.names.Op.TheVariants.{Call, Index, Write, For, Iterate, Unary, Binary};
ghost use Rattle.luau_tree.specs.declared.names.UnOp.TheVariants.{Minus, Length};
ghost use Rattle.luau_tree.specs.declared.names.BinOp.TheVariants.{FloorDiv, NotEqual};
ghost use Rattle.luau_tree.specs.Tree.{NilExpr};
ghost use Rattle.luau_run.specs.runs.Builders.{str};
ghost use Rattle.report_rules.specs.Checks.{Argument, Missing, Operand, ValueOf, ParameterOf};
ghost use Rattle.report_rules.specs.Messages.{message, op_word};
ghost use Rattle.report_rules.specs.Printed.{printed};
ghost use Rattle.report_rules.specs.rows.Calls.{abs_of, abs_of_none, field_added, local_added, going_over_one, counting_to_nil};
ghost use Rattle.report_rules.specs.rows.Functions.{abs_x, lower_x, with_x, repeated};
ghost use Rattle.report_rules.specs.rows.Printing.{said, said_at, clamp_in_text, report_of, minus_nil};

/// What reports of each kind say.
pub fn messages()
    ensures argument { said (abs_of str) ≡ codes "argument 1 of math.abs always fails" ∷ [] }
    ensures ninth { message (Argument 8 (codes "f")) ≡ codes "argument 9 of f always fails" }
    ensures missing { said abs_of_none ≡ codes "argument 1 of math.abs is missing" ∷ [] }
    ensures value { said repeated ≡ codes "value of x always fails" ∷ [] }
    ensures parameter { said (with_x (abs_x ∷ lower_x ∷ [])) ≡ codes "parameter x always fails" ∷ [] }
    ensures compound { said (local_added NilExpr) ≡ codes "operand of + always fails" ∷ [] }
    ensures minus { said minus_nil ≡ codes "operand of - always fails" ∷ [] }
    ensures bound { said counting_to_nil ≡ codes "operand of for always fails" ∷ [] }
    ensures iteration { said going_over_one ≡ codes "operand of iterate always fails" ∷ [] }
    ensures called { op_word Call ≡ codes "call" }
    ensures length { op_word (Unary Length) ≡ codes "#" }
    ensures floor { op_word (Binary FloorDiv) ≡ codes "//" }
{}

/// Reports are given by their offsets first, then their kinds, their messages and the numbers of their places; each once.
pub fn order()
    ensures offset { said_at clamp_in_text ≡ (0, codes "argument 2 of math.clamp is missing") ∷ (11, codes "argument 1 of math.clamp always fails") ∷ [] }
    ensures kind { printed (report_of 1 5 (Missing 0 []) ∷ report_of 1 6 (Argument 1 []) ∷ []) ≡ report_of 1 6 (Argument 1 []) ∷ report_of 1 5 (Missing 0 []) ∷ [] }
    ensures message { said (field_added NilExpr) ≡ codes "operand of index always fails" ∷ codes "operand of write always fails" ∷ [] }
    ensures message_before_place { printed (report_of 1 5 (Operand Write) ∷ report_of 1 6 (Operand Index) ∷ []) ≡ report_of 1 6 (Operand Index) ∷ report_of 1 5 (Operand Write) ∷ [] }
    ensures place { printed (report_of 1 6 (Operand Call) ∷ report_of 1 5 (Operand Call) ∷ []) ≡ report_of 1 5 (Operand Call) ∷ report_of 1 6 (Operand Call) ∷ [] }
    ensures once { printed (report_of 1 5 (ValueOf []) ∷ report_of 0 7 (ParameterOf []) ∷ report_of 1 5 (ValueOf []) ∷ []) ≡ report_of 0 7 (ParameterOf []) ∷ report_of 1 5 (ValueOf []) ∷ [] }
{}
