//! Runs of acts that are computed: what a builtin and a value of another kind may do, and which
//! answers don't fit. The first table that these modules make has the address 2, behind those of
//! the libraries `math` and `table`.

ghost use Rattle.std.specs.Prelude.{◌≡◌, [], ◌∷◌, Some, true, codes};
ghost use Rattle.luau_values.specs.Value.{Nil, Truth, Num, Str, Tab, Lit, Builtin, Other};
ghost use Rattle.luau_tree.specs.declared.names.Place.TheVariants.{Expr as ExprPlace};
ghost use Rattle.luau_run.specs.Machine.{One, Says, Fail, Turn, Does, Done, Write, Freeze, Make, Calls, Catches, Reach};
ghost use Rattle.luau_run.specs.runs.Outcome.{Normal, Return, Failure, Unfinished, reached, gives, ends, one_more};
ghost use Rattle.luau_run.specs.Run.{trace};
ghost use Rattle.luau_run.specs.runs.Builders.{e, num, str};
ghost use Rattle.luau_run.specs.runs.Modules.{caught_failure};
ghost use Rattle.luau_run.specs.runs.Acts.{reading_p, writing_p, results_of_pcall, abs_of, field_of_other, element_of_other_written, call_of_other, turns_of_other, sum_with_other, order_with_other, compound_of_other};

/// What a builtin without marks may do.
pub fn acts_that_are_done()
    ensures writes { gives reading_p 50 (Does (Write 2 (codes "p") (Str (codes "v"))) ∷ Done [] ∷ []) ≡ Some (Str (codes "v") ∷ []) }
    ensures freezes { ends writing_p 50 (Does (Freeze 2) ∷ Done [] ∷ []) ≡ Failure }
    ensures leaves { ends writing_p 50 (Done [] ∷ []) ≡ Normal }
    ensures makes { gives results_of_pcall 50 (Does Make ∷ Done (Tab 2 ∷ []) ∷ []) ≡ Some (Tab 2 ∷ []) }
    ensures fails { ends results_of_pcall 50 (Does Make ∷ Fail ∷ []) ≡ Failure }
    ensures call_fails { trace caught_failure 0 50 (Does (Calls (Lit 1 0 []) []) ∷ Done [] ∷ [])
        ≡ reached 0 ∷ reached 1 ∷ reached 2
        ∷ Reach 1 0 (ExprPlace (record { 0 = 3 })) ∷ Reach 1 0 (ExprPlace (record { 0 = 4 })) ∷ Reach 1 0 (ExprPlace (record { 0 = 6 })) ∷ [] }
    ensures call_takes_a_step { one_more caught_failure 10 (Does (Catches (Lit 1 0 []) []) ∷ Done [] ∷ []) ≡ (Unfinished, Normal) }
{}

/// Acts and results that don't fit: a write to a frozen table, and what isn't there.
pub fn acts_that_do_not_fit()
    ensures frozen { ends reading_p 50 (Does (Freeze 2) ∷ Does (Write 2 (codes "p") Nil) ∷ Done [] ∷ []) ≡ Unfinished }
    ensures library { ends reading_p 50 (Does (Write 0 (codes "p") Nil) ∷ Done [] ∷ []) ≡ Unfinished }
    ensures no_such_table { ends reading_p 50 (Does (Write 3 (codes "p") Nil) ∷ Done [] ∷ []) ≡ Unfinished }
    ensures not_made { ends results_of_pcall 50 (Done (Tab 2 ∷ []) ∷ []) ≡ Unfinished }
    ensures no_such_closure { ends results_of_pcall 50 (Done (Lit 1 0 [] ∷ []) ∷ []) ≡ Unfinished }
    ensures no_such_builtin { ends results_of_pcall 50 (Done (Builtin (codes "math.max") ∷ []) ∷ []) ≡ Unfinished }
    ensures no_function { ends results_of_pcall 50 (Does (Calls (Tab 0) []) ∷ Done [] ∷ []) ≡ Unfinished }
{}

/// What a quiet builtin may do: it makes tables and fills those. What its declaration says of
/// arguments and results.
pub fn quiet_and_declared()
    ensures makes { ends (abs_of (e 3 num ∷ [])) 50 (Does Make ∷ Does (Write 3 (codes "p") (Tab 2)) ∷ Done (Num (codes "1") ∷ []) ∷ []) ≡ Normal }
    ensures writes_no_other { ends (abs_of (e 3 num ∷ [])) 50 (Does (Write 2 (codes "p") Nil) ∷ Done (Num (codes "1") ∷ []) ∷ []) ≡ Unfinished }
    ensures calls_nothing { ends (abs_of (e 3 num ∷ [])) 50 (Does (Calls (Builtin (codes "math.abs")) (Num (codes "1") ∷ [])) ∷ Done (Num (codes "1") ∷ []) ∷ Done (Num (codes "1") ∷ []) ∷ []) ≡ Unfinished }
    ensures freezes_nothing { ends (abs_of (e 3 num ∷ [])) 50 (Does Make ∷ Does (Freeze 3) ∷ Done (Num (codes "1") ∷ []) ∷ []) ≡ Unfinished }
    ensures further_argument { ends (abs_of (e 3 num ∷ e 4 str ∷ [])) 50 (Done (Num (codes "1") ∷ []) ∷ []) ≡ Normal }
    ensures no_argument { ends (abs_of []) 50 [] ≡ Failure }
    ensures further_result { ends (abs_of (e 3 num ∷ [])) 50 (Done (Num (codes "1") ∷ Nil ∷ []) ∷ []) ≡ Failure }
{}

/// What comes of a value of another kind: a field, a write, a call, an iteration, operations.
pub fn values_of_another_kind()
    ensures field { gives field_of_other 50 (Done (Other 5 ∷ []) ∷ One (Str (codes "v")) ∷ []) ≡ Some (Str (codes "v") ∷ []) }
    ensures field_fails { ends field_of_other 50 (Done (Other 5 ∷ []) ∷ Fail ∷ []) ≡ Failure }
    ensures written { ends element_of_other_written 50 (Done (Other 5 ∷ []) ∷ Says true ∷ []) ≡ Normal }
    ensures written_fails { ends element_of_other_written 50 (Done (Other 5 ∷ []) ∷ Fail ∷ []) ≡ Failure }
    ensures called { gives call_of_other 50 (Done (Other 5 ∷ []) ∷ Does Make ∷ Done (Tab 2 ∷ []) ∷ []) ≡ Some (Tab 2 ∷ []) }
    ensures turn { gives turns_of_other 50 (Done (Other 5 ∷ []) ∷ Does Make ∷ Turn (Tab 2 ∷ []) ∷ []) ≡ Some (Tab 2 ∷ []) }
    ensures turn_takes_a_step { one_more turns_of_other 8 (Done (Other 5 ∷ []) ∷ Does Make ∷ Turn (Tab 2 ∷ []) ∷ []) ≡ (Unfinished, Return) }
    ensures sum { gives sum_with_other 50 (Done (Other 5 ∷ []) ∷ One Nil ∷ []) ≡ Some (Nil ∷ []) }
    ensures order { gives order_with_other 50 (Done (Other 5 ∷ []) ∷ Says true ∷ []) ≡ Some (Truth true ∷ []) }
    ensures order_fails { ends order_with_other 50 (Done (Other 5 ∷ []) ∷ Fail ∷ []) ≡ Failure }
    ensures compound { gives compound_of_other 50 (Done (Other 1 ∷ []) ∷ One (Str (codes "v")) ∷ []) ≡ Some (Str (codes "v") ∷ []) }
{}
