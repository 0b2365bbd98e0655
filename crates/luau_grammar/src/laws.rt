//! What follows from the grammar, for every list of tokens.
ghost use Rattle.std.specs.Prelude.{ℕ, false, List, [], ◌∷◌, codes};
ghost use Rattle.luau_tree.specs.declared.names.UnOp.TheVariants as un;
ghost use Rattle.luau_tree.specs.declared.names.BinOp.TheVariants as bin;
ghost use Rattle.luau_tree.specs.Tree.{Block};
ghost use Rattle.luau_tree.specs.Tree as tree;
ghost use Rattle.luau_lex.specs.Tokens.{Tok};
ghost use Rattle.luau_grammar.specs.Places.{Rules};
ghost use Rattle.luau_grammar.specs.Modules.{IsBare, strict, up_to};
ghost use Rattle.luau_grammar.specs.Laws.{IsRead, StandUpTo, HasOneTreeAtMost};
ghost use Rattle.luau_grammar.specs.Samples.{name, word, sign, spaced, name_at, type_at, binary, unary, statement, HasTree, Returns, HasNoTree, two_calls, on_two_lines};

/// What the program's parser reads is the tree of the tokens, and it reads each tree.
pub fn the_parser_reads_the_grammar()
    ensures only { (text : List ℕ) (ts : List Tok) (b : Block) →
        IsRead text ts b → IsBare (strict text) ts b }
    ensures all { (text : List ℕ) (ts : List Tok) (b : Block) →
        IsBare (strict text) ts b → IsRead text ts b }
{}

/// A list of tokens has at most one tree: by the rules of the program, by those that bound levels
/// alone, and by any others that bound them.
pub fn tokens_have_one_tree_at_most()
    ensures strict { (text : List ℕ) (ts : List Tok) → HasOneTreeAtMost (strict text) ts }
    ensures up_to_a_level { (level : ℕ) (ts : List Tok) → HasOneTreeAtMost (up_to level) ts }
    ensures bounded { (rules : Rules) (limit : ℕ) → StandUpTo rules limit →
        (ts : List Tok) → HasOneTreeAtMost rules ts }
{}

/// Operators take the operands that the table gives them, each in a small expression.
pub fn operators_bind_by_the_table()
    ensures power_under_minus { Returns
        (sign (codes "-") ∷ name (codes "a") ∷ sign (codes "^") ∷ name (codes "b") ∷ [])
        (unary un.Minus 7 (binary bin.Pow (name_at 9 (codes "a")) (name_at 13 (codes "b")))) }
    ensures minus_under_power { Returns
        (name (codes "a") ∷ sign (codes "^") ∷ sign (codes "-") ∷ name (codes "b") ∷ [])
        (binary bin.Pow (name_at 7 (codes "a")) (unary un.Minus 11 (name_at 13 (codes "b")))) }
    ensures powers_from_the_right { Returns
        (name (codes "a") ∷ sign (codes "^") ∷ name (codes "b") ∷ sign (codes "^") ∷ name (codes "c") ∷ [])
        (binary bin.Pow (name_at 7 (codes "a")) (binary bin.Pow (name_at 11 (codes "b")) (name_at 15 (codes "c")))) }
    ensures joins_from_the_right { Returns
        (name (codes "a") ∷ sign (codes "..") ∷ name (codes "b") ∷ sign (codes "..") ∷ name (codes "c") ∷ [])
        (binary bin.Concat (name_at 7 (codes "a")) (binary bin.Concat (name_at 12 (codes "b")) (name_at 17 (codes "c")))) }
    ensures differences_from_the_left { Returns
        (name (codes "a") ∷ sign (codes "-") ∷ name (codes "b") ∷ sign (codes "-") ∷ name (codes "c") ∷ [])
        (binary bin.Sub (binary bin.Sub (name_at 7 (codes "a")) (name_at 11 (codes "b"))) (name_at 15 (codes "c"))) }
    ensures product_in_a_sum { Returns
        (name (codes "a") ∷ sign (codes "+") ∷ name (codes "b") ∷ sign (codes "*") ∷ name (codes "c") ∷ [])
        (binary bin.Add (name_at 7 (codes "a")) (binary bin.Mul (name_at 11 (codes "b")) (name_at 15 (codes "c")))) }
    ensures not_in_an_equation { Returns
        (word (codes "not") ∷ name (codes "a") ∷ sign (codes "==") ∷ name (codes "b") ∷ [])
        (binary bin.Equal (unary un.Not 7 (name_at 11 (codes "a"))) (name_at 16 (codes "b"))) }
    ensures comparison_in_and { Returns
        (name (codes "a") ∷ word (codes "and") ∷ name (codes "b") ∷ sign (codes "<") ∷ name (codes "c") ∷ [])
        (binary bin.And (name_at 7 (codes "a")) (binary bin.Less (name_at 13 (codes "b")) (name_at 17 (codes "c")))) }
    ensures and_in_or { Returns
        (name (codes "a") ∷ word (codes "or") ∷ name (codes "b") ∷ word (codes "and") ∷ name (codes "c") ∷ [])
        (binary bin.Or (name_at 7 (codes "a")) (binary bin.And (name_at 12 (codes "b")) (name_at 18 (codes "c")))) }
{}

/// `continue` and `type` are words where a statement may begin and the right token follows, and
/// names elsewhere.
pub fn some_names_are_words_at_times()
    ensures continue_as_a_word { HasTree (name (codes "continue") ∷ []) (statement 8 tree.Continue) }
    ensures continue_as_a_name { HasTree
        (name (codes "continue") ∷ sign (codes "(") ∷ sign (codes ")") ∷ [])
        (statement 12 (tree.CallStat (tree.the_expr 0 (record { start = 0; end = 12 })
        (tree.Call (name_at 0 (codes "continue")) tree.no_exprs)))) }
    ensures type_as_a_word { HasTree
        (name (codes "type") ∷ name (codes "t") ∷ sign (codes "=") ∷ name (codes "a") ∷ [])
        (statement 10 (tree.TypeAlias false (codes "t") tree.no_gens (type_at 9 (codes "a")))) }
    ensures type_as_a_name { HasTree
        (name (codes "type") ∷ sign (codes "=") ∷ name (codes "a") ∷ [])
        (statement 8 (tree.Assign (tree.more_exprs (name_at 0 (codes "type")) tree.no_exprs)
        (tree.more_exprs (name_at 7 (codes "a")) tree.no_exprs))) }
{}

/// Some tokens have no tree: an expression alone, two in a row, an assignment to a call, a statement
/// behind the last, and a parenthesis on a later line than what it would call.
pub fn some_tokens_have_no_tree()
    ensures expression { HasNoTree (name (codes "a") ∷ sign (codes ".") ∷ name (codes "b") ∷ []) }
    ensures two_expressions { HasNoTree (word (codes "return") ∷ name (codes "a") ∷ name (codes "b") ∷ []) }
    ensures assignment_to_a_call { HasNoTree
        (name (codes "f") ∷ sign (codes "(") ∷ sign (codes ")") ∷ sign (codes "=") ∷ name (codes "a") ∷ []) }
    ensures compound_assignment_to_a_call { HasNoTree
        (name (codes "f") ∷ sign (codes "(") ∷ sign (codes ")") ∷ sign (codes "+=") ∷ name (codes "a") ∷ []) }
    ensures statement_behind_the_last { HasNoTree
        (word (codes "break") ∷ name (codes "f") ∷ sign (codes "(") ∷ sign (codes ")") ∷ []) }
    ensures call_over_lines { (b : Block) → IsBare (strict on_two_lines) (spaced 0 two_calls) b → ⊥ }
{}
