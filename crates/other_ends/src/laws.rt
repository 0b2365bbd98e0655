//! What follows for every list of tokens.
ghost use Rattle.std.specs.Prelude.{◌≡◌, ◌≤◌, ◌+◌, ℕ, List, [], ◌∷◌, ◌++◌, Err};
ghost use Rattle.luau_tree.specs.Tree.{Block};
ghost use Rattle.luau_lex.specs.Tokens.{Tok};
ghost use Rattle.luau_grammar.specs.declared.error.ParseError.TheVariants.{Unexpected, UnexpectedEnd, AmbiguousCall, Nesting};
ghost use Rattle.luau_grammar.specs.Modules.{IsBare, before};
ghost use Rattle.luau_grammar.specs.Reading.{Setting};
ghost use Rattle.luau_grammar.specs.ReadModules.{module_with};
ghost use Rattle.grammar_faults.specs.Fronts.{BeginFrom};
ghost use Rattle.other_ends.specs.Settings.{IsByLevels};

/// Where the stated parser refuses a token as unexpected, or as one that begins an ambiguous call, no
/// list that is the same up to and with this token has a tree, whatever stands behind it.
pub fn what_is_refused_is_so_whatever_follows()
    ensures unexpected { (set : Setting) → IsByLevels set → (deep : ℕ) → set.limit + 2 ≤ deep →
        (t : Tok) (front one other : List Tok) → BeginFrom (t.span.start + 1) one → BeginFrom (t.span.start + 1) other →
        module_with set deep (before (front ++ t ∷ one)) ≡ Err (Unexpected t.span.start) →
        (b : Block) → IsBare set.rules (front ++ t ∷ other) b → ⊥ }
    ensures ambiguous { (set : Setting) → IsByLevels set → (deep : ℕ) → set.limit + 2 ≤ deep →
        (t : Tok) (front one other : List Tok) → BeginFrom (t.span.start + 1) one → BeginFrom (t.span.start + 1) other →
        module_with set deep (before (front ++ t ∷ one)) ≡ Err (AmbiguousCall t.span.start) →
        (b : Block) → IsBare set.rules (front ++ t ∷ other) b → ⊥ }
{}

/// A token behind which the parser meets an unexpected token, or an unexpected end, stands too deep in
/// no list that is the same up to and with it.
pub fn what_is_passed_is_never_too_deep()
    ensures before_a_token { (set : Setting) → IsByLevels set → (deep : ℕ) → set.limit + 2 ≤ deep →
        (t u : Tok) (front behind other : List Tok) → BeginFrom (t.span.start + 1) (u ∷ behind) →
        BeginFrom (u.span.start + 1) behind → BeginFrom (t.span.start + 1) other →
        module_with set deep (before (front ++ t ∷ u ∷ behind)) ≡ Err (Unexpected u.span.start) →
        module_with set deep (before (front ++ t ∷ other)) ≡ Err (Nesting t.span.start) → ⊥ }
    ensures before_the_end { (set : Setting) → IsByLevels set → (deep at : ℕ) → set.limit + 2 ≤ deep →
        (t : Tok) (front other : List Tok) → BeginFrom (t.span.start + 1) other →
        module_with set deep (before (front ++ t ∷ [])) ≡ Err (UnexpectedEnd at) →
        module_with set deep (before (front ++ t ∷ other)) ≡ Err (Nesting t.span.start) → ⊥ }
{}
