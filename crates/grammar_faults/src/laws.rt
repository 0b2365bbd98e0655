//! What follows for every list of tokens.
ghost use Rattle.std.specs.Prelude.{◌≡◌, ◌≤◌, ◌+◌, ℕ, List, [], ◌∷◌, ◌++◌, Err};
ghost use Rattle.luau_tree.specs.Tree.{Block};
ghost use Rattle.luau_lex.specs.Tokens.{Tok};
ghost use Rattle.luau_grammar.specs.declared.error.ParseError.{ParseError};
ghost use Rattle.luau_grammar.specs.Places.{Rules};
ghost use Rattle.luau_grammar.specs.Modules.{IsBare, before};
ghost use Rattle.luau_grammar.specs.Laws.{StandUpTo};
ghost use Rattle.luau_grammar.specs.Reading.{Setting};
ghost use Rattle.luau_grammar.specs.ReadModules.{module_with};
ghost use Rattle.grammar_faults.specs.Fronts.{IsFront, BeginsNone, BeginFrom, StandsBefore};

/// A list with a tree is a front, and so is each list that begins a front.
pub fn fronts_begin_with_fronts()
    ensures whole { (rules : Rules) (ts : List Tok) (b : Block) → IsBare rules ts b → IsFront rules ts }
    ensures shorter { (rules : Rules) (ts us : List Tok) → IsFront rules (ts ++ us) → IsFront rules ts }
    ensures longer { (rules : Rules) (ts us : List Tok) → BeginsNone rules ts → BeginsNone rules (ts ++ us) }
{}

/// Where the parser refuses a token, it refuses it in each list that is the same up to the token
/// behind that one, so none of these lists has a tree.
pub fn a_refused_token_is_refused_whatever_follows()
    ensures same_fault { (set : Setting) (deep bound : ℕ) (first t : Tok) (front one other : List Tok) (e : ParseError) →
        StandsBefore bound e → BeginFrom bound (t ∷ one) → BeginFrom bound (t ∷ other) →
        module_with set deep (before (first ∷ (front ++ t ∷ one))) ≡ Err e →
        module_with set deep (before (first ∷ (front ++ t ∷ other))) ≡ Err e }
    ensures no_tree { (set : Setting) → StandUpTo set.rules set.limit → (deep bound : ℕ) → set.limit + 2 ≤ deep →
        (first t : Tok) (front one other : List Tok) (e : ParseError) →
        StandsBefore bound e → BeginFrom bound (t ∷ one) → BeginFrom bound (t ∷ other) →
        module_with set deep (before (first ∷ (front ++ t ∷ one))) ≡ Err e →
        (b : Block) → IsBare set.rules (first ∷ (front ++ t ∷ other)) b → ⊥ }
{}
