//! What follows for every list of tokens.
ghost use Rattle.std.specs.Prelude.{◌≡◌, ◌+◌, ℕ, List, [], ◌∷◌, ◌++◌, length, Err};
ghost use Rattle.luau_lex.specs.Tokens.{Tok};
ghost use Rattle.luau_grammar.specs.declared.error.ParseError.{ParseError};
ghost use Rattle.luau_grammar.specs.declared.error.ParseError.TheVariants.{Unexpected, UnexpectedEnd};
ghost use Rattle.luau_grammar.specs.Modules.{before};
ghost use Rattle.luau_grammar.specs.Reading.{strictly};
ghost use Rattle.luau_grammar.specs.ReadModules.{module_with, max_depth};
ghost use Rattle.grammar_faults.specs.Fronts.{BeginFrom};
ghost use Rattle.fault_places.specs.Faults.{IsFault, HasTree, IsFront, BeginBefore};

/// A text has at most one fault, and where that is its end, it stands at its length and the tokens
/// have no tree.
pub fn texts_have_one_fault_at_most()
    ensures one { (text : List ℕ) (ts : List Tok) (e f : ParseError) →
        IsFault text ts e → IsFault text ts f → e ≡ f }
    ensures at_the_end { (text : List ℕ) (ts : List Tok) (at : ℕ) →
        IsFault text ts (UnexpectedEnd at) → at ≡ length text }
    ensures no_tree { (text : List ℕ) (ts : List Tok) (at : ℕ) →
        IsFault text ts (UnexpectedEnd at) → HasTree ts → ⊥ }
{}

/// What stands before a token that the parser of a text refuses as unexpected begins a list with a
/// tree, and so do the tokens of a text whose end is unexpected. So does each token in a front.
pub fn what_stands_before_an_unexpected_token_begins_a_module()
    ensures before_a_token { (text : List ℕ) (front : List Tok) (last t : Tok) (behind : List Tok) →
        BeginBefore t.span.start (front ++ last ∷ []) → BeginFrom (t.span.start + 1) behind →
        module_with (strictly text) max_depth (before (front ++ last ∷ t ∷ behind)) ≡ Err (Unexpected t.span.start) →
        IsFront front last }
    ensures before_the_end { (text : List ℕ) (front : List Tok) (last : Tok) →
        module_with (strictly text) max_depth (before (front ++ last ∷ [])) ≡ Err (UnexpectedEnd (length text)) →
        IsFront front last }
    ensures shorter { (front mid : List Tok) (t last : Tok) → BeginFrom (t.span.start + 1) (mid ++ last ∷ []) →
        IsFront (front ++ t ∷ mid) last → IsFront front t }
{}
