//! What follows for every text and every list of tokens in order.
ghost use Rattle.std.specs.Prelude.{◌≡◌, ℕ, List, [], ◌∷◌, ◌++◌, Option, length, Err};
ghost use Rattle.luau_lex.specs.declared.token.LexError.{LexError};
ghost use Rattle.luau_lex.specs.Lexed.{Lexed};
ghost use Rattle.luau_lex.specs.Tokens.{Tok};
ghost use Rattle.luau_grammar.specs.declared.error.ParseError.TheVariants.{Unexpected, UnexpectedEnd, AmbiguousCall, Nesting};
ghost use Rattle.luau_grammar.specs.declared.error.ParseError.{ParseError};
ghost use Rattle.luau_grammar.specs.Modules.{IsBare, before, strict};
ghost use Rattle.luau_tree.specs.Tree.{Block};
ghost use Rattle.luau_grammar.specs.Reading.{strictly};
ghost use Rattle.luau_grammar.specs.ReadModules.{module_with, max_depth};
ghost use Rattle.wider_rules.specs.Order.{Ordered};
ghost use Rattle.fault_places.specs.Faults.{IsFront, IsAmbiguous, IsFault, HasTree};
ghost use Rattle.first_faults.specs.Told.{AreFronts, StandsAt};

/// Before the fault that the parser of a text tells, each token makes a front with those before it,
/// and none begins arguments on a later line. At an unexpected token the tokens stop being a front; at an
/// ambiguous call one begins arguments on a later line; one that stands too deep does neither. Where
/// the end is unexpected, the fault stands at the text's length, and the tokens have no tree.
pub fn what_is_told_stands_at_its_least_place()
    ensures unexpected { (text : List ℕ) (ts : List Tok) (at : ℕ) → Ordered ts →
        module_with (strictly text) max_depth (before ts) ≡ Err (Unexpected at) →
        StandsAt text ts at (λ front t. IsFront front t → ⊥) }
    ensures ambiguous { (text : List ℕ) (ts : List Tok) (at : ℕ) → Ordered ts →
        module_with (strictly text) max_depth (before ts) ≡ Err (AmbiguousCall at) →
        StandsAt text ts at (λ front t. IsAmbiguous text front t) }
    ensures too_deep { (text : List ℕ) (ts : List Tok) (at : ℕ) → Ordered ts →
        module_with (strictly text) max_depth (before ts) ≡ Err (Nesting at) →
        StandsAt text ts at (λ front t. IsFront front t × (IsAmbiguous text front t → ⊥)) }
    ensures at_the_end { (text : List ℕ) (ts : List Tok) (at : ℕ) → Ordered ts →
        module_with (strictly text) max_depth (before ts) ≡ Err (UnexpectedEnd at) →
        (at ≡ length text) × AreFronts text [] ts × (HasTree ts → ⊥) }
{}

/// What the parser of a text tells is its fault: an unexpected token, an unexpected end, an ambiguous
/// call, and a token that stands too deep.
pub fn what_is_told_is_the_fault()
    ensures unexpected { (text : List ℕ) (ts : List Tok) (at : ℕ) → Ordered ts →
        module_with (strictly text) max_depth (before ts) ≡ Err (Unexpected at) →
        IsFault text ts (Unexpected at) }
    ensures unexpected_end { (text : List ℕ) (ts : List Tok) (at : ℕ) → Ordered ts →
        module_with (strictly text) max_depth (before ts) ≡ Err (UnexpectedEnd at) →
        IsFault text ts (UnexpectedEnd at) }
    ensures ambiguous { (text : List ℕ) (ts : List Tok) (at : ℕ) → Ordered ts →
        module_with (strictly text) max_depth (before ts) ≡ Err (AmbiguousCall at) →
        IsFault text ts (AmbiguousCall at) }
    ensures too_deep { (text : List ℕ) (ts : List Tok) (at : ℕ) → Ordered ts →
        module_with (strictly text) max_depth (before ts) ≡ Err (Nesting at) →
        IsFault text ts (Nesting at) }
{}

/// Tokens of a text with a tree have no fault.
pub fn a_text_with_a_tree_has_no_fault()
    ensures { (text : List ℕ) (ts : List Tok) (b : Block) (e : ParseError) → Ordered ts →
        IsBare (strict text) ts b → IsFault text ts e → ⊥ }
{}

/// The tokens of a text begin one behind the other.
pub fn tokens_of_a_text_begin_in_order()
    ensures { (text : List ℕ) (ts : List Tok) (fault : Option LexError) → Lexed text ts fault → Ordered ts }
{}
