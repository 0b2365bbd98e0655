//! What follows for every text.
ghost use Rattle.std.specs.Prelude.{◌≡◌, ◌<◌, ℕ, List, length, Err};
ghost use Rattle.luau_tree.specs.Tree.{Block};
ghost use Rattle.luau_lex.specs.Places.{fault_offset};
ghost use Rattle.luau_lex.specs.declared.token.LexError.{LexError};
ghost use Rattle.luau_grammar.specs.declared.error.ParseError.{ParseError};
ghost use Rattle.luau_grammar.specs.declared.error.ParseError.TheVariants.{Lex, Unexpected, UnexpectedEnd, AmbiguousCall, Nesting};
ghost use Rattle.luau_parse.specs.Parsed.{HasTree};
ghost use Rattle.luau_parse.specs.Texts.{tree_of};
ghost use Rattle.text_faults.specs.TextFaults.{IsFaultOf};

/// What a text has in place of a tree is its fault, and nothing else is.
pub fn the_error_of_a_text_is_its_fault()
    ensures told { (text : List ℕ) (e : ParseError) → tree_of text ≡ Err e → IsFaultOf text e }
    ensures only { (text : List ℕ) (e : ParseError) → IsFaultOf text e → tree_of text ≡ Err e }
{}

/// A text has one fault at most, and none where it has a tree.
pub fn a_text_has_a_tree_or_one_fault()
    ensures one { (text : List ℕ) (e f : ParseError) → IsFaultOf text e → IsFaultOf text f → e ≡ f }
    ensures no_tree { (text : List ℕ) (b : Block) (e : ParseError) → HasTree text b → IsFaultOf text e → ⊥ }
{}

/// A fault stands at a byte of its text, but for an unexpected end, which stands behind the last.
pub fn faults_stand_within_their_texts()
    ensures tokens { (text : List ℕ) (fault : LexError) → IsFaultOf text (Lex fault) → fault_offset fault < length text }
    ensures unexpected { (text : List ℕ) (at : ℕ) → IsFaultOf text (Unexpected at) → at < length text }
    ensures ambiguous { (text : List ℕ) (at : ℕ) → IsFaultOf text (AmbiguousCall at) → at < length text }
    ensures nesting { (text : List ℕ) (at : ℕ) → IsFaultOf text (Nesting at) → at < length text }
    ensures end { (text : List ℕ) (at : ℕ) → IsFaultOf text (UnexpectedEnd at) → at ≡ length text }
{}
