//! What follows from the laws of tokens, and from the forms, for every text.
ghost use Rattle.std.specs.Prelude.{◌≡◌, ◌≢◌, ℕ, ◌+◌, ◌*◌, ◌<◌, ◌≤◌, ◌&&◌, true, false, List, [], ◌∷◌, ◌++◌, All, Ok, Err, Option, None, Some, take, drop, length, slice_index, map, flat_map, codes, encode_utf8};
ghost use Rattle.std.specs.List.{prefix_len};
ghost use Rattle.luau_lex.specs.declared.token.Kind.{Kind};
ghost use Rattle.luau_lex.specs.declared.token.Kind.TheVariants.{Quoted, Long, Whole};
ghost use Rattle.luau_lex.specs.declared.token.LexError.{LexError};
ghost use Rattle.luau_lex.specs.Bytes.{line_feed, carriage_return};
ghost use Rattle.luau_lex.specs.Token.{Tok};
ghost use Rattle.luau_lex.specs.Numerals.{IsNumeral};
ghost use Rattle.luau_lex.specs.Numbers.{digit_number, number_in, utf8_scheme};
ghost use Rattle.luau_lex.specs.Spellings.{Spelling, written, AreSpellings, stand_for};
ghost use Rattle.luau_lex.specs.Forms.{HasForm, IsLineComment, IsLongComment, in_brackets};
ghost use Rattle.luau_lex.specs.Lexed.{Lexed};
ghost use Rattle.luau_lex.specs.LineEnds.{without_first_line_end, with_line_feeds};
ghost use Rattle.luau_lex.specs.Values.{is_string, StandsFor};
ghost use Rattle.luau_lex.specs.Computed.Tokens.{tokens_of};
ghost use Rattle.luau_lex.specs.Computed.Values.{string_value};

/// Each text has tokens up to its end or up to its first fault, and has them in one way.
pub fn each_text_is_lexed_in_one_way()
    ensures some { (text : List ℕ) →
        (ts : List Tok) × (fault : Option LexError) × Lexed text ts fault }
    ensures one { (text : List ℕ) (ts us : List Tok) (d e : Option LexError) →
        Lexed text ts d → Lexed text us e → (ts ≡ us) × (d ≡ e) }
{}

/// The laws determine the tokens: what meets them is what `tokens_of` computes, and the other way.
pub fn laws_determine_tokens()
    ensures only { (text : List ℕ) (ts : List Tok) → Lexed text ts None → tokens_of text ≡ Ok ts }
    ensures all { (text : List ℕ) (ts : List Tok) → tokens_of text ≡ Ok ts → Lexed text ts None }
{}

/// The laws determine the fault: what meets them is what `tokens_of` computes, and the other way.
pub fn laws_determine_faults()
    ensures only { (text : List ℕ) (ts : List Tok) (e : LexError) →
        Lexed text ts (Some e) → tokens_of text ≡ Err e }
    ensures all { (text : List ℕ) (e : LexError) →
        tokens_of text ≡ Err e → (ts : List Tok) × Lexed text ts (Some e) }
{}

/// Some words that are numerals, and some that look like one and are none.
pub fn numerals_are_of_their_forms()
    ensures decimal { All IsNumeral
        (codes "1_.e5" ∷ codes ".5_E-3" ∷ codes "1._" ∷ codes "007" ∷ []) }
    ensures hexadecimal { All IsNumeral (codes "0X_f" ∷ codes "0x1e5" ∷ []) }
    ensures binary { All IsNumeral (codes "0b_01" ∷ []) }
    ensures none { All (λ word. IsNumeral word → ⊥)
        (codes "1e_5" ∷ codes "1..2" ∷ codes "0x_" ∷ codes "0b2" ∷ codes "1a" ∷ codes "._5" ∷ []) }
{}

/// What goes on behind its end is of no form, and a long bracket opens no comment to the end of its
/// line.
pub fn forms_end_where_they_close()
    ensures two_strings { HasForm Quoted (codes "\"a\" \"b\"") → ⊥ }
    ensures two_long_strings { HasForm Long (codes "[[a]] x [[b]]") → ⊥ }
    ensures two_parts { HasForm Whole (codes "`a{b}c`") → ⊥ }
    ensures two_comments { IsLongComment (codes "--[[a]] x --[[b]]") → ⊥ }
    ensures comment_that_opens { (behind : List ℕ) → IsLineComment (codes "--[[a]] x") behind → ⊥ }
{}

/// A string, or a part of an interpolated one, stands for one value: for what its spellings stand
/// for, one behind the other, or for the lines of its body. That is what `string_value` computes.
pub fn strings_stand_for_one_value()
    ensures some { (kind : Kind) (bytes : List ℕ) → StandsFor kind bytes (string_value kind bytes) }
    ensures one { (kind : Kind) (bytes v w : List ℕ) → is_string kind ≡ true → HasForm kind bytes →
        StandsFor kind bytes v → StandsFor kind bytes w → v ≡ w }
{}

/// The lines of a string in long brackets: a line end at the front is left out, and each further
/// pair of a carriage return and a line feed is a line feed.
pub fn long_strings_stand_for_their_lines()
    ensures line_feed_first { (body : List ℕ) → without_first_line_end (line_feed ∷ body) ≡ body }
    ensures pair_first { (body : List ℕ) →
        without_first_line_end (carriage_return ∷ line_feed ∷ body) ≡ body }
    ensures other_first { (body : List ℕ) →
        ((behind : List ℕ) → body ≢ line_feed ∷ behind) →
        ((behind : List ℕ) → body ≢ carriage_return ∷ line_feed ∷ behind) →
        without_first_line_end body ≡ body }
    ensures pairs { (before behind : List ℕ) →
        with_line_feeds (before ++ carriage_return ∷ line_feed ∷ behind)
        ≡ with_line_feeds before ++ line_feed ∷ with_line_feeds behind }
    ensures no_pair { (text : List ℕ) →
        ((before behind : List ℕ) → text ≢ before ++ carriage_return ∷ line_feed ∷ behind) →
        with_line_feeds text ≡ text }
{}

/// The digits of a number: each has its value, and each further one counts by the base.
pub fn digits_write_numbers()
    ensures decimal { map digit_number (codes "0123456789")
        ≡ 0 ∷ 1 ∷ 2 ∷ 3 ∷ 4 ∷ 5 ∷ 6 ∷ 7 ∷ 8 ∷ 9 ∷ [] }
    ensures small { map digit_number (codes "abcdef") ≡ 10 ∷ 11 ∷ 12 ∷ 13 ∷ 14 ∷ 15 ∷ [] }
    ensures large { map digit_number (codes "ABCDEF") ≡ 10 ∷ 11 ∷ 12 ∷ 13 ∷ 14 ∷ 15 ∷ [] }
    ensures none { (base : ℕ) → number_in base [] ≡ 0 }
    ensures further { (base d : ℕ) (digits : List ℕ) →
        number_in base (digits ++ d ∷ []) ≡ base * number_in base digits + digit_number d }
{}

/// The scheme of UTF-8 is that of the standard library's characters, and gives surrogates three
/// bytes.
pub fn code_points_are_in_utf8()
    ensures scheme { (n : ℕ) → utf8_scheme n ≡ encode_utf8 n }
    ensures surrogates { (n : ℕ) → 0xD800 ≤ n → n ≤ 0xDFFF → length (utf8_scheme n) ≡ 3 }
{}
